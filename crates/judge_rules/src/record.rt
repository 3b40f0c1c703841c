// What the judge holds, what he judges, and what he says.
use parts::{Key, What};

// What a service did, or was to do: for which reader, what, and when.
#[derive(Clone, Copy)]
pub struct Done {
    pub service: u16,
    pub reader: u16,
    pub what: What,
    pub at: u64,
}

// A line that no box refused: what was wanted, and when; and whether it was spent by a deed.
// A flag: a spent line stays, since lines are told by their place.
#[derive(Clone, Copy)]
pub struct Line {
    pub wanted: Done,
    pub spent: bool,
}

// A number with its own key; 0 is the house.
// Not the account of a script's line, which is a reader or a service and never the house.
#[derive(Clone, Copy)]
pub struct Principal {
    pub number: u16,
    pub key: Key,
}

// A line accounts for the deed: the how manieth, and its tick; or none does, and these of the three own keys had been stolen;
// or none does, and none had.
// Three flags: any of the three keys may have been stolen, whatever the others.
#[derive(Clone, Copy, PartialEq, Eq)]
pub enum Verdict {
    Asked {
        line: u64,
        at: u64,
    },
    Stolen {
        reader: bool,
        service: bool,
        house: bool,
    },
    NotAsked,
}

// The lag, whoever has an own key, the lines so far with the oldest first, and the keys stolen so far.
// The principals are a list in the order of joining: what is promised names it, with numbers that came twice.
#[derive(Drop)]
pub struct Judge {
    pub(super) lag: u64,
    pub(super) principals: Vec<Principal>,
    pub(super) lines: Vec<Line>,
    pub(super) stolen: Vec<Key>,
}
