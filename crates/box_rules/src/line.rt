// What a box holds: its reader's lines, what is under way for them, and tickets.
use parts::{Key, Number, What};

// A line of the reader: its place among the lines without a fault, which service, what, and the tick of the line.
#[derive(Clone, Copy)]
pub struct Line {
    pub place: u64,
    pub service: u16,
    pub what: What,
    pub tick: u64,
}

// A login or an asking under way: its number, the key it is under, whom it asks (0, the house, or a service), and for
// which line. Whom it asks is a number, since 0 is the number of the house on the line.
#[derive(Clone, Copy)]
pub struct Pending {
    pub number: Number,
    pub key: Key,
    pub asks: u16,
    pub line: Line,
}

// What the box knows of a ticket: its id, for which service it is, the key, and until when it is good.
#[derive(Clone, Copy)]
pub struct Pass {
    pub id: u64,
    pub service: u16,
    pub key: Key,
    pub until: u64,
}

// A ticket held: what is known of it, and the ticket itself, which isn't the box's to read.
#[derive(Drop)]
pub struct Held<T> {
    pub pass: Pass,
    pub ticket: T,
}

// The key under which a letter opened: the own key, or one of a ticket. It is no Option of a key, since the own key is
// a key too.
#[derive(Clone, Copy)]
pub enum Under {
    Own,
    Session(Key),
}

// What is looked for among what is under way: a login by its number, an asking for the house by key, number and the
// service asked for, or an asking to a service by key and number. It is no closure, since what is promised of a letter
// names it.
#[derive(Clone, Copy)]
pub enum Sought {
    Login(Number),
    AtHouse(Key, Number, u16),
    AtService(Key, Number),
}
