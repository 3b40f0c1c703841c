// A town, and what is in it.
use box_side::ReaderBox;
use commands::line::Side;
use held::Supply;
use house_side::House;
use judge_rules::{Judge, Total};
use parts::Key;
use service_side::Service;
use std::alloc::Global;
use std::collections::BTreeMap;
use torn::{Ledger, Torn};

// A reader of the town: its own key, and its box.
#[derive(Drop)]
pub(crate) struct Post {
    pub(crate) key: Key,
    pub(crate) reader_box: ReaderBox<Supply>,
}

// A service of the town.
pub(crate) type Shop = Service<Torn, Supply>;

// A word on the net: who sent it, none for outsiders; its bytes; whether it is the lone piece of a word, a lock.
// The flag stays beside the bytes, since words and pieces alike are shown and brought by them.
#[derive(Drop)]
pub(crate) struct Word {
    pub(crate) from: Option<Side>,
    pub(crate) bytes: Vec<u8>,
    pub(crate) piece: bool,
}

// What is fixed from the first line on.
// Not the settings of a line: the life is in range, and there is no tick.
#[derive(Clone, Copy)]
pub(crate) struct Rules {
    pub(crate) life: u32,
    pub(crate) lag: u64,
    pub(crate) seed: Key,
}

// A town: its memory, its rules and the tick; the house, the services and the readers by their numbers; all words, the
// oldest first; how many words are held back from now on; the outsiders' drawn bytes; the judge and what he said.
#[derive(Drop)]
pub struct Town {
    pub(crate) heap: Global,
    pub(crate) rules: Rules,
    pub(crate) tick: u64,
    pub(crate) house: House<Ledger, Torn, Supply>,
    pub(crate) shops: BTreeMap<u16, Shop>,
    pub(crate) posts: BTreeMap<u16, Post>,
    pub(crate) words: Vec<Word>,
    pub(crate) held: u64,
    pub(crate) outsiders: Supply,
    pub(crate) judge: Judge,
    pub(crate) total: Total,
}
