// What is printed of an answer. Keys and seeds never are.
ghost use Rattle.std.specs.Prelude.{Some};
ghost use Rattle.script.specs.Shown.{text_of};

use crate::town::Answer;
use std::fmt;

impl fmt::Display for Answer {
    ghost output = { λ a. Some (text_of a) };

    fn fmt<W: fmt::Write>(&self, f: &mut fmt::Formatter<W>) -> fmt::Result {
        match *self {
            Answer::Silent => write!(f, ""),
            Answer::Town { tick, life, lag } => write!(f, "town {tick} {life} {lag}"),
            Answer::Reader(number) => write!(f, "reader {number}"),
            Answer::Service(number) => write!(f, "service {number}"),
            Answer::Tick(tick) => write!(f, "tick {tick}"),
            Answer::Fault => write!(f, "fault 13"),
        }
    }
}
