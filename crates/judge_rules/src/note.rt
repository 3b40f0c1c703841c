// What the judge is told: principals, lines and thefts.
ghost use Rattle.judge_rules.specs.Judge.{fresh, joined, line_of, noted, seen, stole};
ghost use Rattle.parts.specs.What.{words_in};
ghost use Rattle.std.specs.Prelude.{◌≡◌, ◌+◌, length, is_ok, IfOk, if◌then◌else◌};

use super::record::{Done, Judge, Line, Principal};
use super::stolen::key_of;
use parts::Key;
use std::alloc::{AllocError, Global};

impl Judge {
    // Nothing has happened yet, and the house alone has a key.
    pub fn new(heap: Global, lag: u64, house: Key) -> Result<Judge, AllocError>
        ensures { IfOk result (λ j. seen j ≡ fresh lag house) }
    {
        let house = Principal {
            number: 0,
            key: house,
        };
        Ok(Judge {
            lag,
            principals: vec![in heap; house]?,
            lines: Vec::new(heap),
            stolen: Vec::new(heap),
        })
    }

    // A number has this own key from now on, unless it had one.
    // A number and its key by themselves: they are told once, and the record is made here.
    pub fn add(&mut self, number: u16, key: Key) -> Result<(), AllocError>
        ensures { seen self.new ≡ (if is_ok result then joined (seen self.old) (record { number = number; key = key }) else seen self.old) }
    {
        self.principals.push(Principal { number, key })?;
        Ok(())
    }

    // A box did not refuse the line that wants this; the answer is how many there are with it.
    pub fn note_line(&mut self, wanted: Done) -> Result<u64, AllocError>
        ensures after { seen self.new ≡ (if is_ok result then noted (seen self.old) (line_of wanted.reader wanted.service (words_in wanted.what) wanted.at) else seen self.old) }
        ensures count { IfOk result (λ n. n ≡ length (seen self.old).lines + 1) }
    {
        self.lines.push(Line {
            wanted,
            spent: false,
        })?;
        Ok(self.lines.len() as u64)
    }

    // The own key of a number is stolen.
    pub fn note_theft(&mut self, number: u16) -> Result<(), AllocError>
        ensures { seen self.new ≡ (if is_ok result then stole (seen self.old) number else seen self.old) }
    {
        if let Some(key) = key_of(number, &self.principals) {
            self.stolen.push(key)?;
        }
        Ok(())
    }
}
