// Starting the house, after a crash as well as for the first time, and going on in time.
ghost use Rattle.house_rules.specs.Start.{settled_of, started_house};
ghost use Rattle.parts.specs.Tick.{clock};
ghost use Rattle.service_rules.specs.Side.{on_tick};
ghost use Rattle.std.specs.Prelude.{◌≡◌};

use super::house::House;
use parts::{Fault, Key, Ticked};
use service_rules::{Memory, Side};

impl House {
    // Starts the house at a tick with what is read of its memory.
    // Four settings by themselves: they are told once, at the start.
    pub fn start<M: Memory>(
        life: u32,
        lag: u64,
        tick: u64,
        key: Key,
        memory: &M,
    ) -> Result<House, Fault>
        ensures { settled_of result ≡ started_house life lag tick key (M.kept memory.now) (M.junk memory.now) }
    {
        if life == 0 || life > 86400 {
            return Err(Fault::OutOfRange);
        }
        let side = Side::begin(0, lag, tick, memory)?;
        Ok(House { side, life, key })
    }

    // Tells it the tick.
    pub fn tick(&mut self, to: u64) -> Ticked
        ensures answer { result ≡ clock self.old.side.now to }
        ensures side { self.new.side ≡ on_tick self.old.side to }
        ensures life { self.new.life ≡ self.old.life }
        ensures key { self.new.key ≡ self.old.key }
    {
        self.side.tick(to)
    }
}
