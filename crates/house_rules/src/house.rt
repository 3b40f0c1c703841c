// The house: a side with the number 0, its own key, and how long its tickets are good.
ghost use Rattle.std.specs.Prelude.{◌^◌, ◌<◌};

use parts::Key;
use service_rules::Side;

// The house. Ticks stay below 2^63, so that until is a tick too.
#[derive(Clone, Copy)]
pub struct House {
    pub side: Side,
    pub life: u32,
    pub key: Key,
    ghost early: { side.now < 2 ^ 63 },
}
