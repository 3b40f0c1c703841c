// How a town begins.
ghost use Rattle.play.specs.Play.{Begun, Found};
ghost use Rattle.printed.specs.Printed.{shown};
ghost use Rattle.std.specs.Prelude.{IfOk};

use super::draw::{OUTSIDERS, house_key, stream};
use super::say::numbers;
use super::town::{Rules, Town};
use commands::line::{Line, Settings};
use commands::lines::read;
use house_side::House;
use judge_rules::{Judge, Total};
use printed::Text;
use std::alloc::{AllocError, Global};
use std::collections::BTreeMap;
use torn::{Ledger, Torn};

const MAX_LIFE: u64 = 86_400;

// The town of these settings; none where they are out of range.
// One None for all that is out of range: whichever setting it is, one fault tells it.
pub fn begin(heap: Global, settings: &Settings, out: &mut Text) -> Result<Option<Town>, AllocError>
    ensures { IfOk result (λ o. Begun settings.now (shown out.old) o (shown out.new)) }
{
    if settings.life > MAX_LIFE {
        return Ok(None);
    }
    let life = settings.life as u32;
    let seed = settings.seed;
    let key = house_key(&seed);
    let memory = Torn::new(heap)?;
    let Ok(house) = house_rules::House::start(life, settings.lag, settings.tick, key, &memory)
    else {
        return Ok(None);
    };
    let rules = Rules {
        life,
        lag: settings.lag,
        seed,
    };
    let town = Town {
        heap,
        rules,
        tick: settings.tick,
        house: House {
            house,
            accounts: Ledger::new(),
            memory,
            drawn: stream(heap, &seed, 0)?,
        },
        shops: BTreeMap::new(heap),
        posts: BTreeMap::new(heap),
        words: Vec::new(heap),
        held: 0,
        outsiders: stream(heap, &seed, OUTSIDERS)?,
        judge: Judge::new(heap, settings.lag, key)?,
        total: Total::new(),
    };
    numbers(out, b"town", &[settings.tick, settings.life, settings.lag])?;
    Ok(Some(town))
}

// The town that a script's first line begins; none where it is no line of settings, or they are out of range.
pub fn found(heap: Global, out: &mut Text, line: &[u8]) -> Result<Option<Town>, AllocError>
    ensures { IfOk result (λ o. Found line.now (shown out.old) o (shown out.new)) }
{
    match read(line) {
        Some(Line::Town(settings)) => begin(heap, &settings, out),
        _ => Ok(None),
    }
}
