// What a town does at each line of its script.
ghost use Rattle.std.specs.Prelude.{◌≡◌, ◌≤◌, is_some, IfOk};
ghost use Rattle.commands.specs.Grammar.{read_of};
ghost use Rattle.commands.specs.Said.{said};
ghost use Rattle.script.specs.Laws.{Orderly};
ghost use Rattle.script.specs.Play.{seen, nobody, in_range, known, opened, with_reader, with_service, ticked, begun, acted, obeyed, heard, played};

use crate::town::roll::Roll;
use crate::town::{Answer, Town};
use commands::line::{Account, Line, Settings};
use commands::lines::read;
use std::alloc::{AllocError, Global};

const MAX_LIFE: u64 = 86_400;

const MAX_LAG: u64 = 600;

const END_OF_TIME: u64 = 1 << 63;

// Whether settings are in range.
fn in_range(settings: &Settings) -> bool
    ensures { result ≡ in_range settings.now }
{
    settings.tick < END_OF_TIME
        && (1..=MAX_LIFE).contains(&settings.life)
        && settings.lag <= MAX_LAG
}

// Whether a line is silent or begins with a verb that the first form plays. Any other is refused by its first bytes, however long it is.
fn is_played(line: &[u8]) -> bool
    ensures { result ≡ played line.now }
{
    matches!(line, [] | [b'#', ..])
        || line.starts_with(b"town ")
        || line.starts_with(b"reader ")
        || line.starts_with(b"service ")
        || line.starts_with(b"tick ")
}

impl Town {
    // A town that has yet to read its first line.
    pub fn new(heap: Global) -> Result<Town, AllocError>
        ensures { IfOk result (λ t. (seen t ≡ nobody) × Orderly (seen t)) }
    {
        let readers = Roll::new(heap)?;
        let services = Roll::new(heap)?;
        Ok(Town {
            settings: None,
            tick: 0,
            readers,
            services,
        })
    }

    // Whether the first line was read and good.
    pub fn is_open(&self) -> bool
        ensures { result ≡ is_some self.now.settings }
    {
        self.settings.is_some()
    }

    // Reads a line and obeys it.
    pub fn hear(&mut self, line: &[u8]) -> Answer
        ensures answer { result ≡ (heard (seen self.old) (read_of line.now)).answer }
        ensures after { seen self.new ≡ (heard (seen self.old) (read_of line.now)).town }
        ensures orderly { Orderly (seen self.old) → Orderly (seen self.new) }
        ensures refusal { result ≡ Answer.Fault → seen self.new ≡ seen self.old }
        ensures time { Orderly (seen self.old) → (seen self.old).tick ≤ (seen self.new).tick }
    {
        if !is_played(line) {
            return Answer::Fault;
        }
        match read(line) {
            Some(said) => self.obey(said),
            None => Answer::Fault,
        }
    }

    // Obeys a line that was read.
    fn obey(&mut self, line: Line) -> Answer
        ensures answer { result ≡ (obeyed (seen self.old) (said line.entry)).answer }
        ensures after { seen self.new ≡ (obeyed (seen self.old) (said line.entry)).town }
    {
        if self.is_open() {
            self.act(line)
        } else {
            self.begin(line)
        }
    }

    // The first line has the settings.
    fn begin(&mut self, line: Line) -> Answer
        ensures answer { result ≡ (begun (seen self.old) (said line.entry)).answer }
        ensures after { seen self.new ≡ (begun (seen self.old) (said line.entry)).town }
    {
        match line {
            Line::Blank => Answer::Silent,
            Line::Town(settings) => self.open(settings),
            _ => Answer::Fault,
        }
    }

    // Every later line says what happens.
    fn act(&mut self, line: Line) -> Answer
        ensures answer { result ≡ (acted (seen self.old) (said line.entry)).answer }
        ensures after { seen self.new ≡ (acted (seen self.old) (said line.entry)).town }
    {
        match line {
            Line::Blank => Answer::Silent,
            Line::Reader(a) => self.add_reader(a),
            Line::Service(a) => self.add_service(a),
            Line::Tick(tick) => self.pass(tick),
            _ => Answer::Fault,
        }
    }

    // The town opens with settings in range.
    fn open(&mut self, settings: Settings) -> Answer
        ensures answer { result ≡ (opened (seen self.old) settings).answer }
        ensures after { seen self.new ≡ (opened (seen self.old) settings).town }
    {
        if !in_range(&settings) {
            return Answer::Fault;
        }
        self.settings = Some(settings);
        self.tick = settings.tick;
        Answer::Town {
            tick: settings.tick,
            life: settings.life,
            lag: settings.lag,
        }
    }

    // Whether a reader or a service has that number.
    fn knows(&self, number: u16) -> bool
        ensures { result ≡ known (seen self.now) number }
    {
        self.readers.has(number) || self.services.has(number)
    }

    // One more reader, of a number that nobody has. Readers and services have rolls of two sizes and answers of their own.
    fn add_reader(&mut self, a: Account) -> Answer
        ensures answer { result ≡ (with_reader (seen self.old) a).answer }
        ensures after { seen self.new ≡ (with_reader (seen self.old) a).town }
    {
        if self.readers.is_full() || self.knows(a.number) {
            return Answer::Fault;
        }
        self.readers.add(a);
        Answer::Reader(a.number)
    }

    // One more service, of a number that nobody has.
    fn add_service(&mut self, a: Account) -> Answer
        ensures answer { result ≡ (with_service (seen self.old) a).answer }
        ensures after { seen self.new ≡ (with_service (seen self.old) a).town }
    {
        if self.services.is_full() || self.knows(a.number) {
            return Answer::Fault;
        }
        self.services.add(a);
        Answer::Service(a.number)
    }

    // Ticks do not go back, and stay below 2^63.
    fn pass(&mut self, tick: u64) -> Answer
        ensures answer { result ≡ (ticked (seen self.old) tick).answer }
        ensures after { seen self.new ≡ (ticked (seen self.old) tick).town }
    {
        if tick < self.tick || tick >= END_OF_TIME {
            return Answer::Fault;
        }
        self.tick = tick;
        Answer::Tick(tick)
    }
}
