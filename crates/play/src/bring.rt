// Words on the net: sent, held back, and brought to a side.
use super::say;
use super::town::{Shop, Town, Word};
use box_side::{NotDone, Show, Told};
use commands::line::Side;
use judge::judge;
use judge_rules::Done;
use parts::Drawn;
use printed::Text;
use sending::Sent;
use service_rules::{Deed, Side as Keeper};
use std::alloc::AllocError;

// From a line to a receipt there are six words, so that no more than this many follow from one.
const HOPS: usize = 8;

// A word that a side sends.
#[derive(Drop)]
pub(crate) struct Mail {
    pub(crate) from: Side,
    pub(crate) to: Option<Side>,
    pub(crate) bytes: Vec<u8>,
}

// Whom a box writes to.
// By number and no From: who is numbered so is whom a box writes to, never a reader.
fn addressee(to: u16) -> Side {
    match to {
        0 => Side::House,
        number => Side::Service(number),
    }
}

// An answer goes to the box that sent the word, and nowhere if no box did.
fn back_to(from: Option<Side>) -> Option<Side> {
    from.filter(|side| matches!(side, Side::Reader(_)))
}

// Starts a service again, and says whether it waits.
fn restart(shop: &mut Shop) -> bool {
    let clock = shop.side.clock();
    shop.memory.restart(clock);
    if let Ok(side) = Keeper::start(shop.side.number, clock.lag, clock.tick, &shop.memory) {
        shop.side = side;
    }
    shop.side.waits()
}

impl Town {
    // Is there such a side?
    // Not one match with `bring`: here it is only asked whether there is such a side.
    pub(crate) fn has(&self, side: Side) -> bool {
        match side {
            Side::House => true,
            Side::Service(n) => self.shops.contains_key(&n),
            Side::Reader(n) => self.posts.contains_key(&n),
        }
    }

    // Sends a word, and whatever follows from it.
    pub(crate) fn deliver(&mut self, out: &mut Text, mail: Option<Mail>) -> Result<(), AllocError> {
        let mut next = mail;
        for _ in 0..HOPS {
            let Some(mail) = next else {
                return Ok(());
            };
            next = self.send(out, mail)?;
        }
        Ok(())
    }

    // Sends a word: it has a number from now on, and is brought at once unless it is held back or for nobody.
    fn send(&mut self, out: &mut Text, mail: Mail) -> Result<Option<Mail>, AllocError> {
        let Mail { from, to, bytes } = mail;
        let copy = Vec::from_slice(self.heap, &bytes)?;
        self.words.push(Word {
            from: Some(from),
            bytes,
            piece: false,
        })?;
        let number = self.words.len() as u64;
        say::word(out, number, Some(from), to, &copy)?;
        if self.held > 0 {
            self.held -= 1;
            return Ok(None);
        }
        match to {
            None => Ok(None),
            Some(side) => self.bring(out, Some(from), &copy, side),
        }
    }

    // Brings a word to a side; what the side sends comes back.
    pub(crate) fn bring(
        &mut self,
        out: &mut Text,
        from: Option<Side>,
        word: &[u8],
        to: Side,
    ) -> Result<Option<Mail>, AllocError> {
        match to {
            Side::House => self.bring_house(out, from, word),
            Side::Service(n) => self.bring_service(out, from, word, n),
            Side::Reader(n) => self.bring_box(out, word, n),
        }
    }

    // What a side sends back of a word that it heard.
    fn answer<const N: usize>(
        &self,
        side: Side,
        from: Option<Side>,
        sent: Option<Sent<N>>,
    ) -> Result<Option<Mail>, AllocError> {
        let Some(sent) = sent else {
            return Ok(None);
        };
        let bytes = Vec::from_slice(self.heap, sent.as_slice())?;
        Ok(Some(Mail {
            from: side,
            to: back_to(from),
            bytes,
        }))
    }

    fn bring_house(
        &mut self,
        out: &mut Text,
        from: Option<Side>,
        word: &[u8],
    ) -> Result<Option<Mail>, AllocError> {
        let heard = self.house.hear(self.heap, word)?;
        if self.house.memory.cut.is_some() {
            self.restart_house(out)?;
            return Ok(None);
        }
        if let Err(fault) = heard.event {
            say::fault(out, Side::House, fault)?;
        }
        self.answer(Side::House, from, heard.sent)
    }

    fn bring_service(
        &mut self,
        out: &mut Text,
        from: Option<Side>,
        word: &[u8],
        number: u16,
    ) -> Result<Option<Mail>, AllocError> {
        let side = Side::Service(number);
        let Some(shop) = self.shops.get_mut(&number) else {
            return Ok(None);
        };
        let heard = shop.hear(self.heap, word)?;
        if shop.memory.cut.is_some() {
            say::started(out, side, restart(shop))?;
            return Ok(None);
        }
        match heard.event {
            Ok(deed) => self.settle(out, number, deed)?,
            Err(fault) => say::fault(out, side, fault)?,
        }
        self.answer(side, from, heard.sent)
    }

    // The judge says of a deed whether it was asked.
    fn settle(&mut self, out: &mut Text, service: u16, deed: Deed) -> Result<(), AllocError> {
        let done = Done {
            service,
            reader: deed.reader,
            what: deed.what,
            at: self.tick,
        };
        let verdict = judge(&mut self.judge, &done);
        self.total.count(verdict);
        say::done(out, &done, verdict)
    }

    fn bring_box(
        &mut self,
        out: &mut Text,
        word: &[u8],
        number: u16,
    ) -> Result<Option<Mail>, AllocError> {
        let Some(post) = self.posts.get_mut(&number) else {
            return Ok(None);
        };
        let told = post.reader_box.hear(self.heap, word);
        tell(out, number, told)
    }

    // The house starts again.
    // The house reads two devices again and starts by its own rules; what services share is `restart`.
    pub(crate) fn restart_house(&mut self, out: &mut Text) -> Result<(), AllocError> {
        let house = &mut self.house;
        let clock = house.house.side.clock();
        if house.memory.cut.is_some() {
            house.accounts.next = None;
        }
        if house.accounts.cut.is_some() {
            house.memory.next = None;
        }
        house.memory.restart(clock);
        house.accounts.restart();
        let rules = house.house;
        if let Ok(rules) = house_rules::House::start(
            rules.life,
            clock.lag,
            clock.tick,
            rules.key,
            &house.memory,
        ) {
            house.house = rules;
        }
        say::started(out, Side::House, house.house.side.waits())
    }

    // A service starts again.
    pub(crate) fn restart_service(&mut self, out: &mut Text, n: u16) -> Result<(), AllocError> {
        match self.shops.get_mut(&n) {
            None => say::line_fault(out),
            Some(shop) => say::started(out, Side::Service(n), restart(shop)),
        }
    }
}

// What a box shows its reader, and what it sends.
pub(crate) fn tell(
    out: &mut Text,
    reader: u16,
    told: Result<Told, NotDone>,
) -> Result<Option<Mail>, AllocError> {
    let side = Side::Reader(reader);
    let Told { show, sent } = match told {
        Ok(told) => told,
        Err(NotDone::NoMemory) => return Err(AllocError),
        Err(NotDone::Wrong(fault)) => {
            say::fault(out, side, fault)?;
            return Ok(None);
        }
    };
    match show {
        Show::LogsIn | Show::Asks(_) => {}
        Show::Takes(got) => say::at_side(
            out,
            b"ticket",
            side,
            &[got.id, u64::from(got.service), got.until],
        )?,
        Show::Receipt(line) => say::at_side(out, b"receipt", side, &[line])?,
        Show::Refused(class) => say::at_side(out, b"refused", side, &[u64::from(class.number())])?,
    }
    Ok(sent.map(|sent| Mail {
        from: side,
        to: Some(addressee(sent.to)),
        bytes: sent.word,
    }))
}
