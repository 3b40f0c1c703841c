// What the house answers where it gives a ticket.
use parts::{Letter, Lock, Number, Ticket};

// A ticket given: to whom, for which service, the number of the login or asking, its tick, and until when the ticket is good.
// Beside Given: what the book may know, and no key in it.
#[derive(Clone, Copy)]
pub struct Grant {
    pub reader: u16,
    pub service: u16,
    pub number: Number,
    pub asked: u64,
    pub until: u64,
}

// A ticket and a letter go out.
#[derive(Clone, Copy)]
pub struct Granted {
    pub grant: Grant,
    pub ticket: Lock<Ticket>,
    pub letter: Lock<Letter>,
}
