// What a service answers where it does as asked.
use parts::{Lock, Number, Receipt, What};

// A thing done: for whom, the asking's number, what, the tick at which it was asked, and until when the ticket is good.
#[derive(Clone, Copy)]
pub struct Deed {
    pub reader: u16,
    pub number: Number,
    pub what: What,
    pub asked: u64,
    pub until: u64,
}

// It is done, and a receipt goes out.
#[derive(Clone, Copy)]
pub struct Done {
    pub deed: Deed,
    pub receipt: Lock<Receipt>,
}
