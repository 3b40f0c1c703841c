// What comes of a word that a service heard.
ghost use Rattle.locked.specs.Locked.{ours};
ghost use Rattle.service_side.specs.Hear.{Tells};

use parts::Fault;
use sending::receipt_word;
use service_rules::{Deed, Done};

// What is noted, the deed or the fault, and what is sent: a receipt or a refusal.
pub type Heard = sending::Heard<Deed, 52>;

// What is noted and sent of an answer.
pub(crate) fn told(answer: Result<Done, Fault>) -> Heard
    ensures { Tells ours answer result }
{
    match answer {
        Ok(done) => Heard::answered(done.deed, receipt_word(&done.receipt)),
        Err(fault) => Heard::refused(fault),
    }
}
