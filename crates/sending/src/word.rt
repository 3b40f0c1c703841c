// The words that the house and the services send, each in an array of its length.
ghost use Rattle.std.specs.Prelude.{◌≡◌};
ghost use Rattle.locked.specs.Locked.{letter_lock, ours, receipt_lock, refusal_word, ticket_lock};
ghost use Rattle.wire.specs.Word as frame;

use locked::{frame_into, lock_into};
use parts::{Fault, Letter, Lock, Receipt, Ticket};
use wire::WordKind;

// The lock of a ticket.
pub fn seal_ticket(lock: &Lock<Ticket>) -> [u8; 77]
    ensures { result ≡ ticket_lock ours lock.now }
{
    let mut out = [0; 77];
    lock_into(lock, &mut out);
    out
}

// The lock of a letter.
pub fn seal_letter(lock: &Lock<Letter>) -> [u8; 91]
    ensures { result ≡ letter_lock ours lock.now }
{
    let mut out = [0; 91];
    lock_into(lock, &mut out);
    out
}

// The lock of a receipt.
pub fn seal_receipt(lock: &Lock<Receipt>) -> [u8; 49]
    ensures { result ≡ receipt_lock ours lock.now }
{
    let mut out = [0; 49];
    lock_into(lock, &mut out);
    out
}

// The word of a ticket and a letter: each lock has its length before it.
pub fn grant_word(ticket: &Lock<Ticket>, letter: &Lock<Letter>) -> [u8; 173]
    ensures { result ≡ frame.write_word (frame.ticket_and_letter (ticket_lock ours ticket.now) (letter_lock ours letter.now)) }
{
    let mut out = [0; 173];
    out[0] = WordKind::TicketAndLetter.number();
    frame_into(ticket, &mut out[1..80]);
    frame_into(letter, &mut out[80..]);
    out
}

// The word of a receipt.
pub fn receipt_word(lock: &Lock<Receipt>) -> [u8; 52]
    ensures { result ≡ frame.write_word (frame.receipt (receipt_lock ours lock.now)) }
{
    let mut out = [0; 52];
    out[0] = WordKind::Receipt.number();
    frame_into(lock, &mut out[1..]);
    out
}

// The word of a refusal, which tells the class alone; none where there is no class.
pub fn refusal_word(fault: Fault) -> Option<[u8; 2]>
    ensures { result ≡ refusal_word fault }
{
    let class = fault.class()?;
    Some([WordKind::Refusal.number(), class.number()])
}
