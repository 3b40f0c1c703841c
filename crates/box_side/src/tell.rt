// The memory of a word before it is decided on, and the word that goes out with an answer.
ghost use Rattle.std.specs.Prelude.{◌≡◌, ℕ, ◌+◌, ◌≤◌, List, [], ◌++◌, IfOk, Some, None, vec_len, vec_capacity};
ghost use Rattle.box_side.specs.Step.{sent_in, shown_of};
ghost use Rattle.box_side.specs.Sent.{front_of, login_bytes, sent_with};
ghost use Rattle.locked.specs.Locked.{asking_lock, ours};
ghost use Rattle.wire.specs.Word.{lock_bytes};

use crate::ticket::TicketIn;
use crate::told::{Sent, Show, Told};
use box_locks::{ASKING_MOST, append_asking, append_login};
use box_rules::Answer;
use parts::{Asking, Lock, Login};
use std::alloc::{AllocError, Global};
use std::marker::Model;
use wire::WordKind;

// A word under way, with room for what comes behind the ticket, or for a whole login.
#[derive(Drop)]
pub(crate) struct Begun {
    bytes: Vec<u8>,
}

impl Model for Begun {
    ghost Value = { List ℕ };

    ghost view = { λ w. w.bytes.items };

    ghost invariant = { λ w. vec_len w.bytes + 1087 ≤ vec_capacity w.bytes };
}

impl Begun {
    // A word of which nothing is written yet.
    pub(crate) fn empty(heap: Global) -> Result<Begun, AllocError>
        ensures { IfOk result (λ w. w ≡ []) }
    {
        let bytes = Vec::with_capacity(heap, ASKING_MOST)?;
        Ok(Begun { bytes })
    }

    // An asking's word of which the ticket is written.
    pub(crate) fn asking(heap: Global, ticket: TicketIn<'_>) -> Result<Begun, AllocError>
        ensures { IfOk result (λ w. w ≡ front_of (Some ticket.entry.bytes.now)) }
    {
        let ticket = ticket.bytes;
        let mut bytes = Vec::with_capacity(heap, 3 + ticket.len() + ASKING_MOST)?;
        let [high, low] = (ticket.len() as u16).to_be_bytes();
        bytes.extend_from_slice(&[WordKind::Asking.number(), high, low])?;
        bytes.extend_from_slice(ticket)?;
        Ok(Begun { bytes })
    }

    // A login's word, in memory that was empty.
    fn with_login(self, number: u16, login: &Lock<Login>) -> Vec<u8>
        ensures { result.items ≡ self ++ login_bytes number login.now }
    {
        let mut word = self.bytes;
        let [high, low] = number.to_be_bytes();
        let _ = word.extend_from_slice(&[WordKind::Login.number(), high, low]);
        let _ = append_login(&mut word, login);
        word
    }

    // An asking's word, in memory that has the ticket.
    fn with_asking(self, asking: &Lock<Asking>) -> Vec<u8>
        ensures { result.items ≡ self ++ lock_bytes (asking_lock ours asking.now) }
    {
        let mut word = self.bytes;
        let _ = append_asking(&mut word, asking);
        word
    }
}

impl From<Answer> for Show {
    ghost from_gives = { λ answer show. show ≡ shown_of answer };

    // What is shown of an answer: all but its locks.
    fn from(answer: Answer) -> Show {
        match answer {
            Answer::LogsIn(_) => Show::LogsIn,
            Answer::Asks(id, _) => Show::Asks(id),
            Answer::Takes(got, _) => Show::Takes(got),
            Answer::Receipt(place) => Show::Receipt(place),
            Answer::Shown(class) => Show::Refused(class),
        }
    }
}

// What goes out with an answer, in memory that was had before.
fn send(word: Begun, number: u16, answer: Answer) -> Option<Sent>
    ensures { sent_in result ≡ sent_with number word answer }
{
    match answer {
        Answer::LogsIn(login) => Some(Sent {
            to: 0,
            word: word.with_login(number, &login),
        }),
        Answer::Asks(_, asking) | Answer::Takes(_, asking) => Some(Sent {
            to: asking.inside.service,
            word: word.with_asking(&asking),
        }),
        Answer::Receipt(_) | Answer::Shown(_) => None,
    }
}

// What is told and sent with an answer.
pub(crate) fn tell(word: Begun, number: u16, answer: Answer) -> Told
    ensures shown { result.show ≡ shown_of answer }
    ensures sent { sent_in result.sent ≡ sent_with number word answer }
{
    Told {
        show: Show::from(answer),
        sent: send(word, number, answer),
    }
}

// What is told with an answer that sends nothing, for which no word is begun.
pub(crate) fn tell_only(answer: Answer) -> Told
    ensures shown { result.show ≡ shown_of answer }
    ensures sent { sent_in result.sent ≡ None }
{
    Told {
        show: Show::from(answer),
        sent: None,
    }
}
