// What comes of a word that a side heard.
ghost use Rattle.locked.specs.Locked.{refusal_word};
ghost use Rattle.sending.specs.Heard.{word_of};
ghost use Rattle.std.specs.Option.{option_map};
ghost use Rattle.std.specs.Prelude.{◌≡◌};

use crate::word::refusal_word;
use parts::Fault;

// The word that goes out: an answer of its length, or a refusal.
#[derive(Clone, Copy)]
pub enum Sent<const N: usize> {
    Answer([u8; N]),
    Refusal([u8; 2]),
}

impl<const N: usize> Sent<N> {
    // The word of a refusal; none where it is answered by nothing.
    fn refusal(fault: Fault) -> Option<Sent<N>>
        ensures { option_map word_of result ≡ refusal_word fault }
    {
        let word = refusal_word(fault)?;
        Some(Sent::Refusal(word))
    }

    // Its bytes.
    pub fn as_slice(&self) -> &[u8]
        ensures { result.now ≡ word_of self.now }
    {
        match self {
            Sent::Answer(word) => word,
            Sent::Refusal(word) => word,
        }
    }
}

// What stands in the side's book, something that came to pass or why a word was refused, and what is sent.
#[derive(Clone, Copy)]
pub struct Heard<E, const N: usize> {
    pub event: Result<E, Fault>,
    pub sent: Option<Sent<N>>,
}

impl<E, const N: usize> Heard<E, N> {
    // What is noted and sent where something came to pass.
    pub fn answered(event: E, word: [u8; N]) -> Heard<E, N>
        ensures event { result.event ≡ Ok event }
        ensures sent { option_map word_of result.sent ≡ Some word.entry }
    {
        Heard {
            event: Ok(event),
            sent: Some(Sent::Answer(word)),
        }
    }

    // What is noted and sent of a refusal.
    pub fn refused(fault: Fault) -> Heard<E, N>
        ensures event { result.event ≡ Err fault }
        ensures sent { option_map word_of result.sent ≡ refusal_word fault }
    {
        Heard {
            event: Err(fault),
            sent: Sent::refusal(fault),
        }
    }
}
