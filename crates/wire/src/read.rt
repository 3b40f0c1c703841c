// Words read, to the end or the first fault.
ghost use Rattle.std.specs.Prelude.{◌≡◌};
ghost use Rattle.std.specs.Option.{option_map};
ghost use Rattle.wire.specs.Kind.{kind_number};
ghost use Rattle.wire.specs.Word.{alone, cut, frame_from, framed, login_from, paired, refusal_from, shown, shown_in};

use crate::kind::WordKind;
use crate::word::{LOCK_LEAST, Word};
use parts::{Class, Fault};

// The lock at the front of some bytes, and what follows it.
fn cut_lock(bytes: &[u8]) -> Option<(&[u8], &[u8])>
    ensures { option_map (λ p. (p.0.now, p.1.now)) result ≡ cut bytes.now }
{
    let (len, rest) = bytes.split_first_chunk()?;
    let len = usize::from(u16::from_be_bytes(*len));
    if len < LOCK_LEAST {
        return None;
    }
    rest.split_at_checked(len)
}

// The lock that some bytes are, to the end.
fn one_lock(bytes: &[u8]) -> Option<&[u8]>
    ensures { option_map (λ x. x.now) result ≡ alone (cut bytes.now) }
{
    let (lock, rest) = cut_lock(bytes)?;
    if rest.len() > 0 {
        return None;
    }
    Some(lock)
}

// The two locks that some bytes are, to the end.
fn two_locks(bytes: &[u8]) -> Option<(&[u8], &[u8])>
    ensures { option_map (λ p. (p.0.now, p.1.now)) result ≡ paired (cut bytes.now) }
{
    let (first, rest) = cut_lock(bytes)?;
    let second = one_lock(rest)?;
    Some((first, second))
}

// A login after its kind.
fn login_from(body: &[u8]) -> Option<Word<'_>>
    ensures { option_map shown result ≡ login_from body.now }
{
    let (reader, rest) = body.split_first_chunk()?;
    let reader = u16::from_be_bytes(*reader);
    let lock = one_lock(rest)?;
    Some(Word::Login { reader, lock })
}

// A refusal after its kind.
fn refusal_from(body: &[u8]) -> Option<Word<'_>>
    ensures { option_map shown result ≡ refusal_from body.now }
{
    let [byte] = body else {
        return None;
    };
    let class = Class::try_from(*byte).ok()?;
    Some(Word::Refusal(class))
}

// A word after its kind.
fn word_from(kind: WordKind, body: &[u8]) -> Option<Word<'_>>
    ensures { option_map shown result ≡ frame_from (kind_number kind) body.now }
{
    match kind {
        WordKind::Login => login_from(body),
        WordKind::TicketAndLetter => {
            two_locks(body).map(|(ticket, letter)| Word::TicketAndLetter { ticket, letter })
        }
        WordKind::Asking => two_locks(body).map(|(ticket, asking)| Word::Asking { ticket, asking }),
        WordKind::Receipt => one_lock(body).map(|lock| Word::Receipt { lock }),
        WordKind::Refusal => refusal_from(body),
    }
}

// The word that some bytes are, to the last of them.
pub fn read_word(bytes: &[u8]) -> Result<Word<'_>, Fault>
    ensures { shown_in result ≡ framed bytes.now }
{
    let [first, body @ ..] = bytes else {
        return Err(Fault::Malformed);
    };
    let kind = WordKind::try_from(*first)?;
    word_from(kind, body).ok_or(Fault::Malformed)
}
