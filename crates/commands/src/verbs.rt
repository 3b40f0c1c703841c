// The first word of a line.
ghost use Rattle.std.specs.Prelude.{◌≡◌};
ghost use Rattle.commands.specs.Verbs.{verb_of};

#[derive(Clone, Copy)]
pub enum Verb {
    Town,
    Reader,
    Service,
    Tick,
    Want,
    Close,
    Hold,
    Repeat,
    Join,
    Steal,
    Lock,
    Unlock,
    Bytes,
    Fall,
    Cut,
    Device,
}

// The verb that a word is.
pub fn read_verb(word: &[u8]) -> Option<Verb>
    ensures { result ≡ verb_of word.now }
{
    match word {
        b"town" => Some(Verb::Town),
        b"reader" => Some(Verb::Reader),
        b"service" => Some(Verb::Service),
        b"tick" => Some(Verb::Tick),
        b"want" => Some(Verb::Want),
        b"close" => Some(Verb::Close),
        b"hold" => Some(Verb::Hold),
        b"repeat" => Some(Verb::Repeat),
        b"join" => Some(Verb::Join),
        b"bytes" => Some(Verb::Bytes),
        b"steal" => Some(Verb::Steal),
        b"lock" => Some(Verb::Lock),
        b"unlock" => Some(Verb::Unlock),
        b"fall" => Some(Verb::Fall),
        b"cut" => Some(Verb::Cut),
        b"device" => Some(Verb::Device),
        _ => None,
    }
}
