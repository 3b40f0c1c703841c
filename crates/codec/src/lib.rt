// Words and insides in bytes, read and written, are each other's inverse: each theorem is a clause of a function here.
#![tactic(auto)]

ghost use Rattle.codec.specs.Law.{AskingCodec, LetterCodec, LoginCodec, ReceiptCodec, TicketCodec, WordCodec, WordCut, WordLonger};

// Each inside that is written reads back, and each that is read is the one that is written; nothing else is read.
pub fn inside_laws()
    ensures tickets { TicketCodec }
    ensures letters { LetterCodec }
    ensures askings { AskingCodec }
    ensures logins { LoginCodec }
    ensures receipts { ReceiptCodec }
{}

// The same of words; no front of a word is a word, and no word is the front of a longer one.
pub fn word_laws()
    ensures words { WordCodec }
    ensures shorter { WordCut }
    ensures longer { WordLonger }
{}
