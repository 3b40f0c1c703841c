// The theorems that stand above the definitions, each the contract of a function.
ghost use Rattle.words.specs.Laws.{DecimalsReadBack, DecimalsAreExact, KeysReadBack, KeysAreExact, BytesReadBack, BytesAreExact};

// A decimal that is written is read back, and nothing else is read as that number.
pub fn decimals_are_exact()
    ensures back { DecimalsReadBack }
    ensures exact { DecimalsAreExact }
{}

// A key that is written in hex is read back, and nothing else is read as that key.
pub fn keys_are_exact()
    ensures back { KeysReadBack }
    ensures exact { KeysAreExact }
{}

// Bytes that are written in hex are read back, and nothing else is read as those bytes.
pub fn bytes_are_exact()
    ensures back { BytesReadBack }
    ensures exact { BytesAreExact }
{}
