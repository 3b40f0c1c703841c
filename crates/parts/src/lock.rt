// A lock that is to be made.
use super::word::{Key, Salt};

// A lock: the key, the drawn bytes that go into it, and what is inside.
#[derive(Clone, Copy)]
pub struct Lock<T> {
    pub key: Key,
    pub salt: Salt,
    pub inside: T,
}
