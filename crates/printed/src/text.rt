// Text under way.

// The bytes of a text so far. They are no `String`, since words of a script are printed as they stand.
#[derive(Drop)]
pub struct Text {
    pub(crate) bytes: Vec<u8>,
}
