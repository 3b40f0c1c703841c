// Writing words, decimals and hex behind a text.
ghost use Rattle.printed.specs.Printed.{shown};
ghost use Rattle.std.specs.Prelude.{◌≡◌, ◌+◌, ◌*◌, [], ◌++◌, length, take, decimal, OnOk};
ghost use Rattle.std.specs.Fmt.{AppendsText};
ghost use Rattle.words.specs.Laws.{hex_text, bytes_text};

use super::text::Text;
use std::alloc::{AllocError, Global};
use std::fmt::Display;

// Writes bytes in hex from `at` on, where there is room for just their digits.
fn put_hex(bytes: &[u8], out: &mut [u8], at: usize)
    requires { length out.old ≡ at + 2 * length bytes.now }
    ensures { out.new ≡ take at out.old ++ hex_text bytes.now }
{
    let _ = hex::encode_to_slice(bytes, &mut out[at..]);
}

impl Text {
    // Nothing yet.
    pub fn new(heap: Global) -> Text
        ensures { shown result ≡ [] }
    {
        Text {
            bytes: Vec::new(heap),
        }
    }

    // The bytes so far.
    pub fn as_slice(&self) -> &[u8]
        ensures { result.now ≡ shown self.now }
    {
        self.bytes.as_slice()
    }

    // Adds bytes as they are.
    pub fn plain(&mut self, bytes: &[u8]) -> Result<(), AllocError>
        ensures { OnOk result (shown self.new ≡ shown self.old ++ bytes.now) }
    {
        self.bytes.extend_from_slice(bytes)
    }

    // Adds what a value displays; `write!` calls this.
    pub fn write_fmt<D: Display + Drop>(&mut self, value: D) -> Result<(), AllocError>
        ensures { OnOk result (AppendsText (shown self.old) (shown self.new) (D.output value)) }
    {
        let text = value.to_string(*self.bytes.allocator())?;
        self.plain(text.as_bytes())
    }

    // Adds a number.
    pub fn number(&mut self, n: u64) -> Result<(), AllocError>
        ensures { OnOk result (shown self.new ≡ shown self.old ++ decimal n) }
    {
        write!(self, "{n}")
    }

    // Adds bytes in hex, two digits each; - stands for none.
    pub fn hex(&mut self, bytes: &[u8]) -> Result<(), AllocError>
        ensures { OnOk result (shown self.new ≡ shown self.old ++ bytes_text bytes.now) }
    {
        if bytes.is_empty() {
            return self.plain(b"-");
        }
        let at = self.bytes.len();
        let Some(digits) = bytes.len().checked_mul(2) else {
            return Err(AllocError);
        };
        // Room for the end of the line too, at which a full text would grow to twice its length.
        self.bytes.reserve(digits.saturating_add(1))?;
        self.bytes.resize(at + digits, 0)?;
        put_hex(bytes, self.bytes.as_mut_slice(), at);
        Ok(())
    }
}
