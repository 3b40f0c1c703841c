// What stands inside locks, in bytes: read to its exact end, and written.
ghost use Rattle.std.specs.Prelude.{◌≡◌, ℕ, ◌≤◌, List, length, Result};
ghost use Rattle.contents.specs.Inside.{is_inside};
ghost use Rattle.parts.specs.declared.fault.Fault.{Fault};
ghost use Rattle.seal.specs.Kind.{number_of};
ghost use Rattle.seal.specs.declared.kind.Kind.{Kind};

use parts::Fault;
use seal::Kind;

// What stands inside the locks of one kind: it begins with the number of the kind.
pub trait Inside {
    // the kind of its locks
    ghost KIND: { Kind };

    // what an inside is read as, or the fault
    ghost read_in: { List ℕ → Result Self Fault };

    // the inside
    ghost written: { Self → List ℕ };

    // how many bytes it has
    ghost len: { Self → ℕ };

    // the most bytes that it can have
    ghost MOST: { ℕ };

    const KIND: Kind;

    // Reads it from an inside.
    fn read(inside: &[u8]) -> Result<Self, Fault>
        ensures { result ≡ read_in inside.now };

    // How many bytes the inside has.
    fn len(&self) -> usize
        ensures len { result ≡ len self.now }
        ensures most { result ≤ MOST };

    // Fills a memory of its length with the inside.
    fn write(&self, out: &mut [u8])
        requires { length out.old ≡ len self.now }
        ensures { out.new ≡ written self.now };
}

// Whether an inside is of this kind and of this length.
pub(crate) fn is_inside(inside: &[u8], kind: Kind, len: usize) -> bool
    ensures { result ≡ is_inside (number_of kind) len inside.now }
{
    match inside {
        [first, ..] => inside.len() == len && *first == kind.number(),
        [] => false,
    }
}
