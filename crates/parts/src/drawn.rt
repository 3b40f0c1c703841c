// Drawn bytes, behind a trait: whoever draws them puts them beneath.
ghost use Rattle.std.specs.Prelude.{◌≡◌, ℕ, ◌≤◌, List, length, take, drop};

// Bytes drawn beforehand, which are used up from the front.
pub trait Drawn {
    // the bytes that are left, the next one first
    ghost left: { Self → List ℕ };

    // How many are left?
    fn count(&self) -> usize
        ensures { result ≡ length (left self.now) };

    // Uses up as many as there is room for, and puts them there.
    fn fill(&mut self, out: &mut [u8])
        requires { length out.old ≤ length (left self.old) }
        ensures value { out.new ≡ take (length out.old) (left self.old) }
        ensures rest { left self.new ≡ drop (length out.old) (left self.old) };
}

// Uses up the next N bytes.
pub fn take<const N: usize, D: Drawn>(drawn: &mut D) -> [u8; N]
    requires { N ≤ length (D.left drawn.old) }
    ensures value { result ≡ take N (D.left drawn.old) }
    ensures rest { D.left drawn.new ≡ drop N (D.left drawn.old) }
{
    let mut bytes = [0; N];
    drawn.fill(&mut bytes);
    bytes
}
