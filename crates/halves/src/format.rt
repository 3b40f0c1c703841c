// What a payload is, behind a trait: its length follows from its front.
ghost use Rattle.std.specs.Prelude.{◌≡◌, ℕ, List, Option};
ghost use Rattle.halves.specs.Half.{Measure, Steady};

// A kind of payload.
pub trait Format {
    // how many bytes the payload has that stands at the front of these; none, if no payload stands there
    ghost measured: { Self → Measure };

    // how many bytes a payload has at most
    ghost most: { Self → ℕ };

    // How many bytes has the payload at the front of these?
    fn measure(&self, bytes: &[u8]) -> Option<usize>
        ensures { result ≡ measured self.now bytes.now };

    // How many bytes has a payload at most?
    fn most(&self) -> usize
        ensures { result ≡ most self.now };

    // what follows a payload does not matter
    ghost steady: { (s : Self) → Steady (measured s) };
}
