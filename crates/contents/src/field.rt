// The fields of an inside, each at its place.
ghost use Rattle.std.specs.Prelude.{◌≡◌, ◌+◌, ◌≤◌, ◌++◌, length, take, drop};
ghost use Rattle.contents.specs.Field.{part};
ghost use Rattle.std.specs.List.{flat_map};

// The bytes at a place, as many as the array has.
pub fn array_at<const N: usize>(bytes: &[u8], at: usize) -> [u8; N]
    requires { at + N ≤ length bytes.now }
    ensures { result ≡ part at N bytes.now }
{
    let mut field = [0; N];
    field.copy_from_slice(&bytes[at..at + N]);
    field
}

// Writes some bytes at a place: what stands before and behind them stays.
pub fn put(out: &mut [u8], at: usize, field: &[u8])
    requires { at + length field.now ≤ length out.old }
    ensures { out.new ≡ take at out.old ++ (field.now ++ drop (at + length field.now) out.old) }
{
    out[at..at + field.len()].copy_from_slice(field);
}

// Fills a memory with fields, one after the other.
pub(crate) fn fill(out: &mut [u8], fields: &[&[u8]])
    requires { length out.old ≡ length (flat_map (λ x. x.now) fields.now) }
    ensures { out.new ≡ flat_map (λ x. x.now) fields.now }
{
    let [first, rest @ ..] = fields else {
        return;
    };
    let end = first.len();
    out[0..end].copy_from_slice(first);
    fill(&mut out[end..], rest);
}
