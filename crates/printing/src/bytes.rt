// Bytes put into a buffer as far as they fit.
ghost use Rattle.std.specs.Prelude.{[], ◌∷◌};
ghost use Rattle.printing.specs.Put.{Wrote, Countable};

/// The byte b at `at`, and the next place.
pub fn put_byte(out: &mut [u8], at: usize, b: u8) -> usize
    requires { Countable at (b ∷ []) }
    ensures { Wrote out.old at (b ∷ []) out.new result }
{
    if at < out.len() {
        out[at] = b;
    }
    at + 1
}

/// The bytes m from `at` on, and the next place.
pub fn put(out: &mut [u8], at: usize, m: &[u8]) -> usize
    requires { Countable at m.now }
    ensures { Wrote out.old at m.now out.new result }
{
    let most = m.len().min(out.len().saturating_sub(at));
    // Byte by byte: a copy of slices is a call of memmove, which a library for C is to ask of nobody who links it.
    for i in 0..most {
        out[at + i] = m[i];
    }
    at + m.len()
}
