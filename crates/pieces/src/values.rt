// Values: what stands between the quotes of an attribute.
// Plain bytes are passed over in one loop; only a reference or a character beyond ASCII is taken apart.
ghost use Rattle.std.specs.Prelude.{◌≡◌, true, ◌+◌, ◌≤◌, ◌<◌, length, drop};
ghost use Rattle.grammar.specs.Value.{is_quote, banned};
ghost use Rattle.model.specs.Characters.{plain_byte};
ghost use Rattle.model.specs.Values.{item_p, value_p};
ghost use Rattle.scan.specs.Pieces.{Got};
ghost use Rattle.pieces.specs.Says.{Says};
ghost use Rattle.pieces.specs.Parts.{code_point, IsQuote, Plain, Ran};

use crate::Piece;
use crate::runs::run;
use scan::{Step, Stop};

/// A single or a double quote.
pub fn is_quote(b: u8) -> bool
    ensures { result ≡ is_quote b }
{
    matches!(b, b'"' | b'\'')
}

/// A character or a reference, in quotes q.
pub fn item(s: &[u8], at: usize, q: u8) -> Piece
    ensures { Says code_point 1 s.now at result (item_p q (drop at s.now)) }
{
    if s.len() <= at {
        return Err(Stop::Open);
    }
    if s[at] == b'&' {
        return crate::references::reference(s, at + 1);
    }
    crate::characters::character(s, at, q)
}

// 1 if b is a printable character that stands as itself in quotes q, else 0: a number, so that no branch is guessed.
fn clear(b: u8, q: u8) -> u8
    ensures small { result ≤ 1 }
    ensures plain { result ≡ 1 → plain_byte (banned q) b ≡ true }
{
    ((31 < b) & (b < 128) & (b != b'<') & (b != b'&') & (b != q)) as u8
}

/// Whether the eight bytes at i are printable characters that stand as themselves in quotes q.
pub fn eight_clear(s: &[u8], i: usize, q: u8) -> bool
    requires { i + 8 ≤ length s.now }
    ensures { result ≡ true → Plain q s.now i 8 }
{
    // Eight calls: with a loop that sums, a long value takes 31 % more instructions.
    let n = clear(s[i], q)
        + clear(s[i + 1], q)
        + clear(s[i + 2], q)
        + clear(s[i + 3], q)
        + clear(s[i + 4], q)
        + clear(s[i + 5], q)
        + clear(s[i + 6], q)
        + clear(s[i + 7], q);
    n == 8
}

// Where the plain bytes end; none may stand there, as before a character beyond ASCII.
fn passed(s: &[u8], at: usize, q: u8) -> usize
    requires { IsQuote q × (at < length s.now) }
    ensures { Ran q s.now at result }
{
    if 127 < s[at] {
        return at;
    }
    run(s, at, q)
}

// The place behind the character or the reference at `at`.
fn behind(s: &[u8], at: usize, q: u8) -> Step
    requires { at < length s.now }
    ensures { Got 1 s.now at result (item_p q (drop at s.now)) }
{
    if s[at] == b'&' {
        return Ok(crate::references::reference(s, at + 1)?.next);
    }
    crate::characters::behind(s, at, q)
}

/// A value behind its opening quote q, the closing one included.
pub fn value(s: &[u8], at: usize, q: u8) -> Step
    requires { IsQuote q × (at ≤ length s.now) }
    ensures { Got 1 s.now at result (value_p q (drop at s.now)) }
{
    let mut i = at;
    // By hand: the next place is what was read there.
    while i < s.len() {
        let j = passed(s, i, q);
        if s.len() <= j {
            return Err(Stop::Open);
        }
        if s[j] == q {
            return Ok(j + 1);
        }
        i = behind(s, j, q)?;
    }
    Err(Stop::Open)
}
