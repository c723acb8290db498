// Characters: one character of UTF-8 that may stand raw in a value.
// The lead says how many bytes follow, and between which bounds the second and the third lie.
ghost use Rattle.std.specs.Prelude.{◌≡◌, cond, ℕ, ◌≤◌, ◌<◌, length, drop, eqb};
ghost use Rattle.exact.specs.Chain.{ret_p};
ghost use Rattle.exact.specs.Byte.{on_p};
ghost use Rattle.grammar.specs.Bytes.{within};
ghost use Rattle.grammar.specs.Value.{banned};
ghost use Rattle.model.specs.Characters.{next6, plain_byte, char_p};
ghost use Rattle.scan.specs.Pieces.{Got};
ghost use Rattle.pieces.specs.Says.{Says};
ghost use Rattle.pieces.specs.Parts.{text_byte, two_p, three_p, four_p};

use crate::{Character, Piece};
use scan::{Step, Stop};

// Whether b may stand raw in a value as a character of one byte, if it is not the quote.
fn is_text(b: u8) -> bool
    ensures { result ≡ text_byte b }
{
    if b < b' ' {
        return scan::is_glue(b);
    }
    match b {
        b'<' | b'&' | 0x80..=0xFF => false,
        _ => true,
    }
}

/// Whether b may stand raw in a value in these quotes as a character of one byte.
pub fn is_plain(b: u8, quote: u8) -> bool
    ensures { result ≡ plain_byte (banned quote) b }
{
    quote != b && is_text(b)
}

// A byte between low and high.
fn tail(s: &[u8], at: usize, low: u8, high: u8) -> Piece
    ensures { Says (λ (b : ℕ). b) 1 s.now at result (on_p (within low high) (λ b. ret_p b) (drop at s.now)) }
{
    if s.len() <= at {
        return Err(Stop::Open);
    }
    let b = s[at];
    if b < low || high < b {
        return Err(Stop::Bad(at));
    }
    Ok(Character {
        code_point: usize::from(b),
        next: at + 1,
    })
}

// The bound of the byte behind b: `there` behind the byte odd, else `usual`.
fn bound(b: u8, odd: u8, there: u8, usual: u8) -> u8
    ensures { result ≡ cond (eqb odd b) there usual }
{
    if odd == b { there } else { usual }
}

// The last byte that may stand behind EF and c.
fn top(c: usize) -> u8
    ensures { result ≡ cond (eqb 191 c) 189 191 }
{
    if 0xBF == c { 0xBD } else { 0xBF }
}

// The number so far, with the six bits of one byte more.
fn next6(v: usize, c: usize) -> usize
    requires { (v ≤ 65535) × (128 ≤ c) × (c ≤ 191) }
    ensures { result ≡ next6 v c }
{
    v * 64 + (c - 0x80)
}

// Behind the lead b of two bytes.
fn two(s: &[u8], at: usize, b: u8) -> Piece
    requires { (194 ≤ b) × (b ≤ 223) }
    ensures { Says (λ (c : ℕ). c) 1 s.now at result (two_p b (drop at s.now)) }
{
    let c = tail(s, at, 0x80, 0xBF)?;
    Ok(Character {
        code_point: next6(usize::from(b) - 0xC0, c.code_point),
        next: c.next,
    })
}

// Behind the lead b of three bytes.
fn three(s: &[u8], at: usize, b: u8) -> Piece
    requires { (224 ≤ b) × (b ≤ 239) }
    ensures { Says (λ (c : ℕ). c) 1 s.now at result (three_p b (drop at s.now)) }
{
    let c = tail(
        s,
        at,
        bound(b, 0xE0, 0xA0, 0x80),
        bound(b, 0xED, 0x9F, 0xBF),
    )?;
    let d = tail(s, c.next, 0x80, bound(b, 0xEF, top(c.code_point), 0xBF))?;
    let v = next6(usize::from(b) - 0xE0, c.code_point);
    Ok(Character {
        code_point: next6(v, d.code_point),
        next: d.next,
    })
}

// Behind the lead b of four bytes.
fn four(s: &[u8], at: usize, b: u8) -> Piece
    requires { (240 ≤ b) × (b ≤ 244) }
    ensures { Says (λ (c : ℕ). c) 1 s.now at result (four_p b (drop at s.now)) }
{
    let c = tail(
        s,
        at,
        bound(b, 0xF0, 0x90, 0x80),
        bound(b, 0xF4, 0x8F, 0xBF),
    )?;
    let d = tail(s, c.next, 0x80, 0xBF)?;
    let e = tail(s, d.next, 0x80, 0xBF)?;
    let v = next6(usize::from(b) - 0xF0, c.code_point);
    Ok(Character {
        code_point: next6(next6(v, d.code_point), e.code_point),
        next: e.next,
    })
}

/// One character that may stand raw in a value in these quotes.
pub fn character(s: &[u8], at: usize, quote: u8) -> Piece
    ensures { Says (λ (c : ℕ). c) 1 s.now at result (char_p (banned quote) (drop at s.now)) }
{
    if s.len() <= at {
        return Err(Stop::Open);
    }
    let b = s[at];
    match b {
        0..=0x7F => {
            if is_plain(b, quote) {
                return Ok(Character {
                    code_point: usize::from(b),
                    next: at + 1,
                });
            }
            Err(Stop::Bad(at))
        }
        0xC2..=0xDF => two(s, at + 1, b),
        0xE0..=0xEF => three(s, at + 1, b),
        0xF0..=0xF4 => four(s, at + 1, b),
        _ => Err(Stop::Bad(at)),
    }
}

/// The place behind that character. Where one beyond ASCII stands it mostly has two or three bytes, and nobody wants to know which it is.
pub fn behind(s: &[u8], at: usize, quote: u8) -> Step
    requires { at < length s.now }
    ensures { Got 1 s.now at result (char_p (banned quote) (drop at s.now)) }
{
    let b = s[at];
    match b {
        0xC2..=0xDF => Ok(two(s, at + 1, b)?.next),
        0xE0..=0xEF => Ok(three(s, at + 1, b)?.next),
        _ => Ok(character(s, at, quote)?.next),
    }
}
