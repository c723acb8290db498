// References: what stands behind an `&`.
// Of a number, the digits so far are kept only while some character can still be named.
ghost use Rattle.std.specs.Prelude.{◌≡◌, true, ◌&&◌, ◌||◌, not, ℕ, ◌+◌, ◌*◌, ◌≤◌, ◌<◌, length, drop, eqb, leb};
ghost use Rattle.grammar.specs.Character.{is_char};
ghost use Rattle.grammar.specs.Reference.{read_reference};
ghost use Rattle.model.specs.References.{ref_p};
ghost use Rattle.scan.specs.Pieces.{word_p};
ghost use Rattle.pieces.specs.Says.{Says};
ghost use Rattle.pieces.specs.Numerals.{base_of, most_of, alive_of, worth_of, numeral_p, value_of};
ghost use Rattle.pieces.specs.Parts.{hash_p, five_p};

use crate::{Character, Piece};
use scan::Stop;

/// Whether c is a character of XML.
pub fn is_char(c: usize) -> bool
    ensures { result ≡ is_char c }
{
    matches!(c, 9..=10 | 13 | 0x20..=0xD7FF | 0xE000..=0xFFFD | 0x10000..=0x10FFFF)
}

// What b is worth as a digit.
fn worth(b: u8, hex: bool) -> Option<usize>
    ensures { result ≡ worth_of hex b }
{
    match b {
        b'0'..=b'9' => Some(usize::from(b) - 48),
        b'A'..=b'F' if hex => Some(usize::from(b) - 55),
        b'a'..=b'f' if hex => Some(usize::from(b) - 87),
        _ => None,
    }
}

// The most digits that a reference may have.
fn most(hex: bool) -> usize
    ensures { result ≡ most_of hex }
{
    if hex { 6 } else { 7 }
}

// One digit more.
fn grow(v: usize, d: usize, hex: bool) -> usize
    requires { (v ≤ 1114111) × (d ≤ 16) }
    ensures { result ≡ v * base_of hex + d }
{
    let base = if hex { 16 } else { 10 };
    v * base + d
}

// Whether v, which is no character, can become one by `left` digits: edge needs two.
fn below(v: usize, left: usize, edge: usize, top: usize) -> bool
    ensures { result ≡ leb v top && (not (eqb edge v) || leb 2 left) }
{
    v <= top && (edge != v || 2 <= left)
}

// Whether v is a character, or becomes one by at most `left` more digits.
fn is_alive(v: usize, left: usize, hex: bool) -> bool
    ensures { result ≡ alive_of hex left v }
{
    if is_char(v) {
        return true;
    }
    if left == 0 {
        return false;
    }
    if hex {
        return below(v, left, 1, 0x10FFF);
    }
    below(v, left, 2, 111411)
}

// The digits of a reference, and `;`.
fn number(s: &[u8], at: usize, hex: bool) -> Piece
    ensures { Says (value_of hex) 1 s.now at result (numeral_p hex (drop at s.now)) }
{
    let mut v = 0;
    let mut left = most(hex);
    for i in at..s.len() {
        let b = s[i];
        let Some(d) = worth(b, hex) else {
            if b != b';' {
                return Err(Stop::Bad(i));
            }
            if is_char(v) {
                return Ok(Character {
                    code_point: v,
                    next: i + 1,
                });
            }
            return Err(Stop::Bad(i));
        };
        if left == 0 {
            return Err(Stop::Bad(i));
        }
        v = grow(v, d, hex);
        left -= 1;
        if !is_alive(v, left, hex) {
            return Err(Stop::Bad(i));
        }
    }
    Err(Stop::Open)
}

// A word that stands for a code point.
fn word(s: &[u8], at: usize, bytes: &[u8], code_point: usize) -> Piece
    requires { at ≤ length s.now }
    ensures { Says (λ (x : ℕ). code_point) (length bytes.now) s.now at result (word_p bytes.now (drop at s.now)) }
{
    let next = scan::literal(s, at, bytes)?;
    Ok(Character { code_point, next })
}

// One of the five names.
fn named(s: &[u8], at: usize) -> Piece
    ensures { Says read_reference 1 s.now at result (five_p (drop at s.now)) }
{
    if s.len() <= at {
        return Err(Stop::Open);
    }
    match s[at] {
        b'a' => {
            if s.len() - at < 2 {
                return Err(Stop::Open);
            }
            if s[at + 1] == b'm' {
                return word(s, at + 1, b"mp;", 38);
            }
            word(s, at + 1, b"pos;", 39)
        }
        b'l' => word(s, at, b"lt;", 60),
        b'g' => word(s, at, b"gt;", 62),
        _ => word(s, at, b"quot;", 34),
    }
}

// Behind `&#`.
fn hash(s: &[u8], at: usize) -> Piece
    ensures { Says read_reference 1 s.now at result (hash_p (drop at s.now)) }
{
    if s.len() <= at {
        return Err(Stop::Open);
    }
    if s[at] == b'x' {
        return number(s, at + 1, true);
    }
    number(s, at, false)
}

/// A reference, behind its `&`.
pub fn reference(s: &[u8], at: usize) -> Piece
    ensures { Says read_reference 1 s.now at result (ref_p (drop at s.now)) }
{
    if s.len() <= at {
        return Err(Stop::Open);
    }
    if s[at] == b'#' {
        return hash(s, at + 1);
    }
    named(s, at)
}
