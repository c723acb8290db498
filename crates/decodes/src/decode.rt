// A value read as a whole: how long it reads, and its bytes into a buffer.
ghost use Rattle.std.specs.Prelude.{◌≡◌, ◌+◌, ◌≤◌, length};
ghost use Rattle.grammar.specs.Character.{utf8};
ghost use Rattle.decodes.specs.Decoded.{LengthSays, PutInRoom, Decoded};

use crate::units::unit;
use crate::utf8::{utf8_bytes, utf8_len};

/// How many bytes the value reads as, if the bytes are items.
pub fn text_len(raw: &[u8]) -> Option<usize>
    ensures { LengthSays raw.now result }
{
    let mut i = 0;
    let mut n: usize = 0;
    // By hand: the next place is what was read there.
    while i < raw.len() {
        let c = unit(raw, i)?;
        n += utf8_len(c.code_point);
        i = c.next;
    }
    Some(n)
}

// The bytes of c from n up to `next`, if there is room for them; the next place.
fn put_utf8(out: &mut [u8], n: usize, next: usize, c: usize) -> usize
    requires { (c ≤ 0x10FFFF) × (next ≡ n + length (utf8 c)) }
    ensures { PutInRoom out.old n (utf8 c) out.new result }
{
    if next <= out.len() {
        // A test for each byte: a copy up to `next`, in a loop too, is a call of memcpy for each character.
        for (k, &b) in utf8_bytes(c).iter().enumerate() {
            if n + k < next {
                out[n + k] = b;
            }
        }
    }
    next
}

/// How many bytes the value reads as; they stand first in `out`, if there is room for them.
pub fn decode(raw: &[u8], out: &mut [u8]) -> Option<usize>
    ensures { Decoded raw.now out.old out.new result }
{
    let mut i = 0;
    let mut n: usize = 0;
    // By hand: the next place is what was read there.
    while i < raw.len() {
        let c = unit(raw, i)?;
        let next = n + utf8_len(c.code_point);
        n = put_utf8(out, n, next, c.code_point);
        i = c.next;
    }
    Some(n)
}
