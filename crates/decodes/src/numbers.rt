// Numbers of raw values, scanned where they stand, or character by character: no scratch is needed.
ghost use Rattle.std.specs.Prelude.{◌≡◌, ◌≤◌};
ghost use Rattle.grammar.specs.Character.{utf8};
ghost use Rattle.numerals.specs.Scan.{run, step};
ghost use Rattle.decodes.specs.Walked.{WalkSays};
ghost use Rattle.value.specs.Numbers.{IntReads, NumberReads};

use crate::tests::is_plain;
use crate::units::unit;
use crate::utf8::{utf8_bytes, utf8_len};
use number::{Int, Positive};
use numerals::Scan;

// The scan after the bytes of the character c.
fn char_step(from: Scan, c: usize) -> Scan
    requires { c ≤ 0x10FFFF }
    ensures { result ≡ run step from (utf8 c) }
{
    let bytes = utf8_bytes(c);
    let mut s = from;
    for &b in &bytes[..utf8_len(c)] {
        s = s.step(b);
    }
    s
}

// The scan of what the value reads as, character by character, if the bytes are items.
fn walked(raw: &[u8]) -> Option<Scan>
    ensures { WalkSays raw.now result }
{
    let mut s = Scan::start();
    let mut i = 0;
    // By hand: the next place is what was read there.
    while i < raw.len() {
        let c = unit(raw, i)?;
        s = char_step(s, c.code_point);
        i = c.next;
    }
    Some(s)
}

/// An Int, as the value reads.
pub fn int_at(raw: &[u8]) -> Option<Int>
    ensures { IntReads raw.now result }
{
    if is_plain(raw) {
        return numerals::int_of(raw);
    }
    numerals::int_end(walked(raw)?)
}

/// A positive number, as the value reads.
pub fn number_at(raw: &[u8]) -> Option<Positive>
    ensures { NumberReads raw.now result }
{
    if is_plain(raw) {
        return numerals::number_of(raw);
    }
    numerals::number_end(walked(raw)?)
}
