// A text between bytes that are known, put down as it stands.
ghost use Rattle.std.specs.Prelude.{◌≤◌, length};
ghost use Rattle.printing.specs.Put.{Countable, Wrote};
ghost use Rattle.meant.specs.First.{First};
ghost use Rattle.written_back.specs.Framed.{framed as around};

use meant::Written;
use printing::put;
use spells::put_escaped;

// No more is put down: 80 bytes in front, 80 of which each becomes six, 80 behind.
const LARGEST: usize = 640;

// The text with what stands around it, as far as it fits; its whole length.
fn put_framed(out: &mut [u8], front: &[u8], text: &[u8], back: &[u8]) -> usize
    requires { Countable 0 (around front.now text.now back.now) }
    ensures { Wrote out.old 0 (around front.now text.now back.now) out.new result }
{
    let a = put(out, 0, front);
    let b = put_escaped(out, a, text);
    put(out, b, back)
}

/// The text as it stands between quotes, with what stands in front of it and behind it, first in the buffer; 7 if that does not fit. Where there is
/// room for the longest, none is measured.
pub fn framed(front: &[u8], text: &[u8], back: &[u8], out: &mut [u8]) -> Written
    requires { (length front.now ≤ 80) × (length text.now ≤ 80) × (length back.now ≤ 80) }
    ensures { First (around front.now text.now back.now) out.old out.new result }
{
    if LARGEST <= out.len() {
        let n = put_framed(out, front, text, back);
        return Written {
            refusal: 0,
            count: n,
        };
    }
    let mut measured = [0u8; 1];
    let n = put_framed(&mut measured, front, text, back);
    if out.len() < n {
        return Written {
            refusal: 7,
            count: 0,
        };
    }
    let n = put_framed(out, front, text, back);
    Written {
        refusal: 0,
        count: n,
    }
}
