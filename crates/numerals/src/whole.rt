// Int: a sign, then digits, in a size that is told up to 65,536.
ghost use Rattle.std.specs.Prelude.{◌≡◌};
ghost use Rattle.number.specs.Whole.{int_of, capped, paper};
ghost use Rattle.numerals.specs.Scan.{sized_as, int_body_end, int_end};

use crate::ahead::scanned;
use crate::scan::{Body, Digits, Scan};
use crate::tens::shifted;
use number::Int;

// Sizes of Ints are told apart up to here.
const CAP: u64 = 65536;

// Minus zero is zero.
fn sized_as(minus: bool, d: Digits) -> Int
    ensures { result ≡ sized_as minus d }
{
    if d.n == 0 {
        return Int {
            negative: false,
            size: 0,
        };
    }
    Int {
        negative: minus,
        size: shifted(d.n, d.zeros).min(CAP) as u32,
    }
}

fn body_end(body: Body) -> Option<Int>
    ensures { result ≡ int_body_end body }
{
    match body {
        Body::Whole(minus, d) => Some(sized_as(minus, d)),
        _ => None,
    }
}

/// The scan as an Int.
pub fn int_end(s: Scan) -> Option<Int>
    ensures { result ≡ int_end s }
{
    if s.ends.is_broken() {
        return None;
    }
    body_end(s.body)
}

/// What the bytes are as an Int.
pub fn int_of(v: &[u8]) -> Option<Int>
    ensures { paper result ≡ capped (int_of v.now) }
{
    int_end(scanned(v))
}
