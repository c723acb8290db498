// Positive number: above zero, and short enough when written out; told in millionths.
ghost use Rattle.std.specs.Prelude.{◌≡◌, ◌*◌, ◌^◌};
ghost use Rattle.number.specs.Positive.{number_of, decimals_of, number_read};
ghost use Rattle.numerals.specs.Scan.{millionths_of, limited, tenths, ended, power_end, whole_end, body_end, number_end};

use crate::ahead::scanned;
use crate::scan::{Body, Digits, Scan};
use crate::tens::{TOP, far, shifted};
use number::Positive;

/// Millionths: places behind the point that count.
const PLACES: u64 = 6;

// n * 10^k millionths, or none: the limits of a positive number.
fn limit(n: u64, k: u64) -> Option<u64>
    ensures { result ≡ millionths_of (limited (n * 10 ^ k)) }
{
    let m = shifted(n, k);
    if 0 < m && m < TOP { Some(m) } else { None }
}

// n / 10^k millionths, where nothing is left over, or none.
fn lowered(n: u64, k: u64) -> Option<u64>
    ensures { result ≡ millionths_of (tenths k n) }
{
    if n == 0 {
        return None;
    }
    let mut m = n;
    for _ in 0..k {
        if m % 10 != 0 {
            return None;
        }
        m /= 10;
    }
    limit(m, 0)
}

// n * 10^up / 10^down millionths.
fn scaled(n: u64, up: u64, down: u64) -> Option<u64>
    ensures { result ≡ millionths_of (ended n up down) }
{
    if TOP <= n {
        None
    } else if down <= up {
        limit(n, up - down)
    } else {
        lowered(n, down - up)
    }
}

// The millionths of digits with an exponent, which is 0 where there is none.
fn power_end(minus: bool, e: u64, d: Digits) -> Option<u64>
    ensures { result ≡ millionths_of (power_end minus e d) }
{
    let up = far(d.zeros, PLACES);
    if minus {
        scaled(d.n, up, far(d.places, e))
    } else {
        scaled(d.n, far(up, e), d.places)
    }
}

// Behind a minus it is none.
fn whole_end(minus: bool, d: Digits) -> Option<u64>
    ensures { result ≡ millionths_of (whole_end minus d) }
{
    if minus { None } else { power_end(false, 0, d) }
}

fn body_end(body: Body) -> Option<Positive>
    ensures { result ≡ body_end body }
{
    match body {
        Body::Whole(minus, d) => Some(Positive {
            millionths: whole_end(minus, d)?,
            decimals: 0,
        }),
        Body::Part(d) => Some(Positive {
            millionths: power_end(false, 0, d)?,
            decimals: d.places.min(PLACES),
        }),
        Body::Power(minus, e, d) => Some(Positive {
            millionths: power_end(minus, e, d)?,
            decimals: 0,
        }),
        _ => None,
    }
}

/// The scan as a positive number.
pub fn number_end(s: Scan) -> Option<Positive>
    ensures { result ≡ number_end s }
{
    if s.ends.is_broken() {
        return None;
    }
    body_end(s.body)
}

/// What the bytes are as a positive number.
pub fn number_of(v: &[u8]) -> Option<Positive>
    ensures { result ≡ number_read (number_of v.now) (decimals_of v.now) }
{
    number_end(scanned(v))
}
