// Decimals.
ghost use Rattle.std.specs.Prelude.{◌≡◌, ◌≤◌};
ghost use Rattle.number.specs.Positive.{BEHIND};
ghost use Rattle.number.specs.Digits.{places};
ghost use Rattle.printing.specs.Put.{Wrote, Countable};
ghost use Rattle.spelling.specs.Written.{mattering, padded, print_part, print_decimal};

use printing::{put_byte, put_digits, put_places};

// A whole, in millionths.
const ONE: u64 = 1_000_000;

// Places behind the point.
const PLACES: u64 = 6;

// Digits behind the point: how many, and the number that they write.
#[derive(Clone, Copy)]
struct Part {
    k: u64,
    m: u64,
}

// The millionths n in six digits, without zeros at the end as long as more digits than `least` are left.
fn cut(n: u64, least: u64) -> Part
    requires { least ≤ BEHIND }
    ensures { (result.k ≤ BEHIND) × (places result.k result.m ≡ padded least (mattering n)) }
{
    let mut k = PLACES;
    let mut m = n;
    // By hand: it ends by what is left of the number as well as by a count.
    while least < k && m % 10 == 0 {
        m /= 10;
        k -= 1;
    }
    Part { k, m }
}

// The point and the millionths n behind it, without zeros at the end as long as more digits than `least` are left.
fn put_part(out: &mut [u8], at: usize, n: u64, least: u64) -> usize
    requires { (least ≤ BEHIND) × Countable at (print_part n least) }
    ensures { Wrote out.old at (print_part n least) out.new result }
{
    let p = cut(n, least);
    let k = p.k;
    if k == 0 {
        return at;
    }
    let behind = put_byte(out, at, b'.');
    put_places(out, behind, k as usize, p.m)
}

/// A decimal with so many digits behind the point, or as many as matter, and the next place.
pub fn put_decimal(out: &mut [u8], at: usize, millionths: u64, decimals: u64) -> usize
    requires { Countable at (print_decimal millionths decimals) }
    ensures { Wrote out.old at (print_decimal millionths decimals) out.new result }
{
    let least = decimals.min(PLACES);
    let mid = put_digits(out, at, millionths / ONE);
    put_part(out, mid, millionths % ONE, least)
}
