// Decimal digits.
ghost use Rattle.std.specs.Prelude.{◌≡◌};
ghost use Rattle.printing.specs.Put.{Wrote, Countable};
ghost use Rattle.number.specs.Digits.{last_digit, print_int, places};

use crate::bytes::put_byte;

fn last_digit(n: u64) -> u8
    ensures { result ≡ last_digit n }
{
    (48 + n % 10) as u8
}

/// The digits of n, and the next place.
pub fn put_digits(out: &mut [u8], at: usize, n: u64) -> usize
    requires { Countable at (print_int n) }
    ensures { Wrote out.old at (print_int n) out.new result }
{
    if n < 10 {
        return put_byte(out, at, last_digit(n));
    }
    let mid = put_digits(out, at, n / 10);
    put_byte(out, mid, last_digit(n))
}

/// The last k digits of n, and the next place.
pub fn put_places(out: &mut [u8], at: usize, k: usize, n: u64) -> usize
    requires { Countable at (places k n) }
    ensures { Wrote out.old at (places k n) out.new result }
{
    if k == 0 {
        return at;
    }
    let mid = put_places(out, at, k - 1, n / 10);
    put_byte(out, mid, last_digit(n))
}
