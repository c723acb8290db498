// Powers of ten on numbers that are told up to the top, and counts up to a bound that no slice reaches.
ghost use Rattle.std.specs.Prelude.{◌≡◌, ◌+◌, ◌*◌, ◌^◌, min};
ghost use Rattle.numerals.specs.Scan.{TOP as TOO_LARGE, FAR as TOO_FAR};

/// The first number with more than 7 digits before the point and 6 behind it.
pub const TOP: u64 = 10000000000000;

/// Counts of digits, and exponents, are told up to here. A slice has fewer bytes.
pub const FAR: u64 = 10000000000000000000;

/// a + b, up to the bound.
pub fn far(a: u64, b: u64) -> u64
    ensures { result ≡ min TOO_FAR (a + b) }
{
    a.saturating_add(b).min(FAR)
}

/// n * 10^k, up to the top.
pub fn shifted(n: u64, k: u64) -> u64
    ensures { result ≡ min TOO_LARGE (n * 10 ^ k) }
{
    // 10^20 is above the largest u64.
    let power = 10u64.saturating_pow(k.min(20) as u32);
    n.saturating_mul(power).min(TOP)
}
