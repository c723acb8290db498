// Version: digits before a point, and digits behind it.
ghost use Rattle.std.specs.Prelude.{◌≡◌, ◌≤◌, length};
ghost use Rattle.number.specs.Bytes.{within};
ghost use Rattle.number.specs.Version.{version_of};
ghost use Rattle.shapes.specs.Rows.{figures};

use numerals::byte::is_digit;

// Digits of a version, before and behind the point.
const GROUP: usize = 3;

// How many digits stand first.
fn digits(v: &[u8]) -> usize
    ensures upto { result ≤ length v.now }
    ensures count { result ≡ figures v.now }
{
    v.iter().take_while(|b| is_digit(**b)).count()
}

// Whether a version may have so many digits before or behind the point.
fn is_group(n: usize) -> bool
    ensures { result ≡ within 1 3 n }
{
    1 <= n && n <= GROUP
}

/// Whether the bytes are a version.
pub fn is_version(v: &[u8]) -> bool
    ensures { result ≡ version_of v.now }
{
    let before = digits(v);
    let [b'.', rest @ ..] = &v[before..] else {
        return false;
    };
    let behind = digits(rest);
    (behind == rest.len()) & is_group(before) & is_group(behind)
}
