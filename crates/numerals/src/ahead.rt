// The scan of bytes that stand in a row: runs of digits first, which come often, and byte by byte what is left.
ghost use Rattle.std.specs.Prelude.{◌≡◌};
ghost use Rattle.numerals.specs.Scan.{run, start, step};
ghost use Rattle.numerals.specs.Ahead.{Runs, whole_of, part_of};

use crate::byte::{figure_of, is_digit};
use crate::ends::Ends;
use crate::scan::{Body, Digits, Scan, TENTH};

// A run of digits: what they write behind the digits before it, and how many they are.
#[derive(Clone, Copy)]
struct Run {
    n: u64,
    len: usize,
}

// The digits that v begins with, behind digits that write n, as long as no zero has to be left out.
fn digit_run(v: &[u8], n: u64) -> Run
    ensures { Runs v.now n result }
{
    let mut m = n;
    let mut len = 0;
    for &b in v {
        if TENTH <= m || !is_digit(b) {
            break;
        }
        m = 10 * m + figure_of(b) as u64;
        len += 1;
    }
    Run { n: m, len }
}

// The scan goes on, byte by byte.
fn stepped(from: Scan, v: &[u8]) -> Scan
    ensures { result ≡ run step from v.now }
{
    let mut s = from;
    for &b in v {
        s = s.step(b);
    }
    s
}

// The scan goes on behind a point, before which digits write n.
fn part_ahead(n: u64, v: &[u8]) -> Scan
    ensures { result ≡ run step (part_of n 0) v.now }
{
    let r = digit_run(v, n);
    let d = Digits {
        n: r.n,
        zeros: 0,
        places: r.len as u64,
    };
    let s = Scan {
        ends: Ends::Inside,
        body: Body::Part(d),
    };
    stepped(s, &v[r.len..])
}

// The scan goes on behind digits that write n.
fn whole_ahead(n: u64, v: &[u8]) -> Scan
    ensures { result ≡ run step (whole_of n 0) v.now }
{
    let r = digit_run(v, n);
    let rest = &v[r.len..];
    if let [b'.', part @ ..] = rest {
        return part_ahead(r.n, part);
    }
    let d = Digits {
        n: r.n,
        zeros: 0,
        places: 0,
    };
    let s = Scan {
        ends: Ends::Inside,
        body: Body::Whole(false, d),
    };
    stepped(s, rest)
}

/// The scan after the bytes.
pub fn scanned(v: &[u8]) -> Scan
    ensures { result ≡ run step start v.now }
{
    match v {
        [b, rest @ ..] if is_digit(*b) => whole_ahead(figure_of(*b) as u64, rest),
        _ => stepped(Scan::start(), v),
    }
}
