// What stands in a line: bytes, words and decimal numbers.
ghost use Rattle.std.specs.Prelude.{◌≤◌, ◌<◌, ◌+◌, length};

/// A number, and the place behind it.
#[derive(Clone, Copy)]
pub struct Figures {
    pub value: u64,
    pub next: usize,
}

/// A byte, how often it stands there, and the place behind it.
#[derive(Clone, Copy)]
struct Run {
    byte: u8,
    count: u64,
    next: usize,
}

/// The byte i; 0 behind the end.
pub fn byte(s: &[u8], i: usize) -> u8 {
    s.get(i).copied().unwrap_or(0)
}

/// The first place of b at or behind a place, or the end.
pub fn find(s: &[u8], from: usize, b: u8) -> usize
    requires { from ≤ length s.now }
    ensures { (from ≤ result) × (result ≤ length s.now) }
{
    match s[from..].iter().position(|&x| x == b) {
        Some(n) => from + n,
        None => s.len(),
    }
}

/// The low byte of a number.
pub fn low(n: u64) -> u8 {
    (n % 256) as u8
}

// What a digit is worth, also a hex digit.
fn worth(b: u8) -> u64
    ensures { result < 16 }
{
    match b {
        b'0'..=b'9' => u64::from(b - b'0'),
        b'a'..=b'f' => u64::from(b - b'a') + 10,
        _ => 0,
    }
}

/// The decimal number from a place on, of at most 20 digits.
pub fn decimal(s: &[u8], from: usize) -> Figures
    requires { from ≤ 2000000 }
    ensures { (from ≤ result.next) × (result.next ≤ from + 20) }
{
    let mut n: u64 = 0;
    for i in 0..20 {
        let b = byte(s, from + i);
        if b.is_ascii_digit() {
            n = n % 1000000000000000000 * 10 + worth(b);
        } else {
            return Figures {
                value: n,
                next: from + i,
            };
        }
    }
    Figures {
        value: n,
        next: from + 20,
    }
}

fn one(s: &[u8], at: usize) -> Run
    requires { at ≤ 2000000 }
    ensures { at < result.next }
{
    let b = byte(s, at);
    if b == b'\\' {
        let v = worth(byte(s, at + 2)) * 16 + worth(byte(s, at + 3));
        return Run {
            byte: low(v),
            count: 1,
            next: at + 4,
        };
    }
    Run {
        byte: b,
        count: 1,
        next: at + 1,
    }
}

fn piece(s: &[u8], at: usize) -> Run
    requires { at ≤ 1000000 }
    ensures { at < result.next }
{
    if byte(s, at) == b'\\' && byte(s, at + 1) == b'{' {
        let n = decimal(s, at + 2);
        return Run {
            count: n.value,
            ..one(s, n.next + 1)
        };
    }
    one(s, at)
}

// The byte b, that often, behind the first bytes, as far as there is room.
fn fill(out: &mut [u8], len: usize, count: u64, b: u8) -> usize {
    if out.len() <= len {
        return len;
    }
    let end = len.saturating_add(count as usize).min(out.len());
    out[len..end].fill(b);
    end
}

/// The bytes that are written there, first in a buffer, and how many.
pub fn bytes(s: &[u8], out: &mut [u8]) -> usize {
    let mut at: usize = 0;
    let mut len: usize = 0;
    // By hand: the next place is what was read there.
    while at < s.len() {
        if 1000000 < at {
            return len;
        }
        let p = piece(s, at);
        len = fill(&mut *out, len, p.count, p.byte);
        at = p.next;
    }
    len
}
