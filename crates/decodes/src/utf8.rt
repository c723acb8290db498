// The bytes of a character in UTF-8.
ghost use Rattle.std.specs.Prelude.{◌≡◌, ◌+◌, ◌%◌, ◌≤◌, length, take};
ghost use Rattle.grammar.specs.Character.{utf8};

/// How many there are.
pub fn utf8_len(c: usize) -> usize
    ensures { result ≡ length (utf8 c) }
{
    match c {
        0..=0x7F => 1,
        0x80..=0x7FF => 2,
        0x800..=0xFFFF => 3,
        _ => 4,
    }
}

// A byte behind the first: the last six bits.
fn tail(c: usize) -> u8
    ensures { result ≡ 0x80 + c % 64 }
{
    (0x80 + c % 64) as u8
}

/// They stand first in what is returned.
pub fn utf8_bytes(c: usize) -> [u8; 4]
    requires { c ≤ 0x10FFFF }
    ensures long { length result ≡ 4 }
    ensures bytes { take (length (utf8 c)) result ≡ utf8 c }
{
    match c {
        0..=0x7F => [c as u8, 0, 0, 0],
        0x80..=0x7FF => [(0xC0 + c / 64) as u8, tail(c), 0, 0],
        0x800..=0xFFFF => [(0xE0 + c / 64 / 64) as u8, tail(c / 64), tail(c), 0],
        _ => [
            (0xF0 + c / 64 / 64 / 64) as u8,
            tail(c / 64 / 64),
            tail(c / 64),
            tail(c),
        ],
    }
}
