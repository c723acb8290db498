// Messages and records as the words of a line. A message is its kind, by name or number, and a word for each row of the kind: `-` if it is absent, a
// number (of features their bits 1, 2, 4), PLACE+LENGTH of a text in the line's bytes, the letter of an id. What is left out is absent.
ghost use Rattle.std.specs.Prelude.{◌≤◌};

use crate::line::{Figures, byte, decimal, find, low};
use lane::{Forecast, Lane, Side};
use message::Message;
use message::cells::NUMBERS;

pub const A: [u8; 36] = *b"01234567-89ab-cdef-0123-456789abcdef";

/// A with one digit changed.
pub const B: [u8; 36] = *b"01234567-89ab-cdef-0123-456789abcdee";

pub const C: [u8; 36] = *b"fedcba98-7654-3210-fedc-ba9876543210";

/// No GUID.
pub const X: [u8; 36] = *b"xxxxxxxxxxxxxxxxxxxxxxxxxxxxxxxxxxxx";

/// A with a capital.
const K: [u8; 36] = *b"01234567-89ab-cdef-0123-456789abcdeF";

const F: [u8; 36] = *b"ffffffff-ffff-ffff-ffff-ffffffffffff";

const Z: [u8; 36] = *b"00000000-0000-0000-0000-000000000000";

/// The three numbers of a value, the letter of the message's id so far, and the place behind the word.
#[derive(Clone, Copy)]
struct Value {
    there: u64,
    a: u64,
    b: u64,
    letter: u8,
    next: usize,
}

/// The id of a letter; zero bytes where it has none.
pub fn id(letter: u8) -> [u8; 36] {
    match letter {
        b'A' => A,
        b'B' => B,
        b'C' => C,
        b'F' => F,
        b'K' => K,
        b'X' => X,
        b'Z' => Z,
        _ => [0u8; 36],
    }
}

/// The kind from a place on.
pub fn kind(s: &[u8], from: usize) -> Figures {
    if s.len() <= from || 1000000 < from {
        return Figures {
            value: 0,
            next: from,
        };
    }
    if s[from].is_ascii_digit() {
        return decimal(s, from);
    }
    let end = find(s, from, b' ');
    Figures {
        value: u64::from(rows::kind_named(&s[from..end])),
        next: end,
    }
}

fn number(s: &[u8], from: usize, letter: u8) -> Value
    requires { from ≤ 1000001 }
{
    let n = decimal(s, from);
    let value = Value {
        there: 1,
        a: n.value,
        b: 0,
        letter,
        next: n.next,
    };
    if byte(s, n.next) != b'+' {
        return value;
    }
    let len = decimal(s, n.next + 1);
    Value {
        b: len.value,
        next: len.next,
        ..value
    }
}

// A word that is no number.
fn mark(b: u8, letter: u8, at: usize, next: usize) -> Value {
    let absent = Value {
        there: 0,
        a: 0,
        b: 0,
        letter,
        next,
    };
    match b {
        b'-' => absent,
        b'A'..=b'Z' => Value {
            there: 1,
            letter: b,
            ..absent
        },
        _ => Value { next: at, ..absent },
    }
}

// The word behind a blank.
fn word(s: &[u8], at: usize, letter: u8) -> Value {
    if 1000000 < at {
        return mark(b'-', letter, at, at);
    }
    let b = byte(s, at + 1);
    if b.is_ascii_digit() {
        return number(s, at + 1, letter);
    }
    mark(b, letter, at, at + 2)
}

/// The message from a place on.
pub fn message(s: &[u8], from: usize) -> Message {
    let k = kind(s, from);
    let mut cells = [0u64; NUMBERS];
    let mut letter = b'-';
    let mut at = k.next;
    for i in 0..24 {
        let c = word(s, at, letter);
        cells[3 * i] = c.there;
        cells[3 * i + 1] = c.a;
        cells[3 * i + 2] = c.b;
        letter = c.letter;
        at = c.next;
    }
    Message {
        kind: low(k.value),
        cells,
        id: id(letter),
    }
}

fn side(b: u8) -> u8 {
    match b {
        b'U' => Side::UPSTREAM,
        b'D' => Side::DOWNSTREAM,
        b'3' => 3,
        _ => 0,
    }
}

/// A ForecastId of these bytes.
pub fn forecast(v: &[u8]) -> Forecast {
    events::kept(v)
}

/// The record from a place on: `SIDE STATE OFFERED RUNNING`, a state by its number, ids by their letters; then, if it keeps a ForecastId, the length of
/// that, whose bytes are v.
pub fn record(s: &[u8], at: usize, v: &[u8]) -> Lane
    requires { at ≤ 1000 }
{
    let n = decimal(s, at + 2);
    let side = side(byte(s, at));
    let offered = id(byte(s, n.next + 1));
    let running = id(byte(s, n.next + 3));
    let length = decimal(s, n.next + 5);
    let forecast = Forecast {
        length: low(length.value),
        ..forecast(v)
    };
    Lane {
        side,
        state: low(n.value),
        offered,
        running,
        forecast,
    }
}
