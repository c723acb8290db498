// The words of an answer.
ghost use Rattle.std.specs.Prelude.{◌≤◌, length};

use crate::given::{A, B, C, X};
use lane::{Forecast, Lane, Side, State};

pub fn put(rt: &impl Print, s: &[u8]) {
    let _ = rt.write_all(s);
}

/// A word, and the number behind it.
pub fn told(rt: &impl Print, word: &[u8], n: u64) {
    put(rt, word);
    let _ = rt.print(n);
}

pub fn small(rt: &impl Print, word: &[u8], n: u8) {
    told(rt, word, u64::from(n));
}

// A match from a number to its word: a `Display` would hold the same match, and the number stays one.
fn side(rt: &impl Print, n: u8) {
    match n {
        Side::UPSTREAM => put(rt, b"U "),
        Side::DOWNSTREAM => put(rt, b"D "),
        _ => {
            small(rt, b"side ", n);
            put(rt, b" ");
        }
    }
}

// A match from a number to its word: a `Display` would hold the same match, and the number stays one.
pub fn state(rt: &impl Print, n: u8) {
    match n {
        State::NOT_CONNECTED => put(rt, b"NotConnected"),
        State::DESCRIBED_DOWN => put(rt, b"DescribedDown"),
        State::IDLE => put(rt, b"Idle"),
        State::OFFERED => put(rt, b"Offered"),
        State::READY => put(rt, b"Ready"),
        State::BOTH => put(rt, b"Both"),
        State::TRANSPORTING => put(rt, b"Transporting"),
        State::STOPPED => put(rt, b"Stopped"),
        State::FINISHED => put(rt, b"Finished"),
        _ => small(rt, b"state ", n),
    }
}

// The letter of an id, `-` for zero bytes.
fn mark(id: [u8; 36]) -> u8 {
    if id == [0u8; 36] {
        b'-'
    } else if id == A {
        b'A'
    } else if id == B {
        b'B'
    } else if id == C {
        b'C'
    } else if id == X {
        b'X'
    } else {
        b'?'
    }
}

fn letter(rt: &impl Print, id: [u8; 36]) {
    put(rt, b" ");
    put(rt, &[mark(id)]);
}

// How many bytes stand before the zeros at the end.
fn filled(bytes: &[u8]) -> usize
    ensures { result ≤ length bytes.now }
{
    match bytes.iter().rposition(|&b| b != 0) {
        Some(last) => last + 1,
        None => 0,
    }
}

fn word(rt: &impl Print, s: &[u8]) {
    put(rt, b" ");
    put(rt, s);
}

// A ForecastId by its length and its bytes, zeros at the end left out; nothing where there is none.
fn named(rt: &impl Print, length: u8, bytes: &[u8]) {
    let n = filled(bytes);
    if length == 0 && n == 0 {
        return;
    }
    small(rt, b" forecast ", length);
    word(rt, &bytes[..n]);
}

fn forecast(rt: &impl Print, f: Forecast) {
    named(rt, f.length, &f.bytes);
}

/// Side and state, the offered and the running id, the forecast.
pub fn record(rt: &impl Print, lane: Lane) {
    side(rt, lane.side);
    state(rt, lane.state);
    letter(rt, lane.offered);
    letter(rt, lane.running);
    forecast(rt, lane.forecast);
}

/// Whether the record stayed as it was.
pub fn change(rt: &impl Print, before: Lane, after: Lane) {
    if before == after {
        put(rt, b", same record");
    } else {
        put(rt, b", new record");
    }
}

// Whether the bytes from a place on are still the filler.
fn untouched(s: &[u8], from: usize) -> bool {
    s.iter().skip(from).all(|&b| b == b'~')
}

/// How many bytes of the room are written, and whether the others are as they were.
pub fn room(rt: &impl Print, out: &[u8], count: usize, room: usize) {
    told(rt, b", written ", count as u64);
    told(rt, b" of ", room as u64);
    if untouched(out, count) {
        put(rt, b", rest kept");
    } else {
        put(rt, b", rest changed");
    }
}

/// The first bytes, in a line of their own.
pub fn bytes(rt: &impl Print, word: &[u8], s: &[u8], len: usize) {
    if s.len() < len || len == 0 {
        return;
    }
    put(rt, word);
    put(rt, &s[..len]);
    put(rt, b"\n");
}
