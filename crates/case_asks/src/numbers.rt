// What decoded bytes are worth.
use case_words::line::byte;
use case_words::show::{put, told};
use number::{Int, Positive};
use numerals::Scan;
use routes::RouteClass;

fn whole(rt: &impl Print, r: Option<Int>) {
    let Some(i) = r else {
        put(rt, b"bad\n");
        return;
    };
    if i.negative {
        put(rt, b"-");
    }
    told(rt, b"", i.size as u64);
    put(rt, b"\n");
}

// A match from a class to its word: a `Display` would hold the same match.
fn class(rt: &impl Print, of: RouteClass) {
    match of {
        RouteClass::Undefined => put(rt, b"undefined\n"),
        RouteClass::Route => put(rt, b"a route\n"),
        RouteClass::Return => put(rt, b"return\n"),
        RouteClass::ManualRemoval => put(rt, b"manual removal\n"),
        RouteClass::Reserved => put(rt, b"reserved\n"),
        RouteClass::Own => put(rt, b"the line's own\n"),
    }
}

// The class of a Route; a number below zero is none.
fn route(rt: &impl Print, r: Option<Int>) {
    match r {
        Some(i) if !i.negative => class(rt, routes::route_class(i.size as u64)),
        _ => put(rt, b"bad\n"),
    }
}

fn decimal(rt: &impl Print, r: Option<Positive>) {
    let Some(p) = r else {
        put(rt, b"bad\n");
        return;
    };
    told(rt, b"", p.millionths);
    if 0 < p.decimals {
        told(rt, b"+", p.decimals);
    }
    put(rt, b"\n");
}

fn yes(rt: &impl Print, is: bool) {
    if is {
        put(rt, b"yes\n");
    } else {
        put(rt, b"no\n");
    }
}

fn scan(start: Scan, v: &[u8], from: usize, to: usize) -> Scan {
    let mut s = start;
    for i in from..to {
        s = s.step(byte(v, i));
    }
    s
}

// An Int whose bytes stand in two places.
fn in_two(rt: &impl Print, v: &[u8], cut: usize) {
    let start = Scan::start();
    let half = scan(start, v, 0, cut);
    let all = scan(half, v, cut, v.len());
    whole(rt, numerals::int_end(all));
}

/// `int`, `number`, `guid`, `version`, `Route`, and `two CUT`: an Int whose first bytes stand apart.
pub fn worth(rt: &impl Print, letter: u8, v: &[u8], cut: usize) {
    // A letter is matched to its call: a table of functions would hold the same letters, and hide which call each is.
    match letter {
        b'i' => whole(rt, numerals::int_of(v)),
        b'n' => decimal(rt, numerals::number_of(v)),
        b'g' => yes(rt, shapes::is_guid(v)),
        b'v' => yes(rt, shapes::is_version(v)),
        b'R' => route(rt, numerals::int_of(v)),
        _ => in_two(rt, v, cut),
    }
}
