// Numbers as bytes come one by one: blanks at the ends, a sign, digits, a point, an exponent. What a scan is worth is told at its end, as an Int
// or as a positive number.
ghost use Rattle.std.specs.Prelude.{◌≡◌, ◌+◌, ◌*◌, min};
ghost use Rattle.number.specs.Bytes.{figure};
ghost use Rattle.number.specs.Positive.{mark};
ghost use Rattle.numerals.specs.Scan.{FAR as TOO_FAR, joined, zeros_more, with_digit, whole_digit, part_digit, part_step, sign_step, whole_step, first_step, power_digit, mark_step, body_step, start, step};

use crate::byte::{figure_of, is_digit};
use crate::ends::Ends;
use crate::tens::{FAR, TOP, far};

/// Below this one digit more stays below the top.
pub const TENTH: u64 = 1000000000000;

/// The digits so far, before and behind the point: they write n with so many zeros behind it, of which only those are left out of n that would
/// bring it to the top. An n at the top has more digits that matter than a positive number may have. Of the digits so many stand behind the point.
#[derive(Clone, Copy)]
pub struct Digits {
    pub n: u64,
    pub zeros: u64,
    pub places: u64,
}

/// A number without its blanks, as far as read: a sign; digits with the sign before them; a point, and no digit yet; digits with a point; the mark
/// of an exponent behind digits; its sign, whether it is a minus; its digits, as a number up to the bound.
#[derive(Clone, Copy)]
pub enum Body {
    Start,
    Signed(bool),
    Whole(bool, Digits),
    Point,
    Part(Digits),
    Mark(Digits),
    Turned(bool, Digits),
    Power(bool, u64, Digits),
    Dead,
}

/// A number, as far as read.
#[derive(Clone, Copy)]
pub struct Scan {
    pub ends: Ends,
    pub body: Body,
}

// Whether an exponent starts with the byte.
fn is_mark(b: u8) -> bool
    ensures { result ≡ mark b }
{
    matches!(b, b'e' | b'E')
}

// The n with one more digit.
#[tactic(auto, unfolding(crate::specs::Scan::joined))]
fn digit_more(n: u64, b: u8) -> u64
    ensures { result ≡ joined n b }
{
    if n < TENTH {
        10 * n + figure_of(b) as u64
    } else if n < TOP && b == b'0' {
        n
    } else {
        TOP
    }
}

// The zeros left out of n, with one more digit.
#[tactic(auto, unfolding(crate::specs::Scan::zeros_more))]
fn zeros_more(n: u64, zeros: u64) -> u64
    ensures { result ≡ zeros_more n zeros }
{
    if n < TENTH { zeros } else { far(zeros, 1) }
}

// The digits with one more, of which then so many stand behind the point.
fn with_digit(d: Digits, places: u64, b: u8) -> Digits
    ensures { result ≡ with_digit d places b }
{
    Digits {
        n: digit_more(d.n, b),
        zeros: zeros_more(d.n, d.zeros),
        places,
    }
}

const NO_DIGITS: Digits = Digits {
    n: 0,
    zeros: 0,
    places: 0,
};

// One more digit before the point.
fn whole_digit(minus: bool, d: Digits, b: u8) -> Body
    ensures { result ≡ whole_digit minus d b }
{
    Body::Whole(minus, with_digit(d, 0, b))
}

// One more digit behind the point.
#[tactic(auto, unfolding(crate::specs::Scan::part_digit))]
fn part_digit(d: Digits, b: u8) -> Body
    ensures { result ≡ part_digit d b }
{
    if is_digit(b) {
        Body::Part(with_digit(d, far(d.places, 1), b))
    } else {
        Body::Dead
    }
}

// Behind a point with a digit on either side: digits, or an exponent.
#[tactic(auto, unfolding(crate::specs::Scan::part_step))]
fn part_step(d: Digits, b: u8) -> Body
    ensures { result ≡ part_step d b }
{
    if is_mark(b) {
        Body::Mark(d)
    } else {
        part_digit(d, b)
    }
}

// Behind a sign: digits, or a point, which a minus does not have behind it.
#[tactic(auto, unfolding(crate::specs::Scan::sign_step))]
fn sign_step(minus: bool, b: u8) -> Body
    ensures { result ≡ sign_step minus b }
{
    if is_digit(b) {
        whole_digit(minus, NO_DIGITS, b)
    } else if minus {
        Body::Dead
    } else if b == b'.' {
        Body::Point
    } else {
        Body::Dead
    }
}

// Behind digits: digits, a point, or an exponent.
#[tactic(auto, unfolding(crate::specs::Scan::whole_step))]
fn whole_step(minus: bool, d: Digits, b: u8) -> Body
    ensures { result ≡ whole_step minus d b }
{
    if is_digit(b) {
        whole_digit(minus, d, b)
    } else if minus {
        Body::Dead
    } else if b == b'.' {
        Body::Part(d)
    } else if is_mark(b) {
        Body::Mark(d)
    } else {
        Body::Dead
    }
}

#[tactic(auto, unfolding(crate::specs::Scan::first_step))]
fn first_step(b: u8) -> Body
    ensures { result ≡ first_step b }
{
    match b {
        b'-' => Body::Signed(true),
        b'+' => Body::Signed(false),
        _ => sign_step(false, b),
    }
}

// The exponent with one more digit, up to the bound.
fn power_more(e: u64, b: u8) -> u64
    ensures { result ≡ min TOO_FAR (10 * e + figure b) }
{
    e.saturating_mul(10)
        .saturating_add(figure_of(b) as u64)
        .min(FAR)
}

// One more digit of an exponent.
#[tactic(auto, unfolding(crate::specs::Scan::power_digit))]
fn power_digit(minus: bool, e: u64, d: Digits, b: u8) -> Body
    ensures { result ≡ power_digit minus e d b }
{
    if is_digit(b) {
        Body::Power(minus, power_more(e, b), d)
    } else {
        Body::Dead
    }
}

// Behind the mark of an exponent: its sign, or a digit.
#[tactic(auto, unfolding(crate::specs::Scan::mark_step))]
fn mark_step(d: Digits, b: u8) -> Body
    ensures { result ≡ mark_step d b }
{
    match b {
        b'-' => Body::Turned(true, d),
        b'+' => Body::Turned(false, d),
        _ => power_digit(false, 0, d, b),
    }
}

impl Body {
    #[tactic(auto, unfolding(crate::specs::Scan::body_step))]
    pub fn step(self, b: u8) -> Body
        ensures { result ≡ body_step self b }
    {
        match self {
            Body::Start => first_step(b),
            Body::Signed(minus) => sign_step(minus, b),
            Body::Whole(minus, d) => whole_step(minus, d, b),
            Body::Point => part_digit(NO_DIGITS, b),
            Body::Part(d) => part_step(d, b),
            Body::Mark(d) => mark_step(d, b),
            Body::Turned(minus, d) => power_digit(minus, 0, d, b),
            Body::Power(minus, e, d) => power_digit(minus, e, d, b),
            Body::Dead => Body::Dead,
        }
    }
}

impl Scan {
    pub fn start() -> Scan
        ensures { result ≡ start }
    {
        Scan {
            ends: Ends::Front,
            body: Body::Start,
        }
    }

    #[tactic(auto, unfolding(crate::specs::Scan::step))]
    pub fn step(self, b: u8) -> Scan
        ensures { result ≡ step self b }
    {
        let ends = self.ends.step(b);
        if ends.is_inside() {
            let body = self.body.step(b);
            Scan { ends, body }
        } else {
            Scan { ends, ..self }
        }
    }
}
