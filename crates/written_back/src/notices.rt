// The Notifications that are sent before a connection ends.
ghost use Rattle.std.specs.Prelude.{◌≤◌, length};
ghost use Rattle.meant.specs.Notices.{notice};
ghost use Rattle.meant.specs.First.{First};
ghost use Rattle.written_back.specs.Described.{Described};
ghost use Rattle.written_back.specs.Framed.{described};

use crate::framed::framed;
use meant::Written;
use value::Span;

// A description a line.
const DESCRIPTIONS: [u8; 108] = *b"\
    malformed message \
    message too long  \
    missing attribute \
    text too long     \
    bad value         \
    invalid transition";

// Where the description of a refusal stands.
fn described(refusal: u8) -> Span
    ensures { Described refusal result.start result.len }
{
    match refusal {
        2 => Span { start: 0, len: 17 },
        3 => Span { start: 18, len: 16 },
        4 => Span { start: 36, len: 17 },
        5 => Span { start: 54, len: 13 },
        6 => Span { start: 72, len: 9 },
        9 => Span { start: 90, len: 18 },
        _ => Span { start: 0, len: 0 },
    }
}

// The Notification with a description.
fn describe(d: &[u8], out: &mut [u8]) -> Written
    requires { length d.now ≤ 80 }
    ensures { First (described d.now) out.old out.new result }
{
    framed(
        b"<Hermes><Notification NotificationCode=\"1\" Severity=\"1\" Description=\"",
        d,
        b"\"/></Hermes>",
        out,
    )
}

/// The Notification of a refusal, first in the buffer: 2, 3, 4, 5, 6 or 9; another number's has no description.
pub fn notify(refusal: u8, out: &mut [u8]) -> Written
    ensures { First (notice refusal) out.old out.new result }
{
    let lines = DESCRIPTIONS;
    let p = described(refusal);
    let start = p.start;
    let end = start + p.len;
    describe(&lines[start..end], out)
}
