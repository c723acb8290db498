// The reader of messages: what stands behind the glue in front of an input, as one of the four answers.
#![tactic(auto)]

ghost use Rattle.grammar.specs.Answer.{Answers};
ghost use Rattle.reader.specs.Answer.{paper, AtMost, Outlined};
ghost use Rattle.reader.specs.Child.{NextChild};

pub mod answer;
mod declaration;
mod elements;
mod message;

use answer::{Answer, Child, Sketch, Unread};
use grammar::Limits;
use scan::Stop;

/// At most as many bytes as a message may have.
fn window(left: usize) -> usize
    ensures { AtMost left result }
{
    if left < Limits::MESSAGE {
        return left;
    }
    Limits::MESSAGE
}

/// What stands behind the glue in front of s; of a message the attributes of its root's child have their places in a table that is lent for them,
/// counted from the place behind its name. Without a message the table is scratch.
pub fn outline(s: &[u8], table: &mut [u16]) -> Result<Sketch, Unread>
    ensures { Outlined s.now table.old table.new result }
{
    let start = scan::skip_glue(s, 0);
    let n = window(s.len() - start);
    let end = start + n;
    match message::message(&s[..end], start, &mut *table) {
        Ok(m) => Ok(Sketch {
            start,
            end: m.next,
            child: m.outline,
        }),
        Err(Stop::Open) => {
            if n < Limits::MESSAGE {
                return Err(Unread::More { start });
            }
            Err(Unread::TooLong { start })
        }
        Err(Stop::Bad(place)) => Err(Unread::Malformed { start, place }),
    }
}

/// What stands behind the glue in front of s.
pub fn read(s: &[u8]) -> Answer
    ensures { Answers s.now (paper result) }
{
    let mut none = [0u16; 0];
    match outline(s, &mut none) {
        Ok(o) => Answer::Ends {
            start: o.start,
            end: o.end,
        },
        Err(Unread::More { start }) => Answer::More { start },
        Err(Unread::Malformed { start, place }) => Answer::Malformed { start, place },
        Err(Unread::TooLong { start }) => Answer::TooLong { start },
    }
}

/// The element that stands at `at` behind filler, as the next child stands in the content of a message's root's child or
/// below it.
pub fn child(s: &[u8], at: usize) -> Option<Child>
    ensures { NextChild s.now at result }
{
    if s.len() < at {
        return None;
    }
    let Ok(j) = fillers::filler_lt(s, at, true) else {
        return None;
    };
    let mut none = [0u16; 0];
    let Ok(c) = message::child_at(s, j, Limits::DEPTH - 3, &mut none) else {
        return None;
    };
    Some(c)
}
