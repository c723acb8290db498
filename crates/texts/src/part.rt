// The part of a slice that a text is.
ghost use Rattle.std.specs.Prelude.{◌+◌, ◌≤◌, length};
ghost use Rattle.value.specs.Parts.{placed, part_or, part_at, Lies};

use value::TextAt;

fn part_of<'a>(s: &'a [u8], at: usize, n: usize) -> &'a [u8]
    requires { at + n ≤ length s.now }
    ensures { Lies (placed s.entry.ref_ptr s.now at n) result }
{
    &s[at..at + n]
}

// The part of s, or the empty part of msg if s does not reach so far.
fn part_or<'a>(msg: &'a [u8], s: &'a [u8], at: usize, n: usize) -> &'a [u8]
    ensures { Lies (part_or msg.entry.ref_ptr msg.now s.entry.ref_ptr s.now at n) result }
{
    if s.len() < at {
        return part_of(msg, 0, 0);
    }
    if s.len() - at < n {
        return part_of(msg, 0, 0);
    }
    part_of(s, at, n)
}

/// The part that a text is; for none, the empty part at the first byte of the message.
pub fn text_part<'a>(msg: &'a [u8], scratch: &'a [u8], at: TextAt) -> &'a [u8]
    ensures { Lies (part_at msg.entry.ref_ptr msg.now scratch.entry.ref_ptr scratch.now at) result }
{
    match at {
        TextAt::InMessage(p) => {
            let start = p.start;
            let len = p.len;
            part_or(msg, msg, start, len)
        }
        TextAt::InScratch(n) => part_or(msg, scratch, 0, n),
        TextAt::No(_) => part_of(msg, 0, 0),
    }
}
