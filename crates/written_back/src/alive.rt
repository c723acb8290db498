// The reply to a CheckAlive of Type 1.
ghost use Rattle.meant.specs.First.{First};
ghost use Rattle.meant.specs.Replies.{Replies};
ghost use Rattle.written_back.specs.Framed.{bare_reply, SameReply};

use crate::framed::framed;
use meant::Written;
use value::Span;

// Without an Id.
fn reply_bare(out: &mut [u8]) -> Written
    ensures { First bare_reply out.old out.new result }
{
    framed(b"<Hermes><CheckAlive Type=\"2\"", b"", b"/></Hermes>", out)
}

// With the Id v; 5 if that is longer than 80 bytes.
fn reply_with(v: &[u8], out: &mut [u8]) -> Written
    ensures { SameReply v.now out.old out.new result }
{
    if 80 < v.len() {
        return Written {
            refusal: 5,
            count: 0,
        };
    }
    framed(
        b"<Hermes><CheckAlive Type=\"2\" Id=\"",
        v,
        b"\"/></Hermes>",
        out,
    )
}

/// The reply to a CheckAlive, first in the buffer: Type 2 and the same Id, which is the value `id` of the message s. 5 if it reads as more
/// than 80 bytes, 6 if it is no text of s, 7 if the reply does not fit; then nothing is written.
pub fn reply(s: &[u8], id: Option<Span>, out: &mut [u8]) -> Written
    ensures { Replies s.now id out.old out.new result }
{
    let mut scratch = [0u8; 80];
    let at = texts::text_decode(s, id, &mut scratch);
    let v = texts::text_part(s, &scratch, at);
    match texts::refusal_of(at) {
        0 => reply_with(v, out),
        4 => reply_bare(out),
        6 => Written {
            refusal: 6,
            count: 0,
        },
        _ => Written {
            refusal: 5,
            count: 0,
        },
    }
}
