// A text in one call: the refusal, and the part.
ghost use Rattle.std.specs.Prelude.{◌≡◌};
ghost use Rattle.value.specs.Asked.{refusal_of, Asked};

use crate::part::text_part;
use crate::text::text_decode;
use value::{Span, TextAt};

/// The number that is said: 0 for a text.
pub fn refusal_of(at: TextAt) -> u8
    ensures { result ≡ refusal_of at }
{
    match at {
        TextAt::InMessage(_) => 0,
        TextAt::InScratch(_) => 0,
        TextAt::No(k) => k,
    }
}

/// The text of the value t of the message, and the number that is said. The scratch is spent: nothing is said of what it holds afterwards.
pub fn ask_text<'a>(
    msg: &'a [u8],
    t: Option<Span>,
    scratch: &'a mut [u8],
    refusal: &mut u8,
) -> &'a [u8]
    ensures { Asked msg.entry.ref_ptr msg.now t scratch.entry.ref_ptr scratch.old refusal.new result }
{
    let at = text_decode(msg, t, scratch);
    *refusal = refusal_of(at);
    let s = &scratch[..];
    text_part(msg, s, at)
}
