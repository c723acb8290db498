// A text of a message for C: the refusal, and which bytes the text is.
ghost use Rattle.c_promises.specs.Texts.{TextTold};

use cells::text_from;
use value::TextAt;

/// The text of the raw value that stands at `start`, `len` bytes long, or is absent if `there` is 0. It returns the refusal.
/// On 0 `place` is 1 if the text is the `count` bytes of `bytes` from `at` on, and 2 if it is the first `count` bytes of
/// `scratch`; on a refusal all three are 0.
pub fn tryphomel_text(
    bytes: &[u8],
    there: u8,
    start: u64,
    len: u64,
    scratch: &mut [u8],
    place: &mut u64,
    at: &mut u64,
    count: &mut u64,
) -> u8
    ensures { TextTold bytes.now there start len scratch.old scratch.new result place.new at.new count.new }
{
    let t = text_from(there as u64, start, len);
    let answer = texts::text_decode(bytes, t, scratch);
    match answer {
        TextAt::InMessage(p) => {
            *place = 1;
            *at = p.start as u64;
            *count = p.len as u64;
            0
        }
        TextAt::InScratch(n) => {
            *place = 2;
            *at = 0;
            *count = n as u64;
            0
        }
        TextAt::No(k) => {
            *place = 0;
            *at = 0;
            *count = 0;
            k
        }
    }
}
