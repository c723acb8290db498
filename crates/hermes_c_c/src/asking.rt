// A text of a message for C: the refusal, and which bytes the text is.
ghost use Rattle.c_promises.specs.Texts.{TextTold};

/// The text of the raw value that stands at `start`, `len` bytes long, or is absent if `there` is 0. It returns the refusal.
/// On 0 `place` is 1 if the text is the `count` bytes of `bytes` from `at` on, and 2 if it is the first `count` bytes of
/// `scratch`; on a refusal all three are 0.
#[unsafe(no_mangle)]
pub extern "C" fn tryphomel_text(
    bytes: &[u8],
    there: u8,
    start: u64,
    len: u64,
    scratch: &mut [u8],
    place: &mut u64,
    at: &mut u64,
    count: &mut u64,
) -> u8
    ensures { TextTold bytes.now there start len scratch.old scratch.new result place.new at.new count.new }
{
    hermes_c::tryphomel_text(bytes, there, start, len, scratch, place, at, count)
}
