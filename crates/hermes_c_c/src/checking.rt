// What a message says.
ghost use Rattle.c_promises.specs.Checking.{Finds};

use message::cells::NUMBERS;

/// What the message behind the glue says: the refusal; the message's kind, its cells and its BoardId; where it starts and ends; and the place that is
/// malformed. What there is none of is 0.
#[unsafe(no_mangle)]
pub extern "C" fn tryphomel_check(
    bytes: &[u8],
    kind: &mut u64,
    cells: &mut [u64; NUMBERS],
    id: &mut [u8; 36],
    start: &mut u64,
    end: &mut u64,
    place: &mut u64,
) -> u8
    ensures { Finds bytes.now result start.new end.new place.new kind.new cells.new id.new }
{
    hermes_c::tryphomel_check(bytes, kind, cells, id, start, end, place)
}
