// What a message says.
ghost use Rattle.c_promises.specs.Checking.{Finds};

use message::cells::NUMBERS;

/// What the message behind the glue says: the refusal; the message's kind, its cells and its BoardId; where it starts and ends; and the place that is
/// malformed. What there is none of is 0.
pub fn tryphomel_check(
    bytes: &[u8],
    kind: &mut u64,
    cells: &mut [u64; NUMBERS],
    id: &mut [u8; 36],
    start: &mut u64,
    end: &mut u64,
    place: &mut u64,
) -> u8
    ensures { Finds bytes.now result start.new end.new place.new kind.new cells.new id.new }
{
    *cells = [0u64; NUMBERS];
    let f = reads::check_into(bytes, &mut *cells);
    let b = f.id;
    *kind = f.kind as u64;
    *id = b;
    *start = f.start as u64;
    *end = f.end as u64;
    *place = f.place as u64;
    f.refusal
}
