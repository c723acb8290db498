// What a message says.
ghost use Rattle.std.specs.Prelude.{◌≡◌, replicate};
ghost use Rattle.message.specs.Cells.{NUMBERS as MANY};
ghost use Rattle.message.specs.Checked.{Checks, ChecksInto};
ghost use Rattle.reads.specs.Whole.{Sketched, OutlineSorts};

use crate::features::{Sort, sort_outlined};
use crate::ids::take_id;
use crate::whole::{Outcome, tell};
use cells::clear;
use message::cells::NUMBERS;
use message::{Checked, Found, Message};
use reader::answer::{Sketch, Unread};
use tags::attributes::PLACES;

fn told(o: Outcome, id: [u8; 36]) -> Found
    ensures { result ≡ record { refusal = o.refusal; kind = o.kind; start = o.start; end = o.end; place = o.place; id = id } }
{
    Found {
        refusal: o.refusal,
        kind: o.kind,
        start: o.start,
        end: o.end,
        place: o.place,
        id: id,
    }
}

/// Tries the attributes of the message that an outline found in s, with its kind and features, and with the places that the outline put into the table. What
/// the message says stands in the cells then; they stay zeros if it is refused. It stands apart from the outline and the features, so that the stack of all is
/// not needed at once.
pub fn check_outlined(
    s: &[u8],
    outline: Result<Sketch, Unread>,
    sort: Sort,
    table: &[u16],
    cells: &mut [u64],
) -> Found
    requires { (cells.old ≡ replicate MANY 0) × Sketched s.now table.now outline × OutlineSorts s.now outline sort }
    ensures { ChecksInto s.now cells.new result }
{
    let o = tell(s, outline, sort, table, &mut *cells);
    if o.refusal == 0 {
        let id = take_id(s, o.kind, &mut *cells);
        return told(o, id);
    }
    clear(&mut *cells);
    told(o, [0u8; 36])
}

/// Reads the message behind the glue in front of s, and tries its attributes. What it says stands in the cells then; they stay zeros if it is refused.
pub fn check_into(s: &[u8], cells: &mut [u64]) -> Found
    requires { cells.old ≡ replicate MANY 0 }
    ensures { ChecksInto s.now cells.new result }
{
    let mut table = [0u16; PLACES];
    let outline = reader::outline(s, &mut table);
    let sort = sort_outlined(s, outline);
    check_outlined(s, outline, sort, &table, cells)
}

/// Reads the message behind the glue in front of s, and tries its attributes.
pub fn check(s: &[u8]) -> Checked
    ensures { Checks s.now result }
{
    let mut cells = [0u64; NUMBERS];
    let f = check_into(s, &mut cells);
    let id = f.id;
    let message = Message {
        kind: f.kind,
        cells: cells,
        id: id,
    };
    Checked {
        refusal: f.refusal,
        start: f.start,
        end: f.end,
        place: f.place,
        message: message,
    }
}
