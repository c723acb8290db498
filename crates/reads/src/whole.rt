// A message read and its rows tried.
ghost use Rattle.std.specs.Prelude.{◌≡◌, ◌≤◌, length};
ghost use Rattle.message.specs.Cells.{NUMBERS as MOST};
ghost use Rattle.refusals.specs.Numbers.{told};
ghost use Rattle.reads.specs.Whole.{outcome_of, without_message, Sketched, OutlineSorts, CellsChecked};

use crate::attributes::Attributes;
use crate::features::{Sort, sort_outlined};
use crate::kind_rows::check_rows;
use reader::answer::{Sketch, Unread};
use refusals::{Refusal, told};
use tags::attributes::PLACES;

/// What stands behind the glue in front of an input, as message::Checked says, without what a message says.
// Numbers, 0 where there is nothing to tell: `check_cells` promises them so (CellsChecked), as `Found` and `Checked` have them for C.
#[derive(Clone, Copy)]
pub struct Outcome {
    pub refusal: u8,
    pub kind: u8,
    pub start: usize,
    pub end: usize,
    pub place: usize,
}

fn made(answer: Result<(), Refusal>, kind: u8, start: usize, end: usize, place: usize) -> Outcome
    ensures { result ≡ outcome_of (told answer) kind start end place }
{
    Outcome {
        refusal: told(answer),
        kind,
        start,
        end,
        place,
    }
}

// The answers without a message.
fn unread(x: Unread) -> Outcome
    ensures { result ≡ without_message x }
{
    match x {
        Unread::More { start } => made(Err(Refusal::Incomplete), 0, start, 0, 0),
        Unread::Malformed { start, place } => made(Err(Refusal::Malformed), 0, start, 0, place),
        Unread::TooLong { start } => made(Err(Refusal::MessageTooLong), 0, start, 0, 0),
    }
}

/// Puts down a cell for each row of the kind of the message that an outline found in s, with the places that it put into the table.
pub fn tell(
    s: &[u8],
    outline: Result<Sketch, Unread>,
    sort: Sort,
    table: &[u16],
    cells: &mut [u64],
) -> Outcome
    requires { (MOST ≤ length cells.old) × Sketched s.now table.now outline × OutlineSorts s.now outline sort }
    ensures { CellsChecked s.now cells.old cells.new result }
{
    match outline {
        Ok(o) => {
            let attributes = Attributes {
                message: s,
                base: o.child.to,
                table,
                count: o.child.count,
            };
            let answer = check_rows(&attributes, sort, cells);
            made(answer, sort.kind, o.start, o.end, 0)
        }
        Err(x) => unread(x),
    }
}

/// Reads the message behind the glue in front of s, and puts down a cell for each row of its kind.
pub fn check_cells(s: &[u8], cells: &mut [u64]) -> Outcome
    requires { MOST ≤ length cells.old }
    ensures { CellsChecked s.now cells.old cells.new result }
{
    let mut table = [0u16; PLACES];
    let outline = reader::outline(s, &mut table);
    let sort = sort_outlined(s, outline);
    tell(s, outline, sort, &table, cells)
}
