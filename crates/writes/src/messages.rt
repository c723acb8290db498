// Whole messages of cells.
ghost use Rattle.printing.specs.Put.{Countable, Wrote};
ghost use Rattle.rows.specs.Coding.{Enters};
ghost use Rattle.writes.specs.Rows.{written_from, answered, CellsWritten};

use crate::children::put_inside;
use crate::marks::put_start;
use crate::putting::put_rows;
use crate::refusing::rows_allow;
use crate::values::Values;
use meant::Written;
use printing::put;
use refusals::Refusal;
use rows::data::{Entry, entry_of};

// The tags of the root.
const ROOT: [u8; 8] = *b"<Hermes>";

const ROOT_END: [u8; 9] = *b"</Hermes>";

// No message is longer.
const LARGEST: usize = 6462;

// The message of the kind k from the first byte on, as far as it fits; its whole length.
fn put_message(out: &mut [u8], k: u8, entry: &Entry, values: &Values) -> usize
    requires { Enters k entry.now × Countable 0 (written_from k values.now.cells.now values.now.id.now values.now.texts.now) }
    ensures { Wrote out.old 0 (written_from k values.now.cells.now values.now.id.now values.now.texts.now) out.new result }
{
    let a = put(out, 0, &ROOT);
    let b = put_start(out, a, entry.name);
    let c = put_rows(out, b, entry.rows, values);
    let d = put_inside(out, c, entry.rows, values.cells, entry.name);
    put(out, d, &ROOT_END)
}

// A message of cells first into the buffer. Where there is room for the largest message, none is measured.
fn put_cells(kind: u8, values: &Values, out: &mut [u8]) -> Result<usize, Refusal>
    ensures { CellsWritten kind values.now.cells.now values.now.id.now values.now.texts.now out.old out.new (answered result) }
{
    let Some(entry) = entry_of(kind) else {
        return Err(Refusal::MayNotBeSent);
    };
    rows_allow(entry.rows, values)?;
    if out.len() < LARGEST {
        let mut measured = [0u8; 1];
        let n = put_message(&mut measured, kind, entry, values);
        if out.len() < n {
            return Err(Refusal::NoRoom);
        }
    }
    Ok(put_message(out, kind, entry, values))
}

/// Writes a message of cells first into the buffer. 4, 5, 6 as the first row in table order refuses it; 8 for a kind that the table does not
/// have; 7 if it does not fit. A refused message writes nothing.
pub fn write_cells(kind: u8, cells: &[u64], id: &[u8], texts: &[u8], out: &mut [u8]) -> Written
    ensures { CellsWritten kind cells.now id.now texts.now out.old out.new result }
{
    match put_cells(kind, &Values { cells, id, texts }, out) {
        Ok(count) => Written { refusal: 0, count },
        Err(refusal) => Written {
            refusal: refusal.number(),
            count: 0,
        },
    }
}
