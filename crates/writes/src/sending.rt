// Messages, refused or written by their cells.
ghost use Rattle.std.specs.Prelude.{◌≡◌};
ghost use Rattle.meant.specs.Meant.{refusal_of};
ghost use Rattle.meant.specs.Writes.{Writes};
ghost use Rattle.message.specs.Messages.{message_by};

use crate::messages::write_cells;
use crate::refusing::rows_allow;
use crate::values::Values;
use meant::Written;
use message::Message;
use refusals::told;
use rows::data::rows_of;

/// 4, 5 or 6 by the first row of the kind that refuses these cells, or 0.
pub fn refusal_of_cells(kind: u8, cells: &[u64], id: &[u8], texts: &[u8]) -> u8
    ensures { result ≡ refusal_of (message_by kind cells.now id.now) texts.now }
{
    told(rows_allow(rows_of(kind), &Values { cells, id, texts }))
}

/// 4, 5 or 6 by the first row that refuses, or 0. Kinds without rows are not refused here.
pub fn refusal_of(m: Message, texts: &[u8]) -> u8
    ensures { result ≡ refusal_of m texts.now }
{
    refusal_of_cells(m.kind, &m.cells, &m.id, texts)
}

/// Writes a message, whose texts are parts of `texts`, first into the buffer. 4, 5, 6 as the first row in table order refuses it; 8 for a kind
/// that the table does not have; 7 if it does not fit. A refused message writes nothing.
pub fn write(m: Message, texts: &[u8], out: &mut [u8]) -> Written
    ensures { Writes m texts.now out.old out.new result }
{
    write_cells(m.kind, &m.cells, &m.id, texts, out)
}
