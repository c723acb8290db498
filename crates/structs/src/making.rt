// One value of a message, made from its cell. Cells are handed over by value; the compiler inlines the calls and drops the copies.
ghost use Rattle.std.specs.Prelude.{◌≡◌, cond, ◌≤◌};
ghost use Rattle.structs.specs.Celled.{zeros, held_in, guid_at};

use crate::celled::{Cell, Celled};
use message::Message;
use message::cells::NUMBERS;

/// The cells of a message, if it is of the wanted kind; else zeros.
pub fn cells_if(wanted: bool, m: Message) -> [u64; NUMBERS]
    ensures { result ≡ cond wanted m.cells zeros }
{
    if wanted {
        return m.cells;
    }
    [0u64; NUMBERS]
}

/// What the cell i holds.
pub fn at<T: Celled>(cells: [u64; NUMBERS], i: usize) -> T
    requires { i ≤ 23 }
    ensures { result ≡ T.of (held_in cells i) }
{
    let at = 3 * i;
    T::of_cell(Cell {
        there: cells[at],
        a: cells[at + 1],
        b: cells[at + 2],
    })
}

/// The id, which stands apart, if the cell i says that it is there.
#[tactic(auto, unfolding(message::specs::Cells::guid_by))]
pub fn id_at(cells: [u64; NUMBERS], i: usize, id: [u8; 36]) -> Option<[u8; 36]>
    requires { i ≤ 23 }
    ensures { result ≡ guid_at cells i id }
{
    (cells[3 * i] != 0).then_some(id)
}
