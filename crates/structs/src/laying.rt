// One value of a message, laid into its cell. Cells are handed on by value, as in making.rt.
ghost use Rattle.std.specs.Prelude.{◌≡◌, ◌≤◌};
ghost use Rattle.message.specs.Fields.{a_guid};
ghost use Rattle.message.specs.Messages.{bytes_in};
ghost use Rattle.structs.specs.Celled.{numbers, placed, laid};

use crate::celled::{Cell, Celled};
use message::cells::NUMBERS;

// The three numbers of the cell i.
fn put_cell(cells: [u64; NUMBERS], i: usize, c: Cell) -> [u64; NUMBERS]
    requires { i ≤ 23 }
    ensures { result ≡ placed i (numbers c) cells }
{
    let mut cells = cells;
    let at = 3 * i;
    cells[at] = c.there;
    cells[at + 1] = c.a;
    cells[at + 2] = c.b;
    cells
}

/// The value in the cell i.
pub fn put<T: Celled>(cells: [u64; NUMBERS], i: usize, v: T) -> [u64; NUMBERS]
    requires { i ≤ 23 }
    ensures { result ≡ laid i (T.field v) cells }
{
    put_cell(cells, i, v.cell())
}

/// Whether the id is there; its bytes stand apart.
pub fn put_id(cells: [u64; NUMBERS], i: usize, g: Option<[u8; 36]>) -> [u64; NUMBERS]
    requires { i ≤ 23 }
    ensures { result ≡ laid i (a_guid g) cells }
{
    let c = match g {
        None => Cell::ABSENT,
        Some(_) => Cell {
            there: 1,
            a: 0,
            b: 0,
        },
    };
    put_cell(cells, i, c)
}

/// The bytes of an id; zeros if it is absent.
pub fn bytes_in(g: Option<[u8; 36]>) -> [u8; 36]
    ensures { result ≡ bytes_in g }
{
    g.unwrap_or([0u8; 36])
}
