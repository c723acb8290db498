// Children written row by row, behind the attributes.
ghost use Rattle.std.specs.Prelude.{◌≡◌, ◌≤◌, length};
ghost use Rattle.grammar.specs.Bytes.{non_empty};
ghost use Rattle.printing.specs.Put.{Countable, Wrote};
ghost use Rattle.meant.specs.Written.{closed};
ghost use Rattle.rows.specs.Coding.{MOST, as_rows};
ghost use Rattle.writes.specs.Rows.{flagged, features_in, child_bytes, children_from};

use crate::marks::{put_empty, put_end, put_start};
use cells::{Cell, cell_of};
use printing::put_byte;
use rows::data::Row;
use rows::names::{FEATURE_BOARD_FORECAST, FEATURE_QUERY_BOARD_INFO, FEATURE_SEND_BOARD_INFO};

// An empty tag of that name, if it is there.
fn put_flag(out: &mut [u8], at: usize, there: u64, name: &[u8]) -> usize
    requires { Countable at (flagged there name.now) }
    ensures { Wrote out.old at (flagged there name.now) out.new result }
{
    if there == 0 {
        return at;
    }
    let a = put_start(out, at, name);
    put_empty(out, a)
}

// What closes the element of that name with these features inside.
fn put_features(out: &mut [u8], at: usize, name: &[u8], bits: u64) -> usize
    requires { Countable at (closed name.now (features_in bits)) }
    ensures { Wrote out.old at (closed name.now (features_in bits)) out.new result }
{
    let forecast = bits % 2;
    let query = bits / 2 % 2;
    let send = bits / 4 % 2;
    if forecast + query + send == 0 {
        return put_empty(out, at);
    }
    let a = put_byte(out, at, b'>');
    let b = put_flag(out, a, forecast, FEATURE_BOARD_FORECAST);
    let c = put_flag(out, b, query, FEATURE_QUERY_BOARD_INFO);
    let d = put_flag(out, c, send, FEATURE_SEND_BOARD_INFO);
    put_end(out, d, name)
}

// The child of a row, if it is there.
fn put_child(out: &mut [u8], at: usize, row: &Row, cell: Cell) -> usize
    requires { Countable at (child_bytes row.now cell.there cell.a) }
    ensures { Wrote out.old at (child_bytes row.now cell.there cell.a) out.new result }
{
    if !row.form.is_child() || cell.there == 0 {
        return at;
    }
    let a = put_start(out, at, row.name);
    put_features(out, a, row.name, cell.a)
}

// Whether a row has a child.
fn has_child(rows: &[Row], cells: &[u64]) -> bool
    requires { length rows.now ≤ MOST }
    ensures { result ≡ non_empty (children_from (as_rows rows.now) 0 cells.now) }
{
    for (i, row) in rows.iter().enumerate() {
        if row.form.is_child() && cell_of(cells, i).there != 0 {
            return true;
        }
    }
    false
}

// The children of the rows, in table order.
fn put_children(out: &mut [u8], at: usize, rows: &[Row], cells: &[u64]) -> usize
    requires { (length rows.now ≤ MOST) × Countable at (children_from (as_rows rows.now) 0 cells.now) }
    ensures { Wrote out.old at (children_from (as_rows rows.now) 0 cells.now) out.new result }
{
    let mut next = at;
    for (i, row) in rows.iter().enumerate() {
        next = put_child(out, next, row, cell_of(cells, i));
    }
    next
}

/// What closes the element of that name: the children of its rows and its end tag, or the end of an empty tag.
pub fn put_inside(out: &mut [u8], at: usize, rows: &[Row], cells: &[u64], name: &[u8]) -> usize
    requires { (length rows.now ≤ MOST) × Countable at (closed name.now (children_from (as_rows rows.now) 0 cells.now)) }
    ensures { Wrote out.old at (closed name.now (children_from (as_rows rows.now) 0 cells.now)) out.new result }
{
    if has_child(rows, cells) {
        let a = put_byte(out, at, b'>');
        let b = put_children(out, a, rows, cells);
        return put_end(out, b, name);
    }
    put_empty(out, at)
}
