// Attributes written row by row.
ghost use Rattle.std.specs.Prelude.{◌≤◌, length};
ghost use Rattle.printing.specs.Put.{Countable, Wrote};
ghost use Rattle.rows.specs.Coding.{MOST, form_of, as_rows};
ghost use Rattle.writes.specs.Rows.{form_value, row_bytes, attributes_from};

use crate::marks::put_given;
use crate::texts::part;
use crate::values::Values;
use cells::{Cell, cell_of};
use printing::{put, put_byte, put_digits};
use rows::data::{Form, Row};
use spells::{put_decimal, put_escaped};
use value::Span;

// What stands between the quotes.
fn put_value(out: &mut [u8], at: usize, form: Form, cell: Cell, values: &Values) -> usize
    requires { Countable at (form_value (form_of form) cell.a cell.b values.now.id.now values.now.texts.now) }
    ensures { Wrote out.old at (form_value (form_of form) cell.a cell.b values.now.id.now values.now.texts.now) out.new result }
{
    match form {
        Form::Features => at,
        Form::Int { .. } => put_digits(out, at, cell.a),
        Form::Positive => put_decimal(out, at, cell.a, cell.b),
        Form::Guid => put_escaped(out, at, values.id),
        Form::Text { .. } | Form::SomeText { .. } | Form::Version => {
            let p = Span {
                start: cell.a as usize,
                len: cell.b as usize,
            };
            put_escaped(out, at, part(values.texts, p))
        }
    }
}

// The attribute of a row, if it is there; a child is none.
fn put_attribute(out: &mut [u8], at: usize, row: &Row, cell: Cell, values: &Values) -> usize
    requires { Countable at (row_bytes row.now cell.there cell.a cell.b values.now.id.now values.now.texts.now) }
    ensures { Wrote out.old at (row_bytes row.now cell.there cell.a cell.b values.now.id.now values.now.texts.now) out.new result }
{
    if cell.there == 0 || row.form.is_child() {
        return at;
    }
    let a = put_byte(out, at, b' ');
    let b = put(out, a, row.name);
    let c = put_given(out, b);
    let d = put_value(out, c, row.form, cell, values);
    put_byte(out, d, b'"')
}

/// The attributes of the rows, in table order.
pub fn put_rows(out: &mut [u8], at: usize, rows: &[Row], values: &Values) -> usize
    requires { (length rows.now ≤ MOST) × Countable at (attributes_from (as_rows rows.now) 0 values.now.cells.now values.now.id.now values.now.texts.now) }
    ensures { Wrote out.old at (attributes_from (as_rows rows.now) 0 values.now.cells.now values.now.id.now values.now.texts.now) out.new result }
{
    let mut next = at;
    for (i, row) in rows.iter().enumerate() {
        next = put_attribute(out, next, row, cell_of(values.cells, i), values);
    }
    next
}
