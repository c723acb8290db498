// Why a message may not be sent: its rows in table order, the first that refuses decides.
ghost use Rattle.std.specs.Prelude.{◌≡◌, ◌≤◌, ◌&&◌, cond, leb, length};
ghost use Rattle.grammar.specs.Bytes.{within};
ghost use Rattle.number.specs.Positive.{BEHIND};
ghost use Rattle.number.specs.Guid.{guid_of};
ghost use Rattle.refusals.specs.Numbers.{told};
ghost use Rattle.meant.specs.Meant.{MOST as most};
ghost use Rattle.table.specs.Says.{without, refusal_in};
ghost use Rattle.rows.specs.Coding.{MOST as FEW, may_miss, as_rows};
ghost use Rattle.writes.specs.Rows.{row_refusal, refusal_from};

use crate::texts;
use crate::values::Values;
use cells::{Cell, cell_of};
use refusals::Refusal;
use rows::data::{Form, Need, Row};
use value::Span;

// The largest positive number, in millionths: seven digits before the point and six behind it.
const MOST: u64 = 9_999_999_999_999;

// The most digits behind the point.
const PLACES: u64 = 6;

// A row that is not there.
fn missing(need: Need) -> Result<(), Refusal>
    ensures { told result ≡ refusal_in (without (may_miss need)) }
{
    match need {
        Need::Required => Err(Refusal::Missing),
        Need::Optional => Ok(()),
    }
}

fn ranged(n: u64, low: u64, high: u64) -> Result<(), Refusal>
    ensures { told result ≡ cond (within low high n) 0 6 }
{
    if n < low || high < n {
        return Err(Refusal::BadValue);
    }
    Ok(())
}

// A positive number in millionths, with so many digits behind the point.
fn a_measure(millionths: u64, decimals: u64) -> Result<(), Refusal>
    ensures { told result ≡ cond (within 1 most millionths && leb decimals BEHIND) 0 6 }
{
    if PLACES < decimals {
        return Err(Refusal::BadValue);
    }
    ranged(millionths, 1, MOST)
}

fn an_id(id: &[u8]) -> Result<(), Refusal>
    ensures { told result ≡ cond (guid_of id.now) 0 6 }
{
    if shapes::is_guid(id) {
        return Ok(());
    }
    Err(Refusal::BadValue)
}

// One row.
fn row_allows(row: &Row, cell: Cell, values: &Values) -> Result<(), Refusal>
    ensures { told result ≡ row_refusal row.now cell.there cell.a cell.b values.now.id.now values.now.texts.now }
{
    if cell.there == 0 {
        return missing(row.need);
    }
    let p = Span {
        start: cell.a as usize,
        len: cell.b as usize,
    };
    match row.form {
        Form::Features => Ok(()),
        Form::Text { most } => texts::text(values.texts, p, most),
        Form::SomeText { most } => texts::some_text(values.texts, p, most),
        Form::Int { low, high } => ranged(cell.a, low as u64, high as u64),
        Form::Guid => an_id(values.id),
        Form::Version => texts::a_version(values.texts, p),
        Form::Positive => a_measure(cell.a, cell.b),
    }
}

/// The rows in table order, up to the first that refuses.
pub fn rows_allow(rows: &[Row], values: &Values) -> Result<(), Refusal>
    requires { length rows.now ≤ FEW }
    ensures { told result ≡ refusal_from (as_rows rows.now) 0 values.now.cells.now values.now.id.now values.now.texts.now }
{
    for (i, row) in rows.iter().enumerate() {
        row_allows(row, cell_of(values.cells, i), values)?;
    }
    Ok(())
}
