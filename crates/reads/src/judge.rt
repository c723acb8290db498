// Raw values judged, each by the form that its row asks for.
ghost use Rattle.std.specs.Prelude.{◌≡◌, ◌≤◌};
ghost use Rattle.refusals.specs.Numbers.{told};
ghost use Rattle.table.specs.Table.{words, some_words, whole, guid as a_guid, version as aVersion, positive};
ghost use Rattle.table.specs.Says.{refusal_in};
ghost use Rattle.rows.specs.Coding.{form_of};
ghost use Rattle.reads.specs.Kept.{int_of, size_of, verdict_in, verdict_of, Judges, RowJudges};

use crate::tried::{Cell, Tried};
use refusals::Refusal;
use rows::data::Form;

/// A text of at most so many bytes. What a value reads as is no longer than the value.
pub fn text(raw: &[u8], limit: usize) -> Result<(), Refusal>
    ensures { Judges refusal_in (words limit) raw.now (told result) }
{
    if raw.len() <= limit {
        return Ok(());
    }
    let Some(size) = decodes::text_len(raw) else {
        return Err(Refusal::TextTooLong);
    };
    if size <= limit {
        return Ok(());
    }
    Err(Refusal::TextTooLong)
}

/// A text of at least one and at most so many bytes.
pub fn some_text(raw: &[u8], limit: usize) -> Result<(), Refusal>
    ensures { Judges refusal_in (some_words limit) raw.now (told result) }
{
    if raw.len() == 0 {
        return Err(Refusal::BadValue);
    }
    text(raw, limit)
}

/// A GUID.
pub fn guid(raw: &[u8]) -> Result<(), Refusal>
    ensures { Judges refusal_in a_guid raw.now (told result) }
{
    if decodes::guid_at(raw) {
        return Ok(());
    }
    Err(Refusal::BadValue)
}

/// A Version.
pub fn version(raw: &[u8]) -> Result<(), Refusal>
    ensures { Judges refusal_in aVersion raw.now (told result) }
{
    if decodes::version_at(raw) {
        return Ok(());
    }
    Err(Refusal::BadValue)
}

/// An int from lo to hi.
pub fn int(raw: &[u8], lo: u64, hi: u64) -> Result<Cell, Refusal>
    requires { hi ≤ 65535 }
    ensures { Judges int_of (whole lo hi) raw.now (verdict_in result) }
{
    let Some(i) = decodes::int_at(raw) else {
        return Err(Refusal::BadValue);
    };
    let n = i.size as u64;
    if i.negative || n < lo || hi < n {
        return Err(Refusal::BadValue);
    }
    Ok(Cell::number(n))
}

/// A positive number.
pub fn size(raw: &[u8]) -> Result<Cell, Refusal>
    ensures { Judges size_of positive raw.now (verdict_in result) }
{
    let Some(n) = decodes::number_at(raw) else {
        return Err(Refusal::BadValue);
    };
    Ok(Cell {
        there: 1,
        a: n.millionths,
        b: n.decimals,
    })
}

/// A value that starts there, by the form of its row. A child has no value.
pub fn judged(raw: &[u8], start: usize, form: Form) -> Tried
    ensures { RowJudges (form_of form) raw.now start (verdict_of result) }
{
    let cell = Cell::place(start, raw.len());
    let answer = match form {
        Form::Features => return Tried::from(Err(Refusal::BadValue)),
        Form::Text { most } => text(raw, most as usize),
        Form::SomeText { most } => some_text(raw, most as usize),
        Form::Int { low, high } => return Tried::from(int(raw, low as u64, high as u64)),
        Form::Guid => guid(raw),
        Form::Version => version(raw),
        Form::Positive => return Tried::from(size(raw)),
    };
    Tried { cell, answer }
}
