// A row tried on the attributes and the children of an element.
ghost use Rattle.reads.specs.Attributes.{RowedIn};
ghost use Rattle.reads.specs.Kept.{verdict_of};

use crate::attributes::Attributes;
use crate::judge::judged;
use crate::tried::{Tried, carried, missing};
use rows::data::Row;

/// A row tried: its attribute, for which the attribute `guess` is looked at first; or its child, which was looked for before.
pub fn try_row(attributes: &Attributes<'_>, guess: usize, features: Option<u64>, row: &Row) -> Tried
    ensures { RowedIn attributes.now features row.now (verdict_of result) }
{
    if row.form.is_child() {
        return Tried::from(carried(features, row.need));
    }
    let Some(place) = attributes.find(guess, row.name) else {
        return Tried::from(missing(row.need));
    };
    let raw = &attributes.message[place.start..place.start + place.len];
    judged(raw, place.start, row.form)
}
