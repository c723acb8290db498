// Why a message is refused: the row of the table that decided, and where its raw value stands.
#![tactic(auto)]

ghost use Rattle.std.specs.Prelude.{◌≡◌};
ghost use Rattle.refusals.specs.Numbers.{number_of};
ghost use Rattle.decides.specs.Deciding.{undecided, decided_by, Decides};
ghost use Rattle.decides.specs.Ruled.{StandsIn, RulesIn};

use reader::answer::Unread;
use reads::attributes::Attributes;
use reads::features::{Sort, sort_of};
use reads::trying::try_row;
use refusals::Refusal;
use rows::data::{Row, rows_of};
use tags::attributes::PLACES;
use value::Span;

/// A row that decided: its refusal, its number among the rows of its kind, and the raw value of its attribute.
// The refusal is document 01's number: `first_refused` has it, and `Decision` tells it.
#[derive(Clone, Copy)]
pub struct Ruling {
    pub refusal: u8,
    pub row: usize,
    pub value: Option<Span>,
}

/// What decided over a message: the refusal and the kind that checking says; of 4, 5 and 6 the row, counted from 0 in table order, and where its
/// raw value stands, if the attribute is there. With every other answer no row did: row 0, and no value.
// It stays one record of numbers: `Decides` has row 0 and no value where no row decided, and `why` prints them so.
#[derive(Clone, Copy)]
pub struct Decision {
    pub refusal: u8,
    pub kind: u8,
    pub row: usize,
    pub value: Option<Span>,
}

// No message was read.
fn unread(refusal: Refusal) -> Decision
    ensures { result ≡ undecided (number_of refusal) }
{
    Decision {
        refusal: refusal.number(),
        kind: 0,
        row: 0,
        value: None,
    }
}

// What decided over a message of that kind.
fn made(kind: u8, ruling: Option<Ruling>) -> Decision
    ensures { result ≡ decided_by kind ruling }
{
    match ruling {
        Some(
            Ruling {
                refusal,
                row,
                value,
            },
        ) => Decision {
            refusal,
            kind,
            row,
            value,
        },
        None => Decision {
            refusal: 0,
            kind,
            row: 0,
            value: None,
        },
    }
}

// Where the raw value of a row's attribute stands; a child has none.
fn value_of(attributes: &Attributes<'_>, row: &Row) -> Option<Span>
    ensures { StandsIn attributes.now row.now result }
{
    if row.form.is_child() {
        return None;
    }
    attributes.find(0, row.name)
}

// Tries the rows of the kind in order, up to the first that is refused.
fn rule(attributes: &Attributes<'_>, sort: Sort) -> Option<Ruling>
    ensures { RulesIn attributes.now sort result }
{
    let rows = rows_of(sort.kind);
    for (i, row) in rows.iter().enumerate() {
        let tried = try_row(attributes, i, sort.features, row);
        if let Err(refusal) = tried.answer {
            let value = value_of(attributes, row);
            return Some(Ruling {
                refusal: refusal.number(),
                row: i,
                value,
            });
        }
    }
    None
}

/// What decided over the message behind the glue in front of s.
pub fn decided(s: &[u8]) -> Decision
    ensures { Decides s.now result }
{
    let mut table = [0u16; PLACES];
    match reader::outline(s, &mut table) {
        Ok(o) => {
            let child = o.child;
            let sort = sort_of(s, child.from, child.to, child.inside);
            let attributes = Attributes {
                message: s,
                base: child.to,
                table: &table,
                count: child.count,
            };
            made(sort.kind, rule(&attributes, sort))
        }
        Err(Unread::More { start }) => unread(Refusal::Incomplete),
        Err(Unread::Malformed { start, place }) => unread(Refusal::Malformed),
        Err(Unread::TooLong { start }) => unread(Refusal::MessageTooLong),
    }
}
