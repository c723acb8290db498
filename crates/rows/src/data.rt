// What the attribute table says of a kind: its name, its rows, and where the cell of its BoardId stands.
ghost use Rattle.std.specs.Prelude.{◌≡◌};
ghost use Rattle.table.specs.Table.{rows_of};
ghost use Rattle.rows.specs.Coding.{Told, EntryOf, RowsAt, CellOf, is_child};

use crate::entries::ENTRIES;

/// What the value of a row must be. A text has at most so many bytes.
#[derive(Clone, Copy)]
pub enum Form {
    /// The features, in a child.
    Features,
    Text { most: u16 },
    /// A text that is not empty.
    SomeText { most: u16 },
    Int { low: u16, high: u16 },
    Guid,
    Version,
    Positive,
}

impl Form {
    /// Whether the row is a child element, no attribute.
    pub fn is_child(self) -> bool
        ensures { result ≡ is_child self }
    {
        matches!(self, Form::Features)
    }
}

/// Whether an attribute or a child must be there.
#[derive(Clone, Copy)]
pub enum Need {
    Required,
    Optional,
}

/// A row of the table.
#[derive(Clone, Copy)]
pub struct Row {
    pub name: &'static [u8],
    pub form: Form,
    pub need: Need,
}

/// A kind of the table: its name, its rows in table order, and where the cell of its BoardId stands, of three numbers for each row.
#[derive(Clone, Copy)]
pub struct Entry {
    pub name: &'static [u8],
    pub rows: &'static [Row],
    pub board_id: Option<usize>,
}

/// The attribute table: its kinds, from 1 on.
pub fn entries() -> &'static [Entry]
    ensures { Told result.now }
{
    &ENTRIES
}

/// The kind of that number.
pub fn entry_of(kind: u8) -> Option<&'static Entry>
    ensures { EntryOf kind result }
{
    let place = (kind as usize).checked_sub(1)?;
    entries().get(place)
}

/// The rows of that kind.
pub fn rows_of(kind: u8) -> &'static [Row]
    ensures { RowsAt kind result.now }
{
    match entry_of(kind) {
        Some(entry) => entry.rows,
        None => &[],
    }
}

/// Where the cell of a kind's BoardId stands, of three numbers for each row.
pub fn id_cell(kind: u8) -> Option<usize>
    ensures { CellOf (rows_of kind) result }
{
    entry_of(kind)?.board_id
}
