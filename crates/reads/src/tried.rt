// What a row says.
ghost use Rattle.std.specs.Prelude.{◌≡◌, [], ◌∷◌, Some, cond, eqb};
ghost use Rattle.message.specs.Cells.{words_cell};
ghost use Rattle.rows.specs.Coding.{may_miss};
ghost use Rattle.reads.specs.Kept.{cell_as, lacking, carried_by, verdict_in, verdict_of};

use refusals::Refusal;
use rows::data::Need;

/// The three numbers that are put down for a row: whether its value is there, and two that tell it.
#[derive(Clone, Copy)]
pub struct Cell {
    pub there: u64,
    pub a: u64,
    pub b: u64,
}

impl Cell {
    /// Of a value that is not there.
    pub fn empty() -> Cell
        ensures { result ≡ cell_as (0 ∷ 0 ∷ 0 ∷ []) }
    {
        Cell {
            there: 0,
            a: 0,
            b: 0,
        }
    }

    /// Of a value that is one number.
    pub fn number(number: u64) -> Cell
        ensures { result ≡ cell_as (1 ∷ number ∷ 0 ∷ []) }
    {
        Cell {
            there: 1,
            a: number,
            b: 0,
        }
    }

    /// Of a value that is told by its place.
    pub fn place(start: usize, len: usize) -> Cell
        ensures { result ≡ cell_as (words_cell (Some (record { start = start; len = len }))) }
    {
        Cell {
            there: 1,
            a: start as u64,
            b: len as u64,
        }
    }
}

/// A row tried: what is put down for it, and whether it is refused.
// They stand side by side since `check_cells` promises (CellsChecked) that a text, a GUID or a version has its place in its cell even where it is refused.
#[derive(Clone, Copy)]
pub struct Tried {
    pub cell: Cell,
    pub answer: Result<(), Refusal>,
}

impl Tried {
    /// What was found of a child, held against its row's need: it is handed on, a refusal too, but where nothing is there.
    pub fn carried(self, need: Need) -> Tried
        ensures { verdict_of result ≡ cond (eqb self.cell.there 0) (lacking (may_miss need)) (verdict_of self) }
    {
        if self.cell.there == 0 {
            return Tried::from(missing(need));
        }
        self
    }
}

impl From<Result<Cell, Refusal>> for Tried {
    ghost from_gives = { λ worth tried. verdict_of tried ≡ verdict_in worth };

    fn from(worth: Result<Cell, Refusal>) -> Tried {
        match worth {
            Ok(cell) => Tried {
                cell,
                answer: Ok(()),
            },
            Err(refusal) => Tried {
                cell: Cell::empty(),
                answer: Err(refusal),
            },
        }
    }
}

/// A value that is not there.
pub fn missing(need: Need) -> Result<Cell, Refusal>
    ensures { verdict_in result ≡ lacking (may_miss need) }
{
    match need {
        Need::Required => Err(Refusal::Missing),
        Need::Optional => Ok(Cell::empty()),
    }
}

/// A child that was looked for before, with the features in it.
pub fn carried(features: Option<u64>, need: Need) -> Result<Cell, Refusal>
    ensures { verdict_in result ≡ carried_by features (may_miss need) }
{
    match features {
        Some(bits) => Ok(Cell::number(bits)),
        None => missing(need),
    }
}
