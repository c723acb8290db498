// The rows of a kind, one after the other.
ghost use Rattle.std.specs.Prelude.{◌≡◌, ◌∷◌, ◌++◌, ◌≤◌, ◌<◌, ◌+◌, length, take, drop};
ghost use Rattle.refusals.specs.Numbers.{told};
ghost use Rattle.message.specs.Cells.{NUMBERS};
ghost use Rattle.reads.specs.Attributes.{AllRowedIn};

use crate::attributes::Attributes;
use crate::features::Sort;
use crate::tried::Cell;
use crate::trying::try_row;
use refusals::Refusal;
use rows::data::rows_of;

/// A cell put down.
pub fn put(cells: &mut [u64], at: usize, cell: Cell)
    requires { at + 3 ≤ length cells.old }
    ensures { cells.new ≡ take at cells.old ++ (cell.there ∷ cell.a ∷ cell.b ∷ drop (at + 3) cells.old) }
{
    cells[at] = cell.there;
    cells[at + 1] = cell.a;
    cells[at + 2] = cell.b;
}

/// Tries the rows of the kind in order, puts a cell down for each, and returns the first refusal.
pub fn check_rows(attributes: &Attributes<'_>, sort: Sort, cells: &mut [u64]) -> Result<(), Refusal>
    requires { NUMBERS ≤ length cells.old }
    ensures { AllRowedIn attributes.now sort cells.old cells.new (told result) }
{
    let rows = rows_of(sort.kind);
    let mut answer = Ok(());
    let mut guess = 0;
    for (i, row) in rows.iter().enumerate() {
        let tried = try_row(attributes, guess, sort.features, row);
        put(&mut *cells, 3 * i, tried.cell);
        answer = answer.and(tried.answer);
        // Behind an attribute that was found, the next is looked for first.
        if tried.cell.there != 0 {
            guess += 1;
        }
    }
    answer
}
