// The BoardId of a message of cells.
ghost use Rattle.std.specs.Prelude.{◌≡◌};
ghost use Rattle.message.specs.Messages.{id_cell, id_by};

use crate::numbers::number_at;
use rows::data::id_cell;

/// The id, if the kind has one and its cell says that it is there; else zero bytes.
pub fn named_id(kind: u8, cells: &[u64], id: [u8; 36]) -> [u8; 36]
    ensures { result ≡ id_by (id_cell kind) cells.now id }
{
    match id_cell(kind) {
        Some(at) if number_at(cells, at) != 0 => id,
        _ => [0u8; 36],
    }
}
