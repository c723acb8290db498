// The id of a message: what the value reads as that is a GUID.
ghost use Rattle.std.specs.Prelude.{◌≡◌, true, ◌≤◌, length};
ghost use Rattle.value.specs.Text.{as_read};
ghost use Rattle.message.specs.Cells.{NUMBERS};
ghost use Rattle.message.specs.Messages.{id_cell};
ghost use Rattle.reads.specs.Ids.{IdOf, IdAt, TakesId};

use crate::copied::copied;
use crate::kind_rows::put;
use crate::tried::Cell;
use rows::data::id_cell;

// Whether these are 36 bytes, none below `-`: so each stands as it reads. One least byte is kept, so that no branch is guessed.
fn is_clear(raw: &[u8]) -> bool
    ensures { result ≡ true → (length raw.now ≡ 36) × (as_read raw.now ≡ true) }
{
    if raw.len() != 36 {
        return false;
    }
    let mut least = b'-';
    for byte in raw {
        least = least.min(*byte);
    }
    least == b'-'
}

// The id that a raw value reads as, which was judged to be one.
fn id_of(raw: &[u8]) -> [u8; 36]
    ensures { IdOf raw.now result }
{
    if is_clear(raw) {
        return copied(raw);
    }
    decodes::id_at(raw).unwrap_or([0u8; 36])
}

// The id that stands there; zeros if that is outside.
fn id_at(s: &[u8], start: usize, len: usize) -> [u8; 36]
    ensures { IdAt s.now start len result }
{
    if s.len() < start {
        return [0u8; 36];
    }
    if s.len() - start < len {
        return [0u8; 36];
    }
    id_of(&s[start..start + len])
}

/// The id of a message of that kind that is not refused. In its cell stands whether it is there; the place of its raw value is taken out.
pub fn take_id(s: &[u8], kind: u8, cells: &mut [u64]) -> [u8; 36]
    requires { length cells.old ≡ NUMBERS }
    ensures { TakesId s.now (id_cell kind) cells.old cells.new result }
{
    let Some(at) = id_cell(kind) else {
        return [0u8; 36];
    };
    let there = cells[at];
    let start = cells[at + 1] as usize;
    let len = cells[at + 2] as usize;
    put(&mut *cells, at, Cell { there, a: 0, b: 0 });
    if there == 0 {
        return [0u8; 36];
    }
    id_at(s, start, len)
}
