// The numbers of a message: its kind and its cells.
ghost use Rattle.std.specs.Prelude.{◌≡◌, ◌<◌, ◌+◌, ◌*◌, length, replicate};
ghost use Rattle.message.specs.Cells.{ROWS, cell_at, words_by};
ghost use Rattle.message.specs.Messages.{at_most, blank as blankOf};

use message::Message;
use value::Span;

/// A kind is a byte: a larger number counts as the largest, which is none.
pub fn kind_from(n: u64) -> u8
    ensures { result ≡ at_most 255 n }
{
    u8::try_from(n).unwrap_or(u8::MAX)
}

/// The number that stands there; 0 behind the end.
pub fn number_at(cells: &[u64], n: usize) -> u64
    ensures { result ≡ cell_at cells.now n }
{
    cells.get(n).copied().unwrap_or(0)
}

/// What a message says of a row: that it is there, if the first number is not 0, and two numbers.
#[derive(Clone, Copy)]
pub struct Cell {
    pub there: u64,
    pub a: u64,
    pub b: u64,
}

/// The cell of the row i; zeros behind the end.
pub fn cell_of(cells: &[u64], i: usize) -> Cell
    requires { i < ROWS }
    ensures { result ≡ record { there = cell_at cells.now (3 * i); a = cell_at cells.now (3 * i + 1); b = cell_at cells.now (3 * i + 2) } }
{
    Cell {
        there: number_at(cells, 3 * i),
        a: number_at(cells, 3 * i + 1),
        b: number_at(cells, 3 * i + 2),
    }
}

/// Zeros in all cells: nothing is there.
pub fn clear(cells: &mut [u64])
    ensures { cells.new ≡ replicate (length cells.old) 0 }
{
    cells.fill(0);
}

/// A text that is there, or not.
#[tactic(auto, unfolding(message::specs::Cells::words_by))]
pub fn text_from(there: u64, start: u64, len: u64) -> Option<Span>
    ensures { result ≡ words_by there start len }
{
    if there == 0 {
        return None;
    }
    Some(Span {
        start: start as usize,
        len: len as usize,
    })
}

/// A message of that kind, in which nothing is there.
pub fn blank(kind: u8) -> Message
    ensures { result ≡ blankOf kind }
{
    Message {
        kind: kind,
        cells: [0u64; 72],
        id: [0u8; 36],
    }
}
