// What checking hands out.
use crate::cells::Message;

/// What stands behind the glue in front of an input. Refusal 0: a message from start to end, and what it says. 1: the
/// beginning of one at start; 2: none at start, as the byte at place shows; 3: one at start that is too long. 4, 5, 6: a
/// message from start to end that lacks an attribute or child, or has a text that is too long or a bad value; of what it
/// says only the kind is told.
// Numbers: `Checks` tells each of them, and C is told them.
#[derive(Clone, Copy)]
pub struct Checked {
    pub refusal: u8,
    pub start: usize,
    pub end: usize,
    pub place: usize,
    pub message: Message,
}

/// What stands behind the glue in front of an input, as Checked says; what a message says stands in cells, but for its BoardId.
// Numbers: `Checks` tells each of them, and C is told them.
#[derive(Clone, Copy)]
pub struct Found {
    pub refusal: u8,
    pub kind: u8,
    pub start: usize,
    pub end: usize,
    pub place: usize,
    pub id: [u8; 36],
}
