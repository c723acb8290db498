// What receiving and sending promise: their answers, definitions and theorems. No functions.
#![tactic(auto)]

use lane::Lane;
use message::Message;

/// What receiving answers: the refusal; the lane after it and the belt order; how many bytes of the input are used, how many of the buffer
/// are written; the place of a malformed byte; and an accepted message.
// The refusal is a number, as C is told it.
#[derive(Clone, Copy)]
pub struct Received {
    pub refusal: u8,
    pub lane: Lane,
    pub order: u8,
    pub used: usize,
    pub written: usize,
    pub place: usize,
    pub message: Message,
}

/// The same, but for what the message says: its kind and its BoardId.
// The refusal is a number, as C is told it.
#[derive(Clone, Copy)]
pub struct Receipt {
    pub refusal: u8,
    pub lane: Lane,
    pub order: u8,
    pub used: usize,
    pub written: usize,
    pub place: usize,
    pub kind: u8,
    pub id: [u8; 36],
}

/// What sending answers: the refusal; the lane after it and the belt order; and how many bytes of the buffer are written.
// The refusal is a number, as C is told it.
#[derive(Clone, Copy)]
pub struct Sent {
    pub refusal: u8,
    pub lane: Lane,
    pub order: u8,
    pub written: usize,
}
