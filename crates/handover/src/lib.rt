// The public calls of a lane: a message is received or sent, and the record, the belt order and the buffer follow.
#![tactic(auto)]

mod receiving;
mod sending;

pub use lane::Lane;
pub use promises::{Receipt, Received, Sent};
pub use receiving::{receive, receive_into};
pub use sending::{send, send_from};
