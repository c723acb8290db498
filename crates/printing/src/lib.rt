// Bytes and numbers put into a buffer. Printing never fails: what does not fit is not written, but the place that is returned counts it,
// so that a run on an empty slice measures.
#![tactic(auto)]

mod bytes;
mod digits;

pub use bytes::{put, put_byte};
pub use digits::{put_digits, put_places};
