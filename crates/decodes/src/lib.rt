// A value as it stands in a message, decoded: as a text, a number, an id, a version.
#![tactic(auto)]

pub mod decode;
mod id;
mod numbers;
mod tests;
mod units;
mod utf8;

pub use decode::text_len;
pub use id::{guid_at, id_at, version_at};
pub use numbers::{int_at, number_at};
pub use tests::{is_as_read, is_plain, is_quotable};
