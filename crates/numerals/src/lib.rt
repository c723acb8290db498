// Ints and positive numbers, read by one scan: a state by value with a step for a byte, so that a caller can feed bytes that stand nowhere in a row.
#![tactic(auto)]

mod ahead;
pub mod byte;
pub mod ends;
pub mod positive;
pub mod scan;
mod tens;
pub mod whole;

pub use positive::{number_end, number_of};
pub use scan::Scan;
pub use whole::{int_end, int_of};
