// What a message says. One loop tries the rows of a message's kind on its tag, and puts down a cell of three numbers for each; a message that is not
// refused is handed out as its kind, its cells and its BoardId.
#![tactic(auto)]

pub mod attributes;
mod checking;
mod copied;
pub mod features;
mod ids;
mod judge;
mod kind_rows;
pub mod tried;
pub mod trying;
mod whole;

pub use checking::{check, check_into, check_outlined};
pub use message::Found;
pub use whole::{Outcome, check_cells};
