// Messages to be sent: refused and written by the rows of their kind.
#![tactic(auto)]

mod children;
mod marks;
mod messages;
mod putting;
mod refusing;
mod sending;
mod texts;
mod values;

pub use meant::Written;
pub use messages::write_cells;
pub use sending::{refusal_of, refusal_of_cells, write};
