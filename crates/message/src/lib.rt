// The messages: what is handed out of a message, and what is to be sent. Types and definitions only.
#![tactic(auto)]

pub mod cells;
pub mod checking;
pub mod values;

pub use cells::Message;
pub use checking::{Checked, Found};
