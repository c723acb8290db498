// What the chart looks at in a message of cells: its kind, its BoardId and its ForecastId.
#![tactic(auto)]

mod named;
mod receiving;
mod sending;

pub use named::kept;
pub use receiving::received_event;
pub use sending::sent_event;
