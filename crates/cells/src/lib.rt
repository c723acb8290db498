// The numbers of a message: one of them, the kind, a text, the BoardId; all of them cleared.
#![tactic(auto)]

mod ids;
mod numbers;

pub use ids::named_id;
pub use numbers::{Cell, blank, cell_of, clear, kind_from, number_at, text_from};
