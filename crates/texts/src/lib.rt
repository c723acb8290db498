// Asking for a text: a part of the message bytes where it stands there as it reads, else of the scratch buffer into which it is decoded.
#![tactic(auto)]

mod ask;
mod part;
mod text;

pub use ask::{ask_text, refusal_of};
pub use part::text_part;
pub use text::text_decode;
