// The text of a value: what stands between an attribute's quotes, as it reads. Types and definitions only.
#![tactic(auto)]

mod text;

pub use text::{Span, TextAt};
