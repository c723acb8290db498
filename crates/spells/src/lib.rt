// The bytes that the writer puts down. Writing never fails: what does not fit is not written, but the place that is returned counts it,
// so that a run on an empty slice measures.
#![tactic(auto)]

mod characters;
mod escapes;
mod numbers;

pub use characters::is_text;
pub use escapes::put_escaped;
pub use numbers::put_decimal;
