// The words of a case: a line taken apart, what it gives, and what is shown of an answer.
#![tactic(auto)]

pub mod given;
pub mod line;
pub mod show;
