// What stands in a start tag behind its name: attributes with their values, then `>` or `/>`.
// Each function says what the model at its place says.
#![tactic(auto)]

pub mod attributes;
