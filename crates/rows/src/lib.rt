// The attribute table for code: which kind a number is, which rows it has, which kind a name is. That all of it is the table of the definitions is
// computed, so a further row or kind changes no proof.
#![tactic(auto)]

pub mod data;
mod entries;
mod kind;
pub mod names;

pub use kind::kind_named;
