// What the decoded bytes of an attribute are worth: Int, Positive number, GUID, Version. Definitions and the types of the answers; `numerals` and
// `shapes` have the functions.
#![tactic(auto)]

/// An Int: whether it is below zero, and its size, told up to 65,536.
#[derive(Clone, Copy)]
pub struct Int {
    pub negative: bool,
    pub size: u32,
}

/// A positive number: its millionths, and how many digits stood behind the point, up to 6 (0 where none).
#[derive(Clone, Copy)]
pub struct Positive {
    pub millionths: u64,
    pub decimals: u64,
}
