// An input by windows: the part that a program holds, a turn of the listing on it, and the lines that wait to be handed out.
#![tactic(auto)]

pub mod ending;
pub mod output;
pub mod turn;
pub mod window;
