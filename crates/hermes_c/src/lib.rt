// The library's calls for C: numbers, byte slices and arrays of numbers only. A slice is a pointer and then its length. What is lent to a
// call does not overlap.
#![tactic(auto)]

mod asking;
mod checking;
mod reading;
mod receiving;
mod sending;

pub use asking::tryphomel_text;
pub use checking::tryphomel_check;
pub use reading::tryphomel_read;
pub use receiving::tryphomel_receive;
pub use sending::tryphomel_send;
