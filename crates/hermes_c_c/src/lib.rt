// The symbols of the calls on messages: `hermes_c` for C, each call with its promise. A slice is a pointer and then its length. What is lent to a
// call does not overlap.
#![tactic(auto)]

mod asking;
mod checking;
mod reading;
mod receiving;
mod sending;
