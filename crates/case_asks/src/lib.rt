// The cases that change no lane: what bytes are worth, reading and checking, writing, an input fed in parts, what a message does to a lane.
#![tactic(auto)]

pub mod asks;
mod feeding;
mod numbers;
