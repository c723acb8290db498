// The symbols of the calls that look at no message: `c_lanes` for C, each call with its promise.
#![tactic(auto)]

mod lanes;
mod routing;
mod versions;
