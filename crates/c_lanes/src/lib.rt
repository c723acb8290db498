// The calls for C that look at no message: a new lane and a lost one, the class of a Route, the version.
#![tactic(auto)]

mod lanes;
mod routing;
mod versions;

pub use lanes::{tryphomel_downstream, tryphomel_lost, tryphomel_upstream};
pub use routing::tryphomel_route_class;
pub use versions::tryphomel_version;
