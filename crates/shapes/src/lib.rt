// Whether the decoded bytes of an attribute have the shape of a GUID or of a version.
#![tactic(auto)]

mod guid;
mod version;

pub use guid::is_guid;
pub use version::is_version;
