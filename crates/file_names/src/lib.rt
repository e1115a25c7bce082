//! Names of files as other systems send them: two are one where they differ only in a device or directory before them,
//! in a version after them, or in capitals.
#![tactic(auto)]

mod fold;
mod laws;
mod versions;

pub use fold::{is_alike, stem};
pub use laws::{folds_find_themselves, versions_find_themselves};
pub use versions::{MAX_VERSION, Wanted, version_name, version_number, version_wanted};
