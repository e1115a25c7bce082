//! Why a call is refused.

use thiserror::Error;

/// Why a file isn't removed, in the order in which it is looked at. Nothing has changed.
#[derive(Clone, Copy, Debug, PartialEq, Eq, Error)]
pub enum RemoveFault {
    /// No file has the name.
    #[error("no file has the name")]
    NoFile,
    /// A link has the file open.
    #[error("a link has the file open")]
    Busy,
}
