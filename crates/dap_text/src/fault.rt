//! Why a line of a file asks for no file.

ghost use Rattle.std.specs.Prelude.{◌≡◌};
ghost use Rattle.dap_text.specs.declared.fault.FileFault.TheVariants as fault;

use std::alloc::AllocError;

/// Why a line of a file asks for no file, in the order in which it is looked at.
#[derive(Clone, Copy, Debug, PartialEq, Eq)]
pub enum FileFault {
    /// What it says is kept is no such message, or the file couldn't keep all of it.
    BadKept,
    /// No file has such attributes.
    BadAttributes,
    /// Memory was refused. The same call may be made again.
    NoMemory,
}

impl From<AllocError> for FileFault {
    ghost from_gives = { λ _ e. e ≡ fault.NoMemory };

    fn from(_e: AllocError) -> FileFault {
        FileFault::NoMemory
    }
}
