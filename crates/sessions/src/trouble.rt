//! What ends a run, or makes a line none of a suite's.

use std::alloc::{AllocError, AllocFailed};
use std::io;
use thiserror::Error;

/// What goes wrong beside the calls.
#[derive(Clone, Copy, PartialEq, Eq, Debug, Error)]
pub enum Trouble {
    #[error("memory ran out")]
    NoMemory,
    #[error("a file can't be read, or nothing can be written")]
    Device,
    #[error("the first line of a file names no suite")]
    NoSuite,
    #[error("the line is none of the suite's")]
    BadLine,
}

impl Trouble {
    /// Returns the exit status.
    pub fn status(self) -> u8 {
        match self {
            Trouble::NoMemory => 3,
            _ => 2,
        }
    }
}

impl<T: Drop> From<AllocFailed<T>> for Trouble {
    fn from(_e: AllocFailed<T>) -> Trouble {
        Trouble::NoMemory
    }
}

impl From<AllocError> for Trouble {
    fn from(_e: AllocError) -> Trouble {
        Trouble::NoMemory
    }
}

impl From<io::Error> for Trouble {
    fn from(_e: io::Error) -> Trouble {
        Trouble::Device
    }
}
