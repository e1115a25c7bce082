//! What ends a caller, and where it prints.

use dap_accessed::NoMemory;
use dap_accessing::AskFault;
use dap_end::{EndFault, TakeFault};
use dap_msg::MsgFault;
use nsp_control::ControlFault;
use nsp_link::LinkFault;
use nsp_session::SessionFault;
use std::alloc::{AllocError, AllocFailed};
use std::fmt::Display;
use std::io::{Stdout, Write};

/// Lines of standard output, and whether one of them wasn't written.
#[derive(Drop)]
pub struct Lines {
    pub out: Stdout,
    pub is_short: bool,
}

impl Lines {
    /// Prints a line.
    pub fn line<T: Display + Drop>(&mut self, line: T) {
        if writeln!(self.out, "{line}").is_err() {
            self.is_short = true;
        }
    }
}

/// What refused, in a word.
pub struct Trouble(pub &'static str);

impl<T: Drop> From<AllocFailed<T>> for Trouble {
    fn from(_e: AllocFailed<T>) -> Trouble {
        Trouble("no memory")
    }
}

impl From<AllocError> for Trouble {
    fn from(_e: AllocError) -> Trouble {
        Trouble("no memory")
    }
}

impl From<MsgFault> for Trouble {
    fn from(_e: MsgFault) -> Trouble {
        Trouble("a message")
    }
}

impl From<LinkFault> for Trouble {
    fn from(_e: LinkFault) -> Trouble {
        Trouble("a link")
    }
}

impl From<NoMemory> for Trouble {
    fn from(_e: NoMemory) -> Trouble {
        Trouble("no memory")
    }
}

impl From<AskFault> for Trouble {
    fn from(_e: AskFault) -> Trouble {
        Trouble("a request")
    }
}

impl From<EndFault> for Trouble {
    fn from(_e: EndFault) -> Trouble {
        Trouble("an end")
    }
}

impl From<TakeFault> for Trouble {
    fn from(_e: TakeFault) -> Trouble {
        Trouble("a packet")
    }
}

impl From<ControlFault> for Trouble {
    fn from(_e: ControlFault) -> Trouble {
        Trouble("a packet")
    }
}

impl From<SessionFault> for Trouble {
    fn from(_e: SessionFault) -> Trouble {
        Trouble("connect data")
    }
}
