//! Short callers of the libraries that `surface` doesn't call, and of `dap_msg`. They print what comes of each, and the text of each fault.
#![tactic(auto)]

mod captures;
mod ends;
mod faults;
mod messages;
mod packets;
mod sharing;
mod trouble;

use std::alloc::Global;
use std::process::ExitCode;
use trouble::{Lines, Trouble};

/// Calls each of them.
fn call_all(alloc: Global, out: &mut Lines) -> Result<(), Trouble> {
    messages::call(alloc, out)?;
    packets::call(alloc, out)?;
    sharing::call(alloc, out)?;
    ends::call(alloc, out)?;
    captures::call(alloc, out)?;
    faults::call(out);
    Ok(())
}

fn main(rt: HostRuntime) -> ExitCode {
    let mut out = Lines {
        out: rt.stdout(),
        is_short: false,
    };
    let why = match call_all(rt.alloc(), &mut out) {
        Ok(()) if !out.is_short => return ExitCode::SUCCESS,
        Ok(()) => "standard output",
        Err(Trouble(why)) => why,
    };
    let _ = eprintln!(rt; "{why}");
    ExitCode::FAILURE
}
