//! The DAP messages in NSP messages.

ghost use Rattle.std.specs.Prelude.{◌≡◌, [], ◌++◌, length, IfOk, OnOk};
ghost use Rattle.dap_msg.specs.Blocked.{bodies};
ghost use Rattle.dap_world.specs.Inner.Splitting.{SplitsOne, SplitsAll};

use dap_msg::item_at;
use std::alloc::{AllocError, Global};

/// Adds the DAP messages of an NSP message, each as its bytes.
fn split_one(alloc: Global, message: &[u8], out: &mut Vec<Vec<u8>>) -> Result<(), AllocError>
    ensures { OnOk result (SplitsOne message.now (bodies out.old.items) (bodies out.new.items)) }
{
    let mut at = 0;
    'items: loop {
        let (_item, next) = item_at(message, at);
        let body = Vec::from_slice(alloc, &message[at..next])?;
        out.push(body)?;
        if next == message.len() {
            return Ok(());
        }
        at = next;
    }
}

/// Returns the DAP messages of all these NSP messages, in order.
pub(crate) fn split_all(alloc: Global, messages: &[Vec<u8>]) -> Result<Vec<Vec<u8>>, AllocError>
    ensures { IfOk result (λ list. SplitsAll (bodies messages.now) [] (bodies list.items)) }
{
    let mut list = Vec::new(alloc);
    for message in messages {
        split_one(alloc, message, &mut list)?;
    }
    Ok(list)
}
