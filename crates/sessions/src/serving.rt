//! The suite `serving`: the server, without a link.

use crate::call::Call;
use crate::out::Out;
use crate::playing::Suite;
use dap_accessed::{Accessed, Names, NoMemory, Served, ServerSetup, rights_of_fac};
use dap_msg::Configuration;

/// A server, if there is one.
#[derive(Drop)]
pub struct Serving {
    pub end: Option<Accessed>,
}

/// Reads a server that says what is true of it: its buffer, how it compares names, and the FAC of its link.
fn live(call: &mut Call) -> Accessed {
    let setup = ServerSetup {
        identity: Configuration::truthful(call.buffer()),
        names: names(call),
        most: rights_of_fac(call.number(15)),
        full: true,
    };
    Accessed::with_setup(call.alloc(), setup)
}

/// Reads how names are compared: with `versions` the number of those that are kept follows.
fn names(call: &mut Call) -> Names {
    let word = call.word();
    if word == "exact" {
        Names::Exact
    } else if word == "folded" {
        Names::Folded
    } else {
        if word != "versions" {
            call.refuse();
        }
        Names::Versions(call.number(32_767) as u16)
    }
}

/// Serves the message at an offset.
fn serve_at(end: &mut Accessed, message: &[u8], at: usize) -> Result<Served, NoMemory> {
    if at < message.len() {
        end.serve(message, at)
    } else {
        end.serve(&[], 0)
    }
}

/// Serves a message: all bytes, or those from an offset on.
fn serve(end: &mut Accessed, call: &mut Call, out: &mut Out) {
    let message = call.bytes();
    let at = if call.has_more() { call.size() } else { 0 };
    match serve_at(end, &message, at) {
        Ok(served) => {
            out.all(&served.answers);
            out.next_offset(served.next, message.len());
        }
        Err(fault) => out.fault(&fault),
    }
}

/// Appends the index of the file of a name.
fn find(end: &Accessed, call: &mut Call, out: &mut Out) {
    match end.files().find(&call.bytes()) {
        Some(at) => out.number("", at),
        None => out.none(),
    }
}

/// Does a call of an end.
fn act(end: &mut Accessed, call: &mut Call, out: &mut Out) {
    if call.is("serve") {
        serve(end, call, out);
    } else if call.is("files") {
        out.table(end.files());
    } else if call.is("find") {
        find(end, call, out);
    } else if call.is("again") {
        end.renew_for(rights_of_fac(call.number(15)));
        out.put("renewed");
    } else {
        call.refuse();
    }
}

impl Suite for Serving {
    fn begin(&mut self) {
        self.end = None;
    }

    fn call(&mut self, call: &mut Call, out: &mut Out) {
        if call.is("new") {
            self.end = Some(Accessed::new(call.alloc(), call.buffer()));
            return out.put("made");
        }
        if call.is("live") {
            self.end = Some(live(call));
            return out.put("made");
        }
        match &mut self.end {
            Some(end) => act(end, call, out),
            None => call.refuse(),
        }
    }
}
