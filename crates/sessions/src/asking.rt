//! The suite `asking`: the client, without a link.

use crate::call::Call;
use crate::out::Out;
use crate::playing::Suite;
use dap_accessing::{Accessing, AskFault, Octets, ReadFault, ReadStep, Request};
use dap_msg::Configuration;

/// A client, if there is one.
#[derive(Drop)]
pub struct Asking {
    pub end: Option<Accessing>,
}

/// What a request comes to: its messages.
type Asked = Result<Vec<Vec<u8>>, AskFault>;

/// Asks a request in its steps.
fn ask_in_steps(end: &mut Accessing, request: &Request) -> Asked {
    end.check(request)?;
    let prepared = end.prepare(request)?;
    end.ask_prepared(request, prepared)
}

/// Appends the messages of a request, or why it isn't asked.
fn put_asked(asked: Asked, out: &mut Out) {
    match asked {
        Ok(messages) => out.all(&messages),
        Err(fault) => out.fault(&fault),
    }
}

/// Appends the lengths of messages.
fn put_lengths(messages: &[Vec<u8>], out: &mut Out) {
    out.put("lengths");
    for message in messages.iter() {
        out.number(" ", message.len());
    }
}

/// Appends the lengths of the messages of a request, or why it isn't asked.
fn put_asked_lengths(asked: Asked, out: &mut Out) {
    match asked {
        Ok(messages) => put_lengths(&messages, out),
        Err(fault) => out.fault(&fault),
    }
}

/// Asks a request, all at once or in its steps.
fn ask(end: &mut Accessing, request: &Request, call: &Call, out: &mut Out) {
    if call.is("steps") {
        put_asked(ask_in_steps(end, request), out);
    } else if call.is("lengths") {
        put_asked_lengths(end.ask(request), out);
    } else {
        put_asked(end.ask(request), out);
    }
}

/// Reads the answer at an offset of an NSP message.
fn read(end: &mut Accessing, message: &[u8], at: usize) -> Result<ReadStep, ReadFault> {
    if at < message.len() {
        end.read(message, at)
    } else {
        end.read(&[], 0)
    }
}

/// Appends what an answer came to: a report, or that more is to come.
fn put_step(step: &ReadStep, len: usize, out: &mut Out) {
    match &step.report {
        Some(report) => out.report(report),
        None => out.put("waits"),
    }
    out.next_offset(step.next, len);
}

/// Reads an answer, and appends what it comes to, or why it isn't read.
fn hear(end: &mut Accessing, call: &mut Call, out: &mut Out) {
    let message = call.bytes();
    let at = if call.has_more() { call.size() } else { 0 };
    match read(end, &message, at) {
        Ok(step) => put_step(&step, message.len(), out),
        Err(fault) => out.fault(&fault),
    }
}

/// Takes records out of a batch, and appends them.
fn take(end: &mut Accessing, out: &mut Out) {
    let records = end.take_records();
    if records.0.is_empty() {
        return out.none();
    }
    out.put("taken");
    out.records(&records.0);
}

/// Reads a request to open a file with any FAC: `NAME FAC`.
fn opening(call: &mut Call) -> Request {
    Request::OpenFile {
        name: Octets(call.bytes()),
        fac: call.long(),
    }
}

/// Reads a request to make a file with any FAC: `NAME ORG RFM MRS MRN FAC`.
fn making(call: &mut Call) -> Request {
    Request::Create {
        name: Octets(call.bytes()),
        org: call.octet(),
        rfm: call.octet(),
        mrs: call.short(),
        mrn: call.long(),
        fac: call.long(),
    }
}

/// Does a call of an end.
fn act(end: &mut Accessing, call: &mut Call, out: &mut Out) {
    if call.is("hear") {
        hear(end, call, out);
    } else if call.is("take") {
        take(end, out);
    } else if call.is("open") {
        ask(end, &opening(call), call, out);
    } else if call.is("create") {
        ask(end, &making(call), call, out);
    } else if call.is("ask") || call.is("steps") || call.is("lengths") {
        if let Some(request) = call.request() {
            ask(end, &request, call, out);
        }
    } else {
        call.refuse();
    }
}

impl Suite for Asking {
    fn begin(&mut self) {
        self.end = None;
    }

    fn call(&mut self, call: &mut Call, out: &mut Out) {
        if call.is("new") {
            self.end = Some(Accessing::new(call.alloc(), call.buffer()));
            return out.put("made");
        }
        if call.is("live") {
            let identity = Configuration::truthful(call.buffer());
            self.end = Some(Accessing::with_identity(call.alloc(), identity));
            return out.put("made");
        }
        match &mut self.end {
            Some(end) => act(end, call, out),
            None => call.refuse(),
        }
    }
}
