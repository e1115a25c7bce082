//! The suite `ends`: one end over its link, for any peer, which serves or asks.

use crate::call::Call;
use crate::out::Out;
use crate::playing::Suite;
use dap_accessing::Report;
use dap_end::{AskingEnd, Heard, ServingEnd};
use nsp_link::LinkEnd;

/// An end over its link: one that serves, or one that asks.
#[derive(Drop)]
pub struct Ending {
    pub serving: Option<ServingEnd>,
    pub asking: Option<AskingEnd>,
}

/// Appends the sizes of an end's link.
fn put_sizes(link: &LinkEnd, out: &mut Out) {
    out.number("unacked ", link.unacked());
    out.number(" waiting ", link.waiting_bytes());
    out.put(if link.has_failed() {
        " failed"
    } else {
        " runs"
    });
}

/// Appends the packets that an end wrote, and what it reported.
fn put_left(packets: &[Vec<u8>], reports: &[Report], out: &mut Out) {
    out.put(", ");
    out.all(packets);
    for report in reports.iter() {
        out.put(" report ");
        out.report(report);
    }
}

/// Gives a server a packet: `PACKET [MOST]`.
fn take_to_serve(end: &mut ServingEnd, call: &mut Call, out: &mut Out) {
    let packet = call.bytes();
    let most = if call.has_more() {
        u64::from(call.long())
    } else {
        u64::MAX
    };
    let mut packets = Vec::new(call.alloc());
    out.got(end.take(&packet, most, &mut packets));
    put_left(&packets, &[], out);
}

/// Lets a server go on.
fn serve_on(end: &mut ServingEnd, call: &Call, out: &mut Out) {
    let mut packets = Vec::new(call.alloc());
    out.done(end.go_on(u64::MAX, &mut packets));
    put_left(&packets, &[], out);
}

/// Adds a file: `NAME ORG RFM MRS MRN`.
fn add(end: &mut ServingEnd, call: &mut Call, out: &mut Out) {
    let name = call.bytes();
    match call.shape() {
        Some(shape) => out.done(end.add(&name, shape)),
        None => out.none(),
    }
}

/// Serves a message, and appends how many messages answer it, or that there is none.
fn serve(end: &mut ServingEnd, out: &mut Out) {
    match end.serve() {
        Ok(Some(answers)) => out.number("served ", answers),
        Ok(None) => out.none(),
        Err(fault) => out.fault(&fault),
    }
}

/// Does a call of a server that concerns its files.
fn file(end: &mut ServingEnd, call: &mut Call, out: &mut Out) {
    if call.is("add") {
        add(end, call, out);
    } else if call.is("record") {
        let number = call.long();
        out.done(end.add_record(number, &call.bytes()));
    } else if call.is("files") {
        out.table(end.files());
    } else {
        call.refuse();
    }
}

/// Does a call of a server that writes.
fn write_served(end: &mut ServingEnd, call: &mut Call, out: &mut Out) {
    if call.is("post") {
        out.number_or(end.post());
    } else if call.is("emit") {
        out.next_packet(end.emit());
    } else if call.is("ack") {
        out.packet(end.ack());
    } else if call.is("resend") {
        out.packet(end.resend(call.size()));
    } else {
        file(end, call, out);
    }
}

/// Does a call of a server.
fn call_serving(end: &mut ServingEnd, call: &mut Call, out: &mut Out) {
    if call.is("take") {
        take_to_serve(end, call, out);
    } else if call.is("go-on") {
        serve_on(end, call, out);
    } else if call.is("receive") {
        out.got(end.receive(&call.bytes()));
    } else if call.is("serve") {
        serve(end, out);
    } else if call.is("renew") {
        out.done(end.renew(call.alloc(), call.link_setup()));
    } else if call.is("sizes") {
        put_sizes(end.link(), out);
    } else {
        write_served(end, call, out);
    }
}

/// Gives a client a packet.
fn take_to_read(end: &mut AskingEnd, call: &mut Call, out: &mut Out) {
    let packet = call.bytes();
    let mut packets = Vec::new(call.alloc());
    let mut reports = Vec::new(call.alloc());
    out.got(end.take(&packet, &mut packets, &mut reports));
    put_left(&packets, &reports, out);
}

/// Lets a client go on.
fn ask_on(end: &mut AskingEnd, call: &Call, out: &mut Out) {
    let mut packets = Vec::new(call.alloc());
    let mut reports = Vec::new(call.alloc());
    out.done(end.go_on(&mut packets, &mut reports));
    put_left(&packets, &reports, out);
}

/// Reads the next message, and appends what it says, or that there is none.
fn read(end: &mut AskingEnd, out: &mut Out) {
    match end.read() {
        Ok(Heard::Report(report)) => out.report(&report),
        Ok(Heard::Part) => out.put("waits"),
        Ok(Heard::Nothing) => out.none(),
        Err(fault) => out.fault(&fault),
    }
}

/// Asks a request.
fn ask(end: &mut AskingEnd, call: &mut Call, out: &mut Out) {
    if let Some(request) = call.request() {
        out.number_or(end.ask(&request));
    }
}

/// Does a call of a client that writes.
fn write_asked(end: &mut AskingEnd, call: &mut Call, out: &mut Out) {
    if call.is("post") {
        out.number_or(end.post());
    } else if call.is("emit") {
        out.next_packet(end.emit());
    } else if call.is("ack") {
        out.packet(end.ack());
    } else if call.is("resend") {
        out.packet(end.resend(call.size()));
    } else {
        call.refuse();
    }
}

/// Does a call of a client.
fn call_asking(end: &mut AskingEnd, call: &mut Call, out: &mut Out) {
    if call.is("ask") {
        ask(end, call, out);
    } else if call.is("take") {
        take_to_read(end, call, out);
    } else if call.is("go-on") {
        ask_on(end, call, out);
    } else if call.is("receive") {
        out.got(end.receive(&call.bytes()));
    } else if call.is("read") {
        read(end, out);
    } else if call.is("renew") {
        out.done(end.renew(call.alloc(), call.link_setup()));
    } else if call.is("sizes") {
        put_sizes(end.link(), out);
    } else {
        write_asked(end, call, out);
    }
}

/// Makes a new server: `BUFSIZ LINK`.
fn serving(call: &mut Call) -> Option<ServingEnd> {
    let bufsiz = call.buffer();
    ServingEnd::new(call.alloc(), bufsiz, call.link_setup()).ok()
}

/// Makes a new client: `BUFSIZ LINK`.
fn asking(call: &mut Call) -> Option<AskingEnd> {
    let bufsiz = call.buffer();
    AskingEnd::new(call.alloc(), bufsiz, call.link_setup()).ok()
}

impl Ending {
    /// Does a call of the end that is there.
    fn act(&mut self, call: &mut Call, out: &mut Out) {
        if let Some(end) = &mut self.serving {
            call_serving(end, call, out);
        } else if let Some(end) = &mut self.asking {
            call_asking(end, call, out);
        } else {
            call.refuse();
        }
    }
}

impl Suite for Ending {
    fn begin(&mut self) {
        self.serving = None;
        self.asking = None;
    }

    fn call(&mut self, call: &mut Call, out: &mut Out) {
        if call.is("serving") {
            self.serving = serving(call);
            out.put("made");
        } else if call.is("asking") {
            self.asking = asking(call);
            out.put("made");
        } else {
            self.act(call, out);
        }
    }
}
