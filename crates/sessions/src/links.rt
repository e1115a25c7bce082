//! The suite `links`: one end of an NSP link.

use crate::call::Call;
use crate::out::Out;
use crate::playing::Suite;
use nsp_link::{Got, LinkEnd, LinkFault};

/// An end of a link, if there is one.
#[derive(Drop)]
pub struct Linking {
    pub end: Option<LinkEnd>,
}

/// Makes a new end.
fn make(call: &mut Call, out: &mut Out) -> Option<LinkEnd> {
    match LinkEnd::new(call.alloc(), call.link_setup()) {
        Ok(end) => {
            out.put("done");
            Some(end)
        }
        Err(fault) => {
            out.fault(&fault);
            None
        }
    }
}

/// Appends the sizes of an end: segments that aren't acknowledged, that were sent and that were taken; bytes of a
/// message that isn't whole; segments that are held.
fn put_sizes(end: &LinkEnd, out: &mut Out) {
    out.number("unacked ", end.unacked());
    out.number(" sent ", end.sent_count());
    out.number(" received ", end.received_count());
    out.number(" partial ", end.partial_len());
    out.number(" held ", end.held_count());
}

/// Sends this many messages of a byte, and writes this many packets.
fn fill(end: &mut LinkEnd, sent: usize, written: usize) -> Result<(), LinkFault> {
    for _ in 0..sent {
        end.send(b"x")?;
    }
    for _ in 0..written {
        let _ = end.next_packet()?;
    }
    Ok(())
}

/// Gives the end a message of one segment of this number.
fn come(end: &mut LinkEnd, number: u16) -> Result<Got, LinkFault> {
    let number = number.to_le_bytes();
    end.receive(&[0x60, 2, 2, 1, 1, 0, 0x80, number[0], number[1]])
}

/// Gives the end messages of one segment, with the numbers from one up to another, and appends what became of them,
/// where it is the same of all.
fn come_all(end: &mut LinkEnd, first: u16, last: u16, out: &mut Out) {
    let got = come(end, first);
    for number in first.saturating_add(1)..=last {
        if come(end, number) != got {
            return out.number("another at ", number);
        }
    }
    out.got(got);
}

/// Does a call that sends.
fn send(end: &mut LinkEnd, call: &mut Call, out: &mut Out) {
    if call.is("send") {
        out.done(end.send(&call.bytes()));
    } else if call.is("send-all") {
        out.done(end.send_all(&call.all_bytes()));
    } else if call.is("check") {
        out.done(end.check_messages(&call.all_bytes()));
    } else if call.is("fill") {
        let sent = call.size();
        out.done(fill(end, sent, call.size()));
    } else {
        call.refuse();
    }
}

/// Does a call that writes.
fn write(end: &mut LinkEnd, call: &mut Call, out: &mut Out) {
    if call.is("may-send") {
        out.yes(end.may_send());
    } else if call.is("next") {
        out.next_packet(end.next_packet());
    } else if call.is("resend") {
        out.packet(end.resend(call.size()));
    } else if call.is("ack") {
        out.packet(end.ack_packet());
    } else {
        send(end, call, out);
    }
}

/// Takes the oldest message, and appends it.
fn take_message(end: &mut LinkEnd, out: &mut Out) {
    match end.take_message() {
        Some(message) => out.bytes(&message),
        None => out.none(),
    }
}

/// Does a call that takes what comes, or appends the state of an end.
fn take(end: &mut LinkEnd, call: &mut Call, out: &mut Out) {
    if call.is("receive") {
        out.got(end.receive(&call.bytes()));
    } else if call.is("come") {
        let first = call.number(4095) as u16;
        come_all(end, first, call.number(4095) as u16, out);
    } else if call.is("peek") {
        out.some_bytes(end.peek_message());
    } else if call.is("take") {
        take_message(end, out);
    } else if call.is("sizes") {
        put_sizes(end, out);
    } else {
        write(end, call, out);
    }
}

impl Suite for Linking {
    fn begin(&mut self) {
        self.end = None;
    }

    fn call(&mut self, call: &mut Call, out: &mut Out) {
        if call.is("new") {
            self.end = make(call, out);
            return;
        }
        match &mut self.end {
            Some(end) => take(end, call, out),
            None => call.refuse(),
        }
    }
}
