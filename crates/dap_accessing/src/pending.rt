//! What is still to come of the answers to a request.

ghost use Rattle.std.specs.Prelude.{◌≡◌, ◌↔◌, true, false, Some};
ghost use Rattle.dap_msg.specs.declared.items.Item.TheVariants.{Whole};
ghost use Rattle.dap_accessing.specs.declared.pending.Pending.TheVariants as pending;
ghost use Rattle.dap_accessing.specs.Told.{ending_by, reason_in};
ghost use Rattle.dap_accessing.specs.declared.pending.Heard.TheVariants as heard;
ghost use Rattle.dap_accessing.specs.Inner.Hears.{AddsBody, HasShortNumbers, Hears, IsInSequence, IsOutOfSequence, IsRecordOrRefusal, pending_of, refused_as};

use crate::bytes::{Numbered, Octets};
use crate::report::{Ending, Report};
use crate::request::Request;
use dap_msg::codes::{
    CMPFUNC_RESPONSE, END_OF_FILE, ORG_SEQUENTIAL, REASON_TOO_LARGE_FOR_BUFFER, RECORD_REFUSED,
    RFM_VARIABLE, RMS_TOO_LARGE_FOR_BUFFER,
};
use dap_msg::{MessageValue, StatusCode, is_too_small, number_of};
use rec_file::MAX_NUMBER;
use std::alloc::Global;

#[derive(Drop)]
pub(crate) enum Pending {
    Config,
    Attributes,
    /// The Ack of an open or a create, whose Attrib came.
    Opened {
        org: u8,
        rfm: u8,
        mrs: u16,
        mrn: u32,
    },
    Connected,
    Record,
    Done,
    /// More of a batch, after these records.
    Batch(Numbered),
    /// The end of a store, with its first refusal.
    Stored(Option<(u16, u8, u64)>),
    Closed,
}

/// What an answer comes to.
#[derive(Drop)]
pub(crate) enum Heard {
    Waits(Pending),
    Reports(Report),
    Unexpected,
    NoMemory(Pending),
}

/// Returns the reason, where there is one byte of it.
fn reason(stv: &[u8]) -> u8
    ensures { result ≡ reason_in stv.now }
{
    match stv {
        [reason] => *reason,
        _ => 0,
    }
}

/// Returns how a fetch ended.
fn ending(code: u16, stv: &[u8]) -> Ending
    ensures { result ≡ ending_by code (reason_in stv.now) }
{
    let reason = reason(stv);
    match code {
        END_OF_FILE => Ending::Complete,
        RECORD_REFUSED | RMS_TOO_LARGE_FOR_BUFFER if reason == REASON_TOO_LARGE_FOR_BUFFER => {
            Ending::Stopped
        }
        _ => Ending::Refused(code, reason),
    }
}

impl Pending {
    /// Returns what is to come once the request is asked.
    pub(crate) fn of(alloc: Global, request: &Request) -> Pending
        ensures { result ≡ pending_of request.now }
    {
        match request {
            Request::Hello => Pending::Config,
            Request::Create { .. } | Request::OpenFile { .. } => Pending::Attributes,
            Request::Connect => Pending::Connected,
            Request::Get(_) => Pending::Record,
            Request::Put { .. } | Request::Update { .. } | Request::Delete | Request::Rewind => {
                Pending::Done
            }
            Request::Fetch | Request::Continue(_) => Pending::Batch(Numbered(Vec::new(alloc))),
            Request::Store(_) => Pending::Stored(None),
            Request::Close | Request::Purge => Pending::Closed,
        }
    }

    /// Returns what the message comes to as the next answer.
    pub(crate) fn hear(self, alloc: Global, message: &MessageValue<'_>) -> Heard
        requires { HasShortNumbers message.now }
        ensures { Hears self (Whole message.now) result }
    {
        match self {
            Pending::Config => hear_config(message),
            Pending::Attributes => hear_attributes(message),
            Pending::Opened { org, rfm, mrs, mrn } => hear_opened(org, rfm, mrs, mrn, message),
            Pending::Connected => hear_connected(message),
            Pending::Record => hear_record(alloc, message),
            Pending::Done => hear_done(message),
            Pending::Batch(bodies) => hear_batch(alloc, bodies, message),
            Pending::Stored(kept) => hear_stored(kept, message),
            Pending::Closed => hear_closed(message),
        }
    }

    /// Returns whether a message is expected as the next answer.
    #[tactic(auto, using(crate::proofs::Expecting::heard_in_sequence, crate::proofs::Expecting::record_in_sequence, crate::proofs::Expecting::batch_in_sequence))]
    pub(crate) fn expects(&self, answer: &MessageValue<'_>) -> bool
        requires { HasShortNumbers answer.now }
        ensures yes { result ≡ true → IsInSequence self.now (Whole answer.now) }
        ensures no { result ≡ false → IsOutOfSequence (Whole answer.now) (Some self.now) }
    {
        match self {
            Pending::Record => is_record_or_refusal(answer),
            Pending::Batch(_) => is_record_or_refusal(answer),
            Pending::Config => is_expected(hear_config(answer)),
            Pending::Attributes => is_expected(hear_attributes(answer)),
            Pending::Opened { org, rfm, mrs, mrn } => {
                is_expected(hear_opened(*org, *rfm, *mrs, *mrn, answer))
            }
            Pending::Connected => is_expected(hear_connected(answer)),
            Pending::Done => is_expected(hear_done(answer)),
            Pending::Stored(kept) => is_expected(hear_stored(*kept, answer)),
            Pending::Closed => is_expected(hear_closed(answer)),
        }
    }
}

/// Returns whether the message that came to this was expected.
fn is_expected(outcome: Heard) -> bool
    ensures { result ≡ false ↔ outcome ≡ heard.Unexpected }
{
    !matches!(outcome, Heard::Unexpected)
}

/// Returns whether the message is a record, or a Status that says why there is none.
fn is_record_or_refusal(message: &MessageValue<'_>) -> bool
    ensures yes { result ≡ true → IsRecordOrRefusal message.now }
    ensures no { result ≡ false → IsRecordOrRefusal message.now → ⊥ }
{
    match message {
        MessageValue::Filedata { .. } => true,
        MessageValue::Status(status) => !StatusCode(status.code).is_success(),
        _ => false,
    }
}

/// Returns what a Status comes to where a report is due: it refuses, or is out of sequence where it is a success.
fn hear_status(code: u16, stv: &[u8]) -> Heard
    ensures { result ≡ refused_as code (reason_in stv.now) }
{
    if StatusCode(code).is_success() {
        Heard::Unexpected
    } else {
        Heard::Reports(Report::Refused(code, reason(stv)))
    }
}

/// Returns what a message comes to where a Config is due.
fn hear_config(message: &MessageValue<'_>) -> Heard
    ensures { Hears pending.Config (Whole message.now) result }
{
    match message {
        MessageValue::Config(config) => {
            if is_too_small(config.bufsiz) {
                Heard::Unexpected
            } else {
                Heard::Reports(Report::Ready(config.bufsiz))
            }
        }
        MessageValue::Status(status) => hear_status(status.code, status.stv.0),
        _ => Heard::Unexpected,
    }
}

/// Returns what a message comes to where the Attributes of an opened file are due.
fn hear_attributes(message: &MessageValue<'_>) -> Heard
    requires { HasShortNumbers message.now }
    ensures { Hears pending.Attributes (Whole message.now) result }
{
    match message {
        MessageValue::Attrib(attributes) => {
            let mrn = match &attributes.mrn {
                Some(image) => number_of(image.0),
                None => 0,
            };
            if mrn <= u64::from(MAX_NUMBER) {
                Heard::Waits(Pending::Opened {
                    org: attributes.org.unwrap_or(ORG_SEQUENTIAL),
                    rfm: attributes.rfm.unwrap_or(RFM_VARIABLE),
                    mrs: attributes.mrs.unwrap_or(0),
                    mrn: mrn as u32,
                })
            } else {
                Heard::Unexpected
            }
        }
        MessageValue::Other { .. } => Heard::Waits(Pending::Attributes),
        MessageValue::Status(status) => hear_status(status.code, status.stv.0),
        _ => Heard::Unexpected,
    }
}

/// Returns what a message comes to where the Acknowledge after these attributes is due.
fn hear_opened(org: u8, rfm: u8, mrs: u16, mrn: u32, message: &MessageValue<'_>) -> Heard
    ensures { Hears (pending.Opened org rfm mrs mrn) (Whole message.now) result }
{
    match message {
        MessageValue::Ack => Heard::Reports(Report::Opened { org, rfm, mrs, mrn }),
        MessageValue::Other { .. } => Heard::Waits(Pending::Opened { org, rfm, mrs, mrn }),
        MessageValue::Status(status) => hear_status(status.code, status.stv.0),
        _ => Heard::Unexpected,
    }
}

/// Returns what a message comes to where the Acknowledge of a connection is due.
fn hear_connected(message: &MessageValue<'_>) -> Heard
    ensures { Hears pending.Connected (Whole message.now) result }
{
    match message {
        MessageValue::Ack => Heard::Reports(Report::Connected),
        MessageValue::Status(status) => hear_status(status.code, status.stv.0),
        _ => Heard::Unexpected,
    }
}

/// Returns what a message comes to where the record of a get is due.
fn hear_record(alloc: Global, message: &MessageValue<'_>) -> Heard
    requires { HasShortNumbers message.now }
    ensures { Hears pending.Record (Whole message.now) result }
{
    match message {
        MessageValue::Filedata { recnum, payload } => match Vec::from_slice(alloc, payload.0) {
            Ok(body) => Heard::Reports(Report::Found {
                number: number_of(recnum.0),
                body: Octets(body),
            }),
            Err(_) => Heard::NoMemory(Pending::Record),
        },
        MessageValue::Status(status) => {
            if status.code == END_OF_FILE {
                return Heard::Reports(Report::EndOfFile);
            }
            hear_status(status.code, status.stv.0)
        }
        _ => Heard::Unexpected,
    }
}

/// Returns what a message comes to where the Status of an operation is due.
fn hear_done(message: &MessageValue<'_>) -> Heard
    requires { HasShortNumbers message.now }
    ensures { Hears pending.Done (Whole message.now) result }
{
    match message {
        MessageValue::Status(status) => {
            if StatusCode(status.code).is_success() {
                Heard::Reports(Report::Done(number_of(status.recnum.0)))
            } else {
                Heard::Reports(Report::Refused(status.code, reason(status.stv.0)))
            }
        }
        _ => Heard::Unexpected,
    }
}

/// Adds the record to the batch. Where there is no memory the batch stays.
fn hear_body(alloc: Global, bodies: Numbered, number: u64, payload: &[u8]) -> Heard
    ensures { AddsBody bodies number payload.now result }
{
    let Ok(body) = Vec::from_slice(alloc, payload) else {
        return Heard::NoMemory(Pending::Batch(bodies));
    };
    let mut bodies = bodies;
    match bodies.0.push((number, Octets(body))) {
        Ok(()) => Heard::Waits(Pending::Batch(bodies)),
        Err(_) => Heard::NoMemory(Pending::Batch(bodies)),
    }
}

/// Returns what a message comes to in a fetch, after these records.
fn hear_batch(alloc: Global, bodies: Numbered, message: &MessageValue<'_>) -> Heard
    requires { HasShortNumbers message.now }
    ensures { Hears (pending.Batch bodies) (Whole message.now) result }
{
    match message {
        MessageValue::Filedata { recnum, payload } => hear_body(
            alloc,
            bodies,
            number_of(recnum.0),
            payload.0,
        ),
        MessageValue::Status(status) => {
            if StatusCode(status.code).is_success() {
                Heard::Unexpected
            } else {
                Heard::Reports(Report::Batch {
                    bodies,
                    ending: ending(status.code, status.stv.0),
                })
            }
        }
        _ => Heard::Unexpected,
    }
}

/// Returns what a message comes to where the end of a store is due, whose first refusal is kept.
fn hear_stored(kept: Option<(u16, u8, u64)>, message: &MessageValue<'_>) -> Heard
    requires { HasShortNumbers message.now }
    ensures { Hears (pending.Stored kept) (Whole message.now) result }
{
    match message {
        MessageValue::Status(status) => {
            if StatusCode(status.code).is_success() {
                return Heard::Unexpected;
            }
            Heard::Waits(Pending::Stored(match kept {
                Some(first) => Some(first),
                None => Some((
                    status.code,
                    reason(status.stv.0),
                    number_of(status.recnum.0),
                )),
            }))
        }
        MessageValue::Accomp(complete) => {
            if complete.func == CMPFUNC_RESPONSE {
                Heard::Reports(Report::Stored(kept))
            } else {
                Heard::Unexpected
            }
        }
        _ => Heard::Unexpected,
    }
}

/// Returns what a message comes to where the Access Complete of a close or a purge is due.
fn hear_closed(message: &MessageValue<'_>) -> Heard
    ensures { Hears pending.Closed (Whole message.now) result }
{
    match message {
        MessageValue::Accomp(complete) => {
            if complete.func == CMPFUNC_RESPONSE {
                Heard::Reports(Report::Closed)
            } else {
                Heard::Unexpected
            }
        }
        MessageValue::Status(status) => hear_status(status.code, status.stv.0),
        _ => Heard::Unexpected,
    }
}
