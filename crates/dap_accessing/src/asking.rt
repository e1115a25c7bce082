//! The messages of a request.

ghost use Rattle.std.specs.Prelude.{◌≡◌, ◌≤◌, ◌<◌, ◌↔◌, ℕ, [], None, length, map, IsTrue, IfOk, IfSome};
ghost use Rattle.dap_msg.specs.BothEnds.{attributes_of, four_bytes};
ghost use Rattle.dap_msg.specs.declared.message.Message.TheVariants.{Filedata};
ghost use Rattle.dap_msg.specs.Blocked.{AddsOne};
ghost use Rattle.dap_msg.specs.Canon.{canon, Fits};
ghost use Rattle.dap_msg.specs.Sizes.{file_data_size};
ghost use Rattle.dap_accessing.specs.Asked as asked;
ghost use Rattle.dap_accessing.specs.Outgoing.{AreCounted, IsBlocked, number_carried, first_of, record_bodies, last_of, outgoing_messages};
ghost use Rattle.dap_msg.specs.Sendable.{IsSendable, AreSendable};

use crate::bytes::Octets;
use crate::request::{By, How, Request};
use dap_msg::codes::{
    ACCFUNC_CREATE, ACCFUNC_OPEN, CMPFUNC_CLOSE, CMPFUNC_END_OF_STREAM, CMPFUNC_PURGE,
    CONFUNC_ABORT, CONFUNC_AGAIN, CONFUNC_SKIP, CTLFUNC_CONNECT, CTLFUNC_DELETE, CTLFUNC_GET,
    CTLFUNC_PUT, CTLFUNC_REWIND, CTLFUNC_UPDATE, RAC_ADDRESS, RAC_KEYED, RAC_SEQUENTIAL,
    RAC_WHOLE_FILE,
};
use dap_msg::{
    AccessFields, Attributes, Bytes, Configuration, ControlFields, MessageValue, MsgFault,
    append_counted, encoded_len, fits_value,
};
use std::alloc::Global;

/// Returns the number that a request carries in four bytes, 0 where it carries none.
fn carried_number(request: &Request) -> u32
    ensures { result ≡ number_carried request.now }
{
    match request {
        Request::Create { mrn, .. } => *mrn,
        Request::Get(By::Key(number) | By::Rfa(number)) => *number,
        Request::Put {
            key: Some(number),
            ..
        } => *number,
        _ => 0,
    }
}

impl Request {
    /// Returns the number that its messages carry, in four bytes, the lowest first: a file's MRN, a record's number or
    /// its address; 0 where they carry none (DAP 5.6.0, Attributes and Control messages).
    pub(crate) fn number(&self) -> [u8; 4]
        ensures { result ≡ four_bytes (number_carried self.now) }
    {
        carried_number(self).to_le_bytes()
    }
}

/// Returns the Attributes of a file: ORG, RFM, MRS, and MRN in these bytes.
fn attributes(org: u8, rfm: u8, mrs: u16, mrn: &[u8]) -> MessageValue<'_>
    ensures { (n : ℕ) → mrn.now ≡ four_bytes n → result ≡ attributes_of org rfm mrs n }
{
    MessageValue::Attrib(Attributes {
        org: Some(org),
        rfm: Some(rfm),
        mrs: Some(mrs),
        mrn: Some(Bytes(mrn)),
        ..Attributes::none()
    })
}

/// Returns an Access of this function to the file of this name.
fn access(func: u8, name: &Octets, fac: u32) -> MessageValue<'_>
    ensures { result ≡ asked.access func name.now fac }
{
    MessageValue::Access(AccessFields {
        func,
        opt: 0,
        name: Bytes(name.0.as_slice()),
        fac,
        shr: 0,
        display: 0,
        password: Bytes(&[]),
    })
}

/// Returns a Control with these fields alone.
fn control(func: u8, rac: Option<u8>, key: Option<Bytes<'_>>) -> MessageValue<'_>
    ensures { result ≡ asked.control func rac key.entry }
{
    MessageValue::Control(ControlFields {
        func,
        rac,
        key,
        krf: None,
        rop: None,
        hsh: None,
        display: None,
    })
}

/// Returns the Filedata of a record, without a number.
fn record(body: &Octets) -> MessageValue<'_>
    ensures { result ≡ Filedata [] body.now }
{
    MessageValue::Filedata {
        recnum: Bytes(&[]),
        payload: Bytes(body.0.as_slice()),
    }
}

/// Returns the first message of a request that carries these four bytes.
fn first_message<'a>(own: Configuration, request: &'a Request, number: &'a [u8]) -> MessageValue<'a>
    requires { number.now ≡ four_bytes (number_carried request.now) }
    ensures { result ≡ first_of own request.now }
{
    match request {
        Request::Hello => MessageValue::Config(own),
        Request::Create { org, rfm, mrs, .. } => attributes(*org, *rfm, *mrs, number),
        Request::OpenFile { .. } => MessageValue::Attrib(Attributes::none()),
        Request::Connect => control(CTLFUNC_CONNECT, None, None),
        Request::Get(By::Next) => control(CTLFUNC_GET, Some(RAC_SEQUENTIAL), None),
        Request::Get(By::Key(_)) => control(CTLFUNC_GET, Some(RAC_KEYED), Some(Bytes(number))),
        Request::Get(By::Rfa(_)) => control(CTLFUNC_GET, Some(RAC_ADDRESS), Some(Bytes(number))),
        Request::Put { key: None, .. } => control(CTLFUNC_PUT, Some(RAC_SEQUENTIAL), None),
        Request::Put { key: Some(_), .. } => control(
            CTLFUNC_PUT,
            Some(RAC_KEYED),
            Some(Bytes(number)),
        ),
        Request::Update { .. } => control(CTLFUNC_UPDATE, Some(RAC_SEQUENTIAL), None),
        Request::Delete => control(CTLFUNC_DELETE, Some(RAC_SEQUENTIAL), None),
        Request::Rewind => control(CTLFUNC_REWIND, Some(RAC_SEQUENTIAL), None),
        Request::Fetch => control(CTLFUNC_GET, Some(RAC_WHOLE_FILE), None),
        Request::Store(_) => control(CTLFUNC_PUT, Some(RAC_WHOLE_FILE), None),
        Request::Continue(How::Again) => MessageValue::Contran {
            func: CONFUNC_AGAIN,
        },
        Request::Continue(How::Skip) => MessageValue::Contran { func: CONFUNC_SKIP },
        Request::Continue(How::Abort) => MessageValue::Contran {
            func: CONFUNC_ABORT,
        },
        Request::Close => MessageValue::complete_with(CMPFUNC_CLOSE),
        Request::Purge => MessageValue::complete_with(CMPFUNC_PURGE),
    }
}

/// Returns the message after the first and the records, where there is one.
fn last_message(request: &Request) -> Option<MessageValue<'_>>
    ensures { result ≡ last_of request.now }
{
    match request {
        Request::Create { name, fac, .. } => Some(access(ACCFUNC_CREATE, name, *fac)),
        Request::OpenFile { name, fac } => Some(access(ACCFUNC_OPEN, name, *fac)),
        Request::Put { body, .. } | Request::Update { body } => Some(record(body)),
        Request::Store(_) => Some(MessageValue::complete_with(CMPFUNC_END_OF_STREAM)),
        _ => None,
    }
}

/// Returns the records of a Store.
fn records(request: &Request) -> &[Octets]
    ensures { result.now ≡ record_bodies request.now }
{
    match request {
        Request::Store(list) => list.0.as_slice(),
        _ => &[],
    }
}

/// Returns the number of bytes of the message, where it has a spelling within the limit.
fn sendable_len(message: &MessageValue<'_>, limit: u16) -> Option<usize>
    ensures yes { IfSome result (λ n. IsSendable limit message.now) }
    ensures exact { IfSome result (λ n. n ≡ length (canon message.now)) }
    ensures no { result ≡ None → IsSendable limit message.now → ⊥ }
{
    if !fits_value(message) {
        return None;
    }
    let len = encoded_len(message);
    if len <= usize::from(limit) {
        Some(len)
    } else {
        None
    }
}

/// What is before a record in its Filedata where that has a header of 3 bytes, and where it has one of 4.
const BEFORE_SHORT_RECORD: usize = 4;

const BEFORE_LONG_RECORD: usize = 5;

/// The maximum number of bytes of a Filedata with a header of 3 bytes.
const MAX_SHORT_RECORD: u16 = 258;

/// Returns the maximum number of bytes of a record whose Filedata is within the limit, where there is one.
fn max_record_within(limit: u16) -> Option<usize>
    ensures some { IfSome result
        (λ most. (len : ℕ) → (len ≤ most) ↔ (file_data_size 0 len ≤ limit)) }
    ensures none { result ≡ None → (len : ℕ) → limit < file_data_size 0 len }
{
    let before = if limit <= MAX_SHORT_RECORD {
        BEFORE_SHORT_RECORD
    } else {
        BEFORE_LONG_RECORD
    };
    usize::from(limit).checked_sub(before)
}

/// Returns whether each record has a Filedata within the limit.
fn are_sendable(records: &[Octets], limit: u16) -> bool
    ensures { IsTrue result ↔ AreSendable limit (map (Filedata []) records.now) }
{
    let Some(longest) = max_record_within(limit) else {
        return records.is_empty();
    };
    for body in records {
        if body.0.len() > longest {
            return false;
        }
    }
    true
}

/// Adds a message of `len` bytes to the last of the NSP messages, or begins a new one.
fn append(
    alloc: Global,
    list: &mut Vec<Vec<u8>>,
    message: &MessageValue<'_>,
    len: usize,
    limit: u16,
) -> Result<(), MsgFault>
    requires fits { Fits message.now }
    requires counted { len ≡ length (canon message.now) }
    ensures { AddsOne limit (canon message.now) list.old list.new result }
{
    append_counted(alloc, list, message, len, usize::from(limit))
}

/// What was counted of the messages of a request: the bytes of the first, and of the last after the records, 0 where
/// there is none.
#[derive(Clone, Copy)]
pub(crate) struct Counts {
    first: usize,
    last: usize,
}

/// The messages of a request.
#[derive(Drop)]
pub(crate) struct Outgoing<'a> {
    first: MessageValue<'a>,
    records: &'a [Octets],
    last: Option<MessageValue<'a>>,
}

impl<'a> Outgoing<'a> {
    /// Returns the messages of a request that carries these four bytes.
    pub(crate) fn of(own: Configuration, request: &'a Request, number: &'a [u8]) -> Outgoing<'a>
        requires { number.now ≡ four_bytes (number_carried request.now) }
        ensures messages { outgoing_messages result ≡ asked.messages_of own request.now }
        ensures first { result.first ≡ first_of own request.now }
        ensures last { result.last ≡ last_of request.now }
    {
        Outgoing {
            first: first_message(own, request, number),
            records: records(request),
            last: last_message(request),
        }
    }

    /// Counts the messages, where each has a spelling within the limit.
    pub(crate) fn count(&self, limit: u16) -> Option<Counts>
        ensures yes { IfSome result (λ _. AreSendable limit (outgoing_messages self.now)) }
        ensures counted { IfSome result
            (AreCounted self.now.first self.now.last) }
        ensures no { result ≡ None → AreSendable limit (outgoing_messages self.now) → ⊥ }
    {
        let first = sendable_len(&self.first, limit)?;
        if !are_sendable(self.records, limit) {
            return None;
        }
        let last = match &self.last {
            Some(message) => sendable_len(message, limit)?,
            None => 0,
        };
        Some(Counts { first, last })
    }

    /// Writes the messages, joined as far as the limit goes. The first and the last aren't counted again.
    pub(crate) fn blocked(
        &self,
        alloc: Global,
        limit: u16,
        counts: Counts,
    ) -> Result<Vec<Vec<u8>>, MsgFault>
        requires sendable { AreSendable limit (outgoing_messages self.now) }
        requires counted { AreCounted self.now.first self.now.last counts }
        ensures { IfOk result (IsBlocked limit (outgoing_messages self.now)) }
    {
        let mut list = Vec::new(alloc);
        append(alloc, &mut list, &self.first, counts.first, limit)?;
        for body in self.records {
            let message = record(body);
            append(alloc, &mut list, &message, encoded_len(&message), limit)?;
        }
        match &self.last {
            Some(message) => {
                append(alloc, &mut list, message, counts.last, limit)?;
                Ok(list)
            }
            None => Ok(list),
        }
    }
}

/// What [`crate::Accessing::prepare`] learned of a request: the number that it carries, in four bytes, and what was
/// counted of its messages.
#[derive(Drop)]
pub struct Prepared {
    pub(crate) number: [u8; 4],
    pub(crate) counts: Counts,
}
