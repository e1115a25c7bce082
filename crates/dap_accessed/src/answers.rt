//! Answers, and their messages.

ghost use Rattle.std.specs.Prelude.{◌≡◌, ◌≤◌, [], ◌∷◌, IfOk, length};
ghost use Rattle.dap_msg.specs.declared.message.Message.TheVariants.{Ack, Config, Filedata};
ghost use Rattle.dap_msg.specs.Canon.{Fits};
ghost use Rattle.dap_msg.specs.Sizes.{file_data_size};
ghost use Rattle.dap_msg.specs.BothEnds.{four_bytes, min_buffer};
ghost use Rattle.rec_file.specs.Limits.{max_record};
ghost use Rattle.rec_file.specs.Looks.{IsLook};
ghost use Rattle.dap_accessed.specs.Replies.{attributes_for, coded, complete_response, erased_with, format_number, given_limit, opened_with, org_number, status, too_large};
ghost use Rattle.dap_accessed.specs.Inner.Written.{AddsAnswer, FitsIn, IsAtMost, IsShortReply, IsWritableReply, reply_message, most_bytes};
ghost use Rattle.dap_accessed.specs.Served.{AreAnswers};

use crate::asked::kept_attributes;
use crate::fault::NoMemory;
use dap_msg::codes::{
    CMPFUNC_RESPONSE, ORG_RELATIVE, ORG_SEQUENTIAL, REASON_TOO_LARGE_FOR_BUFFER, RECORD_REFUSED,
    RFM_FIXED, RFM_VARIABLE, SUCCESS, rms_code,
};
use dap_msg::{
    Attributes, Bytes, Configuration, MIN_BUFFER, MessageValue, StatusFields, append_message,
    encode_value, encoded_len,
};
use rec_file::{Format, Look, Org, Shape};
use std::alloc::Global;
use std::marker::Model;

/// An answer before it is written, with the bytes of its numbers.
#[derive(Clone, Copy)]
pub(crate) enum Answer<'a> {
    /// The Config of an end.
    Config(Configuration),
    /// The Attributes of a file, by its shape and its look, and its MRN.
    Attributes(Shape, Look, [u8; 4]),
    Ack,
    Complete,
    /// A Status with a code alone.
    Status(u16),
    Reason {
        code: u16,
        reason: [u8; 1],
    },
    /// The refusal of a Filedata of a Store.
    StoreRefusal {
        code: u16,
        reason: [u8; 1],
        ordinal: [u8; 4],
    },
    /// The operation on the record of this number is done.
    Done([u8; 4]),
    Record {
        number: [u8; 4],
        body: &'a [u8],
    },
}

/// Returns the refusal of a record that is longer than the peer takes.
pub(crate) fn too_large<'a>() -> Answer<'a>
    ensures message { reply_message result ≡ too_large }
    ensures short { IsShortReply result }
{
    Answer::Reason {
        code: RECORD_REFUSED,
        reason: [REASON_TOO_LARGE_FOR_BUFFER],
    }
}

/// Returns a Status with these fields.
#[tactic(auto, using(dap_msg::proofs::ForCallers::answers_fit))]
fn status<'a>(code: u16, rfa: &'a [u8], recnum: &'a [u8], stv: &'a [u8]) -> MessageValue<'a>
    requires rfa { length rfa.now ≤ 4 }
    requires recnum { length recnum.now ≤ 4 }
    requires stv { length stv.now ≤ 4 }
    ensures same { result ≡ status code rfa.now recnum.now stv.now }
    ensures fits { Fits (status code rfa.now recnum.now stv.now) }
    ensures short { IsAtMost min_buffer (status code rfa.now recnum.now stv.now) }
{
    MessageValue::Status(StatusFields {
        code,
        rfa: Bytes(rfa),
        recnum: Bytes(recnum),
        stv: Bytes(stv),
    })
}

/// Returns the ORG of an organization.
fn org_code(org: Org) -> u8
    ensures { result ≡ org_number org }
{
    match org {
        Org::Seq => ORG_SEQUENTIAL,
        Org::Rel => ORG_RELATIVE,
    }
}

/// Returns the RFM of a record format.
fn format_code(format: Format) -> u8
    ensures { result ≡ format_number format }
{
    match format {
        Format::Fixed => RFM_FIXED,
        Format::Variable => RFM_VARIABLE,
    }
}

/// Returns the MRS that was given: the limit of a record without its fixed part in front (DAP 5.6.0, Attributes
/// message).
pub fn given_limit(shape: Shape, look: Look) -> u16
    ensures { result ≡ given_limit shape look }
{
    shape.mrs.saturating_sub(u16::from(look.fsz.unwrap_or(0)))
}

/// Returns the Attributes of a file, with its MRN in these four bytes.
#[tactic(auto, using(crate::proofs::Writing::attributes_fit))]
fn attributes(shape: Shape, look: Look, mrn: &[u8]) -> MessageValue<'_>
    requires number { mrn.now ≡ four_bytes shape.mrn }
    requires look { IsLook shape look }
    ensures same { result ≡ attributes_for shape look }
    ensures fits { Fits (attributes_for shape look) }
    ensures short { IsAtMost min_buffer (attributes_for shape look) }
{
    MessageValue::Attrib(Attributes {
        org: Some(org_code(shape.org)),
        rfm: Some(look.rfm.unwrap_or(format_code(shape.format))),
        mrs: Some(given_limit(shape, look)),
        mrn: Some(Bytes(mrn)),
        ..kept_attributes(look)
    })
}

/// Returns the Filedata of a record, with its number in these four bytes.
#[tactic(auto, using(dap_msg::proofs::ForCallers::file_data_measured, dap_msg::proofs::ForCallers::file_data_fits))]
fn record<'a>(number: &'a [u8], body: &'a [u8]) -> MessageValue<'a>
    requires four { length number.now ≡ 4 }
    requires short { length body.now ≤ max_record }
    ensures same { result ≡ Filedata number.now body.now }
    ensures fits { Fits (Filedata number.now body.now) }
    ensures size { IsAtMost (file_data_size 4 (length body.now)) (Filedata number.now body.now) }
{
    MessageValue::Filedata {
        recnum: Bytes(number),
        payload: Bytes(body),
    }
}

/// Returns how many bytes the Filedata of a record has, with its number in 4 bytes.
#[tactic(auto, using(dap_msg::proofs::ForCallers::file_data_measured, dap_msg::proofs::ForCallers::file_data_fits))]
pub(crate) fn filedata_len(body: &[u8]) -> usize
    requires { length body.now ≤ max_record }
    ensures { result ≡ file_data_size 4 (length body.now) }
{
    encoded_len(&MessageValue::Filedata {
        recnum: Bytes(&[0; 4]),
        payload: Bytes(body),
    })
}

impl<'a> Answer<'a> {
    /// Returns the answer as a full server gives it, or a plain one: in a full one's the code of a refusal with a reason
    /// is RMS's.
    pub(crate) fn coded(self, full: bool) -> Answer<'a>
        ensures message { reply_message result ≡ coded full (reply_message self.entry) }
        ensures short { IsShortReply self.entry → IsShortReply result }
    {
        if !full {
            return self;
        }
        match self {
            Answer::Reason { code, reason } => Answer::Reason {
                code: rms_code(code, reason[0]),
                reason,
            },
            Answer::StoreRefusal {
                code,
                reason,
                ordinal,
            } => Answer::StoreRefusal {
                code: rms_code(code, reason[0]),
                reason,
                ordinal,
            },
            answer => answer,
        }
    }

    /// Returns the message that the answer is.
    #[tactic(auto, using(dap_msg::proofs::ForCallers::answers_fit))]
    fn message(&self) -> MessageValue<'_>
        requires { IsWritableReply self.now }
        ensures same { result ≡ reply_message self.now }
        ensures fits { Fits (reply_message self.now) }
        ensures within { IsAtMost (most_bytes self.now) (reply_message self.now) }
    {
        match self {
            Answer::Config(own) => MessageValue::Config(*own),
            Answer::Attributes(shape, look, mrn) => attributes(*shape, *look, mrn),
            Answer::Ack => MessageValue::Ack,
            Answer::Complete => MessageValue::complete_with(CMPFUNC_RESPONSE),
            Answer::Status(code) => status(*code, &[], &[], &[]),
            Answer::Reason { code, reason } => status(*code, &[], &[], reason),
            Answer::StoreRefusal {
                code,
                reason,
                ordinal,
            } => status(*code, &[], ordinal, reason),
            Answer::Done(number) => status(SUCCESS, number, number, &[]),
            Answer::Record { number, body } => record(number, body),
        }
    }
}

/// Returns one answer in an NSP message.
pub(crate) fn one(alloc: Global, limit: u16, answer: Answer<'_>) -> Result<Vec<Vec<u8>>, NoMemory>
    requires { FitsIn limit answer }
    ensures { IfOk result (AreAnswers limit (reply_message answer.entry ∷ [])) }
{
    let mut answers = Vec::new(alloc);
    append(alloc, limit, answer, &mut answers)?;
    Ok(answers)
}

/// Puts an answer after the others, joined to the last NSP message where the limit allows it.
pub(crate) fn append(
    alloc: Global,
    limit: u16,
    answer: Answer<'_>,
    answers: &mut Vec<Vec<u8>>,
) -> Result<(), NoMemory>
    requires { FitsIn limit answer }
    ensures { AddsAnswer limit (reply_message answer.entry) answers.old answers.new result }
{
    append_message(alloc, answers, &answer.message(), usize::from(limit))?;
    Ok(())
}

/// Returns the answers to an Access that opens a file of this shape and this look.
pub(crate) fn opening(
    alloc: Global,
    limit: u16,
    shape: Shape,
    look: Look,
) -> Result<Vec<Vec<u8>>, NoMemory>
    requires room { min_buffer ≤ limit }
    requires look { IsLook shape look }
    ensures { IfOk result (AreAnswers limit (opened_with shape look)) }
{
    let mut answers = Vec::new(alloc);
    append(
        alloc,
        limit,
        Answer::Attributes(shape, look, shape.mrn.to_le_bytes()),
        &mut answers,
    )?;
    append(alloc, limit, Answer::Ack, &mut answers)?;
    Ok(answers)
}

/// Returns the answers to an Access that erases a file.
pub(crate) fn erased(alloc: Global, limit: u16) -> Result<Vec<Vec<u8>>, NoMemory>
    requires { min_buffer ≤ limit }
    ensures { IfOk result (AreAnswers limit erased_with) }
{
    let mut answers = Vec::new(alloc);
    append(alloc, limit, Answer::Ack, &mut answers)?;
    append(alloc, limit, Answer::Complete, &mut answers)?;
    Ok(answers)
}

/// Room for one short answer, which needs no more memory.
#[derive(Drop)]
pub(crate) struct Room {
    answers: Vec<Vec<u8>>,
    bytes: Vec<u8>,
}

impl Model for Room {
    ghost use Rattle.std.specs.Prelude.{Bool, true};
    ghost use Rattle.dap_msg.specs.BothEnds.{min_buffer};
    ghost use Rattle.dap_accessed.specs.Inner.Written.{IsEmptyFor};

    ghost Value = { Bool };

    ghost view = { λ a. true };

    ghost invariant = { λ a. IsEmptyFor 1 a.answers × IsEmptyFor min_buffer a.bytes };
}

impl Room {
    /// Takes room for one short answer. The only refusal is out of memory.
    pub(crate) fn new(alloc: Global) -> Result<Room, NoMemory> {
        let answers = Vec::with_capacity(alloc, 1)?;
        let bytes = Vec::with_capacity(alloc, usize::from(MIN_BUFFER))?;
        Ok(Room { answers, bytes })
    }

    /// Writes the answer into the room, as one NSP message, as a full server gives it or a plain one.
    pub(crate) fn fill(self, limit: u16, full: bool, answer: Answer<'_>) -> Vec<Vec<u8>>
        requires short { IsShortReply answer }
        requires room { min_buffer ≤ limit }
        ensures { AreAnswers limit (coded full (reply_message answer.entry) ∷ []) result }
    {
        let answer = answer.coded(full);
        let Room {
            mut answers,
            mut bytes,
        } = self;
        let _written = encode_value(&answer.message(), &mut bytes);
        answers.push_reserved(bytes);
        answers
    }
}
