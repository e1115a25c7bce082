//! What is kept with a file, as the bytes of a message, both ways.

ghost use Rattle.std.specs.Prelude.{◌≡◌, ◌≢◌, ◌⊎◌, Some, Err, IfErr, IfOk, IfSome, OnErr};
ghost use Rattle.dap_msg.specs.Canon.{canon, Fits};
ghost use Rattle.dap_msg.specs.Fitting.{FieldsFit};
ghost use Rattle.rec_file.specs.declared.look.Look.{Look as TheLook};
ghost use Rattle.dap_accessed.specs.Asked.{IsAsked};
ghost use Rattle.dap_msg.specs.BothEnds.{four_bytes};
ghost use Rattle.dap_text.specs.Kept.{LineAsks, look_bytes, kept_message, line_attributes, line_format};
ghost use Rattle.dap_text.specs.Inner.Kept.{IsSpelledBy, kept_in, attributes_look};
ghost use Rattle.dap_text.specs.declared.fault.FileFault.TheVariants as fault;

use crate::fault::FileFault;
use crate::filed::FileLine;
use dap_accessed::{Asked, MAX_FORMAT, kept_attributes, look_of};
use dap_msg::codes::RFM_VARIABLE;
use dap_msg::{Attributes, Bytes, Item, MessageValue, encode_value, item_at};
use rec_file::Look;
use std::alloc::{AllocError, Global};

/// Returns the bytes of the message of what is kept, none where nothing is (DAP 5.6.0, Attributes message).
pub(crate) fn look_bytes(alloc: Global, look: Look) -> Result<Vec<u8>, AllocError>
    requires { Fits (kept_message look) }
    ensures { IfOk result (λ bytes. bytes.items ≡ look_bytes look) }
{
    let mut bytes = Vec::new(alloc);
    if look.is_plain() {
        return Ok(bytes);
    }
    let message = MessageValue::Attrib(kept_attributes(look));
    match encode_value(&message, &mut bytes) {
        Ok(()) => Ok(bytes),
        Err(_) => Err(AllocError),
    }
}

/// Returns what attributes have of what a file may keep.
fn attributes_look(attributes: &Attributes<'_>) -> Look
    ensures { result ≡ attributes_look attributes.now }
{
    Look {
        datatype: attributes.datatype,
        rfm: attributes.rfm,
        rat: attributes.rat,
        bls: attributes.bls,
        bks: attributes.bks,
        fsz: attributes.fsz,
        bsz: attributes.bsz,
    }
}

/// Returns what is kept by a message of Attributes, and nothing for any other item.
fn kept_in(item: &Item<'_>) -> Option<Look>
    ensures { result ≡ kept_in item.now }
{
    match item {
        Item::Whole(MessageValue::Attrib(attributes)) => Some(attributes_look(attributes)),
        _ => None,
    }
}

/// Returns what is kept by the message with which bytes begin, where that is one of Attributes.
#[tactic(auto, using(crate::proofs::KeptLemmas::fields_in))]
fn read_message(bytes: &[u8]) -> Option<Look>
    ensures fields { IfSome result (λ look. FieldsFit (kept_message look)) }
    ensures only { (look : TheLook) → FieldsFit (kept_message look)
        → canon (kept_message look) ≡ bytes.now → result ≡ Some look }
{
    let (item, _next) = item_at(bytes, 0);
    kept_in(&item)
}

/// Returns what is kept, by the bytes of its message.
#[tactic(auto, using(crate::proofs::KeptLemmas::fits, crate::proofs::KeptLemmas::none_spelled, crate::proofs::KeptLemmas::other_spelled))]
fn read_kept(alloc: Global, bytes: &[u8]) -> Result<Look, FileFault>
    ensures ok { IfOk result (IsSpelledBy bytes.now) }
    ensures err { IfErr result (λ f. (f ≡ fault.NoMemory)
        ⊎ ((f ≡ fault.BadKept) × ((look : TheLook) → IsSpelledBy bytes.now look → ⊥))) }
{
    if bytes.is_empty() {
        return Ok(Look::plain());
    }
    let Some(look) = read_message(bytes) else {
        return Err(FileFault::BadKept);
    };
    let spelled = look_bytes(alloc, look)?;
    if spelled.as_slice() == bytes {
        Ok(look)
    } else {
        Err(FileFault::BadKept)
    }
}

/// Returns the RFM that a line asks for: that of what is kept, where the line says variable records and there is such a
/// format.
fn line_format(said: u8, kept: Option<u8>) -> u8
    ensures { result ≡ line_format said kept }
{
    match kept {
        Some(rfm) if said == RFM_VARIABLE && rfm <= MAX_FORMAT => rfm,
        _ => said,
    }
}

impl<'a> FileLine<'a> {
    /// Returns the attributes that the line asks for where this is kept, with its MRN in these four bytes.
    fn attributes<'b>(&self, look: Look, mrn: &'b [u8]) -> Attributes<'b>
        requires { mrn.now ≡ four_bytes self.now.mrn }
        ensures { result ≡ line_attributes self.now look }
    {
        Attributes {
            org: Some(self.org),
            rfm: Some(line_format(self.rfm, look.rfm)),
            mrs: Some(self.mrs),
            mrn: Some(Bytes(mrn)),
            ..kept_attributes(look)
        }
    }

    /// Returns what the line asks for where this is kept: the shape of a file and its look.
    fn asked_with(&self, look: Look) -> Result<Asked, FileFault>
        requires { IsSpelledBy self.now.kept look }
        ensures asks { LineAsks self.now result }
        ensures good { IfOk result IsAsked }
    {
        let mrn = self.mrn.to_le_bytes();
        let attributes = self.attributes(look, &mrn);
        if look_of(&attributes) != look {
            return Err(FileFault::BadKept);
        }
        match Asked::fully(&attributes) {
            Some(asked) => Ok(asked),
            None => Err(FileFault::BadAttributes),
        }
    }

    /// Returns what the line asks for: the shape of a file, and what is kept with it (DAP 5.6.0, Attributes message).
    ///
    /// Refusals in order: [`FileFault::BadKept`] where `kept` is anything but the one canonical message of what such a
    /// file keeps; [`FileFault::BadAttributes`]. [`FileFault::NoMemory`] comes where memory is refused to look at `kept`.
    pub fn asked(&self, alloc: Global) -> Result<Asked, FileFault>
        ensures asks { result ≢ Err fault.NoMemory → LineAsks self.now result }
        ensures good { IfOk result IsAsked }
    {
        let bytes = self.kept.to_vec(alloc)?;
        let look = read_kept(alloc, &bytes)?;
        self.asked_with(look)
    }
}
