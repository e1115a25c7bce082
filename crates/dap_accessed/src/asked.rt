//! What an Access gives a new file.

ghost use Rattle.std.specs.Prelude.{◌≡◌, ◌≤◌, [], IfSome, IsTrue, option_map, unwrap_or};
ghost use Rattle.dap_msg.specs.BothEnds.{number_of};
ghost use Rattle.dap_msg.specs.Fitting.{FieldsFit};
ghost use Rattle.dap_msg.specs.declared.message.Message.TheVariants.{Attrib};
ghost use Rattle.rec_file.specs.Limits.{max_record};
ghost use Rattle.rec_file.specs.Shapes.{is_shape};
ghost use Rattle.dap_accessed.specs.Asked.{plainly, shape_format, kept_front, kept_format, look_of, record_limit, full_shape, asked_fully, IsAsked};
ghost use Rattle.dap_accessed.specs.Past.{asked_shape, asked_file};
ghost use Rattle.dap_accessed.specs.Replies.{look_attributes};
ghost use Rattle.dap_accessed.specs.Standing.{plain_shape};

use dap_msg::codes::{ORG_SEQUENTIAL, RFM_FIXED, RFM_VARIABLE};
use dap_msg::{Attributes, number_of};
use rec_file::{Format, Look, MAX_RECORD, Org, Shape};

/// What an Access gives a new file: its shape, and what is kept of the Attributes besides.
#[derive(Clone, Copy)]
pub struct Asked {
    /// One that [`Shape::check`] gives.
    pub shape: Shape,
    /// One that a file of the shape may have.
    pub look: Look,
}

/// The shape of a file of which no Attributes message says anything.
const PLAIN: Shape = Shape {
    org: Org::Seq,
    format: Format::Variable,
    mrs: 0,
    mrn: 0,
};

impl Asked {
    /// Returns what gives a new file this shape alone: nothing is kept besides.
    pub fn plainly(shape: Shape) -> Asked
        ensures same { result ≡ plainly shape }
        ensures good { IsTrue (is_shape shape) → IsAsked result }
    {
        Asked {
            shape,
            look: Look::plain(),
        }
    }

    /// Returns what the attributes of a message that was read ask for, or None where a file may not be made so. RFM 0 to 6
    /// are taken, and what [`Look`] has is kept (DAP 5.6.0, Attributes message).
    #[tactic(auto, using(crate::proofs::Asking::some_fully, crate::proofs::Asking::none_fully, crate::proofs::Asking::a_file_made_fully))]
    pub fn fully(attributes: &Attributes<'_>) -> Option<Asked>
        requires { FieldsFit (Attrib attributes.now) }
        ensures same { result ≡ asked_fully attributes.now }
        ensures good { IfSome result IsAsked }
    {
        let shape = full_shape(attributes)?;
        let look = look_of(attributes);
        Some(Asked { shape, look })
    }

    /// Returns what gives a new file the shape of which no Attributes message says anything.
    pub(crate) fn plain() -> Asked
        ensures same { result ≡ plainly plain_shape }
        ensures good { IsAsked result }
    {
        Asked::plainly(PLAIN)
    }
}

/// The RFM of records with a fixed part in front.
const RFM_FRONTED: u8 = 3;

/// The greatest RFM (DAP 5.6.0, Attributes message; 5 and 6 are from memory).
pub const MAX_FORMAT: u8 = 6;

/// The length of the fixed part in front, where FSZ doesn't say it.
const USUAL_FRONT: u8 = 2;

/// Returns the RFM of the shape: but for fixed ones, records of each RFM may differ in length.
fn shape_format(rfm: u8) -> u8
    ensures { result ≡ shape_format rfm }
{
    if rfm == RFM_FIXED || rfm > MAX_FORMAT {
        rfm
    } else {
        RFM_VARIABLE
    }
}

/// Returns FSZ of records with a fixed part in front, and none of others.
fn kept_front(rfm: u8, fsz: Option<u8>) -> Option<u8>
    ensures { result ≡ kept_front rfm fsz }
{
    if rfm != RFM_FRONTED {
        return None;
    }
    match fsz {
        Some(0) | None => Some(USUAL_FRONT),
        Some(front) => Some(front),
    }
}

/// Returns RFM where the shape doesn't say it.
fn kept_format(rfm: Option<u8>) -> Option<u8>
    ensures { result ≡ kept_format rfm }
{
    match rfm {
        None | Some(RFM_FIXED) | Some(RFM_VARIABLE) => None,
        Some(rfm) => Some(rfm),
    }
}

/// Returns the Attributes that are kept with a file, and no others (DAP 5.6.0, Attributes message).
pub fn kept_attributes<'a>(look: Look) -> Attributes<'a>
    ensures { result ≡ look_attributes look }
{
    Attributes {
        datatype: look.datatype,
        rfm: look.rfm,
        rat: look.rat,
        bls: look.bls,
        bks: look.bks,
        fsz: look.fsz,
        bsz: look.bsz,
        ..Attributes::none()
    }
}

/// Returns what a server keeps with a file that such attributes make (DAP 5.6.0, Attributes message).
pub fn look_of(attributes: &Attributes<'_>) -> Look
    ensures { result ≡ look_of attributes.now }
{
    Look {
        datatype: attributes.datatype,
        rfm: kept_format(attributes.rfm),
        rat: attributes.rat,
        bls: attributes.bls,
        bks: attributes.bks,
        fsz: kept_front(attributes.rfm.unwrap_or(RFM_VARIABLE), attributes.fsz),
        bsz: attributes.bsz,
    }
}

/// Returns the number in MRN, or 0 where it isn't there.
fn number_in(attributes: &Attributes<'_>) -> u64
    requires { FieldsFit (Attrib attributes.now) }
    ensures { result ≡ number_of (unwrap_or attributes.now.mrn []) }
{
    match &attributes.mrn {
        Some(image) => number_of(image.0),
        None => 0,
    }
}

/// Returns the shape that the attributes of a message that was read name, as a plain server reads them.
fn shape_for(attributes: &Attributes<'_>) -> Option<Shape>
    requires { FieldsFit (Attrib attributes.now) }
    ensures { result ≡ asked_shape attributes.now }
{
    Shape::check(
        attributes.org.unwrap_or(ORG_SEQUENTIAL),
        attributes.rfm.unwrap_or(RFM_VARIABLE),
        attributes.mrs.unwrap_or(0),
        number_in(attributes),
    )
}

/// Returns the limit of a record: MRS doesn't count the fixed part in front, and 0 sets none.
fn record_limit(mrs: u16, front: u8) -> u16
    requires { mrs ≤ max_record }
    ensures { result ≡ record_limit mrs front }
{
    if mrs == 0 { 0 } else { mrs + u16::from(front) }
}

/// Returns the shape that the attributes of a message that was read name, as a full server reads them.
#[tactic(auto, using(crate::proofs::Asking::none_too_long))]
fn full_shape(attributes: &Attributes<'_>) -> Option<Shape>
    requires { FieldsFit (Attrib attributes.now) }
    ensures { result ≡ full_shape attributes.now }
{
    let rfm = attributes.rfm.unwrap_or(RFM_VARIABLE);
    let front = kept_front(rfm, attributes.fsz).unwrap_or(0);
    let mrs = attributes.mrs.unwrap_or(0);
    if mrs > MAX_RECORD {
        return None;
    }
    Shape::check(
        attributes.org.unwrap_or(ORG_SEQUENTIAL),
        shape_format(rfm),
        record_limit(mrs, front),
        number_in(attributes),
    )
}

/// Returns what the attributes of a message that was read ask of a server that isn't full: their shape alone.
fn asked_plainly(attributes: &Attributes<'_>) -> Option<Asked>
    requires { FieldsFit (Attrib attributes.now) }
    ensures { result ≡ option_map plainly (asked_shape attributes.now) }
{
    let shape = shape_for(attributes)?;
    Some(Asked::plainly(shape))
}

/// Returns what the attributes of a message that was read ask for.
#[tactic(auto, using(crate::proofs::Asking::a_good_file))]
pub(crate) fn asked_for(attributes: &Attributes<'_>, full: bool) -> Option<Asked>
    requires { FieldsFit (Attrib attributes.now) }
    ensures same { result ≡ asked_file full attributes.now }
    ensures good { IfSome result IsAsked }
{
    if full {
        Asked::fully(attributes)
    } else {
        asked_plainly(attributes)
    }
}
