//! The fields of messages with a menu, as a listing names them.

ghost use Rattle.std.specs.Prelude.{◌≡◌, ◌++◌, ◌∷◌, [], OnOk, codes, length, option_copied};
ghost use Rattle.std.specs.List.{concat, flat_map};
ghost use Rattle.texts.specs.Adding.{Adds, StillBegins};
ghost use Rattle.dap_listing.specs.Messages.{attributes_text, control_text};
ghost use Rattle.texts.specs.Text.{line_feed};
ghost use Rattle.dap_listing.specs.Inner.Fields.{field_text};

use dap_msg::{Attributes, Bytes, ControlFields};
use itoa::Integer;
use std::alloc::AllocError;
use texts::{push_image, push_number, push_str};

/// A field by its name, with its value where it is there.
#[derive(Clone, Copy)]
pub(crate) enum Field<'a> {
    Byte(&'static str, Option<u8>),
    Word(&'static str, Option<u16>),
    Long(&'static str, Option<u32>),
    Quad(&'static str, Option<u64>),
    Image(&'static str, Option<&'a [u8]>),
}

/// Returns the bytes of an image, where it is there.
fn image<'a>(value: &Option<Bytes<'a>>) -> Option<&'a [u8]>
    ensures { option_copied result ≡ value.now }
{
    match value {
        Some(image) => Some(image.0),
        None => None,
    }
}

/// Returns the fields of Attributes in the order of their menu bits.
pub(crate) fn attributes_fields<'a>(a: &Attributes<'a>) -> [Field<'a>; 21]
    ensures { flat_map field_text result ≡ attributes_text a.now }
{
    [
        Field::Word("datatype", a.datatype),
        Field::Byte("org", a.org),
        Field::Byte("rfm", a.rfm),
        Field::Long("rat", a.rat),
        Field::Word("bls", a.bls),
        Field::Word("mrs", a.mrs),
        Field::Image("alq", image(&a.alq)),
        Field::Byte("bks", a.bks),
        Field::Byte("fsz", a.fsz),
        Field::Image("mrn", image(&a.mrn)),
        Field::Image("runsys", image(&a.runsys)),
        Field::Word("deq", a.deq),
        Field::Quad("fop", a.fop),
        Field::Byte("bsz", a.bsz),
        Field::Quad("dev", a.dev),
        Field::Quad("sdc", a.sdc),
        Field::Word("lrl", a.lrl),
        Field::Image("hbk", image(&a.hbk)),
        Field::Image("ebk", image(&a.ebk)),
        Field::Word("ffb", a.ffb),
        Field::Image("sbn", image(&a.sbn)),
    ]
}

/// Returns the fields of Control after its function, in the order of their menu bits.
pub(crate) fn control_fields<'a>(c: &ControlFields<'a>) -> [Field<'a>; 6]
    ensures { flat_map field_text result ≡ control_text c.now }
{
    [
        Field::Byte("rac", c.rac),
        Field::Image("key", image(&c.key)),
        Field::Byte("krf", c.krf),
        Field::Quad("rop", c.rop),
        Field::Image("hsh", image(&c.hsh)),
        Field::Long("display", c.display),
    ]
}

/// Appends a number after its name.
#[tactic(auto, unfolding(texts::specs::Adding::StillBegins))]
fn push_value<I: Integer>(text: &mut Vec<u8>, name: &str, value: I) -> Result<(), AllocError>
    ensures added { OnOk result (Adds text.old text.new
        (concat (codes " " ∷ name.now ∷ codes "=" ∷ I.text value ∷ []))) }
    ensures kept { StillBegins text.old text.new }
{
    push_str(text, " ")?;
    push_str(text, name)?;
    push_number(text, "=", value)
}

/// Appends a field that is there.
#[tactic(auto, unfolding(texts::specs::Adding::StillBegins))]
fn push_field(text: &mut Vec<u8>, field: Field<'_>) -> Result<(), AllocError>
    ensures added { OnOk result (Adds text.old text.new (field_text field.entry)) }
    ensures kept { StillBegins text.old text.new }
{
    match field {
        Field::Byte(name, Some(value)) => push_value(text, name, value),
        Field::Word(name, Some(value)) => push_value(text, name, value),
        Field::Long(name, Some(value)) => push_value(text, name, value),
        Field::Quad(name, Some(value)) => push_value(text, name, value),
        Field::Image(name, Some(image)) => {
            push_str(text, " ")?;
            push_str(text, name)?;
            push_image(text, "=", image)
        }
        Field::Byte(_, None)
        | Field::Word(_, None)
        | Field::Long(_, None)
        | Field::Quad(_, None)
        | Field::Image(_, None) => Ok(()),
    }
}

/// Appends the fields that are there, and ends the line.
#[tactic(auto, unfolding(texts::specs::Adding::StillBegins))]
pub(crate) fn push_fields(text: &mut Vec<u8>, fields: &[Field<'_>]) -> Result<(), AllocError>
    ensures added { OnOk result (Adds text.old text.new (flat_map field_text fields.now ++ line_feed)) }
    ensures kept { StillBegins text.old text.new }
{
    for field in fields {
        push_field(text, *field)?;
    }
    push_str(text, "\n")
}
