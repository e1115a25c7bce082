//! How numbers and bytes are printed. Where memory is refused a prefix of what is appended may be there.

ghost use Rattle.std.specs.Prelude.{◌≡◌, ◌≤◌, ◌/◌, ◌++◌, OnErr, OnOk, length};
ghost use Rattle.hex.specs.Hex.{encode_lower};
ghost use Rattle.texts.specs.Adding.{Adds, StillBegins};
ghost use Rattle.texts.specs.Text.{image_text, word_text};

use crate::encode::encode_hex;
use itoa::{Buffer, Integer};
use std::alloc::AllocError;

/// Appends a word.
#[tactic(auto, unfolding(crate::specs::Adding::StillBegins))]
pub fn push_str(text: &mut Vec<u8>, word: &str) -> Result<(), AllocError>
    ensures added { OnOk result (Adds text.old text.new word.now) }
    ensures kept { StillBegins text.old text.new }
{
    text.extend_from_slice(word.as_bytes())
}

/// Appends a decimal number.
#[tactic(auto, unfolding(crate::specs::Adding::StillBegins))]
pub fn push_decimal<I: Integer>(text: &mut Vec<u8>, number: I) -> Result<(), AllocError>
    ensures added { OnOk result (Adds text.old text.new (I.text number)) }
    ensures kept { StillBegins text.old text.new }
{
    let mut buffer = Buffer::new();
    push_str(text, buffer.format(number))
}

/// Appends a decimal number after a word.
#[tactic(auto, unfolding(crate::specs::Adding::StillBegins))]
#[inline(always)]
pub fn push_number<I: Integer>(text: &mut Vec<u8>, word: &str, number: I) -> Result<(), AllocError>
    ensures added { OnOk result (Adds text.old text.new (word.now ++ I.text number)) }
    ensures kept { StillBegins text.old text.new }
{
    push_str(text, word)?;
    push_decimal(text, number)
}

/// Returns the four lower hex digits of a two-byte number.
#[tactic(auto, using(crate::proofs::TextLemmas::word_written))]
fn word_digits(number: u16) -> [u8; 4]
    ensures { result ≡ word_text number }
{
    let mut digits = [0; 4];
    let Ok(()) = hex::encode_to_slice(number.to_be_bytes(), &mut digits) else {
        unreachable!()
    };
    digits
}

/// Appends a two-byte number as four lower hex digits, after a word.
#[tactic(auto, unfolding(crate::specs::Adding::StillBegins))]
#[inline(always)]
pub fn push_word(text: &mut Vec<u8>, word: &str, number: u16) -> Result<(), AllocError>
    ensures added { OnOk result (Adds text.old text.new (word.now ++ word_text number)) }
    ensures kept { StillBegins text.old text.new }
{
    push_str(text, word)?;
    text.extend_from_slice(&word_digits(number))
}

/// The maximum of a number's image in bytes.
const NUMBER: usize = 8;

/// Appends bytes as lower hex digits. Those of a number are made beside the text, which is faster for a few than to
/// make room in it.
#[tactic(auto, unfolding(crate::specs::Adding::StillBegins))]
pub fn push_hex(text: &mut Vec<u8>, bytes: &[u8]) -> Result<(), AllocError>
    ensures added { OnOk result (Adds text.old text.new (encode_lower bytes.now)) }
    ensures kept { StillBegins text.old text.new }
{
    if bytes.len() <= NUMBER {
        return push_few(text, bytes);
    }
    push_many(text, bytes)?;
    Ok(())
}

/// Appends at most 8 bytes as lower hex digits.
#[tactic(auto, unfolding(crate::specs::Adding::StillBegins))]
fn push_few(text: &mut Vec<u8>, bytes: &[u8]) -> Result<(), AllocError>
    requires { length bytes.now ≤ 8 }
    ensures added { OnOk result (Adds text.old text.new (encode_lower bytes.now)) }
    ensures kept { StillBegins text.old text.new }
{
    let mut room = [0; 2 * NUMBER];
    let digits = &mut room[..2 * bytes.len()];
    let Ok(()) = hex::encode_to_slice(bytes, digits) else {
        unreachable!()
    };
    text.extend_from_slice(digits)
}

/// Appends any number of bytes as lower hex digits.
#[tactic(auto, unfolding(crate::specs::Adding::StillBegins))]
fn push_many(text: &mut Vec<u8>, bytes: &[u8]) -> Result<(), AllocError>
    ensures added { OnOk result (Adds text.old text.new (encode_lower bytes.now)) }
    ensures kept { OnErr result (StillBegins text.old text.new) }
{
    let start = text.len();
    text.reserve(2 * bytes.len())?;
    text.resize(start + 2 * bytes.len(), 0)?;
    encode_hex(bytes, &mut text[start..]);
    Ok(())
}

/// Appends an image as lower hex digits, or `-` where it is empty, after a word.
#[tactic(auto, unfolding(crate::specs::Adding::StillBegins))]
#[inline(always)]
pub fn push_image(text: &mut Vec<u8>, word: &str, image: &[u8]) -> Result<(), AllocError>
    ensures added { OnOk result (Adds text.old text.new (word.now ++ image_text image.now)) }
    ensures kept { StillBegins text.old text.new }
{
    push_str(text, word)?;
    if image.is_empty() {
        return push_str(text, "-");
    }
    push_hex(text, image)
}
