//! Versions: which one a name asks for, and the name of one.

ghost use Rattle.std.specs.Prelude.{◌≡◌, ◌&&◌, nat_le, if◌then◌else◌, IfOk, None, Some};
ghost use Rattle.std.specs.Char.{is_ascii_digit};
ghost use Rattle.std.specs.List.{list_all};
ghost use Rattle.std.specs.Option.{option_copied};
ghost use Rattle.std.specs.Str.Parse.{digits_value};
ghost use Rattle.file_names.specs.Folds.{is_byte};
ghost use Rattle.file_names.specs.Versions.{asked_for, version_in_tail, dropped_digits, max_version, numbered, version_name, version_number, version_part, version_wanted};

use crate::fold::{after_directory, are_digits, before, stem};
use std::alloc::{AllocError, Global};
use texts::push_decimal;

/// Which version of a file a name asks for.
#[derive(Clone, Copy, PartialEq, Eq)]
pub enum Wanted {
    /// The highest: there is no version in the name, or it is empty, or 0.
    Latest,
    /// This one, from 1 to [`MAX_VERSION`].
    Version(u16),
    /// All, by `*`.
    All,
    /// None that there can be.
    Nothing,
}

/// The highest version that a file may have.
pub const MAX_VERSION: u16 = 32_767;

/// Returns what follows the second dot, where that is nothing or only digits.
fn dropped_digits(tail: &[u8]) -> Option<&[u8]>
    ensures { option_copied result ≡ dropped_digits tail.now }
{
    let first = before(tail, b'.');
    if first == tail.len() {
        return None;
    }
    let rest = &tail[first + 1..];
    let end = first + 1 + before(rest, b'.');
    if end < tail.len() && are_digits(&tail[end + 1..]) {
        Some(&tail[end + 1..])
    } else {
        None
    }
}

/// Returns what follows the first `;`, or else the digits after a second dot.
fn version_in_tail(tail: &[u8]) -> Option<&[u8]>
    ensures { option_copied result ≡ version_in_tail tail.now }
{
    let end = before(tail, b';');
    if end < tail.len() {
        Some(&tail[end + 1..])
    } else {
        dropped_digits(tail)
    }
}

/// Returns the number that digits spell, where it is at most `most`; 0 where there are none.
fn value_within(digits: &[u8], most: u16) -> Option<u16>
    ensures { result ≡ (if list_all is_ascii_digit digits.now
        && nat_le (digits_value 10 digits.now) most then Some (digits_value 10 digits.now) else None) }
{
    if !are_digits(digits) {
        return None;
    }
    let mut number = 0;
    for digit in digits {
        number = 10 * number + u32::from(digit.saturating_sub(b'0'));
        if number > u32::from(most) {
            return None;
        }
    }
    Some(number as u16)
}

/// Returns whether there are only zeros, or nothing.
fn are_zeros(text: &[u8]) -> bool
    ensures { result ≡ list_all (is_byte 0x30) text.now }
{
    text.iter().all(|byte| *byte == b'0')
}

/// Returns what a version text asks for.
fn asked_for(text: &[u8]) -> Wanted
    ensures { result ≡ asked_for text.now }
{
    if are_zeros(text) {
        return Wanted::Latest;
    }
    if text == b"*".as_slice() {
        return Wanted::All;
    }
    match value_within(text, MAX_VERSION) {
        Some(number) => Wanted::Version(number),
        None => Wanted::Nothing,
    }
}

/// Returns which version of a file a name asks for, by what follows the first `;` after its last device or directory, or
/// else by digits after a second dot: nothing or zeros for the latest, `*` for all, digits for one.
pub fn version_wanted(name: &[u8]) -> Wanted
    ensures { result ≡ version_wanted name.now }
{
    match version_in_tail(after_directory(name)) {
        Some(text) => asked_for(text),
        None => Wanted::Latest,
    }
}

/// Returns the number that a name asks for, from 1 to [`MAX_VERSION`]; 0 where it asks for none, as by `;*` and by
/// nothing.
pub fn version_number(name: &[u8]) -> u16
    ensures { result ≡ version_number name.now }
{
    match version_wanted(name) {
        Wanted::Version(number) => number,
        _ => 0,
    }
}

/// Returns the name of a version: the fold of this name, `;` and the number in decimal digits. So `data.txt;` and 3 are
/// `DATA.TXT;3`.
pub fn version_name(alloc: Global, name: &[u8], number: u16) -> Result<Vec<u8>, AllocError>
    ensures { IfOk result (λ made. made.items ≡ version_name name.now number) }
{
    let mut made = Vec::from_slice(alloc, stem(name))?;
    made.make_ascii_uppercase();
    made.push(b';')?;
    push_decimal(&mut made, number)?;
    Ok(made)
}
