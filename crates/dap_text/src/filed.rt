//! The lines of files and records, read back.

ghost use Rattle.std.specs.Prelude.{◌≡◌};
ghost use Rattle.dap_text.specs.Filed.{file_line_of, kept_last, kept_in_word, org_of, record_line_of, rfm_of};

use crate::words::{Text, next_text, read_hex};
use dap_msg::codes::{ORG_RELATIVE, ORG_SEQUENTIAL, RFM_FIXED, RFM_VARIABLE};
use texts::{Words, is};

/// What the line of a file says: its name, which is still digits; ORG, RFM, MRS in bytes and MRN; and the digits of an
/// Attributes message of what is kept with the file, none where nothing is (DAP 5.6.0, Attributes message).
#[derive(Drop)]
pub struct FileLine<'a> {
    pub name: Text<'a>,
    pub org: u8,
    pub rfm: u8,
    pub mrs: u16,
    pub mrn: u32,
    pub kept: Text<'a>,
}

/// What the line of a record says: its number, and its bytes, which are still digits.
#[derive(Drop)]
pub struct RecordLine<'a> {
    pub number: u32,
    pub body: Text<'a>,
}

/// Returns ORG by its word.
fn read_org(word: &[u8]) -> Option<u8>
    ensures { result ≡ org_of word.now }
{
    if is(word, "seq") {
        Some(ORG_SEQUENTIAL)
    } else if is(word, "rel") {
        Some(ORG_RELATIVE)
    } else {
        None
    }
}

/// Returns RFM by its word.
fn read_rfm(word: &[u8]) -> Option<u8>
    ensures { result ≡ rfm_of word.now }
{
    if is(word, "fixed") {
        Some(RFM_FIXED)
    } else if is(word, "variable") {
        Some(RFM_VARIABLE)
    } else {
        None
    }
}

/// Returns what a word says is kept, `kept=HEX`.
fn read_kept_word(word: &[u8]) -> Option<Text<'_>>
    ensures { result ≡ kept_in_word word.now }
{
    read_hex(word.strip_prefix(b"kept=")?)
}

/// Returns what the last word says is kept, or nothing where no word is left.
fn read_kept(mut words: Words<'_>) -> Option<Text<'_>>
    ensures { result ≡ kept_last words.entry }
{
    match words.next() {
        None => Some(Text::none()),
        Some(word) => {
            let kept = read_kept_word(word)?;
            words.end()?;
            Some(kept)
        }
    }
}

/// Returns the file that a line says, `file NAME seq|rel fixed|variable MRS MRN [kept=HEX]`, or None where it says none.
/// [`FileLine::asked`] says whether there may be such a file.
#[tactic(auto, using(crate::proofs::RequestLemmas::ends_none))]
pub fn read_file_line(line: &[u8]) -> Option<FileLine<'_>>
    ensures { result ≡ file_line_of line.now }
{
    let mut words = Words::of(line);
    if !is(words.next()?, "file") {
        return None;
    }
    let name = next_text(&mut words)?;
    let org = read_org(words.next()?)?;
    let rfm = read_rfm(words.next()?)?;
    let mrs = words.short()?;
    let mrn = words.number(u32::MAX)?;
    let kept = read_kept(words)?;
    Some(FileLine {
        name,
        org,
        rfm,
        mrs,
        mrn,
        kept,
    })
}

/// Returns the record that a line says, `  N BODY`, or None where it says none.
pub fn read_record_line(line: &[u8]) -> Option<RecordLine<'_>>
    ensures { result ≡ record_line_of line.now }
{
    let mut words = Words::of(line);
    if !words.next()?.is_empty() || !words.next()?.is_empty() {
        return None;
    }
    let number = words.number(u32::MAX)?;
    let body = next_text(&mut words)?;
    words.end()?;
    Some(RecordLine { number, body })
}
