//! The words of a line.

ghost use Rattle.std.specs.Prelude.{◌≡◌, ◌<◌, ℕ, OnOk, length};
ghost use Rattle.std.specs.List.{flat_map};
ghost use Rattle.dap_msg.specs.Codes.{asks_for};
ghost use Rattle.texts.specs.Adding.{Adds, StillBegins};
ghost use Rattle.dap_meanings.specs.Meanings.{right_text, rights_text, rights_words, words_text, with_words, KeepsButEnd};
ghost use Rattle.dap_meanings.specs.Words.{word_list, said_text};

use crate::quoted::push_quote;
use dap_msg::FileAccess;
use std::alloc::AllocError;
use texts::{push_number, push_str};

/// What a field says.
#[derive(Clone, Copy)]
pub enum Word<'a> {
    /// Nothing in words.
    Nothing,
    /// The name of a number.
    Named(&'static str),
    /// The number of a record.
    Record(u64),
    /// Bytes as text.
    Quoted(&'a [u8]),
    /// The operations of FAC.
    Rights(u32),
    /// A text as it is.
    Frame(&'a [u8]),
    /// A name after a word.
    Known(&'static str, &'static str),
    /// The number of an object after a word.
    Object(&'static str, u8),
    /// Bytes as text after a word.
    Called(&'static str, &'a [u8]),
    /// The number of a reason for which a link is refused or closed.
    Reason(u16),
}

/// Returns what FAC says: the operations for which a file is opened, if there are any.
pub(crate) fn rights_word(fac: u32) -> Word<'static>
    ensures { word_list result ≡ rights_words fac }
{
    let access = FileAccess::of_fac(fac);
    if access.allows_get()
        || access.allows_put()
        || access.allows_update()
        || access.allows_delete()
    {
        Word::Rights(fac)
    } else {
        Word::Nothing
    }
}

/// Appends a word, if a bit of FAC is set.
#[tactic(auto, unfolding(texts::specs::Adding::StillBegins))]
fn push_right(text: &mut Vec<u8>, is_set: bool, word: &str) -> Result<(), AllocError>
    ensures added { (fac bit : ℕ) → is_set ≡ asks_for fac bit
        → OnOk result (Adds text.old text.new (right_text fac bit word.now)) }
    ensures kept { StillBegins text.old text.new }
{
    if is_set { push_str(text, word) } else { Ok(()) }
}

/// Appends the operations of FAC.
#[tactic(auto, using(crate::proofs::ToldLemmas::appended_twice), unfolding(texts::specs::Adding::StillBegins))]
fn push_rights(text: &mut Vec<u8>, fac: u32) -> Result<(), AllocError>
    ensures added { OnOk result (Adds text.old text.new (rights_text fac)) }
    ensures kept { StillBegins text.old text.new }
{
    let access = FileAccess::of_fac(fac);
    push_right(text, access.allows_get(), " get")?;
    push_right(text, access.allows_put(), " put")?;
    push_right(text, access.allows_update(), " update")?;
    push_right(text, access.allows_delete(), " delete")
}

/// Appends what a field says.
#[tactic(auto, unfolding(texts::specs::Adding::StillBegins))]
fn push_word(text: &mut Vec<u8>, word: Word<'_>) -> Result<(), AllocError>
    ensures added { OnOk result (Adds text.old text.new (said_text word.entry)) }
    ensures kept { StillBegins text.old text.new }
{
    match word {
        Word::Nothing => Ok(()),
        Word::Named(name) => push_str(text, name),
        Word::Record(number) => push_number(text, "record ", number),
        Word::Quoted(bytes) => push_quote(text, bytes),
        Word::Rights(fac) => {
            push_str(text, "for")?;
            push_rights(text, fac)
        }
        Word::Frame(bytes) => text.extend_from_slice(bytes),
        Word::Known(before, name) => {
            push_str(text, before)?;
            push_str(text, name)
        }
        Word::Object(before, number) => {
            push_str(text, before)?;
            push_number(text, "object ", number)
        }
        Word::Called(before, name) => {
            push_str(text, before)?;
            push_quote(text, name)
        }
        Word::Reason(number) => push_number(text, "reason ", number),
    }
}

/// Appends words, each after its mark.
#[tactic(auto, using(crate::proofs::ToldLemmas::appended_twice), unfolding(texts::specs::Adding::StillBegins))]
fn push_told(text: &mut Vec<u8>, words: &[Word<'_>]) -> Result<(), AllocError>
    ensures added { OnOk result
        (Adds text.old text.new (words_text (flat_map word_list words.now))) }
    ensures kept { StillBegins text.old text.new }
{
    let mut mark = " ; ";
    for word in words {
        if let Word::Nothing = word {
            continue;
        }
        push_str(text, mark)?;
        push_word(text, *word)?;
        mark = ", ";
    }
    Ok(())
}

/// Puts words before the end of a text's last line.
#[tactic(auto, unfolding(texts::specs::Adding::StillBegins, crate::specs::Meanings::KeepsButEnd))]
pub fn add_words(text: &mut Vec<u8>, words: &[Word<'_>]) -> Result<(), AllocError>
    requires { 0 < length text.old.items }
    ensures words { OnOk result
        (text.new.items ≡ with_words (flat_map word_list words.now) text.old.items) }
    ensures kept { KeepsButEnd text.old text.new }
{
    text.truncate(text.len() - 1);
    push_told(text, words)?;
    push_str(text, "\n")
}
