//! Bytes of names and records, by the words for them.

ghost use Rattle.std.specs.Prelude.{◌≡◌, ◌∷◌, IfSome, MatchOption, None, Some};
ghost use Rattle.texts.specs.Words.{hex_of, read_next, text_of, texts_of};

use dap_accessing::{Octets, ToBytes, ToRecords};
use std::alloc::{AllocError, Global};
use std::marker::Model;
use texts::{Words, is_hex_text};

/// Bytes of a name or a record, by their hex digits, or `-` where there are none, which contracts see as bytes.
#[derive(Drop)]
pub struct Text<'a> {
    word: &'a [u8],
}

impl<'a> Model for Text<'a> {
    ghost use Rattle.std.specs.Prelude.{◌≡◌, List, ℕ, IsSome, unwrap_or, []};
    ghost use Rattle.texts.specs.Words.{text_of};

    ghost Value = { List ℕ };

    ghost view = { λ t. unwrap_or (text_of t.word.now) [] };

    ghost invariant = { λ t. IsSome (text_of t.word.now) };
}

/// Returns the bytes that a word encodes: hex digits of them, or `-` where there are none.
pub fn read_text(word: &[u8]) -> Option<Text<'_>>
    ensures { result ≡ text_of word.now }
{
    match word {
        b"-" => Some(Text { word }),
        _ if is_hex_text(word) => Some(Text { word }),
        _ => None,
    }
}

/// Takes the next word as the bytes of a name or a record; or returns None, also where no word is left.
pub(crate) fn next_text<'a>(words: &mut Words<'a>) -> Option<Text<'a>>
    ensures { MatchOption result (read_next text_of words.old ≡ None)
        (λ bytes. read_next text_of words.old ≡ Some (bytes, words.new)) }
{
    read_text(words.next()?)
}

/// Returns the bytes that hex digits spell, an even number of them and at least two; or None.
pub fn read_hex(digits: &[u8]) -> Option<Text<'_>>
    ensures { result ≡ hex_of digits.now }
{
    if is_hex_text(digits) {
        read_text(digits)
    } else {
        None
    }
}

impl<'a> Text<'a> {
    ghost use Rattle.std.specs.Prelude.{◌≡◌, [], IfOk};

    /// Returns no bytes.
    pub(crate) fn none() -> Text<'a>
        ensures { result ≡ [] }
    {
        Text { word: b"-" }
    }

    /// Returns a copy of the bytes.
    pub fn to_vec(&self, alloc: Global) -> Result<Vec<u8>, AllocError>
        ensures { IfOk result (λ bytes. bytes.items ≡ self.now) }
    {
        match self.word {
            b"-" => Ok(Vec::new(alloc)),
            digits => hex::decode(alloc, digits).map_err(|_| AllocError),
        }
    }
}

impl<'a> ToBytes for Text<'a> {
    ghost bytes = { λ t. t };

    fn to_bytes(&self, alloc: Global) -> Result<Vec<u8>, AllocError> {
        self.to_vec(alloc)
    }
}

/// Records, each by the hex digits of a word or `-`, which contracts see as lists of bytes.
#[derive(Drop)]
pub struct Texts<'a> {
    words: Words<'a>,
}

impl<'a> Model for Texts<'a> {
    ghost use Rattle.std.specs.Prelude.{List, ℕ, IsSome, unwrap_or, []};
    ghost use Rattle.texts.specs.Words.{texts_of};

    ghost Value = { List (List ℕ) };

    ghost view = { λ t. unwrap_or (texts_of t.words) [] };

    ghost invariant = { λ t. IsSome (texts_of t.words) };
}

/// Returns the bytes that words stand for, each of them a text.
pub(crate) fn read_texts<'a>(words: Words<'a>) -> Option<Texts<'a>>
    ensures { result ≡ texts_of words.entry }
{
    let mut left = words.again();
    while let Some(word) = left.next() {
        let _text = read_text(word)?;
    }
    Some(Texts { words })
}

impl<'a> ToRecords for Texts<'a> {
    ghost records = { λ t. t };

    fn to_records(&self, alloc: Global) -> Result<Vec<Octets>, AllocError> {
        let mut list = Vec::new(alloc);
        let mut left = self.words.again();
        while let Some(word) = left.next() {
            let Some(text) = read_text(word) else {
                unreachable!()
            };
            list.push(Octets(text.to_vec(alloc)?))?;
        }
        Ok(list)
    }
}
