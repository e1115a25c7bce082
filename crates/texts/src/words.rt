//! The words of a line, and what a word says.

ghost use Rattle.std.specs.Prelude.{◌≡◌, ◌≢◌, ◌≤◌, ◌<◌, ◌∷◌, [], IfOk, IfSome, MatchOption, option_copied};
ghost use Rattle.std.specs.Prelude.{◌==◌, bytes_eq, true};
ghost use Rattle.std.specs.List.{list_all, position};
ghost use Rattle.std.specs.Char.{is_ascii_digit};
ghost use Rattle.texts.specs.Words.{decimal_of, short as short_of, words_of};
ghost use Rattle.texts.specs.Inner.Words.{words_left};

use memchr::memchr;
use std::marker::Model;

/// The words of a line that are left, which contracts see as a list. Between two of them is one space.
#[derive(Drop)]
pub struct Words<'a> {
    rest: Option<&'a [u8]>,
}

impl<'a> Model for Words<'a> {
    ghost use Rattle.std.specs.Prelude.{List, ℕ, option_copied};
    ghost use Rattle.texts.specs.Inner.Words.{words_left};

    ghost Value = { List (List ℕ) };

    ghost view = { λ w. words_left (option_copied w.rest) };
}

/// Returns the first offset of a byte, or None where it is nowhere.
#[tactic(auto, using(crate::proofs::IndexLemmas::first_index))]
pub fn find_byte(wanted: u8, bytes: &[u8]) -> Option<usize>
    ensures { result ≡ position (λ byte. byte == wanted) bytes.now }
{
    memchr(wanted, bytes)
}

/// Returns the first word of a line, and what is after the space after it.
fn first_word(line: &[u8]) -> (&[u8], Option<&[u8]>)
    ensures { words_of line.now ≡ result.0.now ∷ words_left (option_copied result.1) }
{
    match find_byte(b' ', line) {
        None => (line, None),
        Some(end) => (&line[..end], Some(&line[end + 1..])),
    }
}

impl<'a> Words<'a> {
    ghost use Rattle.std.specs.Prelude.{◌≡◌, ◌≢◌, ◌≤◌, ◌∷◌, [], IfSome, MatchOption, None, Some};
    ghost use Rattle.texts.specs.Words.{decimal_of, read_next, short as short_of, words_of};

    /// Returns all words of a line.
    pub fn of(line: &'a [u8]) -> Self
        ensures { result ≡ words_of line.now }
    {
        Words { rest: Some(line) }
    }

    /// Returns these words once more.
    pub fn again(&self) -> Words<'a>
        ensures { result ≡ self.now }
    {
        Words { rest: self.rest }
    }

    /// Takes the next word, or returns None where none is left.
    pub fn next(&mut self) -> Option<&'a [u8]>
        ensures { MatchOption result ((self.old ≡ []) × (self.new ≡ []))
            (λ word. self.old ≡ word.now ∷ self.new) }
    {
        let line = self.rest?;
        let (word, rest) = first_word(line);
        self.rest = rest;
        Some(word)
    }

    /// Takes the next word as a number that isn't above this one (`read_number`); or returns None, also where no word
    /// is left.
    pub fn number(&mut self, most: u32) -> Option<u32>
        ensures value { MatchOption result (read_next (decimal_of most) self.old ≡ None)
            (λ number. read_next (decimal_of most) self.old ≡ Some (number, self.new)) }
        ensures within { IfSome result (λ number. number ≤ most) }
    {
        read_number(self.next()?, most)
    }

    /// Takes the next word as a number of 16 bits; or returns None, also where no word is left.
    pub fn short(&mut self) -> Option<u16>
        ensures { MatchOption result (read_next short_of self.old ≡ None)
            (λ number. read_next short_of self.old ≡ Some (number, self.new)) }
    {
        read_short(self.next()?)
    }

    /// Returns `Some(())` where no word is left, and else None.
    pub fn end(&self) -> Option<()>
        ensures { MatchOption result (self.now ≢ []) (λ _. self.now ≡ []) }
    {
        match self.rest {
            None => Some(()),
            Some(_) => None,
        }
    }
}

/// Returns whether a word is this one.
pub fn is(word: &[u8], name: &str) -> bool
    ensures { result ≡ bytes_eq word.now name.now }
{
    word == name.as_bytes()
}

/// Returns whether all are decimal digits.
fn are_digits(word: &[u8]) -> bool
    ensures { result ≡ list_all is_ascii_digit word.now }
{
    word.iter().all(|digit| digit.is_ascii_digit())
}

/// Returns the number that 1 to 10 decimal digits spell, if it is at most `most`; or None.
pub fn read_number(word: &[u8], most: u32) -> Option<u32>
    ensures value { result ≡ decimal_of most word.now }
    ensures within { IfSome result (λ number. number ≤ most) }
{
    if word.is_empty() || word.len() > 10 || !are_digits(word) {
        return None;
    }
    let mut number = 0;
    for digit in word {
        number = 10 * number + u64::from(digit.saturating_sub(b'0'));
        if number > u64::from(most) {
            return None;
        }
    }
    Some(number as u32)
}

/// The maximum of a number of 16 bits.
const MAX_SHORT: u32 = u16::MAX as u32;

/// Returns a number of 16 bits, by 1 to 10 decimal digits; or None.
pub fn read_short(word: &[u8]) -> Option<u16>
    ensures { result ≡ short_of word.now }
{
    let number = read_number(word, MAX_SHORT)?;
    Some(number as u16)
}
