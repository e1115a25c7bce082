//! The comments before packets, and what they say.

ghost use Rattle.std.specs.Prelude.{◌≡◌, ◌≤◌, ◌+◌, ◌∷◌, IfSome, MatchOption, None, Some, codes, drop, length, option_map, take};
ghost use Rattle.std.specs.Char.{is_ascii_digit};
ghost use Rattle.std.specs.List.{list_all};
ghost use Rattle.decnet_frames.specs.Origins.{frame_in, is_digits, is_number as the_number, is_time as the_time, origin_of as the_origin, origin_seen, pair_of};

use crate::addresses::Nodes;
use crate::nodes::read_address;
use texts::{Words, find_byte, is};

/// Where a packet came from, as the comment before its line says: the bytes `frame N TIME`, and its nodes.
#[derive(Clone, Copy, Debug, PartialEq, Eq)]
pub struct Origin<'a> {
    pub frame: &'a [u8],
    pub nodes: Nodes,
}

/// The maximum of a frame's number in digits.
const NUMBER_DIGITS: usize = 20;

/// Returns whether no byte is anything but a digit.
fn no_other(word: &[u8]) -> bool
    ensures { result ≡ list_all is_ascii_digit word.now }
{
    word.iter().all(|digit| digit.is_ascii_digit())
}

/// Returns whether there is at least one digit, and no other byte.
fn are_digits(word: &[u8]) -> bool
    ensures { result ≡ is_digits word.now }
{
    !word.is_empty() && no_other(word)
}

/// Returns whether it is the number of a frame.
fn is_number(word: &[u8]) -> bool
    ensures { result ≡ the_number word.now }
{
    word.len() <= NUMBER_DIGITS && are_digits(word)
}

/// Returns whether it is a time: `-`, or digits, a point and digits.
fn is_time(word: &[u8]) -> bool
    ensures { result ≡ the_time word.now }
{
    if is(word, "-") {
        return true;
    }
    match find_byte(b'.', word) {
        Some(point) => are_digits(&word[..point]) && are_digits(&word[point + 1..]),
        None => false,
    }
}

/// Returns the nodes of the words `A.N -> A.N`.
fn read_pair(mut words: Words<'_>) -> Option<Nodes>
    ensures { result ≡ pair_of words.entry }
{
    let source = read_address(words.next()?)?;
    if !is(words.next()?, "->") {
        return None;
    }
    let destination = read_address(words.next()?)?;
    words.end()?;
    Some(Nodes {
        source,
        destination,
    })
}

/// Returns a frame's number and its time, of the words `# frame N TIME` that a comment begins with.
fn read_frame<'a>(words: &mut Words<'a>) -> Option<(&'a [u8], &'a [u8])>
    ensures read { MatchOption result (frame_in words.old ≡ None)
        (λ parts. frame_in words.old ≡ Some ((parts.0.now, parts.1.now), words.new)) }
    ensures shape { IfSome result (λ parts. words.old
        ≡ codes "#" ∷ codes "frame" ∷ parts.0.now ∷ parts.1.now ∷ words.new) }
{
    if !is(words.next()?, "#") || !is(words.next()?, "frame") {
        return None;
    }
    let number = words.next()?;
    if !is_number(number) {
        return None;
    }
    let time = words.next()?;
    if !is_time(time) {
        return None;
    }
    Some((number, time))
}

/// Returns this many bytes after the mark of a comment.
fn cut_frame(line: &[u8], count: usize) -> &[u8]
    requires { 2 + count ≤ length line.now }
    ensures { result.now ≡ take count (drop 2 line.now) }
{
    &line[2..2 + count]
}

/// Returns what a line says that is exactly `# frame N TIME A.N -> A.N`, as is written before a packet: N of 1 to 20
/// digits; TIME `-`, or digits, a point and digits; each node an area up to 63, a point, and a number up to 1,023. Of
/// any other line it returns None. It takes no memory.
pub fn origin_of(line: &[u8]) -> Option<Origin<'_>>
    ensures { option_map origin_seen result ≡ the_origin line.now }
{
    let mut words = Words::of(line);
    let (number, time) = read_frame(&mut words)?;
    let nodes = read_pair(words)?;
    Some(Origin {
        frame: cut_frame(line, 7 + number.len() + time.len()),
        nodes,
    })
}
