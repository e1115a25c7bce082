//! The loop over the lines of an input.

ghost use Rattle.std.specs.Prelude.{◌≡◌, ◌≢◌, ℕ, Bool, List, [], ◌∷◌, ◌++◌, ◌<◌, ◌≤◌, length, true, false, Option, Some, None, IfOk, IfErr, OnOk, OnErr, IfSome};
ghost use Rattle.std.specs.List.{concat, list_any};
ghost use Rattle.std.specs.Io.KnownBytes.{Appends, Keeps, IsAtEnd};
ghost use Rattle.std.specs.Io.BufRead.{first_line, drop_through};
ghost use Rattle.linewise.specs.Output.{WritesFront};
ghost use Rattle.linewise.specs.Talks.{ComesIn, Fails, IsUnbroken, AnswersInput, is_bad as is_bad_line, is_given as given_by};
ghost use Rattle.linewise.specs.declared.talking.Answer.{Answer as TheAnswer};
ghost use Rattle.linewise.specs.declared.talking.Became.{Became as TheBecame};
ghost use Rattle.linewise.specs.Inner.Kept.{HoldsLine, without_end as ended};
ghost use Rattle.linewise.specs.Inner.Steps.{BeginsLine, Breaks, Completes, TalkEnds, TurnGoes, SaysLine};

use crate::CaptureFault;
use crate::lines::{is_skipped, without_end};
use crate::output::{write_answer, write_part};
use crate::reading::{Kept, Line, MAX_LINE, read_line};
use std::alloc::{AllocError, Global};
use std::io::{BufRead, Write};

/// What became of a line.
#[derive(Clone, Copy, PartialEq, Eq)]
pub enum Became {
    /// It was answered.
    Done,
    /// The end doesn't know such a line.
    BadLine,
    /// Out of memory; what was done before that stays done.
    NoMemory,
}

/// An answer, or how one begins that is said piece by piece.
#[derive(Clone, Copy, PartialEq, Eq)]
pub enum Answer<P> {
    /// The text is the whole of it, and this became of the line.
    Whole(Became),
    /// The text is a prefix of it, and the pieces from this position on follow.
    Begun(P),
}

/// An end that answers lines.
pub trait Answers {
    ghost use Rattle.linewise.specs.declared.talking.Became.{Became};
    ghost use Rattle.linewise.specs.Talks.{BeginsAnswer, GivesPiece};

    /// The position in an answer at which the next piece begins, where it is said piece by piece.
    type Cursor: Copy;

    // What it may come to by a line, the text of its answer, and what became of the line. `None` is a line that it
    // missed, since it wasn't read whole.
    ghost answered: { Self → Option (List ℕ) → Self → List ℕ → Became → Type 0 };

    // How many packets it waits to be acknowledged, and one more where it has something left to do; or that its
    // answers have no ending.
    ghost waiting: { Self → Option ℕ };

    // The pieces of an answer from a position on.
    ghost pieces: { Self → Self.Cursor → List (List ℕ) };

    /// Answers a line, which comes without its end, or begins to. The text comes empty.
    fn answer(&mut self, line: &[u8], text: &mut Vec<u8>) -> Answer<Self::Cursor>
        requires { text.old.items ≡ [] }
        ensures { BeginsAnswer answered pieces self.old (Some line.now)
            self.new text.new.items result };

    /// Misses a line, which is too long, or to which memory was refused while it was read. The answer says that, and
    /// how many packets the end waits for then.
    fn miss(&mut self)
        ensures { (became : Became) → answered self.old None self.new [] became };

    /// Appends the next piece of an answer to the text, which comes empty, and returns the position after it; or
    /// returns None where all is said.
    fn more(
        &self,
        cursor: Self::Cursor,
        text: &mut Vec<u8>,
    ) -> Result<Option<Self::Cursor>, AllocError>
        requires { text.old.items ≡ [] }
        ensures piece { IfOk result (GivesPiece (pieces self.now) cursor text.new.items) }
        ensures refused { OnErr result (0 < length (pieces self.now cursor)) };

    /// Returns how many packets it waits to be acknowledged, and one more where it has something left to do. `None`:
    /// its answers have no ending, and it is given all lines that aren't too long, also those that say nothing.
    fn waits(&self) -> Option<usize>
        ensures { result ≡ waiting self.now };
}

/// Returns whether an end is given a line, by the number of packets that it waits for.
fn is_given(waits: Option<usize>, line: &[u8]) -> bool
    ensures { result ≡ given_by waits line.now }
{
    match waits {
        Some(_) => !is_skipped(line),
        None => true,
    }
}

/// Returns the answer to a line that wasn't read whole, which the end misses.
fn miss<E: Answers>(end: &mut E, became: Became) -> Answer<E::Cursor>
    ensures missed { E.answered end.old None end.new [] became }
    ensures whole { result ≡ TheAnswer.Whole became }
{
    end.miss();
    Answer::Whole(became)
}

/// Answers a line, of which nothing is left out, or begins to; nothing where the end isn't given it.
fn answer_whole<E: Answers>(
    end: &mut E,
    line: &[u8],
    text: &mut Vec<u8>,
) -> Option<Answer<E::Cursor>>
    requires { text.old.items ≡ [] }
    ensures { BeginsLine E.answered E.waiting E.pieces
        end.old line.now end.new text.new.items result }
{
    if line.len() > MAX_LINE {
        return Some(miss(end, Became::BadLine));
    }
    if !is_given(end.waits(), line) {
        return None;
    }
    Some(end.answer(line, text))
}

/// Answers a line that was read, or begins to.
fn answer_read<E: Answers>(
    end: &mut E,
    line: &Line,
    text: &mut Vec<u8>,
) -> Option<Answer<E::Cursor>>
    requires { text.old.items ≡ [] }
    ensures { (raw : List ℕ) → HoldsLine line.now raw
        → BeginsLine E.answered E.waiting E.pieces
        end.old (ended raw) end.new text.new.items result }
{
    match line.kept {
        Kept::All => answer_whole(end, without_end(&line.bytes), text),
        Kept::TooLong => Some(miss(end, Became::BadLine)),
        Kept::NoMemory => Some(miss(end, Became::NoMemory)),
    }
}

/// Writes the text and the pieces from a position on, each before the next is asked for, and returns what became of
/// the line. The text is empty then.
fn write_pieces<E: Answers, W: Write>(
    end: &E,
    first: E::Cursor,
    text: &mut Vec<u8>,
    writer: &mut W,
) -> Result<Became, CaptureFault>
    ensures whole { IfOk result (λ became. (more : List ℕ)
        × ComesIn (E.pieces end.now first) more became
        × Appends (W.contents writer.old) (W.contents writer.new) (text.old.items ++ more)
        × (text.new.items ≡ [])) }
    ensures fault { IfErr result (λ fault. fault ≡ CaptureFault.WriteFailed) }
    ensures front { OnErr result (WritesFront (W.contents writer.old) (W.contents writer.new)
        (text.old.items ++ concat (E.pieces end.now first))) }
{
    let mut cursor = first;
    loop {
        write_part(text, writer)?;
        text.clear();
        match end.more(cursor, text) {
            Ok(Some(next)) => cursor = next,
            Ok(None) => return Ok(Became::Done),
            Err(_) => {
                text.clear();
                return Ok(Became::NoMemory);
            }
        }
    }
}

/// Writes all of an answer but the last text and its ending, and returns what became of the line.
fn write_begun<E: Answers, W: Write>(
    end: &E,
    answer: Answer<E::Cursor>,
    text: &mut Vec<u8>,
    writer: &mut W,
) -> Result<Became, CaptureFault>
    ensures whole { IfOk result (λ became. (written : List ℕ)
        × Appends (W.contents writer.old) (W.contents writer.new) written
        × Completes (E.pieces end.now) text.old.items answer (written ++ text.new.items) became) }
    ensures fault { IfErr result (λ fault. fault ≡ CaptureFault.WriteFailed) }
    ensures front { OnErr result ((whole : List ℕ)
        × Completes (E.pieces end.now) text.old.items answer whole Became.Done
        × WritesFront (W.contents writer.old) (W.contents writer.new) whole) }
{
    match answer {
        Answer::Whole(became) => Ok(became),
        Answer::Begun(cursor) => write_pieces(end, cursor, text, writer),
    }
}

/// Reports a bad line at once. What the error writer does with it changes nothing.
fn tell_bad<F: Write>(became: Became, number: u64, error_writer: &mut F) {
    if became == Became::BadLine {
        let _ = writeln!(error_writer, "bad line {number}");
    }
}

/// Answers a line that was read, writes the answer and flushes.
fn say<E: Answers, W: Write, F: Write>(
    end: &mut E,
    line: &Line,
    number: u64,
    text: &mut Vec<u8>,
    writer: &mut W,
    error_writer: &mut F,
) -> Result<Option<Became>, CaptureFault>
    ensures said { IfOk result (λ became. (raw : List ℕ) → HoldsLine line.now raw
        → SaysLine E.answered E.waiting end.old (ended raw) end.new (W.contents writer.old)
        (W.contents writer.new) became) }
    ensures broken { OnErr result ((raw : List ℕ) → HoldsLine line.now raw
        → Breaks E.answered E.waiting end.old (ended raw) end.new (W.contents writer.old)
        (W.contents writer.new)) }
    ensures fault { IfErr result (λ fault. fault ≡ CaptureFault.WriteFailed) }
{
    text.clear();
    let answer = match answer_read(end, line, text) {
        None => return Ok(None),
        Some(answer) => answer,
    };
    let became = write_begun(end, answer, text, writer)?;
    tell_bad(became, number, error_writer);
    match write_answer(text, became, end.waits(), writer) {
        Ok(()) => Ok(Some(became)),
        Err(fault) => Err(fault),
    }
}

/// What one turn of a conversation came to.
#[derive(Clone, Copy)]
pub(crate) enum Next {
    /// There is no line more.
    Over,
    /// A line was read, and this became of it, or nothing where the end wasn't given it.
    Line(Option<Became>),
}

/// Reads a line, answers it, writes the answer and flushes, before anything else is read.
fn answer_next<E: Answers, R: BufRead, W: Write, F: Write>(
    end: &mut E,
    reader: &mut R,
    writer: &mut W,
    error_writer: &mut F,
    number: u64,
    line: &mut Line,
    text: &mut Vec<u8>,
) -> Result<Next, CaptureFault>
    ensures goes { IfOk result (λ next. TurnGoes E.answered E.waiting end.old end.new
        (R.remaining reader.old) (R.remaining reader.new) (W.contents writer.old)
        (W.contents writer.new) next) }
    ensures fault { IfErr result (λ fault. TalkEnds E.answered E.waiting end.old end.new
        (R.remaining reader.old) (R.remaining reader.new) (W.contents writer.old)
        (W.contents writer.new) fault) }
{
    match read_line(reader, line) {
        Ok(()) => {}
        Err(_) => return Err(CaptureFault::ReadFailed),
    }
    if line.is_over() {
        return Ok(Next::Over);
    }
    let became = say(end, line, number, text, writer, error_writer)?;
    Ok(Next::Line(became))
}

/// Returns whether a line was bad.
fn is_bad(became: Option<Became>) -> bool
    ensures { result ≡ is_bad_line became }
{
    matches!(became, Some(Became::BadLine))
}

/// Returns whether a line's answer can't say that memory was refused to it.
fn ends_talk<E: Answers>(end: &E, became: Option<Became>) -> bool
    ensures memory { result ≡ true → became ≡ Some TheBecame.NoMemory }
    ensures waiting { result ≡ true → E.waiting end.now ≡ None }
    ensures goes { result ≡ false → E.waiting end.now ≡ None → became ≢ Some TheBecame.NoMemory }
{
    match became {
        Some(Became::NoMemory) => end.waits().is_none(),
        Some(Became::Done | Became::BadLine) | None => false,
    }
}

/// Answers the lines of an input until it ends, and returns whether some line was none of the end's.
///
/// Each line is answered, and its answer written and flushed, before the next one is read; of an answer that is
/// said piece by piece, each piece is written before the next one is asked for. A line has at most 16,777,216
/// bytes, and ends with a line feed, or a carriage return and a line feed, or with the input; of a longer one
/// nothing is kept. A bad line is reported to the error writer by its number, from 1, before its answer is written.
///
/// Faults: the reader failed, and all lines before the one that was being read are answered; the writer failed, and a
/// prefix of the answers is written; memory was refused to an answer that has no ending, and all lines up to that one
/// are answered. After the last two nothing is read after the line of the last answer.
pub fn talk<E: Answers, R: BufRead, W: Write, F: Write>(
    alloc: Global,
    end: &mut E,
    reader: &mut R,
    writer: &mut W,
    error_writer: &mut F,
) -> Result<bool, CaptureFault>
    ensures whole { IfOk result (λ bad. IfSome (R.remaining reader.old) (λ input. (text : List ℕ)
        × (lines : List (Option TheBecame))
        × AnswersInput E.answered E.waiting end.old input end.new [] text lines
        × Appends (W.contents writer.old) (W.contents writer.new) text
        × (bad ≡ list_any is_bad_line lines) × IsUnbroken E.waiting lines)) }
    ensures fault { IfErr result (λ fault. IfSome (R.remaining reader.old) (λ input.
        Fails E.answered E.waiting end.old input end.new (R.remaining reader.new)
        (W.contents writer.old) (W.contents writer.new) fault)) }
{
    let mut line = Line::new(alloc);
    let mut text = Vec::new(alloc);
    let mut bad = false;
    for number in 1..u64::MAX {
        match answer_next(
            end,
            reader,
            writer,
            error_writer,
            number,
            &mut line,
            &mut text,
        ) {
            Ok(Next::Line(became)) => {
                if ends_talk(end, became) {
                    return Err(CaptureFault::NoMemory);
                }
                bad |= is_bad(became);
            }
            Ok(Next::Over) => return Ok(bad),
            Err(fault) => return Err(fault),
        }
    }
    Err(CaptureFault::ReadFailed)
}
