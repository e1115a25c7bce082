//! Devices that fail.

use crate::growing::Trouble;
use crate::listings::{End, Row, run};
use linewise::CaptureFault;
use std::alloc::Global;
use std::io;
use std::io::{ErrorKind, Read, Write};

const NEVER: usize = 1_000_000_000;

/// A reader that gives at most `step` bytes a call and fails at its call `fail_at`, from 0.
#[derive(Drop)]
struct FaultyReader<'a> {
    bytes: &'a [u8],
    step: usize,
    calls: usize,
    fail_at: usize,
}

impl Read for FaultyReader<'_> {
    fn read(&mut self, buffer: &mut [u8]) -> io::Result<usize> {
        if self.calls == self.fail_at {
            return Err(io::Error::from(ErrorKind::Other));
        }
        self.calls = self.calls.saturating_add(1);
        let count = self.bytes.len().min(self.step).min(buffer.len());
        buffer[..count].copy_from_slice(&self.bytes[..count]);
        self.bytes = &self.bytes[count..];
        Ok(count)
    }
}

/// A reader without an end, that gives at most `step` line feeds a call.
#[derive(Drop)]
struct EndlessReader {
    step: usize,
    given: usize,
}

impl Read for EndlessReader {
    fn read(&mut self, buffer: &mut [u8]) -> io::Result<usize> {
        let count = self.step.min(buffer.len());
        buffer[..count].fill(b'\n');
        self.given = self.given.saturating_add(count);
        Ok(count)
    }
}

/// What is wrong with a faulty writer.
#[derive(Clone, Copy)]
enum Fault {
    /// Its last call fails.
    Error,
    /// Its last call takes nothing.
    Nothing,
    /// It takes all, and its flush fails.
    Flush,
    /// Nothing: it takes all.
    Sound,
}

/// A writer that takes at most `step` bytes a call, until its call `fail_at`, from 0, which is its last.
#[derive(Drop)]
struct FaultyWriter {
    held: Vec<u8>,
    step: usize,
    calls: usize,
    fail_at: usize,
    fault: Fault,
}

impl Write for FaultyWriter {
    fn write(&mut self, bytes: &[u8]) -> io::Result<usize> {
        if self.calls == self.fail_at {
            return match self.fault {
                Fault::Nothing => Ok(0),
                _ => Err(io::Error::from(ErrorKind::Other)),
            };
        }
        self.calls = self.calls.saturating_add(1);
        let count = bytes.len().min(self.step);
        self.held.extend_from_slice(&bytes[..count])?;
        Ok(count)
    }

    fn flush(&mut self) -> io::Result<()> {
        if matches!(self.fault, Fault::Flush) {
            return Err(io::Error::from(ErrorKind::Other));
        }
        Ok(())
    }
}

/// What a run leaves: how it ended, and what was written.
type Left = (End, &'static [u8]);

/// Returns what a run leaves whose reader is at fault: the same as ever, where it reads nothing.
fn unread(row: Row, fault: CaptureFault) -> Left {
    let (_engine, input, end, text) = row;
    if input.is_empty() {
        (end, text)
    } else {
        (End::Fault(fault), b"")
    }
}

/// Wants a run to have left this.
fn wants(ended: Result<End, Trouble>, written: &[u8], want: (End, &[u8])) -> Result<(), Trouble> {
    let (end, text) = want;
    if ended? == end && written == text {
        Ok(())
    } else {
        Err(Trouble::Wrong)
    }
}

/// Runs an engine over an input that comes in pieces and fails at a call, and wants what it leaves.
fn reads(alloc: Global, row: Row, step: usize, fail_at: usize, want: Left) -> Result<(), Trouble> {
    let (engine, bytes, _end, _text) = row;
    let mut reader = FaultyReader {
        bytes,
        step,
        calls: 0,
        fail_at,
    };
    let mut writer = Vec::new(alloc);
    let ended = run(alloc, engine, &mut reader, &mut writer);
    wants(ended, &writer, want)
}

/// Runs an engine over an input without an end, and wants it to be too large, where it is read at all.
fn reads_without_end(alloc: Global, row: Row, step: usize) -> Result<(), Trouble> {
    let (engine, input, _end, _text) = row;
    let mut reader = EndlessReader { step, given: 0 };
    let mut writer = Vec::new(alloc);
    let ended = run(alloc, engine, &mut reader, &mut writer);
    let given = if input.is_empty() { 0 } else { 16_777_217 };
    if reader.given != given {
        return Err(Trouble::Wrong);
    }
    wants(ended, &writer, unread(row, CaptureFault::TooLarge))
}

/// Runs an engine with a writer, and wants a failed write after a prefix of the text, where it fails.
fn writes(
    alloc: Global,
    row: Row,
    step: usize,
    fail_at: usize,
    fault: Fault,
) -> Result<(), Trouble> {
    let (engine, mut reader, sound_end, text) = row;
    let mut writer = FaultyWriter {
        held: Vec::new(alloc),
        step,
        calls: 0,
        fail_at,
        fault,
    };
    let ended = run(alloc, engine, &mut reader, &mut writer);
    let end = if text.is_empty() || matches!(fault, Fault::Sound) {
        sound_end
    } else {
        End::Fault(CaptureFault::WriteFailed)
    };
    let front = text.len().min(step.saturating_mul(fail_at));
    wants(ended, &writer.held, (end, &text[..front]))
}

/// Runs each row over readers that give a byte a call, or a few, and fail at each call in turn; and over those without
/// an end. Returns how many runs that were.
pub fn read_all(alloc: Global, rows: &[Row]) -> Result<u64, Trouble> {
    let mut runs: u64 = 0;
    for row in rows {
        let (_engine, input, end, text) = *row;
        for step in [1, 2, 7] {
            reads(alloc, *row, step, NEVER, (end, text))?;
            for fail_at in 0..=input.len().div_ceil(step) {
                let want = unread(*row, CaptureFault::ReadFailed);
                reads(alloc, *row, step, fail_at, want)?;
                runs = runs.saturating_add(1);
            }
            runs = runs.saturating_add(1);
        }
        for step in [1, 65_536] {
            reads_without_end(alloc, *row, step)?;
            runs = runs.saturating_add(1);
        }
    }
    Ok(runs)
}

/// Runs each row with writers that take a byte a call, or a few, and fail or take nothing at each call in turn, or at
/// the flush alone, or never. Returns how many runs that were.
pub fn write_all(alloc: Global, rows: &[Row]) -> Result<u64, Trouble> {
    let mut runs: u64 = 0;
    for row in rows {
        let (_engine, _input, _end, text) = *row;
        for step in [1, 5, NEVER] {
            for fail_at in 0..text.len().div_ceil(step) {
                writes(alloc, *row, step, fail_at, Fault::Error)?;
                writes(alloc, *row, step, fail_at, Fault::Nothing)?;
                runs = runs.saturating_add(2);
            }
            writes(alloc, *row, step, NEVER, Fault::Flush)?;
            writes(alloc, *row, step, NEVER, Fault::Sound)?;
            runs = runs.saturating_add(2);
        }
    }
    Ok(runs)
}
