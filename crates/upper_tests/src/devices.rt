//! Devices that fail, with errors of several kinds.
use crate::engines::{CAPTURE, Engine, LISTING, run};
use linewise::{CaptureFault, Outcome};
use std::alloc::Global;
use std::io;
use std::io::{ErrorKind, Read, Write};

/// A device of which a read fails, a write after this many that took at most 5 bytes each, and a flush, with an error
/// of this kind.
#[derive(Drop)]
struct Broken {
    kind: ErrorKind,
    writes: usize,
    held: Vec<u8>,
}

fn breaking(alloc: Global, kind: ErrorKind, writes: usize) -> Broken {
    Broken {
        kind,
        writes,
        held: Vec::new(alloc),
    }
}

impl Read for Broken {
    fn read(&mut self, _buffer: &mut [u8]) -> io::Result<usize> {
        Err(io::Error::from(self.kind))
    }
}

impl Write for Broken {
    fn write(&mut self, bytes: &[u8]) -> io::Result<usize> {
        if self.writes == 0 {
            return Err(io::Error::from(self.kind));
        }
        self.writes -= 1;
        let count = bytes.len().min(5);
        self.held.extend_from_slice(&bytes[..count])?;
        Ok(count)
    }

    fn flush(&mut self) -> io::Result<()> {
        Err(io::Error::from(self.kind))
    }
}

/// Some kinds of errors. Each is answered as the others are, at once.
const KINDS: &[ErrorKind] = &[
    ErrorKind::Other,
    ErrorKind::BrokenPipe,
    ErrorKind::Interrupted,
    ErrorKind::OutOfMemory,
];

/// Each engine with an input, the writes before one that fails, and what is written by then. After 200 writes all is
/// written, and the flush fails.
const WRITING: &[(Engine, &[u8], usize, &[u8])] = &[
    (Engine::Show, CAPTURE, 0, b""),
    (Engine::Show, CAPTURE, 2, b"1 > segmen"),
    (Engine::Show, CAPTURE, 200, LISTING),
    (Engine::Show, b"", 0, b""),
    (Engine::Msg, b"> 0600\n", 3, b"1 > message len"),
    (Engine::Msg, b"# nothing\n", 200, b""),
    (Engine::Run, b"setup 0 8 1024 1024", 1, b"0 ref"),
    (
        Engine::Run,
        b"setup 0 8 1024 1024",
        200,
        b"0 refused bad-setup\n",
    ),
    (Engine::Run, b"\n", 0, b""),
];

/// Returns what a run of an engine answers, and what it writes to a device.
fn answer<R: Read>(
    alloc: Global,
    engine: Engine,
    reader: &mut R,
    kind: ErrorKind,
    writes: usize,
) -> (Result<Outcome, CaptureFault>, Vec<u8>) {
    let mut writer = breaking(alloc, kind, writes);
    let outcome = run(alloc, engine, reader, &mut writer);
    (outcome, writer.held)
}

#[test]
fn writers_that_fail(rt: HostRuntime) {
    for kind in KINDS {
        for (engine, input, writes, front) in WRITING {
            assert!(&rt; fails_after(rt.alloc(), *engine, input, *kind, *writes, front));
        }
    }
}

/// Returns whether the engine reports that a write failed, and has written this by then.
fn fails_after(
    alloc: Global,
    engine: Engine,
    input: &[u8],
    kind: ErrorKind,
    writes: usize,
    front: &[u8],
) -> bool {
    let mut reader = input;
    let (outcome, held) = answer(alloc, engine, &mut reader, kind, writes);
    outcome == Err(CaptureFault::WriteFailed) && held.as_slice() == front
}

#[test]
fn readers_that_fail(rt: HostRuntime) {
    for kind in KINDS {
        for engine in [Engine::Show, Engine::Msg, Engine::Run] {
            assert!(&rt; fails_to_read(rt.alloc(), engine, *kind));
        }
    }
}

/// Returns whether the engine reports that a read failed, and has written nothing.
fn fails_to_read(alloc: Global, engine: Engine, kind: ErrorKind) -> bool {
    let mut reader = breaking(alloc, kind, 0);
    let (outcome, held) = answer(alloc, engine, &mut reader, kind, 200);
    outcome == Err(CaptureFault::ReadFailed) && held.is_empty()
}
