//! Calls that may want memory: each is made again where it did, and changed nothing.

use crate::text::Text;
use dap_accessed::NoMemory;
use dap_accessing::{AskFault, ReadFault};
use dap_fields::FieldFault;
use dap_msg::{FaultKind, MsgFault};
use dap_world::WorldFault;
use nsp_link::LinkFault;
use nsp_seg::SegFault;
use rec_file::Refusal;
use std::alloc::{AllocError, AllocFailed, Global};
use std::io;
use std::io::{Stderr, Stdout, Write};

/// Why a call gave nothing.
#[derive(Clone, Copy)]
pub enum Trouble {
    /// It wanted memory, and all readers have to answer as before it.
    Wants,
    /// It wanted memory and had gone a part of its way, from which it goes on.
    Stopped,
    /// What the call is given wanted memory, so it wasn't made.
    Unready,
    /// It was refused for another reason.
    Wrong,
    /// There is no call at this index.
    Over,
}

impl Trouble {
    /// Returns what is printed after the call that was made again.
    fn text(self) -> &'static str {
        match self {
            Trouble::Wants => ": Wants",
            Trouble::Stopped => ": Stopped",
            Trouble::Unready => ": Unready",
            Trouble::Wrong => ": Wrong",
            Trouble::Over => ": Over",
        }
    }
}

impl From<AllocError> for Trouble {
    fn from(_e: AllocError) -> Trouble {
        Trouble::Unready
    }
}

impl<T: Drop> From<AllocFailed<T>> for Trouble {
    fn from(_e: AllocFailed<T>) -> Trouble {
        Trouble::Unready
    }
}

/// Returns that memory was wanted where a call was out of memory, and that any other fault is wrong.
fn wants(is_memory: bool) -> Trouble {
    if is_memory {
        Trouble::Wants
    } else {
        Trouble::Wrong
    }
}

impl From<FieldFault> for Trouble {
    fn from(fault: FieldFault) -> Trouble {
        wants(fault == FieldFault::NoMemory)
    }
}

impl From<MsgFault> for Trouble {
    fn from(fault: MsgFault) -> Trouble {
        wants(fault.kind == FaultKind::NoMemory)
    }
}

impl From<SegFault> for Trouble {
    fn from(fault: SegFault) -> Trouble {
        wants(fault == SegFault::NoMemory)
    }
}

impl From<LinkFault> for Trouble {
    fn from(fault: LinkFault) -> Trouble {
        wants(fault == LinkFault::NoMemory)
    }
}

impl From<Refusal> for Trouble {
    fn from(refusal: Refusal) -> Trouble {
        wants(refusal == Refusal::NoMemory)
    }
}

impl From<NoMemory> for Trouble {
    fn from(_e: NoMemory) -> Trouble {
        Trouble::Wants
    }
}

impl From<AskFault> for Trouble {
    fn from(fault: AskFault) -> Trouble {
        wants(fault == AskFault::NoMemory)
    }
}

impl From<ReadFault> for Trouble {
    fn from(fault: ReadFault) -> Trouble {
        wants(fault == ReadFault::NoMemory)
    }
}

impl From<WorldFault> for Trouble {
    fn from(fault: WorldFault) -> Trouble {
        wants(fault == WorldFault::NoMemory)
    }
}

/// What is called, and what its readers answer.
pub trait Growing {
    /// Makes the call at this index.
    fn call(&mut self, index: usize) -> Result<(), Trouble>;

    /// Appends what all readers answer.
    fn look(&self, seen: &mut Text);
}

/// Returns what is at this index of a table of calls.
pub fn at<T: Copy>(table: &[T], index: usize) -> Result<T, Trouble> {
    match table.get(index) {
        Some(found) => Ok(*found),
        None => Err(Trouble::Over),
    }
}

/// Keeps what was made.
pub fn put<T: Drop>(slot: &mut Option<T>, made: T) {
    *slot = Some(made);
}

/// Returns what was made, where the rest is done too.
pub fn when<T: Drop>(done: Result<(), Trouble>, made: T) -> Result<T, Trouble> {
    done?;
    Ok(made)
}

/// How a run ended early.
#[derive(Clone, Copy)]
pub enum Ending {
    /// A call wanted memory twice, and changed nothing.
    Twice,
    /// What a call is given wanted memory twice.
    UnreadyTwice,
    /// A call that wanted memory changed what the readers answer.
    Changed,
    /// A call was refused for another reason.
    Wrong,
    /// There was no memory to begin with, or nothing can be written.
    Unable,
}

impl Ending {
    /// Returns what is printed after the call.
    fn text(self) -> &'static str {
        match self {
            Ending::Twice => " wanted memory twice, and changed nothing",
            Ending::UnreadyTwice => " could not be made: what it is given wanted memory twice",
            Ending::Changed => " wanted memory, and CHANGED what the readers answer",
            Ending::Wrong => " was REFUSED, and not for memory",
            Ending::Unable => " no memory to begin with, or nothing can be written",
        }
    }
}

impl From<io::Error> for Ending {
    fn from(_e: io::Error) -> Ending {
        Ending::Unable
    }
}

impl From<AllocError> for Ending {
    fn from(_e: AllocError) -> Ending {
        Ending::Unable
    }
}

impl From<Trouble> for Ending {
    fn from(trouble: Trouble) -> Ending {
        match trouble {
            Trouble::Wrong | Trouble::Over => Ending::Wrong,
            Trouble::Unready => Ending::UnreadyTwice,
            Trouble::Wants | Trouble::Stopped => Ending::Twice,
        }
    }
}

/// What the readers answered before a call and after it, and where that is written and printed.
#[derive(Drop)]
pub struct Seen {
    before: Text,
    after: Text,
    out: Stdout,
    told: Stderr,
}

impl Seen {
    pub fn new(alloc: Global, out: Stdout, told: Stderr) -> Result<Seen, AllocError> {
        let mut seen = Seen {
            before: Text::new(alloc),
            after: Text::new(alloc),
            out,
            told,
        };
        seen.before.reserve()?;
        seen.after.reserve()?;
        Ok(seen)
    }

    /// Keeps what the readers answer before a call.
    fn look_before<G: Growing>(&mut self, subject: &G) -> Result<(), Ending> {
        self.before.clear();
        subject.look(&mut self.before);
        if self.before.is_whole() {
            Ok(())
        } else {
            Err(Ending::Unable)
        }
    }

    /// Looks that the readers answer what they did before the call.
    fn look_after<G: Growing>(&mut self, subject: &G) -> Result<(), Ending> {
        self.after.clear();
        subject.look(&mut self.after);
        if !self.after.is_whole() {
            Err(Ending::Unable)
        } else if self.before.as_slice() == self.after.as_slice() {
            Ok(())
        } else {
            Err(Ending::Changed)
        }
    }

    /// Writes how many calls there were, and what the readers answer in the end.
    fn write(&mut self, name: &str, count: usize) -> io::Result<()> {
        let line = &mut self.after;
        line.clear();
        line.put(name.as_bytes());
        line.put(b":");
        line.show(&count);
        line.put(b" calls\n");
        line.put(self.before.as_slice());
        line.put(b"\n");
        line.write(&mut self.out)
    }

    /// Prints which call gave nothing at first, and how it ended.
    fn tell(
        &mut self,
        name: &str,
        index: usize,
        first: Trouble,
        ended: Result<bool, Ending>,
    ) -> io::Result<()> {
        let (front, text) = match ended {
            Ok(_) => ("again: ", first.text()),
            Err(ending) => ("", ending.text()),
        };
        let line = &mut self.after;
        line.clear();
        line.put(front.as_bytes());
        line.put(name.as_bytes());
        line.show(&index);
        line.put(text.as_bytes());
        line.put(b"\n");
        line.write(&mut self.told)
    }
}

/// Makes a call again that wanted memory, where nothing has changed. Returns whether there is one.
fn again<G: Growing>(
    subject: &mut G,
    index: usize,
    seen: &mut Seen,
    goes_on: bool,
) -> Result<bool, Ending> {
    if !goes_on {
        seen.look_after(subject)?;
    }
    let second = match subject.call(index) {
        Ok(()) => return Ok(true),
        Err(Trouble::Over) => return Ok(false),
        Err(second) => second,
    };
    if !goes_on {
        seen.look_after(subject)?;
    }
    Err(Ending::from(second))
}

/// Makes a call again that gave nothing, and prints what came of it. Returns whether there is one.
fn call_again<G: Growing>(
    name: &str,
    subject: &mut G,
    index: usize,
    seen: &mut Seen,
    first: Trouble,
) -> Result<bool, Ending> {
    let ended = match first {
        Trouble::Wrong => Err(Ending::Wrong),
        Trouble::Stopped => again(subject, index, seen, true),
        _ => again(subject, index, seen, false),
    };
    seen.tell(name, index, first, ended)?;
    ended
}

/// Makes the call at an index, and prints where it wanted memory. Returns whether there is one.
fn call_surely<G: Growing>(
    name: &str,
    subject: &mut G,
    index: usize,
    seen: &mut Seen,
) -> Result<bool, Ending> {
    seen.look_before(subject)?;
    match subject.call(index) {
        Ok(()) => Ok(true),
        Err(Trouble::Over) => Ok(false),
        Err(first) => call_again(name, subject, index, seen, first),
    }
}

/// Makes all calls in turn, and writes how many they were and what the readers answer in the end.
pub fn make_all<G: Growing + Drop>(
    name: &str,
    mut subject: G,
    seen: &mut Seen,
) -> Result<(), Ending> {
    let mut count = 0;
    for index in 0..usize::MAX {
        count = index;
        if !call_surely(name, &mut subject, index, seen)? {
            break;
        }
    }
    seen.write(name, count)?;
    Ok(())
}
