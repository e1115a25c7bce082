//! The lines of a file, one after the other.
//!
//! Before the first case are names (`let NAME TEXT`) and parts (`part NAME`), which are lines that cases have in
//! common. In a call and in what it comes to, a name stands for its text, and `{PIECE*N}` for this many pieces.

use crate::call::Call;
use crate::out::Out;
use crate::trouble::Trouble;
use std::alloc::Global;
use std::collections::BTreeMap;
use std::io::{Stdout, Write};

/// What is between a call and what it comes to.
const ARROW: &str = " -> ";

/// What is between the parts before a line and those after it.
const AROUND: &str = " ... ";

/// What answers the calls of a suite.
pub trait Suite {
    /// Begins anew: nothing was called yet.
    fn begin(&mut self);

    /// Appends what a call comes to.
    fn call(&mut self, call: &mut Call, out: &mut Out);
}

/// The lines of a file.
#[derive(Drop)]
pub struct Script {
    alloc: Global,
    lines: Vec<String>,
    names: BTreeMap<String, String>,
    /// Where each part begins.
    parts: BTreeMap<String, usize>,
}

/// What came of a file.
#[derive(Drop)]
pub struct Tally {
    out: Stdout,
    name: String,
    cases: u64,
    differs: bool,
    /// The line that names parts, where each line of a case is played by itself between them.
    around: Option<usize>,
}

/// Returns the first word of a line, and what follows it.
fn split(line: &str) -> (&str, &str) {
    match line.split_once(' ') {
        Some(both) => both,
        None => (line, ""),
    }
}

impl Script {
    /// Reads the lines of a text.
    pub fn new(alloc: Global, text: &str) -> Result<Script, Trouble> {
        let mut script = Script {
            alloc,
            lines: Vec::new(alloc),
            names: BTreeMap::new(alloc),
            parts: BTreeMap::new(alloc),
        };
        for line in text.lines() {
            script.add(line)?;
        }
        Ok(script)
    }

    /// Returns the suite that the first line names.
    pub fn suite(&self) -> &str {
        match split(self.line(0)) {
            ("suite", name) => name,
            _ => "",
        }
    }

    /// Adds a line.
    fn add(&mut self, line: &str) -> Result<(), Trouble> {
        self.lines.push(String::from_str(self.alloc, line)?)?;
        match split(line) {
            ("let", rest) => self.name(split(rest)),
            ("part", name) => self.begin_part(name),
            _ => Ok(()),
        }
    }

    /// Adds a name.
    fn name(&mut self, named: (&str, &str)) -> Result<(), Trouble> {
        let name = String::from_str(self.alloc, named.0)?;
        let text = String::from_str(self.alloc, named.1)?;
        self.names.insert(name, text)?;
        Ok(())
    }

    /// Begins a part after the lines so far.
    fn begin_part(&mut self, name: &str) -> Result<(), Trouble> {
        let name = String::from_str(self.alloc, name)?;
        self.parts.insert(name, self.lines.len())?;
        Ok(())
    }

    /// Returns the line at an index.
    fn line(&self, at: usize) -> &str {
        match self.lines.get(at) {
            Some(line) => line.as_str(),
            None => "",
        }
    }

    /// Returns what a word stands for.
    fn named<'a>(&'a self, word: &'a str) -> &'a str {
        match self.names.get(word) {
            Some(text) => text.as_str(),
            None => word,
        }
    }

    /// Returns a line with what its names stand for.
    fn with_names(&self, line: &str) -> Result<String, Trouble> {
        let mut spelled = String::new(self.alloc);
        for (at, word) in line.split(' ').enumerate() {
            if at > 0 {
                spelled.push(' ')?;
            }
            spelled.push_str(self.named(word))?;
        }
        Ok(spelled)
    }

    /// Returns a line in full.
    fn spelled(&self, line: &str) -> Result<String, Trouble> {
        let named = self.with_names(line)?;
        let mut spelled = String::new(self.alloc);
        for (at, part) in named.split('{').enumerate() {
            if at == 0 {
                spelled.push_str(part)?;
            } else {
                push_repeated(&mut spelled, part)?;
            }
        }
        Ok(spelled)
    }
}

/// Appends what follows an opening brace, `PIECE*N}` and more, in full.
fn push_repeated(spelled: &mut String, part: &str) -> Result<(), Trouble> {
    let (inside, after) = part.split_once('}').ok_or(Trouble::BadLine)?;
    let (piece, times) = inside.split_once('*').ok_or(Trouble::BadLine)?;
    let times: u32 = times.parse().ok().ok_or(Trouble::BadLine)?;
    for _ in 0..times {
        spelled.push_str(piece)?;
    }
    spelled.push_str(after)?;
    Ok(())
}

impl Tally {
    /// Creates a tally of the file of this name, of which nothing was played.
    pub fn new(out: Stdout, name: String) -> Tally {
        Tally {
            out,
            name,
            cases: 0,
            differs: false,
            around: None,
        }
    }

    /// Prints how many cases there are. Returns whether each line came to what it says.
    pub fn end(&mut self) -> Result<bool, Trouble> {
        writeln!(self.out, "{}: {} cases", self.name, self.cases)?;
        Ok(!self.differs)
    }

    /// Prints what the line at an index came to.
    fn tell(&mut self, at: usize, line: &str, came: &str) -> Result<(), Trouble> {
        self.differs = true;
        let number = at.saturating_add(1);
        writeln!(self.out, "{}:{number}: {line}\n  came: {came}", self.name)?;
        Ok(())
    }

    /// Begins a case.
    fn begin(&mut self) {
        self.cases = self.cases.saturating_add(1);
        self.around = None;
    }
}

/// Returns what a call comes to.
fn came<S: Suite>(script: &Script, suite: &mut S, line: &str) -> Result<Vec<u8>, Trouble> {
    let spelled = script.spelled(line)?;
    let mut call = Call::new(script.alloc, spelled.as_str())?;
    let mut out = Out::new(script.alloc);
    suite.call(&mut call, &mut out);
    if call.is_refused() {
        return Err(Trouble::BadLine);
    }
    out.whole().ok_or(Trouble::NoMemory)
}

/// Returns what the line at an index comes to, if not what it says.
fn other<S: Suite>(script: &Script, suite: &mut S, at: usize) -> Result<Option<String>, Trouble> {
    let (line, expected) = script.line(at).split_once(ARROW).ok_or(Trouble::BadLine)?;
    let text = came(script, suite, line)?;
    if text.as_slice() == script.spelled(expected)?.as_bytes() {
        return Ok(None);
    }
    match String::from_utf8(text) {
        Ok(came) => Ok(Some(came)),
        Err(_) => Err(Trouble::BadLine),
    }
}

/// Plays the call of the line at an index.
fn play_call<S: Suite>(
    script: &Script,
    tally: &mut Tally,
    suite: &mut S,
    at: usize,
) -> Result<(), Trouble> {
    match other(script, suite, at) {
        Ok(None) => Ok(()),
        Ok(Some(came)) => tally.tell(at, script.line(at), came.as_str()),
        Err(Trouble::BadLine) => tally.tell(
            at,
            script.line(at),
            "a line that is none of the suite's",
        ),
        Err(trouble) => Err(trouble),
    }
}

/// Plays the lines of a part that begins at an index.
fn play_part<S: Suite>(
    script: &Script,
    tally: &mut Tally,
    suite: &mut S,
    from: usize,
) -> Result<(), Trouble> {
    for at in from..script.lines.len() {
        match split(script.line(at)) {
            ("case" | "part", _) => return Ok(()),
            ("" | "#", _) => {}
            _ => play_call(script, tally, suite, at)?,
        }
    }
    Ok(())
}

/// Plays the parts of these names, which the line at an index says.
fn play_parts<S: Suite>(
    script: &Script,
    tally: &mut Tally,
    suite: &mut S,
    at: usize,
    names: &str,
) -> Result<(), Trouble> {
    for name in names.split(' ') {
        match script.parts.get(name) {
            Some(from) => play_part(script, tally, suite, *from)?,
            None => tally.tell(at, script.line(at), "a part that isn't there")?,
        }
    }
    Ok(())
}

/// Plays the call of the line at an index by itself, between the parts that another line names.
fn play_between<S: Suite>(
    script: &Script,
    tally: &mut Tally,
    suite: &mut S,
    at: usize,
    around: usize,
) -> Result<(), Trouble> {
    let (_each, names) = split(script.line(around));
    suite.begin();
    match names.split_once(AROUND) {
        Some((before, after)) => {
            play_parts(script, tally, suite, around, before)?;
            play_call(script, tally, suite, at)?;
            play_parts(script, tally, suite, around, after)
        }
        None => {
            play_parts(script, tally, suite, around, names)?;
            play_call(script, tally, suite, at)
        }
    }
}

/// Plays the line at an index of a case.
fn play_line<S: Suite>(
    script: &Script,
    tally: &mut Tally,
    suite: &mut S,
    at: usize,
) -> Result<(), Trouble> {
    match split(script.line(at)) {
        ("" | "#", _) => Ok(()),
        ("play", names) => play_parts(script, tally, suite, at, names),
        ("each", _) => {
            tally.around = Some(at);
            Ok(())
        }
        _ => match tally.around {
            Some(around) => play_between(script, tally, suite, at, around),
            None => play_call(script, tally, suite, at),
        },
    }
}

/// Plays all cases of a file.
pub fn play_all<S: Suite + Drop>(
    script: &Script,
    tally: &mut Tally,
    mut suite: S,
) -> Result<(), Trouble> {
    for at in 0..script.lines.len() {
        if script.line(at).starts_with("case ") {
            tally.begin();
            suite.begin();
        } else if tally.cases > 0 {
            play_line(script, tally, &mut suite, at)?;
        }
    }
    Ok(())
}
