//! The suite `files`: a record file, and streams over it.

ghost use Rattle.std.specs.Prelude.{IsTrue};
ghost use Rattle.rec_file.specs.Shapes.{is_shape};

use crate::call::Call;
use crate::out::Out;
use crate::playing::Suite;
use dap_accessing::{By, Request};
use rec_file::{
    AnyFile, Format, MAX_NUMBER, Org, Pick, RecordFile, RelFile, Rights, SeqFile, Shape, Stream,
    first_record, key_number,
};
use std::alloc::Global;

/// A file, by itself or as any file.
#[derive(Drop)]
pub enum Kept {
    Any(AnyFile),
    Relative(RelFile),
    Sequential(SeqFile),
}

/// A file, the streams over it, and the one that calls go to.
#[derive(Drop)]
pub struct Filing {
    pub file: Option<Kept>,
    pub streams: Vec<Stream>,
    pub here: usize,
}

/// Makes a new file: any one, or that of its organization.
fn new_file(alloc: Global, is_any: bool, shape: Shape) -> Kept
    requires { IsTrue (is_shape shape) }
{
    if is_any {
        Kept::Any(AnyFile::new(alloc, shape))
    } else if shape.is_sequential() {
        Kept::Sequential(SeqFile::new(alloc, shape))
    } else {
        Kept::Relative(RelFile::new(alloc, shape))
    }
}

/// Makes a new file: `any` or `own`, and its attributes.
fn make(call: &mut Call, out: &mut Out) -> Option<Kept> {
    let is_any = call.either("any", "own");
    match call.shape() {
        Some(shape) => {
            out.put("made");
            Some(new_file(call.alloc(), is_any, shape))
        }
        None => {
            out.none();
            None
        }
    }
}

/// Reads `get`, `put`, `upd` and `del`, in this order, and `-` in place of each that isn't given.
fn rights(call: &mut Call) -> Rights {
    Rights {
        get: call.either("get", "-"),
        put: call.either("put", "-"),
        upd: call.either("upd", "-"),
        del: call.either("del", "-"),
    }
}

/// Returns which record is picked.
fn pick(by: By) -> Pick {
    match by {
        By::Next => Pick::Next,
        By::Key(number) => Pick::Key(number),
        By::Rfa(number) => Pick::Rfa(number),
    }
}

/// Does a call of a stream that needs the file.
fn act<F: RecordFile>(file: &mut F, stream: &mut Stream, asked: &Request, out: &mut Out) {
    match asked {
        Request::Get(by) => out.number_or(stream.get(file, pick(*by))),
        Request::Put { key, body } => out.number_or(stream.put(file, *key, &body.0)),
        Request::Update { body } => out.number_or(stream.update(file, &body.0)),
        Request::Delete => out.number_or(stream.delete(file)),
        _ => out.none(),
    }
}

/// Appends the first record from a number on.
fn put_first<F: RecordFile>(file: &F, from: u32, out: &mut Out) {
    match first_record(file, from) {
        Some((found, body)) => {
            out.number("", found);
            out.put(" ");
            out.bytes(body);
        }
        None => out.none(),
    }
}

/// Appends what is read of a file: the record of a number, the first from a number on, or the highest number.
fn look<F: RecordFile>(file: &F, call: &mut Call, out: &mut Out) {
    if call.is("highest") {
        out.number("", file.highest());
    } else if call.is("record") {
        out.some_bytes(file.lookup(call.long()));
    } else {
        put_first(file, call.long(), out);
    }
}

/// Lets the stream read from a number on, where there may be such a record.
fn seek(stream: &mut Stream, number: u32) {
    if (1..=MAX_NUMBER).contains(&number) {
        stream.seek(number);
    }
}

/// Does a call of a stream without the file, and appends where it then reads.
fn move_it(stream: &mut Stream, call: &mut Call, out: &mut Out) {
    if call.is("rewind") {
        stream.rewind();
    } else if call.is("forget") {
        stream.forget();
    } else if call.is("seek") {
        seek(stream, call.long());
    }
    out.number("at ", stream.next());
}

/// Returns the word for an organization.
fn org_word(shape: Shape) -> &'static str {
    match shape.org {
        Org::Seq => "seq",
        Org::Rel => "rel",
    }
}

/// Returns the word for a record format.
fn format_word(shape: Shape) -> &'static str {
    match shape.format {
        Format::Fixed => " fixed ",
        Format::Variable => " variable ",
    }
}

/// Appends a shape, and the maximum record number.
fn put_shape(shape: Shape, out: &mut Out) {
    out.put(org_word(shape));
    out.put(format_word(shape));
    out.number("", shape.mrs);
    out.number(" ", shape.mrn);
    out.number(" most ", shape.limit());
}

/// Does a call without a file: what attributes name, whether they allow a length, and the number of a KEY.
fn tell(call: &mut Call, out: &mut Out) {
    if call.is("key") {
        return out.number_or(key_number(&call.bytes()));
    }
    let length = if call.is("allows") { call.size() } else { 0 };
    match call.shape() {
        Some(shape) if call.is("allows") => {
            out.put(if shape.allows(length) {
                "allowed"
            } else {
                "refused"
            });
        }
        Some(shape) => put_shape(shape, out),
        None => out.none(),
    }
}

impl Filing {
    /// Opens a new stream.
    fn open(&mut self, call: &mut Call, out: &mut Out) {
        self.here = self.streams.len();
        if self.streams.push(Stream::new(rights(call))).is_err() {
            call.refuse();
        }
        out.put("open");
    }

    /// Does a call of the stream without the file.
    fn move_here(&mut self, call: &mut Call, out: &mut Out) {
        match self.streams.get_mut(self.here) {
            Some(stream) => move_it(stream, call, out),
            None => call.refuse(),
        }
    }

    /// Does a call of the stream that needs the file, and appends what it comes to.
    fn act(&mut self, asked: &Request, out: &mut Out) {
        let Some(stream) = self.streams.get_mut(self.here) else {
            return out.none();
        };
        match &mut self.file {
            Some(Kept::Any(file)) => act(file, stream, asked, out),
            Some(Kept::Relative(file)) => act(file, stream, asked, out),
            Some(Kept::Sequential(file)) => act(file, stream, asked, out),
            None => out.none(),
        }
    }

    /// Appends what is read of the file.
    fn look(&self, call: &mut Call, out: &mut Out) {
        match &self.file {
            Some(Kept::Any(file)) => look(file, call, out),
            Some(Kept::Relative(file)) => look(file, call, out),
            Some(Kept::Sequential(file)) => look(file, call, out),
            None => call.refuse(),
        }
    }
}

impl Suite for Filing {
    fn begin(&mut self) {
        self.file = None;
        self.streams.clear();
    }

    fn call(&mut self, call: &mut Call, out: &mut Out) {
        if call.is("new") {
            self.file = make(call, out);
        } else if call.is("stream") {
            self.open(call, out);
        } else if call.is("turn") {
            self.here = call.size().saturating_sub(1);
            self.move_here(call, out);
        } else if call.is("rewind") || call.is("forget") || call.is("seek") || call.is("tell") {
            self.move_here(call, out);
        } else if call.is("record") || call.is("first") || call.is("highest") {
            self.look(call, out);
        } else if call.is("shape") || call.is("allows") || call.is("key") {
            tell(call, out);
        } else if let Some(asked) = call.whole_request() {
            self.act(&asked, out);
        }
    }
}
