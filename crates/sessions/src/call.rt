//! The words of a call. Where a word isn't there, or isn't what is asked for, the call is none of the suite's.

ghost use Rattle.std.specs.Prelude.{◌≤◌, IfSome, IsTrue};
ghost use Rattle.dap_msg.specs.BothEnds.{min_buffer};
ghost use Rattle.rec_file.specs.Shapes.{is_shape};

use dap_accessing::Request;
use dap_msg::MIN_BUFFER;
use dap_text::{read_hex, read_request};
use nsp_link::LinkSetup;
use rec_file::Shape;
use std::alloc::{AllocError, Global};
use std::mem;
use texts::{Words, read_number};

/// A call, and the words of it that are left.
#[derive(Drop)]
pub struct Call {
    alloc: Global,
    words: Vec<String>,
    line: String,
    next: usize,
    is_bad: bool,
}

/// Returns the bytes that a word spells, in hex, or `-` where there are none.
fn bytes_of(alloc: Global, word: &str) -> Option<Vec<u8>> {
    if word == "-" {
        return Some(Vec::new(alloc));
    }
    match read_hex(word.as_bytes()) {
        Some(digits) => digits.to_vec(alloc).ok(),
        None => None,
    }
}

/// Returns the request that words say.
fn request_of(alloc: Global, words: &str) -> Option<Request> {
    match read_request(Words::of(words.as_bytes())) {
        Some(asked) => asked.to_request(alloc).ok(),
        None => None,
    }
}

/// Returns what follows the first word, as a line.
fn line_of(alloc: Global, text: &str) -> Result<Vec<u8>, AllocError> {
    let mut line = Vec::new(alloc);
    if let Some((_name, rest)) = text.split_once(' ') {
        line.extend_from_slice(rest.as_bytes())?;
    }
    line.push(b'\n')?;
    Ok(line)
}

impl Call {
    /// Splits a line into its words.
    pub fn new(alloc: Global, line: &str) -> Result<Call, AllocError> {
        let mut words = Vec::new(alloc);
        for word in line.split(' ') {
            words.push(String::from_str(alloc, word)?)?;
        }
        Ok(Call {
            alloc,
            words,
            line: String::from_str(alloc, line)?,
            next: 1,
            is_bad: false,
        })
    }

    /// Returns whether the first word is this one.
    pub fn is(&self, name: &str) -> bool {
        match self.words.first() {
            Some(word) => word.as_str() == name,
            None => false,
        }
    }

    /// Notes that the call is none of the suite's.
    pub fn refuse(&mut self) {
        self.is_bad = true;
    }

    /// Returns whether it is none of the suite's, or has words that nothing asked for.
    pub fn is_refused(&self) -> bool {
        self.is_bad || self.has_more()
    }

    /// Returns the allocator.
    pub fn alloc(&self) -> Global {
        self.alloc
    }

    /// Returns whether words are left.
    pub fn has_more(&self) -> bool {
        self.next < self.words.len()
    }

    /// Takes the next word, or an empty one.
    pub fn word(&mut self) -> &str {
        let at = self.next;
        self.next = at.saturating_add(1);
        match self.words.get(at) {
            Some(word) => word.as_str(),
            None => "",
        }
    }

    /// Takes the next word, which is one of two, and returns whether it is the first of these.
    pub fn either(&mut self, one: &str, other: &str) -> bool {
        let word = self.word();
        let is_one = word == one;
        if !is_one && word != other {
            self.refuse();
        }
        is_one
    }

    /// Takes a decimal number that is at most this.
    pub fn number(&mut self, most: u32) -> u32
        ensures { result ≤ most }
    {
        match read_number(self.word().as_bytes(), most) {
            Some(number) => number,
            None => {
                self.refuse();
                0
            }
        }
    }

    /// Takes a number of one byte.
    pub fn octet(&mut self) -> u8 {
        self.number(255) as u8
    }

    /// Takes a number of two bytes.
    pub fn short(&mut self) -> u16 {
        self.number(u32::from(u16::MAX)) as u16
    }

    /// Takes a number of four bytes.
    pub fn long(&mut self) -> u32 {
        self.number(u32::MAX)
    }

    /// Takes a size, an index or an offset.
    pub fn size(&mut self) -> usize {
        self.long() as usize
    }

    /// Takes bytes.
    pub fn bytes(&mut self) -> Vec<u8> {
        let alloc = self.alloc;
        match bytes_of(alloc, self.word()) {
            Some(bytes) => bytes,
            None => {
                self.refuse();
                Vec::new(alloc)
            }
        }
    }

    /// Takes the bytes of each word that is left.
    pub fn all_bytes(&mut self) -> Vec<Vec<u8>> {
        let mut all = Vec::new(self.alloc);
        for _ in self.next..self.words.len() {
            let bytes = self.bytes();
            if all.push(bytes).is_err() {
                self.refuse();
            }
        }
        all
    }

    /// Takes all words, the first one too.
    pub fn all_words(&mut self) -> Vec<String> {
        self.next = self.words.len();
        mem::replace(&mut self.words, Vec::new(self.alloc))
    }

    /// Takes the text after the first word, as a line.
    pub fn line(&mut self) -> Vec<u8> {
        self.next = self.words.len();
        match line_of(self.alloc, self.line.as_str()) {
            Ok(line) => line,
            Err(_) => {
                self.refuse();
                Vec::new(self.alloc)
            }
        }
    }

    /// Takes the request that the words after the first one say.
    pub fn request(&mut self) -> Option<Request> {
        let asked = match self.line.split_once(' ') {
            Some((_name, words)) => request_of(self.alloc, words),
            None => None,
        };
        self.next = self.words.len();
        self.or_refuse(asked)
    }

    /// Takes the request that all words say.
    pub fn whole_request(&mut self) -> Option<Request> {
        let asked = request_of(self.alloc, self.line.as_str());
        self.next = self.words.len();
        self.or_refuse(asked)
    }

    /// Returns a request, or notes that the call is none of the suite's where there is none.
    fn or_refuse(&mut self, asked: Option<Request>) -> Option<Request> {
        if asked.is_none() {
            self.refuse();
        }
        asked
    }

    /// Takes an address of a link, in four hex digits.
    fn address(&mut self) -> u16 {
        match self.bytes().as_slice() {
            [high, low] => u16::from_be_bytes([*high, *low]),
            _ => {
                self.refuse();
                0
            }
        }
    }

    /// Takes the limits of a link, and its addresses: `SEG WINDOW MOST LOCAL REMOTE`.
    pub fn link_setup(&mut self) -> LinkSetup {
        LinkSetup {
            seg_size: self.size(),
            window: self.size(),
            max_message: self.size(),
            local: self.address(),
            remote: self.address(),
        }
    }

    /// Takes the buffer of an end, which has at least 64 bytes.
    pub fn buffer(&mut self) -> u16
        ensures { min_buffer ≤ result }
    {
        let bufsiz = self.short();
        if bufsiz < MIN_BUFFER {
            self.refuse();
            return MIN_BUFFER;
        }
        bufsiz
    }

    /// Takes the shape that attributes name, `ORG RFM MRS MRN`, if they name one.
    pub fn shape(&mut self) -> Option<Shape>
        ensures { IfSome result (λ shape. IsTrue (is_shape shape)) }
    {
        let org = self.octet();
        let rfm = self.octet();
        let mrs = self.short();
        let mrn = self.long();
        Shape::check(org, rfm, mrs, u64::from(mrn))
    }
}
