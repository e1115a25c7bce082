//! Relative files as a list of numbers and records, in the order of the numbers: the plain form beside which the pages
//! are tried.

ghost use Rattle.std.specs.Prelude.{◌≡◌, false, length, IsTrue};
ghost use Rattle.std.specs.List.Sorted.{IsBinarySearchResult, IsSearchInRange};
ghost use Rattle.std.specs.Ordering.{nat_cmp};
ghost use Rattle.rec_file.specs.Shapes.{is_shape, is_seq};
ghost use Rattle.rec_file.specs.Files.{empty_file};
ghost use Rattle.rec_file.specs.Looks.{plain_look};

use rec_file::{OneWalk, RecordFile, Shape};
use std::alloc::{AllocError, Global};
use std::marker::Model;

/// A relative file: each number has a record or none.
#[derive(Drop)]
pub struct ListFile {
    shape: Shape,
    entries: Vec<(u32, Vec<u8>)>,
}

impl Model for ListFile {
    ghost use Rattle.std.specs.Prelude.{◌≡◌, List, ℕ, map, false, true};
    ghost use Rattle.std.specs.Ordering.{nat_cmp};
    ghost use Rattle.std.specs.FinMap.{is_sorted};
    ghost use Rattle.rec_file.specs.Shapes.{is_seq};
    ghost use Rattle.rec_file.specs.Files.{FileVal, IsFile};
    ghost use Rattle.rec_file.specs.Stored.{file_code};
    ghost use Rattle.lower_tests.specs.Inner.Lists.{list_file};

    ghost Value = { FileVal };

    ghost coded = { file_code };

    ghost view = { λ a. list_file a.shape (map (λ e. (e.0, e.1.items)) a.entries.items) };

    ghost invariant = { λ a.
        IsFile (list_file a.shape (map (λ e. (e.0, e.1.items)) a.entries.items))
        × (is_seq a.shape.org ≡ false)
        × (is_sorted nat_cmp (map (λ e. (e.0, e.1.items)) a.entries.items) ≡ true) };
}

/// Returns the index of a number among the entries, or that at which it is missing.
fn search(entries: &[(u32, Vec<u8>)], number: u32) -> Result<usize, usize>
    ensures within { IsSearchInRange result (length entries.now) }
    ensures found { IsBinarySearchResult (λ e. nat_cmp e.0 number) entries.now result }
{
    entries.binary_search_by_key(&number, |entry| entry.0)
}

impl ListFile {
    /// Creates an empty file.
    pub fn new(alloc: Global, shape: Shape) -> ListFile
        requires valid { IsTrue (is_shape shape) }
        requires relative { is_seq shape.org ≡ false }
        ensures { result ≡ empty_file shape plain_look }
    {
        ListFile {
            shape,
            entries: Vec::new(alloc),
        }
    }
}

impl OneWalk for ListFile {
    ghost value = { λ f. f };

    fn record_from(&self, number: u32) -> Option<(u32, &[u8])> {
        match search(&self.entries, number) {
            Ok(at) => Some((number, self.entries[at].1.as_slice())),
            Err(at) => match self.entries.get(at) {
                Some(entry) => Some((entry.0, entry.1.as_slice())),
                None => None,
            },
        }
    }

    fn insert_if_free(&mut self, number: u32, body: &[u8]) -> Result<bool, AllocError> {
        match search(&self.entries, number) {
            Ok(_) => Ok(false),
            Err(at) => {
                let body = Vec::from_slice(*self.entries.allocator(), body)?;
                self.entries.insert(at, (number, body))?;
                Ok(true)
            }
        }
    }

    fn replace_if_occupied(&mut self, number: u32, body: &[u8]) -> Result<bool, AllocError> {
        match search(&self.entries, number) {
            Ok(at) => {
                let body = Vec::from_slice(*self.entries.allocator(), body)?;
                self.entries[at].1 = body;
                Ok(true)
            }
            Err(_) => Ok(false),
        }
    }

    fn remove_if_occupied(&mut self, number: u32) -> bool {
        match search(&self.entries, number) {
            Ok(at) => {
                let _ = self.entries.remove(at);
                true
            }
            Err(_) => false,
        }
    }
}

impl RecordFile for ListFile {
    fn shape(&self) -> Shape {
        self.shape
    }

    fn lookup(&self, number: u32) -> Option<&[u8]> {
        match search(&self.entries, number) {
            Ok(at) => Some(self.entries[at].1.as_slice()),
            Err(_) => None,
        }
    }

    fn highest(&self) -> u32 {
        match self.entries.last() {
            Some(entry) => entry.0,
            None => 0,
        }
    }
}
