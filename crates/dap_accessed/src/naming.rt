//! Which file a name finds, under which name a new file stands, and which one it replaces.

ghost use Rattle.std.specs.Prelude.{◌≡◌, ◌&&◌, ◌==◌, ◌<◌, ◌++◌, ◌∷◌, [], IfOk, IfSome, OnErr, OnOk, None, length};
ghost use Rattle.dap_accessed.specs.Asked.{IsAsked, made_file};
ghost use Rattle.dap_accessed.specs.Naming.{files_without, free_version, highest_version, index_by, index_by_version, index_of_version, index_to_erase, index_to_replace, is_alike as alike, lowest_version, name_with, next_version, number_given, number_made, unnumbered, version_count, version_given, version_made};
ghost use Rattle.dap_accessed.specs.Standing.{index_of};
ghost use Rattle.dap_accessed.specs.declared.setup.Names.TheVariants.{Folded};
ghost use Rattle.file_names.specs.Versions.{version_number as number_in};

use crate::asked::Asked;
use crate::fault::NoMemory;
use crate::setup::{Names, asks_for_one};
use crate::table::FileTable;
use file_names::{MAX_VERSION, Wanted, is_alike, version_name, version_number, version_wanted};
use std::alloc::Global;

/// Returns whether a file's name has the fold of another, and this number.
fn is_version(of: &[u8], name: &[u8], number: u16) -> bool
    ensures { result ≡ (alike of.now name.now && number_in of.now == number) }
{
    is_alike(of, name) && version_number(of) == number
}

/// Returns the number of a file without one, unless a file has its name.
fn unnumbered(found: Option<usize>) -> Option<u16>
    ensures { result ≡ unnumbered found }
{
    match found {
        Some(_) => None,
        None => Some(0),
    }
}

/// Returns the name of a file with this number: as it was asked for, but with versions.
fn name_with(alloc: Global, names: Names, name: &[u8], number: u16) -> Result<Vec<u8>, NoMemory>
    ensures { IfOk result (λ made. made.items ≡ name_with names name.now number) }
{
    Ok(match names {
        Names::Versions(_) => version_name(alloc, name, number)?,
        _ => Vec::from_slice(alloc, name)?,
    })
}

impl FileTable {
    /// Returns the index of the file that a name finds, so compared: the first that has this name, or that folds as it
    /// does; with versions the one of the number that is asked for, or of the highest.
    pub fn find_by(&self, names: Names, name: &[u8]) -> Option<usize>
        ensures index { result ≡ index_by names name.now self.now }
        ensures within { IfSome result (λ at. at < length self.now) }
    {
        match names {
            Names::Exact => self.find(name),
            Names::Folded => self.find_alike(name),
            Names::Versions(_) => self.find_by_version(name),
        }
    }

    /// Returns the index of the first file whose name folds as this one does.
    fn find_alike(&self, name: &[u8]) -> Option<usize>
        ensures { result ≡ index_by Folded name.now self.now }
    {
        for at in 0..self.count() {
            if is_alike(self.name(at), name) {
                return Some(at);
            }
        }
        None
    }

    /// Returns the index of the file that folds as a name does, and has this number.
    fn find_version(&self, name: &[u8], number: u16) -> Option<usize>
        ensures { result ≡ index_of_version name.now number self.now }
    {
        for at in 0..self.count() {
            if is_version(self.name(at), name, number) {
                return Some(at);
            }
        }
        None
    }

    /// Returns the index of the file that a name finds, with versions.
    fn find_by_version(&self, name: &[u8]) -> Option<usize>
        ensures { result ≡ index_by_version name.now self.now }
    {
        match version_wanted(name) {
            Wanted::Latest => self.find_version(name, self.highest_version(name)),
            Wanted::Version(number) => self.find_version(name, number),
            Wanted::All | Wanted::Nothing => None,
        }
    }

    /// Returns the index of the file that this name lets erase, so compared: by folds a file has one version, and the
    /// name asks for that, or for the latest.
    pub(crate) fn find_to_erase(&self, names: Names, name: &[u8]) -> Option<usize>
        ensures index { result ≡ index_to_erase names name.now self.now }
        ensures within { IfSome result (λ at. at < length self.now) }
    {
        match names {
            Names::Folded if !asks_for_one(name) => None,
            _ => self.find_by(names, name),
        }
    }

    /// Returns the highest number of the files that fold as a name does; 0 where there are none.
    fn highest_version(&self, name: &[u8]) -> u16
        ensures { result ≡ highest_version name.now self.now }
    {
        let mut highest = 0;
        for at in 0..self.count() {
            if is_alike(self.name(at), name) {
                highest = version_number(self.name(at)).max(highest);
            }
        }
        highest
    }

    /// Returns the lowest number of the files that fold as a name does; one above [`MAX_VERSION`] where there are none.
    fn lowest_version(&self, name: &[u8]) -> u16
        ensures { result ≡ lowest_version name.now self.now }
    {
        let mut lowest = MAX_VERSION + 1;
        for at in 0..self.count() {
            if is_alike(self.name(at), name) {
                lowest = version_number(self.name(at)).min(lowest);
            }
        }
        lowest
    }

    /// Returns how many files fold as a name does.
    fn version_count(&self, name: &[u8]) -> usize
        ensures { result ≡ version_count name.now self.now }
    {
        let mut count = 0;
        for at in 0..self.count() {
            if is_alike(self.name(at), name) {
                count += 1;
            }
        }
        count
    }

    /// Returns the number above all of a name's fold, where there may be such.
    fn next_version(&self, name: &[u8]) -> Option<u16>
        ensures { result ≡ next_version name.now self.now }
    {
        let highest = self.highest_version(name);
        if highest < MAX_VERSION {
            Some(highest + 1)
        } else {
            None
        }
    }

    /// Returns this number, where no file of a name's fold has it.
    fn free_version(&self, name: &[u8], number: u16) -> Option<u16>
        ensures { result ≡ free_version name.now number self.now }
    {
        match self.find_version(name, number) {
            Some(_) => None,
            None => Some(number),
        }
    }

    /// Returns the number of a version that an Access makes: the one that is asked for, where it is free, else the next.
    fn version_made(&self, name: &[u8]) -> Option<u16>
        ensures { result ≡ version_made name.now self.now }
    {
        let next = self.next_version(name);
        match version_wanted(name) {
            Wanted::Version(number) => self.free_version(name, number).or(next),
            _ => next,
        }
    }

    /// Returns the number of a version that the table is given: its name has to find it.
    fn version_given(&self, name: &[u8]) -> Option<u16>
        ensures { result ≡ version_given name.now self.now }
    {
        match version_wanted(name) {
            Wanted::Latest => self.next_version(name),
            Wanted::Version(number) => self.free_version(name, number),
            Wanted::All | Wanted::Nothing => None,
        }
    }

    /// Returns the number of a file that an Access makes, 0 without versions; None where it can't be made.
    pub(crate) fn number_made(&self, names: Names, name: &[u8]) -> Option<u16>
        ensures number { result ≡ number_made names name.now self.now }
        // Then it may be made.
        ensures new { IfSome result (λ number. index_of (name_with names name.now number) self.now ≡ None) }
    {
        match names {
            Names::Versions(_) => self.version_made(name),
            _ => unnumbered(self.find_by(names, name)),
        }
    }

    /// Returns the number of a file that the table is given, 0 without versions; None where there is one of its name,
    /// no number is left, or its name would not find it.
    pub fn number_given(&self, names: Names, name: &[u8]) -> Option<u16>
        ensures number { result ≡ number_given names name.now self.now }
        // Then it may be made.
        ensures new { IfSome result (λ number. index_of (name_with names name.now number) self.now ≡ None) }
    {
        match names {
            Names::Versions(_) => self.version_given(name),
            _ => unnumbered(self.find_by(names, name)),
        }
    }

    /// Returns the index of the file that one more of this name replaces, where it replaces one.
    pub(crate) fn find_to_replace(&self, names: Names, name: &[u8]) -> Option<usize>
        ensures index { result ≡ index_to_replace names name.now self.now }
        ensures within { IfSome result (λ at. at < length self.now) }
    {
        let Names::Versions(keep) = names else {
            return None;
        };
        let new = self.number_made(names, name)?;
        let lowest = self.lowest_version(name);
        if usize::from(keep) <= self.version_count(name) && lowest < new {
            self.find_version(name, lowest)
        } else {
            None
        }
    }

    /// Makes a new file after all others, under a name that none has: this one, or with versions its fold with this
    /// number.
    pub fn make(
        &mut self,
        alloc: Global,
        names: Names,
        name: &[u8],
        number: u16,
        asked: Asked,
    ) -> Result<(), NoMemory>
        requires asked { IsAsked asked }
        requires new { index_of (name_with names name.now number) self.old ≡ None }
        ensures ok { OnOk result
            (self.new ≡ self.old ++ (name_with names name.now number, made_file asked) ∷ []) }
        ensures err { OnErr result (self.new ≡ self.old) }
    {
        let name = name_with(alloc, names, name, number)?;
        self.insert(alloc, name, asked)
    }

    /// Makes a new file as [`FileTable::make`] does, and removes the one that it replaces, if there is one. Returns its
    /// index.
    pub(crate) fn make_over(
        &mut self,
        alloc: Global,
        names: Names,
        name: &[u8],
        number: u16,
        asked: Asked,
    ) -> Result<usize, NoMemory>
        requires asked { IsAsked asked }
        requires new { index_of (name_with names name.now number) self.old ≡ None }
        ensures ok { OnOk result
            (self.new ≡ files_without (index_to_replace names name.now self.old) self.old
            ++ (name_with names name.now number, made_file asked) ∷ []) }
        ensures at { IfOk result (λ at. at
            ≡ length (files_without (index_to_replace names name.now self.old) self.old)) }
        ensures err { OnErr result (self.new ≡ self.old) }
    {
        let replaced = self.find_to_replace(names, name);
        self.make(alloc, names, name, number, asked)?;
        if let Some(at) = replaced {
            self.remove(at);
        }
        Ok(self.count() - 1)
    }
}
