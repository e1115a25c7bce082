//! One table of files, and what is kept of each link before it.

ghost use Rattle.std.specs.Prelude.{◌≡◌, ◌≤◌, ◌<◌, ◌∷◌, ◌++◌, ℕ, List, [], length, map, nat_le, nat_lt, if◌then◌else◌, IfOk, IfErr, IsOk, IsTrue, OnOk, OnErr, Some, None, replicate};
ghost use Rattle.std.specs.Option.{option_or};
ghost use Rattle.dap_msg.specs.BothEnds.{min_buffer};
ghost use Rattle.dap_msg.specs.Decoding.{IsSpelled};
ghost use Rattle.dap_msg.specs.declared.items.Item.TheVariants.{Whole};
ghost use Rattle.dap_msg.specs.declared.message.Message.{Message as TheMessage};
ghost use Rattle.dap_accessed.specs.Asked.{IsAsked};
ghost use Rattle.dap_accessed.specs.Standing.{Files, file_at};
ghost use Rattle.dap_accessed.specs.Naming.{index_by};
ghost use Rattle.dap_accessed.specs.Adding.{MayGive, MayStore, with_new_file};
ghost use Rattle.dap_accessed.specs.Sessions.{IsOpenIn, session_with};
ghost use Rattle.dap_accessed.specs.Setup.{IsServerSetup, plain_setup};
ghost use Rattle.dap_shared.specs.Sharing.{has_made};
ghost use Rattle.dap_shared.specs.Nodes.{Event, FilesAfter, Gives, GivesRecord, IsSilentOn, exchange_at, is_locked_out, locks_out, node_after, with_record_at};
ghost use Rattle.dap_shared.specs.Shared.{AtFile, NotAdded, NotRemoved, RecordNotAdded, SharedAfter, SharedBegins, SharedDrops, SharedGiven, SharedServes, rights_on, session_without};
ghost use Rattle.dap_shared.specs.Inner.Beside.{IsSilentBetween, MovesAmong, session_moved_up};
ghost use Rattle.dap_shared.specs.Inner.Held.{IsSilentAmong, MovesOn, session_at};

use crate::fault::RemoveFault;
use crate::locks::{FILE_LOCKED, is_barred, is_barred_by_file, is_held};
use dap_accessed::{AddFault, Asked, FileTable, NoMemory, OpenFile, Served, ServerSetup, Session};
use dap_msg::Item;
use rec_file::Rights;
use std::alloc::Global;
use std::marker::Model;

/// One table of files, and what is kept of each link. It keeps no list of what it served: it is as after any messages
/// of the links that leave what it keeps.
#[derive(Drop)]
pub struct SharedFiles {
    alloc: Global,
    setup: ServerSetup,
    files: FileTable,
    sessions: Vec<Session>,
}

impl Model for SharedFiles {
    ghost use Rattle.dap_shared.specs.Shared.{SharedValue};
    ghost use Rattle.dap_shared.specs.Inner.Held.{IsHeld};
    ghost use Rattle.dap_shared.specs.Stored.{shared_code};

    ghost Value = { SharedValue };

    ghost coded = { shared_code };

    ghost view = { λ a. record {
      own = a.setup.identity.bufsiz;
      setup = a.setup;
      files = a.files;
      sessions = a.sessions.items;
    } };

    ghost invariant = { λ a. IsHeld (record {
      own = a.setup.identity.bufsiz;
      setup = a.setup;
      files = a.files;
      sessions = a.sessions.items;
    }) };
}

/// Creates this many links on which no Config was served.
fn new_sessions(alloc: Global, setup: ServerSetup, links: usize) -> Result<Vec<Session>, NoMemory>
    requires { IsServerSetup setup }
    ensures { IfOk result (λ sessions. sessions.items ≡ replicate links (session_with setup)) }
{
    let mut sessions = Vec::with_capacity(alloc, links)?;
    for _ in 0..links {
        sessions.push(Session::with_setup(alloc, setup))?;
    }
    Ok(sessions)
}

/// Follows the removal of the file at an index of the table, where those after it have moved up.
#[tactic(auto, using(std::proofs::lemmas::List::Edits::map_over_more))]
fn move_up(sessions: &mut [Session], removed: usize)
    ensures { sessions.new ≡ map (session_without removed) sessions.old }
{
    for session in sessions.iter_mut() {
        session.move_up(removed);
    }
}

/// Follows the removal of a file, if any was removed: those after it have moved up.
fn close_up(sessions: &mut [Session], gone: Option<OpenFile>)
    ensures { sessions.new ≡ map (session_moved_up gone) sessions.old }
{
    if let Some(removed) = gone {
        move_up(sessions, removed.at);
    }
}

/// Returns whether an item made a file: its link has a new one open, and had none.
fn has_made(held: Option<OpenFile>, now: Option<OpenFile>) -> bool
    ensures { result ≡ has_made held now }
{
    match (held, now) {
        (None, Some(opened)) => opened.is_new,
        _ => false,
    }
}

/// Returns the file that was open, or else asked for, where it is gone: there are fewer files, or no more although one
/// was made.
fn gone(
    made: bool,
    before: usize,
    after: usize,
    held: Option<OpenFile>,
    asked: Option<OpenFile>,
) -> Option<OpenFile>
    ensures { result ≡ (if (if made then nat_le after before else nat_lt after before)
        then option_or held asked else None) }
{
    let is_fewer = if made {
        after <= before
    } else {
        after < before
    };
    if is_fewer { held.or(asked) } else { None }
}

/// Serves an item of a link, beside the sessions of the links before it and after it.
fn serve_beside(
    files: &mut FileTable,
    before: &mut [Session],
    session: &mut Session,
    after: &mut [Session],
    item: Item<'_>,
    next: usize,
) -> Result<Served, NoMemory>
    requires spelled { (m : TheMessage) → item ≡ Whole m → IsSpelled m }
    requires there { IsOpenIn files.old session.old.phase }
    ensures ok { IfOk result (λ served. MovesAmong item.entry files.old before.old session.old
        after.old files.new before.new session.new after.new served.answers) }
    ensures next { IfOk result (λ served. served.next ≡ next) }
    ensures err { OnErr result ((files.new ≡ files.old) × (before.new ≡ before.old)
        × (after.new ≡ after.old) × (session.new ≡ session.old)) }
    ensures unrefused { IsSilentBetween item.entry files.old before.old session.old after.old
        → IsOk result }
{
    let asked = session.asked(files, &item);
    if is_barred(before, asked) || is_barred(after, asked) {
        let answers = session.refuse_open(files, FILE_LOCKED)?;
        return Ok(Served { answers, next });
    }
    let count = files.count();
    let held = session.open_file();
    let served = session.serve_item(files, item, next)?;
    let made = has_made(held, session.open_file());
    let gone = gone(made, count, files.count(), held, asked);
    close_up(before, gone);
    close_up(after, gone);
    Ok(served)
}

/// Serves an item of a link, where its session is.
fn serve_on(
    files: &mut FileTable,
    sessions: &mut [Session],
    link: usize,
    item: Item<'_>,
    next: usize,
) -> Result<Served, NoMemory>
    requires link { link < length sessions.old }
    requires spelled { (m : TheMessage) → item ≡ Whole m → IsSpelled m }
    requires there { (own : ServerSetup)
        → IsOpenIn files.old (session_at own link sessions.old).phase }
    ensures ok { IfOk result (λ served. (own : ServerSetup) → MovesOn own link item.entry files.old
        sessions.old files.new sessions.new served.answers) }
    ensures next { IfOk result (λ served. served.next ≡ next) }
    ensures err { OnErr result ((files.new ≡ files.old) × (sessions.new ≡ sessions.old)) }
    ensures unrefused { (own : ServerSetup)
        → IsSilentAmong own link item.entry files.old sessions.old → IsOk result }
{
    let (before, rest) = sessions.split_at_mut(link);
    match rest.split_first_mut() {
        Some((session, after)) => serve_beside(files, before, session, after, item, next),
        None => unreachable!(),
    }
}

impl SharedFiles {
    /// Creates a node with no files, this many links on which no Config was served, and a buffer of this many bytes, at
    /// least 64.
    pub fn new(alloc: Global, bufsiz: u16, links: usize) -> Result<SharedFiles, NoMemory>
        requires { min_buffer ≤ bufsiz }
        ensures stands { IfOk result (SharedAfter [] []) }
        ensures own { IfOk result (λ shared. shared.own ≡ bufsiz) }
        ensures setup { IfOk result (λ shared. shared.setup ≡ plain_setup bufsiz) }
        ensures links { IfOk result (λ shared. length shared.sessions ≡ links) }
    {
        SharedFiles::with_setup(alloc, ServerSetup::plain(bufsiz), links)
    }

    /// Creates a node with this setup, no files, and this many links on which no Config was served.
    pub fn with_setup(
        alloc: Global,
        setup: ServerSetup,
        links: usize,
    ) -> Result<SharedFiles, NoMemory>
        requires { IsServerSetup setup }
        ensures stands { IfOk result (SharedAfter [] []) }
        ensures setup { IfOk result (λ shared. shared.setup ≡ setup) }
        ensures own { IfOk result (λ shared. shared.own ≡ setup.identity.bufsiz) }
        ensures links { IfOk result (λ shared. length shared.sessions ≡ links) }
    {
        let sessions = new_sessions(alloc, setup, links)?;
        Ok(SharedFiles {
            alloc,
            setup,
            files: FileTable::new(alloc),
            sessions,
        })
    }

    /// Returns how many links it has.
    pub fn links(&self) -> usize
        ensures { result ≡ length self.now.sessions }
    {
        self.sessions.len()
    }

    /// Returns the files, in the order in which they were made: what all messages so far, of all links, have made of
    /// them.
    pub fn files(&self) -> &FileTable
        ensures held { result.now ≡ self.now.files }
        ensures after { (first : Files) (events : List Event) → SharedAfter first events self.now
            → result.now ≡ FilesAfter self.now.setup first (length self.now.sessions) events }
    {
        &self.files
    }

    /// Returns whether an item is an Access that is refused on one link because of the file that another has open.
    pub fn locks_out(&self, other: usize, link: usize, item: &Item<'_>) -> bool
        requires other { other < length self.now.sessions }
        requires link { link < length self.now.sessions }
        ensures { (first : Files) (events : List Event) → SharedAfter first events self.now
            → result ≡ locks_out self.now.setup other link
            (node_after self.now.setup first (length self.now.sessions) events) item.now }
    {
        let asked = self.sessions[link].asked(&self.files, item);
        other != link && is_barred_by_file(asked, self.sessions[other].open_file())
    }

    /// Returns whether an item is an Access that is refused on a link because of a file that another one has open.
    pub fn is_locked_out(&self, link: usize, item: &Item<'_>) -> bool
        requires { link < length self.now.sessions }
        ensures { (first : Files) (events : List Event) → SharedAfter first events self.now
            → result ≡ is_locked_out self.now.setup link
            (node_after self.now.setup first (length self.now.sessions) events) item.now }
    {
        is_barred(&self.sessions, self.sessions[link].asked(&self.files, item))
    }

    /// Serves what was read already of a link: the message or fault that `item_at` answered, and the offset after it
    /// (DAP 5.6.0, message sequences). An Access to a file that another link has open is refused as locked, where one
    /// of the two would change, replace or erase the file, or has made it.
    ///
    /// The only refusal is [`NoMemory`]. Nothing has changed then, and the same call may be made again. A message that
    /// has no answer and stores no record takes no memory.
    pub fn serve_item(
        &mut self,
        link: usize,
        item: Item<'_>,
        next: usize,
    ) -> Result<Served, NoMemory>
        requires link { link < length self.old.sessions }
        requires spelled { (m : TheMessage) → item ≡ Whole m → IsSpelled m }
        ensures serves { IfOk result (λ served. SharedServes link item.entry
            self.old self.new served.answers) }
        ensures next { IfOk result (λ served. served.next ≡ next) }
        ensures no_memory { OnErr result (self.new ≡ self.old) }
        ensures unrefused { (first : Files) (events : List Event)
            → SharedAfter first events self.old
            → IsSilentOn link self.old.setup first (length self.old.sessions) events item.entry
            → IsOk result }
    {
        serve_on(&mut self.files, &mut self.sessions, link, item, next)
    }

    /// Returns the rights that an Access on a link may ask for.
    pub fn rights(&self, link: usize) -> Rights
        requires { link < length self.now.sessions }
        ensures held { result ≡ rights_on link self.now }
        ensures after { (first : Files) (events : List Event) → SharedAfter first events self.now
            → result ≡ (exchange_at link
            (node_after self.now.setup first (length self.now.sessions) events)).most }
    {
        self.sessions[link].rights()
    }

    /// Begins another link in place of this one, or none: its open file is closed, and a PUT or an UPDATE that waits
    /// for its record is dropped. An Access on it may ask for these rights at most until it begins again.
    pub fn begin(&mut self, link: usize, most: Rights)
        requires { link < length self.old.sessions }
        ensures { SharedBegins link most self.old self.new }
    {
        let setup = ServerSetup { most, ..self.setup };
        self.sessions[link] = Session::with_setup(self.alloc, setup);
    }

    /// Adds a file without records after the others. Its shape is one that [`rec_file::Shape::check`] gives, and its look
    /// is one of that shape.
    ///
    /// Refusals in order: FileExists, NoMemory; each leaves all unchanged.
    pub fn add(&mut self, name: &[u8], asked: Asked) -> Result<(), AddFault>
        requires { IsAsked asked }
        ensures may { OnOk result (MayGive self.old.setup.names name.now self.old.files) }
        ensures given { OnOk result (SharedGiven (Gives name.now asked) self.old self.new) }
        ensures files { OnOk result
            (self.new.files ≡ with_new_file self.old.setup.names name.now asked self.old.files) }
        ensures refused { IfErr result (NotAdded self.old.setup.names self.old.files name.now) }
        ensures unchanged { OnErr result (self.new ≡ self.old) }
    {
        let names = self.setup.names;
        let Some(number) = self.files.number_given(names, name) else {
            return Err(AddFault::FileExists);
        };
        self.files.make(self.alloc, names, name, number, asked)?;
        Ok(())
    }

    /// Adds a record to the file of this name, under its number. In a sequential file the number is the next one.
    ///
    /// Refusals in order: NoFile; as of a PUT with this number BadLength, NumberOutOfRange, RecordExists; NoMemory.
    /// Each leaves all unchanged.
    pub fn add_record(&mut self, name: &[u8], number: u32, body: &[u8]) -> Result<(), AddFault>
        ensures may { OnOk result (AtFile name.now self.old
            (λ at. MayStore (file_at at self.old.files) number body.now)) }
        ensures given { OnOk result (AtFile name.now self.old
            (λ at. SharedGiven (GivesRecord at number body.now) self.old self.new)) }
        ensures files { OnOk result (AtFile name.now self.old
            (λ at. self.new.files ≡ with_record_at at number body.now self.old.files)) }
        ensures refused { IfErr result (RecordNotAdded self.old name.now number body.now) }
        ensures unchanged { OnErr result (self.new ≡ self.old) }
    {
        let Some(at) = self.files.find_by(self.setup.names, name) else {
            return Err(AddFault::NoFile);
        };
        self.files.add_record(at, number, body)
    }

    /// Removes the file of this name: those after it move up, also where a link has one of them open. It takes no
    /// memory.
    ///
    /// Refusals in order: NoFile; Busy where a link has the file open. Each leaves all unchanged.
    pub fn remove(&mut self, name: &[u8]) -> Result<(), RemoveFault>
        ensures drops { OnOk result
            (AtFile name.now self.old (λ at. SharedDrops at self.old self.new)) }
        ensures refused { IfErr result (NotRemoved self.old name.now) }
        ensures unchanged { OnErr result (self.new ≡ self.old) }
    {
        let Some(removed) = self.files.find_by(self.setup.names, name) else {
            return Err(RemoveFault::NoFile);
        };
        if is_held(&self.sessions, removed) {
            return Err(RemoveFault::Busy);
        }
        self.files.remove(removed);
        move_up(&mut self.sessions, removed);
        Ok(())
    }
}
