//! The files of several links that have addresses: what is refused as locked is noted.

ghost use Rattle.std.specs.Prelude.{◌≡◌, ◌⊎◌, ◌≤◌, ◌<◌, ℕ, List, [], length, IfOk, IfErr, IsTrue, OnOk, OnErr, Some, None, true, false, set, replicate, IfSome};
ghost use Rattle.dap_msg.specs.BothEnds.{min_buffer};
ghost use Rattle.dap_accessed.specs.Asked.{IsAsked};
ghost use Rattle.dap_accessed.specs.Adding.{MayGive, MayStore, with_new_file};
ghost use Rattle.dap_accessed.specs.Setup.{IsServerSetup, plain_setup};
ghost use Rattle.dap_accessed.specs.Standing.{Files, file_at};
ghost use Rattle.dap_accessed.specs.Naming.{index_by};
ghost use Rattle.dap_shared.specs.Nodes.{Event, Gives, GivesRecord, exchange_at, node_after, with_record_at};
ghost use Rattle.dap_shared.specs.Noted.{IsLowest, NotedServed};
ghost use Rattle.dap_shared.specs.Inner.Lower.{IsLower};
ghost use Rattle.dap_shared.specs.Shared.{AtFile, IsSilentAt, NotAdded, NotRemoved, RecordNotAdded, SharedAfter, SharedBegins, SharedDrops, SharedGiven, rights_on};

use crate::fault::RemoveFault;
use crate::server::Serving;
use crate::shared::SharedFiles;
use dap_accessed::{AddFault, Asked, FileTable, NoMemory, Served, ServerSetup};
use dap_msg::Item;
use rec_file::Rights;
use std::alloc::Global;
use std::marker::Model;

/// The files of several links. For each Access that is refused, as another link has the file open, it notes the lowest
/// address of those that forbid it.
#[derive(Drop)]
pub struct NotedFiles {
    shared: SharedFiles,
    /// Of each link.
    addresses: Vec<u16>,
    locked: Vec<u16>,
}

impl Model for NotedFiles {
    ghost use Rattle.std.specs.Prelude.{◌≡◌, length};
    ghost use Rattle.dap_shared.specs.Noted.{NotedValue};
    ghost use Rattle.dap_shared.specs.Stored.{noted_code};

    ghost Value = { NotedValue };

    ghost coded = { noted_code };

    ghost view = { λ a. record
        { shared = a.shared; addresses = a.addresses.items; locked = a.locked.items } };

    ghost invariant = { λ a. length a.addresses.items ≡ length a.shared.sessions };
}

/// Returns the lower of an address and what was lowest so far.
fn lower(lowest: Option<u16>, address: u16) -> u16
    ensures own { result ≤ address }
    ensures other { IfSome lowest (λ low. result ≤ low) }
    ensures one { (result ≡ address) ⊎ (lowest ≡ Some result) }
{
    match lowest {
        Some(low) if low < address => low,
        _ => address,
    }
}

/// Returns the lower of an address and what was lowest so far, where the address counts.
fn lower_if(counts: bool, lowest: Option<u16>, address: u16) -> Option<u16>
    ensures still { counts ≡ false → result ≡ lowest }
    ensures lower { counts ≡ true → IsLower lowest address result }
{
    if counts {
        Some(lower(lowest, address))
    } else {
        lowest
    }
}

/// Returns the lowest address of a link that locks an item out.
fn lowest_of(shared: &SharedFiles, addresses: &[u16], link: usize, item: &Item<'_>) -> Option<u16>
    requires link { link < length shared.now.sessions }
    requires all { length addresses.now ≡ length shared.now.sessions }
    ensures { (first : Files) (events : List Event) → SharedAfter first events shared.now
        → IsLowest shared.now.setup addresses.now link
        (node_after shared.now.setup first (length shared.now.sessions) events) item.now result }
{
    let mut lowest = None;
    for other in 0..addresses.len() {
        lowest = lower_if(
            shared.locks_out(other, link, item),
            lowest,
            addresses[other],
        );
    }
    lowest
}

/// Returns the lowest address of a link that locks an item out, or none where the item isn't locked out.
fn locking(shared: &SharedFiles, addresses: &[u16], link: usize, item: &Item<'_>) -> Option<u16>
    requires link { link < length shared.now.sessions }
    requires all { length addresses.now ≡ length shared.now.sessions }
    ensures { (first : Files) (events : List Event) → SharedAfter first events shared.now
        → IsLowest shared.now.setup addresses.now link
        (node_after shared.now.setup first (length shared.now.sessions) events) item.now result }
{
    if shared.is_locked_out(link, item) {
        lowest_of(shared, addresses, link, item)
    } else {
        None
    }
}

/// Returns this many addresses, each 0.
fn no_addresses(alloc: Global, links: usize) -> Result<Vec<u16>, NoMemory>
    ensures { IfOk result (λ addresses. addresses.items ≡ replicate links 0) }
{
    let mut addresses = Vec::with_capacity(alloc, links)?;
    for _ in 0..links {
        addresses.push(0)?;
    }
    Ok(addresses)
}

impl NotedFiles {
    /// Creates a node with no files, this many links on which no Config was served, and a buffer of this many bytes, at
    /// least 64. Their addresses are 0.
    pub fn new(alloc: Global, bufsiz: u16, links: usize) -> Result<NotedFiles, NoMemory>
        requires { min_buffer ≤ bufsiz }
        ensures stands { IfOk result (λ noted. SharedAfter [] [] noted.shared) }
        ensures own { IfOk result (λ noted. noted.shared.own ≡ bufsiz) }
        ensures setup { IfOk result (λ noted. noted.shared.setup ≡ plain_setup bufsiz) }
        ensures links { IfOk result (λ noted. length noted.shared.sessions ≡ links) }
        ensures addresses { IfOk result (λ noted. noted.addresses ≡ replicate links 0) }
        ensures locked { IfOk result (λ noted. noted.locked ≡ []) }
    {
        NotedFiles::with_setup(alloc, ServerSetup::plain(bufsiz), links)
    }

    /// Creates a node with this setup, no files, and this many links on which no Config was served. Their addresses are
    /// 0.
    pub fn with_setup(
        alloc: Global,
        setup: ServerSetup,
        links: usize,
    ) -> Result<NotedFiles, NoMemory>
        requires { IsServerSetup setup }
        ensures stands { IfOk result (λ noted. SharedAfter [] [] noted.shared) }
        ensures setup { IfOk result (λ noted. noted.shared.setup ≡ setup) }
        ensures own { IfOk result (λ noted. noted.shared.own ≡ setup.identity.bufsiz) }
        ensures links { IfOk result (λ noted. length noted.shared.sessions ≡ links) }
        ensures addresses { IfOk result (λ noted. noted.addresses ≡ replicate links 0) }
        ensures locked { IfOk result (λ noted. noted.locked ≡ []) }
    {
        let shared = SharedFiles::with_setup(alloc, setup, links)?;
        let addresses = no_addresses(alloc, links)?;
        Ok(NotedFiles {
            shared,
            addresses,
            locked: Vec::new(alloc),
        })
    }

    /// Returns the files, in the order in which they were made.
    pub fn files(&self) -> &FileTable
        ensures { result.now ≡ self.now.shared.files }
    {
        self.shared.files()
    }

    /// Returns the addresses that were noted, in the order of the Accesses.
    pub fn locked(&self) -> &[u16]
        ensures { result.now ≡ self.now.locked }
    {
        &self.locked
    }

    /// Notes anew from here.
    pub fn forget(&mut self)
        ensures { self.new ≡ record self.old { locked = [] } }
    {
        self.locked.clear();
    }

    /// Returns the rights that an Access on a link may ask for.
    pub fn rights(&self, link: usize) -> Rights
        requires { link < length self.now.shared.sessions }
        ensures held { result ≡ rights_on link self.now.shared }
        ensures after { (first : Files) (events : List Event)
            → SharedAfter first events self.now.shared
            → result ≡ (exchange_at link (node_after self.now.shared.setup first
            (length self.now.shared.sessions) events)).most }
    {
        self.shared.rights(link)
    }

    /// Begins another link in place of this one, with this address: what was open on it is closed, and a PUT or an
    /// UPDATE that waits for its record is dropped. An Access on it may ask for these rights at most until it begins
    /// again.
    pub fn begin(&mut self, link: usize, address: u16, most: Rights)
        requires { link < length self.old.shared.sessions }
        ensures begins { SharedBegins link most self.old.shared self.new.shared }
        ensures addresses { self.new.addresses ≡ set self.old.addresses link address }
        ensures locked { self.new.locked ≡ self.old.locked }
    {
        self.shared.begin(link, most);
        self.addresses[link] = address;
    }

    /// Does what [`SharedFiles::add`] does.
    pub fn add(&mut self, name: &[u8], asked: Asked) -> Result<(), AddFault>
        requires { IsAsked asked }
        ensures may { OnOk result
            (MayGive self.old.shared.setup.names name.now self.old.shared.files) }
        ensures given { OnOk result
            (SharedGiven (Gives name.now asked) self.old.shared self.new.shared) }
        ensures files { OnOk result (self.new.shared.files
            ≡ with_new_file self.old.shared.setup.names name.now asked
            self.old.shared.files) }
        ensures rest { self.new ≡ record self.old { shared = self.new.shared } }
        ensures refused { IfErr result
            (NotAdded self.old.shared.setup.names self.old.shared.files name.now) }
        ensures unchanged { OnErr result (self.new ≡ self.old) }
    {
        self.shared.add(name, asked)
    }

    /// Does what [`SharedFiles::add_record`] does.
    pub fn add_record(&mut self, name: &[u8], number: u32, body: &[u8]) -> Result<(), AddFault>
        ensures may { OnOk result (AtFile name.now self.old.shared
            (λ at. MayStore (file_at at self.old.shared.files) number body.now)) }
        ensures given { OnOk result (AtFile name.now self.old.shared
            (λ at. SharedGiven (GivesRecord at number body.now) self.old.shared self.new.shared)) }
        ensures files { OnOk result (AtFile name.now self.old.shared
            (λ at. self.new.shared.files ≡ with_record_at at number body.now
            self.old.shared.files)) }
        ensures rest { self.new ≡ record self.old { shared = self.new.shared } }
        ensures refused { IfErr result
            (RecordNotAdded self.old.shared name.now number body.now) }
        ensures unchanged { OnErr result (self.new ≡ self.old) }
    {
        self.shared.add_record(name, number, body)
    }

    /// Does what [`SharedFiles::remove`] does.
    pub fn remove(&mut self, name: &[u8]) -> Result<(), RemoveFault>
        ensures drops { OnOk result (AtFile name.now self.old.shared
            (λ at. SharedDrops at self.old.shared self.new.shared)) }
        ensures rest { self.new ≡ record self.old { shared = self.new.shared } }
        ensures refused { IfErr result (NotRemoved self.old.shared name.now) }
        ensures unchanged { OnErr result (self.new ≡ self.old) }
    {
        self.shared.remove(name)
    }
}

impl Serving for NotedFiles {
    ghost has_link = { λ noted link. link < length noted.shared.sessions };

    ghost serves = { λ link bytes at old new served. NotedServed link bytes at old new served };

    ghost is_silent = { λ link noted item. IsSilentAt link noted.shared item };

    fn serve(&mut self, link: usize, item: Item<'_>, next: usize) -> Result<Served, NoMemory> {
        let Some(address) = locking(&self.shared, &self.addresses, link, &item) else {
            return self.shared.serve_item(link, item, next);
        };
        let Ok(()) = self.locked.reserve(1) else {
            return Err(NoMemory);
        };
        match self.shared.serve_item(link, item, next) {
            Ok(served) => {
                self.locked.push_reserved(address);
                Ok(served)
            }
            Err(_) => Err(NoMemory),
        }
    }
}
