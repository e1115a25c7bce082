//! A node: several links, each with its port, before one table of files.

ghost use Rattle.std.specs.Prelude.{◌≡◌, ◌≤◌, ◌<◌, ◌+◌, ◌-◌, ℕ, List, [], Some, None, length, replicate, IfOk, IfErr, IfSome, OnOk, OnErr, IsErrOf, IsTrue, slice_get, set, false, true};
ghost use Rattle.dap_msg.specs.BothEnds.{min_buffer};
ghost use Rattle.dap_msg.specs.Blocked.{bodies};
ghost use Rattle.dap_accessed.specs.Asked.{IsAsked};
ghost use Rattle.nsp_link.specs.Link.{IsSetup, IsSpelling};
ghost use Rattle.nsp_link.specs.Sending.{WritesSent, ack_packet_of};
ghost use Rattle.nsp_link.specs.declared.fault.LinkFault.TheVariants.{Failed, NoSuchSegment};
ghost use Rattle.nsp_link.specs.declared.fault.LinkFault.TheVariants as fault;
ghost use Rattle.dap_accessed.specs.Adding.{MayGive, MayStore, with_new_file};
ghost use Rattle.dap_accessed.specs.Setup.{IsServerSetup, plain_setup};
ghost use Rattle.dap_shared.specs.Nodes.{Event, Gives, GivesRecord, exchange_at, node_after, with_record_at};
ghost use Rattle.dap_shared.specs.Shared.{AtFile, NotAdded, NotRemoved, RecordNotAdded, SharedAfter, SharedDrops, SharedGiven, rights_on};
ghost use Rattle.dap_accessed.specs.Standing.{Files, file_at};
ghost use Rattle.dap_accessed.specs.Naming.{index_by};
ghost use Rattle.dap_end.specs.Ports.{PortValue};
ghost use Rattle.std.specs.List.{list_any, position};
ghost use Rattle.dap_end.specs.Inner.Come.{come_on};
ghost use Rattle.dap_end.specs.Node.{AtPort, BeganOn, EndedOn, HasPort, IsTaken, NodeNotGiven, NoneHasCome, NotBegun, OnLink, SomeHasCome, has_local, is_between, is_free_link, serves_on};
ghost use Rattle.dap_end.specs.Turns.{TakesPacket, WentOn};
ghost use Rattle.dap_end.specs.declared.fault.EndFault.TheVariants as end_fault;
ghost use Rattle.std.specs.Result.{result_map_both};

use crate::fault::TakeFault;
use crate::port::Port;
use crate::{addresses, turns};
use dap_accessed::{ALL_RIGHTS, AddFault, Asked, FileTable, NoMemory, ServerSetup};
use dap_shared::{NotedFiles, RemoveFault};
use nsp_link::{Got, LinkEnd, LinkFault, LinkSetup};
use rec_file::Rights;
use std::alloc::Global;
use std::marker::Model;

/// A server of several links. A link has an index, and is there or not. No two links have one local address, and a link
/// is found by its local address in as many steps as if it were alone.
#[derive(Drop)]
pub struct ServingNode {
    noted: NotedFiles,
    ports: Vec<Option<Port>>,
    /// At each local address the link that has it.
    by_local: Vec<Option<usize>>,
}

impl Model for ServingNode {
    ghost use Rattle.dap_end.specs.Node.{NodeValue};
    ghost use Rattle.dap_end.specs.Inner.NodeInside.{IsNode, node_code};

    ghost Value = { NodeValue };

    ghost coded = { node_code };

    ghost view = { λ a. record { noted = a.noted; ports = a.ports.items } };

    ghost invariant = { λ a. IsNode a.by_local.items
        (record { noted = a.noted; ports = a.ports.items }) };
}

/// The address of a link that isn't there.
const NO_ADDRESS: u16 = 0;

/// Returns this many links that aren't there.
fn no_ports(alloc: Global, links: usize) -> Result<Vec<Option<Port>>, NoMemory>
    ensures { IfOk result (λ ports. ports.items ≡ replicate links None) }
{
    let mut ports = Vec::with_capacity(alloc, links)?;
    for _ in 0..links {
        ports.push(None)?;
    }
    Ok(ports)
}

/// Returns the port of a link.
fn port_of(ports: &[Option<Port>], link: usize) -> &Port
    requires { (p : PortValue) × (slice_get ports.now link ≡ Some (Some p)) }
    ensures { slice_get ports.now link ≡ Some (Some result.now) }
{
    match &ports[link] {
        Some(port) => port,
        None => unreachable!(),
    }
}

/// Returns whether a link is there, and a segment came on it.
fn has_come_on(port: &Option<Port>) -> bool
    ensures { result ≡ come_on port.now }
{
    match port {
        Some(port) => port.has_come(),
        None => false,
    }
}

/// Returns whether a segment came on a link.
fn has_come(ports: &[Option<Port>]) -> bool
    ensures { result ≡ list_any come_on ports.now }
{
    ports.iter().any(has_come_on)
}

impl ServingNode {
    /// Creates a node with no files, with a buffer of this many bytes, at least 64, and room for this many links, of
    /// which none is there. However many it is, the table by which they are found has an element for each of the 65,536
    /// addresses.
    pub fn new(alloc: Global, bufsiz: u16, links: usize) -> Result<ServingNode, NoMemory>
        requires { min_buffer ≤ bufsiz }
        ensures stands { IfOk result (λ node. SharedAfter [] [] node.noted.shared) }
        ensures own { IfOk result (λ node. node.noted.shared.own ≡ bufsiz) }
        ensures setup { IfOk result (λ node. node.noted.shared.setup ≡ plain_setup bufsiz) }
        ensures links { IfOk result (λ node. length node.noted.shared.sessions ≡ links) }
        ensures addresses { IfOk result (λ node. node.noted.addresses ≡ replicate links 0) }
        ensures locked { IfOk result (λ node. node.noted.locked ≡ []) }
        ensures ports { IfOk result (λ node. node.ports ≡ replicate links None) }
    {
        ServingNode::with_setup(alloc, ServerSetup::plain(bufsiz), links)
    }

    /// Creates a node with this setup and no files, and room for this many links, of which none is there.
    pub fn with_setup(
        alloc: Global,
        own: ServerSetup,
        links: usize,
    ) -> Result<ServingNode, NoMemory>
        requires { IsServerSetup own }
        ensures stands { IfOk result (λ node. SharedAfter [] [] node.noted.shared) }
        ensures setup { IfOk result (λ node. node.noted.shared.setup ≡ own) }
        ensures own { IfOk result (λ node. node.noted.shared.own ≡ own.identity.bufsiz) }
        ensures links { IfOk result (λ node. length node.noted.shared.sessions ≡ links) }
        ensures addresses { IfOk result (λ node. node.noted.addresses ≡ replicate links 0) }
        ensures locked { IfOk result (λ node. node.noted.locked ≡ []) }
        ensures ports { IfOk result (λ node. node.ports ≡ replicate links None) }
    {
        let noted = NotedFiles::with_setup(alloc, own, links)?;
        let ports = no_ports(alloc, links)?;
        let by_local = addresses::no_links(alloc)?;
        Ok(ServingNode {
            noted,
            ports,
            by_local,
        })
    }

    /// Returns the files, in the order in which they were made: what all messages so far, of all links, have made of
    /// them.
    pub fn files(&self) -> &FileTable
        ensures { result.now ≡ self.now.noted.shared.files }
    {
        self.noted.files()
    }

    /// Returns, for each Access that the last [`ServingNode::take`] or [`ServingNode::go_on`] refused as another link
    /// has the file open, the lowest address of a link that locks it out. They are in the order of the Accesses.
    pub fn locked(&self) -> &[u16]
        ensures { result.now ≡ self.now.noted.locked }
    {
        self.noted.locked()
    }

    /// Returns how many links there is room for.
    pub fn links(&self) -> usize
        ensures { result ≡ length self.now.ports }
    {
        self.ports.len()
    }

    /// Returns the link at this index, with its counts, where it is there.
    pub fn link(&self, link: usize) -> Option<&LinkEnd>
        ensures there { IfSome result (λ end. (p : PortValue) × HasPort link self.now p
            × (end.now ≡ p.link)) }
        ensures none { result ≡ None → (p : PortValue) → HasPort link self.now p → ⊥ }
    {
        match self.ports.get(link) {
            Some(Some(port)) => Some(&port.link),
            _ => None,
        }
    }

    /// Returns the link that has this local address, where one is there: it is the only one.
    pub fn find_local(&self, local: u16) -> Option<usize>
        ensures found { result ≡ position (has_local local) self.now.ports }
        ensures only { (link : ℕ) (p : PortValue) → HasPort link self.now p
            → p.link.setup.local ≡ local → result ≡ Some link }
    {
        addresses::find_local(&self.by_local, local)
    }

    /// Returns the link that has this local address and this peer, where one is there.
    pub fn find_between(&self, local: u16, remote: u16) -> Option<usize>
        ensures { result ≡ position (is_between local remote) self.now.ports }
    {
        addresses::find_between(&self.by_local, &self.ports, local, remote)
    }

    /// Returns the first link that isn't there; none where all are.
    pub fn find_free(&self) -> Option<usize>
        ensures { result ≡ position is_free_link self.now.ports }
    {
        addresses::find_free(&self.ports)
    }

    /// Returns the rights that an Access on a link may ask for: those that it began with, where it is there.
    pub fn rights(&self, link: usize) -> Rights
        requires { link < length self.now.ports }
        ensures held { result ≡ rights_on link self.now.noted.shared }
        ensures after { (first : Files) (events : List Event)
            → SharedAfter first events self.now.noted.shared
            → result ≡ (exchange_at link (node_after self.now.noted.shared.setup first
            (length self.now.noted.shared.sessions) events)).most }
    {
        self.noted.rights(link)
    }

    /// Begins a link, or begins it anew, with the local address of the setup: what was open on it is closed, a PUT or
    /// an UPDATE that waits for its record is dropped, and so is all that waits. An Access on it may ask for these
    /// rights at most until it begins again. Refused, with nothing changed: `BadSetup` where a limit of the setup isn't
    /// in its range, or another link has its local address; `NoMemory`.
    pub fn begin(
        &mut self,
        alloc: Global,
        link: usize,
        setup: LinkSetup,
        most: Rights,
    ) -> Result<(), LinkFault>
        requires { link < length self.old.ports }
        ensures ok { OnOk result (BeganOn link setup most self.old self.new) }
        ensures setup { OnOk result (IsSetup setup) }
        ensures alone { OnOk result (IsTaken link setup.local self.old → ⊥) }
        ensures err { IfErr result (λ f. (self.new ≡ self.old) × NotBegun link setup self.old f) }
    {
        if addresses::is_taken(&self.by_local, link, setup.local) {
            return Err(LinkFault::BadSetup);
        }
        let port = Port::new(alloc, setup)?;
        addresses::list_anew(&mut self.by_local, &self.ports[link], link, setup.local);
        self.ports[link] = Some(port);
        self.noted.begin(link, setup.local, most);
        Ok(())
    }

    /// Ends a link: what was open on it is closed, and all that waits on it is dropped.
    pub fn end(&mut self, link: usize)
        requires { link < length self.old.ports }
        ensures { EndedOn link self.old self.new }
    {
        addresses::unlist(&mut self.by_local, &self.ports[link]);
        self.ports[link] = None;
        self.noted.begin(link, NO_ADDRESS, ALL_RIGHTS);
    }

    /// Does what [`crate::ServingEnd::take`] does, on one of the links: no other link moves. What was noted before is
    /// forgotten.
    pub fn take(
        &mut self,
        link: usize,
        packet: &[u8],
        most_waiting: u64,
        out: &mut Vec<Vec<u8>>,
    ) -> Result<Got, TakeFault>
        requires { (p : PortValue) × HasPort link self.old p }
        ensures takes { OnLink link (λ before after. TakesPacket (serves_on link most_waiting)
            before after packet.now (bodies out.old.items) (bodies out.new.items) result)
            self.old self.new }
        ensures addresses { self.new.noted.addresses ≡ self.old.noted.addresses }
    {
        self.noted.forget();
        match &mut self.ports[link] {
            Some(port) => turns::take(port, &mut self.noted, link, packet, most_waiting, out),
            None => unreachable!(),
        }
    }

    /// Does what [`crate::ServingEnd::go_on`] does, on one of the links: no other link moves. What was noted before is
    /// forgotten.
    pub fn go_on(
        &mut self,
        link: usize,
        most_waiting: u64,
        out: &mut Vec<Vec<u8>>,
    ) -> Result<(), LinkFault>
        requires { (p : PortValue) × HasPort link self.old p }
        ensures went { OnLink link (λ before after. WentOn (serves_on link most_waiting)
            before after (bodies out.old.items) (bodies out.new.items)
            (result_map_both (λ done. done) end_fault.Link result)) self.old self.new }
        ensures addresses { self.new.noted.addresses ≡ self.old.noted.addresses }
    {
        self.noted.forget();
        match &mut self.ports[link] {
            Some(port) => turns::go_on(port, &mut self.noted, link, most_waiting, out),
            None => unreachable!(),
        }
    }

    /// Writes what [`crate::ServingEnd::resend`] writes, on one of the links: the packet of a segment that was sent and
    /// isn't acknowledged, again. The oldest is at index 0.
    pub fn resend(&self, link: usize, index: usize) -> Result<Vec<u8>, LinkFault>
        requires { (p : PortValue) × HasPort link self.now p }
        ensures wrote { AtPort link self.now (λ p. IfOk result
            (λ v. WritesSent p.link (Some (p.link.acked + 1 + index)) v.items)) }
        ensures failed { AtPort link self.now (λ p. IsTrue p.link.failed
            → IsErrOf result Failed) }
        ensures missing { AtPort link self.now (λ p. p.link.failed ≡ false
            → p.link.sent - p.link.acked ≤ index → IsErrOf result NoSuchSegment) }
        ensures memory { AtPort link self.now (λ p. p.link.failed ≡ false
            → index < p.link.sent - p.link.acked → IfErr result (λ f. f ≡ fault.NoMemory)) }
    {
        port_of(&self.ports, link).link.resend(index)
    }

    /// Writes what [`crate::ServingEnd::ack`] writes, on one of the links: a packet that only acknowledges all segments
    /// that were taken.
    pub fn ack(&self, link: usize) -> Result<Vec<u8>, LinkFault>
        requires { (p : PortValue) × HasPort link self.now p }
        ensures wrote { AtPort link self.now (λ p. IfOk result
            (λ v. IsSpelling (ack_packet_of p.link) v.items)) }
        ensures failed { AtPort link self.now (λ p. IsTrue p.link.failed
            → IsErrOf result Failed) }
        ensures memory { AtPort link self.now (λ p. p.link.failed ≡ false
            → IfErr result (λ f. f ≡ fault.NoMemory)) }
    {
        port_of(&self.ports, link).link.ack_packet()
    }

    /// Returns the NSP messages of a link that wait to be passed to it, the oldest first; none where it isn't there.
    pub fn waiting(&self, link: usize) -> &[Vec<u8>]
        ensures there { (p : PortValue) → HasPort link self.now p → bodies result.now ≡ p.outbox }
        ensures none { ((p : PortValue) → HasPort link self.now p → ⊥) → bodies result.now ≡ [] }
    {
        match self.ports.get(link) {
            Some(Some(port)) => &port.outbox,
            _ => &[],
        }
    }

    /// Adds a file without records after the others, before a segment came on any link. Its shape is one that
    /// [`rec_file::Shape::check`] gives, and its look is one of that shape.
    ///
    /// Refusals in order: Busy, FileExists, NoMemory; each leaves the node unchanged.
    pub fn add(&mut self, name: &[u8], asked: Asked) -> Result<(), AddFault>
        requires { IsAsked asked }
        ensures idle { OnOk result (NoneHasCome self.old.ports) }
        ensures may { OnOk result
            (MayGive self.old.noted.shared.setup.names name.now self.old.noted.shared.files) }
        ensures given { OnOk result
            (SharedGiven (Gives name.now asked) self.old.noted.shared self.new.noted.shared) }
        ensures files { OnOk result (self.new.noted.shared.files
            ≡ with_new_file self.old.noted.shared.setup.names name.now asked
            self.old.noted.shared.files) }
        ensures ports { self.new.ports ≡ self.old.ports }
        ensures notes { self.new.noted ≡ record self.old.noted { shared = self.new.noted.shared } }
        ensures refused { IfErr result
            (NodeNotGiven self.old
            (NotAdded self.old.noted.shared.setup.names self.old.noted.shared.files name.now)) }
        ensures unchanged { OnErr result (self.new ≡ self.old) }
    {
        if has_come(&self.ports) {
            return Err(AddFault::Busy);
        }
        self.noted.add(name, asked)
    }

    /// Adds a record to the file of this name, under its number, before a segment came on any link. In a sequential
    /// file the number is the next one.
    ///
    /// Refusals in order: Busy, NoFile; as of a PUT with this number BadLength, NumberOutOfRange, RecordExists;
    /// NoMemory. Each leaves the node unchanged.
    pub fn add_record(&mut self, name: &[u8], number: u32, body: &[u8]) -> Result<(), AddFault>
        ensures idle { OnOk result (NoneHasCome self.old.ports) }
        ensures may { OnOk result (AtFile name.now self.old.noted.shared
            (λ at. MayStore (file_at at self.old.noted.shared.files) number body.now)) }
        ensures given { OnOk result (AtFile name.now self.old.noted.shared
            (λ at. SharedGiven (GivesRecord at number body.now)
            self.old.noted.shared self.new.noted.shared)) }
        ensures files { OnOk result (AtFile name.now self.old.noted.shared
            (λ at. self.new.noted.shared.files
            ≡ with_record_at at number body.now self.old.noted.shared.files)) }
        ensures ports { self.new.ports ≡ self.old.ports }
        ensures notes { self.new.noted ≡ record self.old.noted { shared = self.new.noted.shared } }
        ensures refused { IfErr result
            (NodeNotGiven self.old (RecordNotAdded self.old.noted.shared name.now
            number body.now)) }
        ensures unchanged { OnErr result (self.new ≡ self.old) }
    {
        if has_come(&self.ports) {
            return Err(AddFault::Busy);
        }
        self.noted.add_record(name, number, body)
    }

    /// Removes the file of this name, at any time: those after it move up, also where a link has one of them open. It
    /// takes no memory.
    ///
    /// Refusals in order: NoFile; Busy where a link has the file open. Each leaves the node unchanged.
    pub fn remove(&mut self, name: &[u8]) -> Result<(), RemoveFault>
        ensures drops { OnOk result (AtFile name.now self.old.noted.shared
            (λ at. SharedDrops at self.old.noted.shared self.new.noted.shared)) }
        ensures ports { self.new.ports ≡ self.old.ports }
        ensures notes { self.new.noted ≡ record self.old.noted { shared = self.new.noted.shared } }
        ensures refused { IfErr result (NotRemoved self.old.noted.shared name.now) }
        ensures unchanged { OnErr result (self.new ≡ self.old) }
    {
        self.noted.remove(name)
    }
}
