//! The server.

ghost use Rattle.std.specs.Prelude.{◌≡◌, ◌≢◌, ◌≤◌, ◌<◌, ◌+◌, ◌-◌, ◌++◌, ◌∷◌, ℕ, List, [], Ok, Err, false, IfOk, IfErr, IsOk, OnOk, OnErr, IsTrue, MatchOption};
ghost use Rattle.std.specs.Result.{result_map_both};
ghost use Rattle.dap_msg.specs.BothEnds.{min_buffer};
ghost use Rattle.dap_msg.specs.Blocked.{bodies};
ghost use Rattle.dap_msg.specs.Items.{ItemAt};
ghost use Rattle.dap_msg.specs.declared.items.Item.{Item as TheItem};
ghost use Rattle.rec_file.specs.Shapes.{is_shape};
ghost use Rattle.nsp_link.specs.Link.{IsSetup, SetupFault};
ghost use Rattle.dap_accessed.specs.Setup.{IsServerSetup, plain_setup};
ghost use Rattle.dap_accessed.specs.Groups.{After};
ghost use Rattle.dap_accessed.specs.Present.{StandsAfter};
ghost use Rattle.dap_accessed.specs.Served.{IsSilent};
ghost use Rattle.dap_accessed.specs.Standing.{Files};
ghost use Rattle.dap_accessed.specs.Asked.{plainly};
ghost use Rattle.dap_accessed.specs.Adding.{MayAdd, MayAddRecord, AddRefused, RecordRefused, with_new_file, with_record};
ghost use Rattle.dap_end.specs.Ports.{HasCome, new_port};
ghost use Rattle.dap_end.specs.Going.{oldest_message};
ghost use Rattle.dap_end.specs.Serving.{IsAfter, NotGiven, MayServe, ServedOne};
ghost use Rattle.dap_end.specs.Done.{ServerHistory, nothing_yet};
ghost use Rattle.dap_end.specs.Taking.{RestsAt, serves};
ghost use Rattle.dap_end.specs.Turns.{DidAll, TakesPacket, WentOn};
ghost use Rattle.dap_end.specs.declared.fault.EndFault.TheVariants as end_fault;

use crate::end::End;
use crate::fault::TakeFault;
use crate::port::Port;
use crate::turns;
use dap_accessed::{Accessed, AddFault, FileTable, NoMemory, ServerSetup};
use nsp_link::{Got, LinkFault, LinkSetup};
use rec_file::{Rights, Shape};
use std::alloc::Global;

/// A server with its link.
pub type ServingEnd = End<Accessed>;

/// The one link of an end.
const LINK: usize = 0;

impl End<Accessed> {
    /// Creates an end with no files that waits for a packet of its peer, with a buffer of this many bytes, at least 64.
    /// A setup with `max_message` 65,535 takes all that an end may send; with less, a peer that names a larger buffer
    /// can be answered by a message that `post` refuses from then on. Refused: `BadSetup` where a limit of the setup
    /// isn't in its range; `NoMemory`.
    pub fn new(alloc: Global, bufsiz: u16, setup: LinkSetup) -> Result<ServingEnd, LinkFault>
        requires { min_buffer ≤ bufsiz }
        ensures ok { IfOk result (λ end. IsAfter (nothing_yet []) end
            × (end.port ≡ new_port setup) × (end.present.own ≡ bufsiz)) }
        ensures plain { IfOk result (λ end. end.present.setup ≡ plain_setup bufsiz) }
        ensures setup { OnOk result (IsSetup setup) }
        ensures err { IfErr result (SetupFault setup) }
    {
        let port = Port::new(alloc, setup)?;
        Ok(End {
            port,
            role: Accessed::new(alloc, bufsiz),
        })
    }

    /// Creates an end with this setup of a server and of a link, which has no files and has served nothing. Refused as
    /// `new` is.
    pub fn with_setup(
        alloc: Global,
        own: ServerSetup,
        setup: LinkSetup,
    ) -> Result<ServingEnd, LinkFault>
        requires { IsServerSetup own }
        ensures ok { IfOk result (λ end. IsAfter (nothing_yet []) end
            × (end.port ≡ new_port setup) × (end.present.setup ≡ own)) }
        ensures setup { OnOk result (IsSetup setup) }
        ensures err { IfErr result (SetupFault setup) }
    {
        let port = Port::new(alloc, setup)?;
        Ok(End {
            port,
            role: Accessed::with_setup(alloc, own),
        })
    }

    /// Returns the files, in the order in which they were made: what all groups of messages so far have made of them.
    pub fn files(&self) -> &FileTable
        ensures held { result.now ≡ self.now.present.files }
        ensures after { (history : ServerHistory) → IsAfter history self.now
            → result.now ≡ After self.now.present.setup history.first history.items }
    {
        self.role.files()
    }

    /// Begins another link, over the same files: an open file is closed, a PUT or an UPDATE that waits for its record
    /// is dropped, and so is all that waits. Refused, with nothing changed: `BadSetup` where a limit of the setup
    /// isn't in its range; `NoMemory`.
    pub fn renew(&mut self, alloc: Global, setup: LinkSetup) -> Result<(), LinkFault>
        ensures ok { OnOk result (IsAfter (nothing_yet self.old.present.files) self.new
            × (self.new.port ≡ new_port setup)
            × (self.new.present.own ≡ self.old.present.own)) }
        ensures own { OnOk result (self.new.present.setup ≡ self.old.present.setup) }
        ensures setup { OnOk result (IsSetup setup) }
        ensures err { IfErr result (λ f. (self.new ≡ self.old) × SetupFault setup f) }
    {
        let port = Port::new(alloc, setup)?;
        self.port = port;
        self.role.renew();
        Ok(())
    }

    /// Begins another link as `renew` does; an Access on it may ask for these rights at most.
    pub fn renew_for(
        &mut self,
        alloc: Global,
        setup: LinkSetup,
        most: Rights,
    ) -> Result<(), LinkFault>
        ensures ok { OnOk result (IsAfter (nothing_yet self.old.present.files) self.new
            × (self.new.port ≡ new_port setup)) }
        ensures own { OnOk result
            (self.new.present.setup ≡ record self.old.present.setup { most = most }) }
        ensures setup { OnOk result (IsSetup setup) }
        ensures err { IfErr result (λ f. (self.new ≡ self.old) × SetupFault setup f) }
    {
        let fresh = Port::new(alloc, setup)?;
        self.port = fresh;
        self.role.renew_for(most);
        Ok(())
    }

    /// Adds a file without records after the others, before a segment came on this link. Its shape is one that
    /// [`Shape::check`] gives.
    ///
    /// Refusals in order: Busy, FileExists, NoMemory; each leaves the end unchanged.
    pub fn add(&mut self, name: &[u8], shape: Shape) -> Result<(), AddFault>
        requires { IsTrue (is_shape shape) }
        ensures idle { OnOk result (HasCome self.old.port → ⊥) }
        ensures may { OnOk result (MayAdd self.old.present name.now) }
        ensures files { OnOk result (self.new.present.files
            ≡ with_new_file self.old.present.setup.names name.now (plainly shape)
            self.old.present.files) }
        ensures given { OnOk result ((history : ServerHistory) → IsAfter history self.old
            → IsAfter (record history { first = self.new.present.files }) self.new) }
        ensures port { self.new.port ≡ self.old.port }
        ensures own { self.new.present.own ≡ self.old.present.own }
        ensures setup { self.new.present.setup ≡ self.old.present.setup }
        ensures refused { IfErr result (NotGiven self.old (AddRefused self.old.present name.now)) }
        ensures unchanged { OnErr result (self.new ≡ self.old) }
    {
        if self.port.has_come() {
            return Err(AddFault::Busy);
        }
        self.role.add(name, shape)
    }

    /// Adds a record to the newest file, under its number, before a segment came on this link. In a sequential file the
    /// number is the next one.
    ///
    /// Refusals in order: Busy, NoFile; as of a PUT with this number BadLength, NumberOutOfRange, RecordExists;
    /// NoMemory. Each leaves the end unchanged.
    pub fn add_record(&mut self, number: u32, body: &[u8]) -> Result<(), AddFault>
        ensures idle { OnOk result (HasCome self.old.port → ⊥) }
        ensures may { OnOk result (MayAddRecord self.old.present number body.now) }
        ensures files { OnOk result (self.new.present.files
            ≡ with_record number body.now self.old.present.files) }
        ensures given { OnOk result ((history : ServerHistory) → IsAfter history self.old
            → IsAfter (record history { first = self.new.present.files }) self.new) }
        ensures port { self.new.port ≡ self.old.port }
        ensures own { self.new.present.own ≡ self.old.present.own }
        ensures setup { self.new.present.setup ≡ self.old.present.setup }
        ensures refused { IfErr result
            (NotGiven self.old (RecordRefused self.old.present number body.now)) }
        ensures unchanged { OnErr result (self.new ≡ self.old) }
    {
        if self.port.has_come() {
            return Err(AddFault::Busy);
        }
        self.role.add_record(number, body)
    }

    /// Serves the next DAP message of the oldest NSP message that came, and returns how many NSP messages with
    /// answers wait after it; none where an answer waits already, or nothing that came is left (DAP 5.6.0, message
    /// sequences). Where memory is refused, nothing has changed, and the same call may be made again.
    pub fn serve(&mut self) -> Result<Option<usize>, NoMemory>
        ensures ok { IfOk result (λ o. MatchOption o
            ((self.new ≡ self.old) × (MayServe self.old → ⊥))
            (λ n. ServedOne self.old self.new n)) }
        ensures no_memory { OnErr result ((self.new ≡ self.old) × MayServe self.old) }
        ensures unrefused { (first : Files) (items : List TheItem) (item : TheItem) (next : ℕ)
            → StandsAfter first items self.old.present
            → ItemAt (oldest_message self.old.port.link.coming.inbox) self.old.port.offset item next
            → IsSilent self.old.present.setup first items item → IsOk result }
    {
        turns::serve_next(&mut self.port, &mut self.role, LINK)
    }

    /// Serves what came, message by message, while fewer than `most_waiting` bytes wait, and passes each group of
    /// answers to the link. The bytes that wait are those of the NSP messages that were not passed on and of those that
    /// the link has, the whole message until its last segment is acknowledged. Refused as `post` and `serve` are. What
    /// was served and passed on before that stays so, and the same call goes on.
    pub fn serve_all(&mut self, most_waiting: u64) -> Result<(), LinkFault>
        ensures ok { OnOk result (DidAll (serves most_waiting) self.old self.new (Ok tt)) }
        // What follows from it, for callers.
        ensures rests { OnOk result (RestsAt most_waiting self.new) }
        ensures idle { OnOk result (self.new.port.outbox ≡ []) }
        ensures works { OnOk result (self.new.port.link.failed ≡ false) }
        ensures err { IfErr result
            (λ f. DidAll (serves most_waiting) self.old self.new (Err (end_fault.Link f))) }
    {
        turns::serve_all(&mut self.port, &mut self.role, LINK, most_waiting)
    }

    /// Serves what came while fewer than `most_waiting` bytes wait, passes each group of answers to the link, and
    /// writes all segments that were never sent, as far as the window allows, after the packets in `out`. Refused as
    /// `post` is, or out of memory. What was done before that stays done, and the same call goes on.
    pub fn go_on(&mut self, most_waiting: u64, out: &mut Vec<Vec<u8>>) -> Result<(), LinkFault>
        ensures went { WentOn (serves most_waiting) self.old self.new (bodies out.old.items)
            (bodies out.new.items) (result_map_both (λ done. done) end_fault.Link result) }
        // What follows from it, for callers.
        ensures rests { OnOk result (RestsAt most_waiting self.new) }
        ensures idle { OnOk result (self.new.port.outbox ≡ []) }
    {
        turns::go_on(&mut self.port, &mut self.role, LINK, most_waiting, out)
    }

    /// Receives a packet, and returns what became of it; serves what came while fewer than `most_waiting` bytes wait,
    /// passes each group of answers to the link, and writes all segments that were never sent, as far as the window
    /// allows; or where a segment came and none is written, one acknowledgement. The packets follow those in `out`.
    ///
    /// Refusals: `Refused` as `receive` is, and nothing of the packet was taken; `Unfinished`, once it was received:
    /// `go_on` does what is left, and the same packet is answered again.
    pub fn take(
        &mut self,
        packet: &[u8],
        most_waiting: u64,
        out: &mut Vec<Vec<u8>>,
    ) -> Result<Got, TakeFault>
        ensures { TakesPacket (serves most_waiting) self.old self.new packet.now
            (bodies out.old.items)
            (bodies out.new.items) result }
    {
        turns::take(
            &mut self.port,
            &mut self.role,
            LINK,
            packet,
            most_waiting,
            out,
        )
    }
}
