//! The client.

ghost use Rattle.std.specs.Prelude.{◌≡◌, ◌≢◌, ◌≤◌, ◌<◌, ◌+◌, ◌-◌, ℕ, List, [], ◌∷◌, Ok, Err, Some, None, true, false, length, IfOk, IfErr, OnOk, IsErrOf, IsTrue, ◌++◌, option_to_list, vec_len, vec_capacity};
ghost use Rattle.dap_msg.specs.BothEnds.{min_buffer, plain_identity};
ghost use Rattle.dap_msg.specs.Fitting.{FieldsFit};
ghost use Rattle.dap_msg.specs.declared.message.Configuration.{Configuration as Own};
ghost use Rattle.dap_msg.specs.declared.message.Message.TheVariants.{Config};
ghost use Rattle.dap_msg.specs.Blocked.{bodies};
ghost use Rattle.nsp_link.specs.Link.{IsSetup, SetupFault};
ghost use Rattle.nsp_link.specs.declared.fault.LinkFault.TheVariants.{Failed};
ghost use Rattle.nsp_link.specs.declared.fault.LinkFault.TheVariants as fault;
ghost use Rattle.dap_accessing.specs.Asked.{messages_of};
ghost use Rattle.dap_accessing.specs.Each.{none_kept, records_kept};
ghost use Rattle.dap_accessing.specs.Calls.{AskRefused, IsAdmittedBy};
ghost use Rattle.dap_accessing.specs.Prepared.{IsPrepared};
ghost use Rattle.dap_accessing.specs.declared.fault.AskFault.TheVariants as ask_fault;
ghost use Rattle.dap_accessing.specs.declared.fault.ReadFault.TheVariants as read_fault;
ghost use Rattle.dap_end.specs.declared.fault.EndFault.TheVariants as end_fault;
ghost use Rattle.dap_fields.specs.Spelling.{AreBytes};
ghost use Rattle.dap_end.specs.Ports.{new_port};
ghost use Rattle.dap_end.specs.Going.{oldest_message};
ghost use Rattle.dap_end.specs.Writing.{Extends};
ghost use Rattle.dap_end.specs.Asking.{HasAsked, AskedOne, ReadOne, ReadNone};
ghost use Rattle.dap_end.specs.Each.{with_told};
ghost use Rattle.dap_end.specs.Hearing.{ReadOn, ReadsAll, TakesNone, hears};
ghost use Rattle.dap_end.specs.declared.asking.Heard.TheVariants.{Nothing, Part, Report as Completed};
ghost use Rattle.dap_accessing.specs.declared.report.Report.{Report as TheReport};
ghost use Rattle.dap_end.specs.Done.{nothing_asked};
ghost use Rattle.dap_end.specs.Turns.{WritesReplies, DidAll, WentOn, TakesPacket};
ghost use Rattle.dap_end.specs.Inner.Answered.{ended_by};
ghost use Rattle.dap_end.specs.Inner.Kept.{IsPort};
ghost use Rattle.dap_end.specs.Inner.AskingView.{asking_of};

use crate::end::End;
use crate::fault::{EndFault, TakeFault};
use crate::port::{Port, is_end};
use dap_accessing::{Accessing, AskFault, Numbered, Octets, Prepared, ReadFault, Report, Request};
use dap_msg::Configuration;
use nsp_link::{Got, LinkFault, LinkSetup};
use std::alloc::Global;

/// What reading the next answer comes to.
#[derive(Drop, PartialEq)]
pub enum Heard {
    /// Nothing came that wasn't read.
    Nothing,
    /// An answer that completes no report.
    Part,
    /// The answer that completes this report.
    Report(Report),
}

/// The client, with its link.
pub type AskingEnd = End<Accessing>;

impl End<Accessing> {
    /// Creates an end of which nothing was asked, with a buffer of this many bytes, at least 64. A setup with
    /// `max_message` 65,535 takes all that an end may send. Refused: `BadSetup` where a limit of the setup isn't in its
    /// range; `NoMemory`.
    pub fn new(alloc: Global, bufsiz: u16, setup: LinkSetup) -> Result<AskingEnd, LinkFault>
        requires { min_buffer ≤ bufsiz }
        ensures ok { IfOk result (λ end. HasAsked nothing_asked end
            × (end.port ≡ new_port setup) × (end.present.own ≡ bufsiz)) }
        ensures identity { IfOk result (λ end. end.present.identity ≡ plain_identity bufsiz) }
        ensures setup { OnOk result (IsSetup setup) }
        ensures err { IfErr result (SetupFault setup) }
    {
        let port = Port::new(alloc, setup)?;
        Ok(End {
            port,
            role: Accessing::new(alloc, bufsiz),
        })
    }

    /// Returns an end of which nothing was asked, and which says this of itself in its Configuration, with a BUFSIZ of
    /// at least 64. Refused as `new` is.
    pub fn with_identity(
        alloc: Global,
        identity: Configuration,
        setup: LinkSetup,
    ) -> Result<AskingEnd, LinkFault>
        requires low { min_buffer ≤ identity.bufsiz }
        requires fits { FieldsFit (Config identity) }
        ensures ok { IfOk result (λ end. HasAsked nothing_asked end
            × (end.port ≡ new_port setup) × (end.present.identity ≡ identity)) }
        ensures setup { OnOk result (IsSetup setup) }
        ensures err { IfErr result (SetupFault setup) }
    {
        let port = Port::new(alloc, setup)?;
        Ok(End {
            port,
            role: Accessing::with_identity(alloc, identity),
        })
    }

    /// Begins another link, as the same client: nothing was asked of it, and all that waits is dropped. Refused, with
    /// nothing changed: `BadSetup` where a limit of the setup isn't in its range; `NoMemory`.
    pub fn renew(&mut self, alloc: Global, setup: LinkSetup) -> Result<(), LinkFault>
        ensures ok { OnOk result (HasAsked nothing_asked self.new
            × (self.new.port ≡ new_port setup)
            × (self.new.present.own ≡ self.old.present.own)) }
        ensures identity { OnOk result (self.new.present.identity ≡ self.old.present.identity) }
        ensures setup { OnOk result (IsSetup setup) }
        ensures err { IfErr result (λ f. (self.new ≡ self.old) × SetupFault setup f) }
    {
        let port = Port::new(alloc, setup)?;
        self.port = port;
        self.role.renew();
        Ok(())
    }

    /// Asks a request: its NSP messages wait then, and their number is returned (DAP 5.6.0, message sequences).
    /// Refused as [`dap_accessing::Accessing::ask`] is, and nothing has changed then.
    pub fn ask(&mut self, request: &Request) -> Result<usize, AskFault>
        ensures ok { IfOk result (λ n. AskedOne request.now self.old self.new n) }
        ensures err { IfErr result (λ f. (self.new ≡ self.old)
            × AskRefused request.now self.old.present f) }
    {
        let prepared = self.prepare(request)?;
        self.ask_prepared(request, prepared)
    }

    /// Checks whether `ask` would take the request, memory aside; refused as there. It takes no memory.
    pub fn check(&self, request: &Request) -> Result<(), AskFault>
        ensures works { OnOk result (self.now.present.failed ≡ false) }
        ensures admissible { OnOk result (IsAdmittedBy self.now.present request.now) }
        ensures refused { IfErr result (λ f. (f ≢ ask_fault.NoMemory)
            × AskRefused request.now self.now.present f) }
    {
        self.role.check(request)
    }

    /// Prepares what `ask_prepared` needs of a request that `ask` would take, memory aside, as
    /// [`dap_accessing::Accessing::prepare`] makes it; refused as `ask` is. It takes no memory.
    pub fn prepare(&self, request: &Request) -> Result<Prepared, AskFault>
        ensures works { OnOk result (self.now.present.failed ≡ false) }
        ensures admissible { OnOk result (IsAdmittedBy self.now.present request.now) }
        ensures prepared { IfOk result (IsPrepared self.now.present request.now) }
        ensures refused { IfErr result (λ f. (f ≢ ask_fault.NoMemory)
            × AskRefused request.now self.now.present f) }
    {
        self.role.prepare(request)
    }

    /// Asks a request that `prepare` looked at, as `ask` does. It isn't looked at again, and this fails only if memory
    /// is refused, with nothing changed.
    pub fn ask_prepared(&mut self, request: &Request, prepared: Prepared) -> Result<usize, AskFault>
        requires { IsPrepared self.old.present request.now prepared }
        ensures ok { IfOk result (λ n. AskedOne request.now self.old self.new n) }
        ensures err { IfErr result (λ f. (self.new ≡ self.old) × (f ≡ ask_fault.NoMemory)) }
    {
        ask_next(&mut self.port, &mut self.role, request, prepared)
    }

    /// Returns whether an unexpected answer failed this end, so that every request is refused as `Failed` until
    /// `renew`. It takes no memory.
    pub fn has_failed(&self) -> bool
        ensures { result ≡ self.now.present.failed }
    {
        self.role.has_failed()
    }

    /// Returns whether something came that wasn't read. It did where the end has failed: the answer that failed it.
    pub fn may_read(&self) -> bool
        ensures yes { result ≡ true → 0 < length self.now.port.link.coming.inbox }
        ensures no { result ≡ false → self.now.port.link.coming.inbox ≡ [] }
        ensures bytes { AreBytes (oldest_message self.now.port.link.coming.inbox) }
        ensures failed { IsTrue self.now.present.failed → result ≡ true }
    {
        match self.port.link.peek_message() {
            Some(message) => is_left(message),
            None => false,
        }
    }

    /// Reads the next answer of the oldest NSP message that came, and gives the report that it completes; nothing,
    /// where nothing is left to read (DAP 5.6.0, message sequences). Refused: `Failed`; `Unexpected`, after which the
    /// end has failed; `NoMemory`, which changes nothing.
    pub fn read(&mut self) -> Result<Heard, ReadFault>
        ensures nothing { result ≡ Ok Nothing
            → (self.old.port.link.coming.inbox ≡ []) × (self.new ≡ self.old) }
        ensures part { result ≡ Ok Part → ReadOne self.old self.new None }
        ensures report { (report : TheReport) → result ≡ Ok (Completed report)
            → ReadOne self.old self.new (Some report) }
        ensures err { IfErr result (λ f. ReadNone self.old self.new f) }
        ensures failed { IsTrue self.old.present.failed
            → (self.new ≡ self.old) × IsErrOf result read_fault.Failed }
    {
        if !self.may_read() {
            return Ok(Heard::Nothing);
        }
        match self.read_next() {
            Ok(None) => Ok(Heard::Part),
            Ok(Some(report)) => Ok(Heard::Report(report)),
            Err(fault) => Err(fault),
        }
    }

    /// Reads the next answer where one came that wasn't read, as `may_read` says: it isn't looked at again. Gives
    /// the report that the answer completes. Refused as `read` is.
    pub fn read_next(&mut self) -> Result<Option<Report>, ReadFault>
        requires { 0 < length self.old.port.link.coming.inbox }
        ensures ok { IfOk result (λ report. ReadOne self.old self.new report) }
        ensures err { IfErr result (λ f. ReadNone self.old self.new f) }
    {
        read_next(&mut self.port, &mut self.role)
    }

    /// Returns the records that were read so far of a batch under way, and weren't taken out. None where no batch is
    /// under way.
    pub fn records(&self) -> &[(u64, Octets)]
        ensures { result.now ≡ records_kept self.now.present.pending }
    {
        self.role.records()
    }

    /// Takes out the records that were read so far of a batch under way, and weren't taken: the report of the batch
    /// comes without them. None where no batch is under way. It takes no memory.
    pub fn take_records(&mut self) -> Numbered
        ensures records { result ≡ records_kept self.old.present.pending }
        ensures rest { self.new ≡ record self.old {
          present = record self.old.present { pending = none_kept self.old.present.pending };
        } }
        ensures none { result ≡ [] → self.new ≡ self.old }
        // With all that were taken put back, the end is as if none were.
        ensures told { (told : List (ℕ × List ℕ))
            → with_told (told ++ result) self.new ≡ with_told told self.old }
    {
        self.role.take_records()
    }

    /// Reads all that came, and adds the reports after those in `reports`. Refused as `read` is; what was read before
    /// that stays so. A failed end is unchanged, and reports nothing.
    pub fn read_all(&mut self, reports: &mut Vec<Report>) -> Result<(), ReadFault>
        ensures ok { OnOk result (Extends reports.old.items reports.new.items
            (ReadOn self.old self.new)) }
        ensures all { OnOk result (self.new.port.link.coming.inbox ≡ []) }
        ensures err { IfErr result (λ f. ReadsAll self.old self.new reports.old.items
            reports.new.items (Err f)) }
        ensures failed { IsTrue self.old.present.failed
            → (self.new ≡ self.old) × (reports.new.items ≡ reports.old.items)
            × IsErrOf result read_fault.Failed }
    {
        'answers: loop {
            if !self.may_read() {
                return Ok(());
            }
            let Ok(()) = reports.reserve(1) else {
                return Err(refuse_next(&mut self.port, &mut self.role));
            };
            match self.read_next() {
                Ok(report) => keep(reports, report),
                Err(fault) => return Err(fault),
            }
        }
    }

    /// Reads all that came, and passes on what waits.
    fn hear_all(&mut self, reports: &mut Vec<Report>) -> Result<(), EndFault>
        ensures all { DidAll (hears reports.old.items reports.new.items) self.old self.new result }
        ensures works { OnOk result (self.new.port.link.failed ≡ false) }
        ensures failed { IsTrue self.old.present.failed → (self.new ≡ self.old)
            × (reports.new.items ≡ reports.old.items)
            × (result ≡ Err (end_fault.Read read_fault.Failed)) }
    {
        match self.read_all(reports) {
            Ok(()) => match self.post() {
                Ok(_) => Ok(()),
                Err(fault) => Err(EndFault::Link(fault)),
            },
            Err(fault) => Err(EndFault::Read(fault)),
        }
    }

    /// Reads all that came, passes on what waits, and writes all segments that were never sent, as far as the
    /// window allows. The packets follow those in `out`, the reports those in `reports`. Refused as `read` and
    /// `post` are, or if memory is refused. What was done before that stays done, and the same call goes on.
    pub fn go_on(
        &mut self,
        out: &mut Vec<Vec<u8>>,
        reports: &mut Vec<Report>,
    ) -> Result<(), EndFault>
        ensures went { WentOn (hears reports.old.items reports.new.items) self.old self.new
            (bodies out.old.items) (bodies out.new.items) result }
        ensures failed { IsTrue self.old.present.failed → (self.new ≡ self.old)
            × (reports.new.items ≡ reports.old.items)
            × (bodies out.new.items ≡ bodies out.old.items)
            × (result ≡ Err (end_fault.Read read_fault.Failed)) }
    {
        self.hear_all(reports)?;
        ended(self.port.emit_all(out))
    }

    /// Receives a packet, and returns what became of it; reads all that came, passes on what waits, and writes all
    /// segments that were never sent, as far as the window allows; or where a segment came and none is written, one
    /// acknowledgement. The packets follow those in `out`, the reports those in `reports`.
    ///
    /// Refusals: `Refused` as `receive` is, and nothing of the packet was taken; `Unfinished`, once it was received:
    /// `go_on` does what is left, and the same packet is answered again. A failed end takes a packet and does no more.
    pub fn take(
        &mut self,
        packet: &[u8],
        out: &mut Vec<Vec<u8>>,
        reports: &mut Vec<Report>,
    ) -> Result<Got, TakeFault>
        ensures takes { TakesPacket (hears reports.old.items reports.new.items)
            self.old self.new packet.now
            (bodies out.old.items) (bodies out.new.items) result }
        ensures failed { IsTrue self.old.present.failed
            → TakesNone self.old self.new packet.now result
            × (reports.new.items ≡ reports.old.items)
            × (bodies out.new.items ≡ bodies out.old.items) }
    {
        match self.receive(packet) {
            Ok(got) => match self.answer(got, out, reports) {
                Ok(()) => Ok(got),
                Err(fault) => Err(TakeFault::Unfinished(got, fault)),
            },
            Err(fault) => Err(TakeFault::Refused(fault)),
        }
    }

    /// Reads all that came, and writes what answers it.
    fn answer(
        &mut self,
        got: Got,
        out: &mut Vec<Vec<u8>>,
        reports: &mut Vec<Report>,
    ) -> Result<(), EndFault>
        ensures writes { WritesReplies (hears reports.old.items reports.new.items)
            self.old self.new got (bodies out.old.items) (bodies out.new.items) result }
        ensures failed { IsTrue self.old.present.failed → (self.new ≡ self.old)
            × (reports.new.items ≡ reports.old.items)
            × (bodies out.new.items ≡ bodies out.old.items)
            × (result ≡ Err (end_fault.Read read_fault.Failed)) }
    {
        self.hear_all(reports)?;
        ended(self.port.answer(got, out))
    }
}

/// Returns how a call ends that ends as its link does.
fn ended(done: Result<(), LinkFault>) -> Result<(), EndFault>
    ensures { result ≡ ended_by done }
{
    match done {
        Ok(()) => Ok(()),
        Err(fault) => Err(EndFault::Link(fault)),
    }
}

/// Returns true. It is only for the prover: by its contract an NSP message that came is of bytes.
fn is_left(message: &[u8]) -> bool
    ensures yes { result ≡ true }
    ensures bytes { AreBytes message.now }
{
    let _bytes = message;
    true
}

/// Adds the report, for which there is room.
fn keep(reports: &mut Vec<Report>, report: Option<Report>)
    requires { vec_len reports.old < vec_capacity reports.old }
    ensures { reports.new.items ≡ reports.old.items ++ option_to_list report }
{
    if let Some(report) = report {
        reports.push_reserved(report);
    }
}

/// Returns a number that the messages of a request don't exceed.
fn most_messages(request: &Request) -> usize
    ensures { (own : Own) → length (messages_of own request.now) ≤ result }
{
    match request {
        Request::Store(bodies) => bodies.0.len().saturating_add(2),
        _ => 2,
    }
}

/// Asks a request that was looked at; its messages wait then.
fn ask_next(
    port: &mut Port,
    accessing: &mut Accessing,
    request: &Request,
    prepared: Prepared,
) -> Result<usize, AskFault>
    requires kept { IsPort port.old }
    requires prepared { IsPrepared accessing.old request.now prepared }
    ensures ok { IfOk result (λ n. AskedOne request.now (asking_of port.old accessing.old)
        (asking_of port.new accessing.new) n) }
    ensures kept { IsPort port.new }
    ensures err { IfErr result (λ f. (port.new ≡ port.old) × (accessing.new ≡ accessing.old)
        × (f ≡ ask_fault.NoMemory)) }
{
    let Ok(()) = port.outbox.reserve(most_messages(request)) else {
        return Err(AskFault::NoMemory);
    };
    let mut messages = accessing.ask_prepared(request, prepared)?;
    let count = messages.len();
    port.outbox.append(&mut messages).unwrap();
    Ok(count)
}

/// Returns why the next answer isn't read where there is no room for a report.
fn refuse_next(port: &mut Port, accessing: &mut Accessing) -> ReadFault
    requires kept { IsPort port.old }
    requires some { 0 < length port.old.link.coming.inbox }
    ensures refused { ReadNone (asking_of port.old accessing.old)
        (asking_of port.new accessing.new) result }
    ensures kept { IsPort port.new }
{
    let offset = port.offset;
    let message = port.link.peek_message().unwrap();
    accessing.refuse(message, offset)
}

/// Reads the next answer of the oldest NSP message that came.
fn read_next(port: &mut Port, accessing: &mut Accessing) -> Result<Option<Report>, ReadFault>
    requires kept { IsPort port.old }
    requires some { 0 < length port.old.link.coming.inbox }
    ensures ok { IfOk result (λ report. ReadOne (asking_of port.old accessing.old)
        (asking_of port.new accessing.new) report) }
    ensures kept { IsPort port.new }
    ensures err { IfErr result (λ f. ReadNone (asking_of port.old accessing.old)
        (asking_of port.new accessing.new) f) }
{
    let offset = port.offset;
    let message = port.link.peek_message().unwrap();
    match accessing.read(message, offset) {
        Ok(step) => {
            let at_end = is_end(message, step.next);
            port.advance(at_end, step.next);
            Ok(step.report)
        }
        Err(fault) => Err(fault),
    }
}
