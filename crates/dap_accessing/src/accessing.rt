//! The client.

ghost use Rattle.std.specs.Prelude.{◌≡◌, ◌≢◌, ◌≤◌, ◌<◌, ℕ, List, [], ◌∷◌, ◌++◌, true, false, length, map, Some, IfOk, IfErr, OnOk, OnErr};
ghost use Rattle.dap_accessing.specs.declared.fault.AskFault.TheVariants.{NoMemory};
ghost use Rattle.dap_msg.specs.BothEnds.{max_nsp_message, min_buffer, plain_identity};
ghost use Rattle.dap_msg.specs.Fitting.{FieldsFit};
ghost use Rattle.dap_msg.specs.declared.message.Message.TheVariants.{Config};
ghost use Rattle.dap_msg.specs.declared.items.Item.{Item as TheItem};
ghost use Rattle.dap_msg.specs.declared.items.Item.TheVariants.{Whole};
ghost use Rattle.dap_msg.specs.Blocked.{bodies};
ghost use Rattle.dap_accessing.specs.Inner.Hears.{HasShortNumbers, HearsNext, IsInSequence, IsOutOfSequence};
ghost use Rattle.dap_accessing.specs.declared.pending.Pending.{Pending as ThePending};
ghost use Rattle.dap_msg.specs.declared.message.Message.{Message as TheMessage};
ghost use Rattle.dap_msg.specs.Decoding.{IsSpelled};
ghost use Rattle.dap_accessing.specs.Present.{ClientState, ClientAfter};
ghost use Rattle.dap_msg.specs.Items.{IsOffset};
ghost use Rattle.dap_accessing.specs.Calls.{AsksRequest, AskRefused, IsAdmittedBy, Reads, ReadRefused};
ghost use Rattle.dap_accessing.specs.Each.{ReadsOn, none_kept, put_back, records_kept};
ghost use Rattle.dap_accessing.specs.Told.{Told};
ghost use Rattle.dap_accessing.specs.Asked.{messages_of};
ghost use Rattle.dap_accessing.specs.Phase.{IsAdmissible};
ghost use Rattle.dap_msg.specs.declared.message.Configuration.{Configuration as Own};
ghost use Rattle.dap_accessing.specs.declared.request.Request.TheVariants.{Hello};
ghost use Rattle.dap_accessing.specs.Prepared.{IsPrepared};
ghost use Rattle.dap_accessing.specs.Request.{Request as TheRequest};
ghost use Rattle.dap_accessing.specs.declared.report.Report.{Report as TheReport};

use crate::asking::{Outgoing, Prepared};
use crate::bytes::{Numbered, Octets};
use crate::fault::{AskFault, ReadFault, ReadStep};
use crate::pending::{Heard, Pending};
use crate::phase::Phase;
use crate::report::Report;
use crate::request::Request;
use dap_msg::{Configuration, Item, MAX_MESSAGE, MessageValue, item_at, limit_of};
use std::alloc::Global;
use std::marker::Model;
use std::mem;

/// The client. It keeps no list of what was asked or answered: it is as after any requests
/// and answers that leave what it keeps.
#[derive(Drop)]
pub struct Accessing {
    alloc: Global,
    identity: Configuration,
    failed: bool,
    phase: Phase,
    limit: u16,
    pending: Option<Pending>,
}

impl Model for Accessing {
    ghost use Rattle.dap_accessing.specs.Present.{ClientState};

    ghost Value = { ClientState };

    ghost view = { λ a. record {
      own = a.identity.bufsiz;
      identity = a.identity;
      failed = a.failed;
      phase = a.phase;
      limit = a.limit;
      pending = a.pending;
    } };
}

impl Accessing {
    /// Creates an end that nothing was asked of, with a buffer of this many bytes, at least 64. It takes no memory.
    pub fn new(alloc: Global, bufsiz: u16) -> Accessing
        requires low { min_buffer ≤ bufsiz }
        requires high { bufsiz ≤ max_nsp_message }
        ensures own { result.own ≡ bufsiz }
        ensures identity { result.identity ≡ plain_identity bufsiz }
        ensures stands { ClientAfter [] [] result }
    {
        Accessing::with_identity(alloc, Configuration::plain(bufsiz))
    }

    /// Returns an end that nothing was asked of and that says this of itself in its Configuration, with a BUFSIZ of at
    /// least 64. It takes no memory.
    pub fn with_identity(alloc: Global, identity: Configuration) -> Accessing
        requires low { min_buffer ≤ identity.bufsiz }
        requires fits { FieldsFit (Config identity) }
        ensures identity { result.identity ≡ identity }
        ensures own { result.own ≡ identity.bufsiz }
        ensures stands { ClientAfter [] [] result }
    {
        Accessing {
            alloc,
            identity,
            failed: false,
            phase: Phase::Fresh,
            limit: MAX_MESSAGE,
            pending: None,
        }
    }

    /// Begins another link, as the same client: nothing was asked of it.
    pub fn renew(&mut self)
        ensures own { self.new.own ≡ self.old.own }
        ensures identity { self.new.identity ≡ self.old.identity }
        ensures stands { ClientAfter [] [] self.new }
    {
        self.failed = false;
        self.phase = Phase::Fresh;
        self.limit = MAX_MESSAGE;
        self.pending = None;
    }

    /// Asks a request, and returns its messages, joined to NSP messages as far as the peer's limit goes (DAP 5.6.0,
    /// message sequences and blocking).
    ///
    /// Refusals in order: Failed, Busy, WrongPhase, TooLarge, NoMemory; each leaves the end
    /// unchanged.
    pub fn ask(&mut self, request: &Request) -> Result<Vec<Vec<u8>>, AskFault>
        ensures asks { IfOk result
            (λ messages. AsksRequest request.now self.old self.new (bodies messages.items)) }
        ensures refused { IfErr result (λ f. AskRefused request.now self.old f) }
        ensures unchanged { OnErr result (self.new ≡ self.old) }
        ensures own { self.new.own ≡ self.old.own }
        ensures identity { self.new.identity ≡ self.old.identity }
    {
        let prepared = self.prepare(request)?;
        self.ask_prepared(request, prepared)
    }

    /// Checks whether `ask` would take the request, memory aside; refused as there. It takes no memory.
    pub fn check(&self, request: &Request) -> Result<(), AskFault>
        ensures works { OnOk result (self.now.failed ≡ false) }
        ensures admissible { OnOk result (IsAdmittedBy self.now request.now) }
        ensures refused { IfErr result (λ f. (f ≢ NoMemory) × AskRefused request.now self.now f) }
    {
        match self.prepare(request) {
            Ok(_) => Ok(()),
            Err(fault) => Err(fault),
        }
    }

    /// Prepares what `ask_prepared` needs of a request that `ask` would take, memory aside; refused as there. It takes
    /// no memory.
    pub fn prepare(&self, request: &Request) -> Result<Prepared, AskFault>
        ensures works { OnOk result (self.now.failed ≡ false) }
        ensures admissible { OnOk result (IsAdmittedBy self.now request.now) }
        ensures prepared { IfOk result (IsPrepared self.now request.now) }
        ensures refused { IfErr result (λ f. (f ≢ NoMemory) × AskRefused request.now self.now f) }
    {
        if self.failed {
            return Err(AskFault::Failed);
        }
        if self.pending.is_some() {
            return Err(AskFault::Busy);
        }
        if !self.phase.fits(request) {
            return Err(AskFault::WrongPhase);
        }
        let number = request.number();
        let outgoing = Outgoing::of(self.identity, request, &number);
        match outgoing.count(self.limit) {
            Some(counts) => Ok(Prepared { number, counts }),
            None => Err(AskFault::TooLarge),
        }
    }

    /// Asks a request that `prepare` looked at. It isn't looked at again, and this fails only if memory is refused.
    pub fn ask_prepared(
        &mut self,
        request: &Request,
        prepared: Prepared,
    ) -> Result<Vec<Vec<u8>>, AskFault>
        requires { IsPrepared self.old request.now prepared }
        ensures asks { IfOk result
            (λ messages. AsksRequest request.now self.old self.new (bodies messages.items)) }
        ensures refused { IfErr result (λ f. f ≡ NoMemory) }
        ensures unchanged { OnErr result (self.new ≡ self.old) }
        ensures own { self.new.own ≡ self.old.own }
        ensures identity { self.new.identity ≡ self.old.identity }
    {
        let Prepared { number, counts } = prepared;
        let outgoing = Outgoing::of(self.identity, request, &number);
        let Ok(messages) = outgoing.blocked(self.alloc, self.limit, counts) else {
            return Err(AskFault::NoMemory);
        };
        self.pending = Some(Pending::of(self.alloc, request));
        Ok(messages)
    }

    /// Takes the message as the next answer.
    fn take(&mut self, message: &MessageValue<'_>) -> Result<Option<Report>, ReadFault>
        requires short { HasShortNumbers message.now }
        ensures takes { HearsNext (Whole message.now) self.old self.new result }
        ensures own { self.new.own ≡ self.old.own }
        ensures identity { self.new.identity ≡ self.old.identity }
    {
        let Some(pending) = self.pending.take() else {
            self.failed = true;
            return Err(ReadFault::Unexpected);
        };
        match pending.hear(self.alloc, message) {
            Heard::Waits(pending) => {
                self.pending = Some(pending);
                Ok(None)
            }
            Heard::Reports(report) => {
                self.phase = self.phase.after(&report);
                if let Report::Ready(bufsiz) = report {
                    self.limit = limit_of(bufsiz);
                }
                Ok(Some(report))
            }
            Heard::Unexpected => {
                self.failed = true;
                Err(ReadFault::Unexpected)
            }
            Heard::NoMemory(pending) => {
                self.pending = Some(pending);
                Err(ReadFault::NoMemory)
            }
        }
    }

    /// Reads the one DAP message that begins at the offset `at` as the next answer (DAP 5.6.0, message sequences).
    ///
    /// Refusals: Failed; Unexpected, after which the end has failed, and keeps nothing of its requests; NoMemory, which
    /// changes nothing.
    pub fn read(&mut self, nsp_message: &[u8], at: usize) -> Result<ReadStep, ReadFault>
        requires { IsOffset at nsp_message.now }
        ensures reads { IfOk result (λ read. Reads nsp_message.now at self.old self.new read) }
        // So it reads also where records were taken out of the batch that is under way.
        ensures reads_on { IfOk result
            (λ read. ReadsOn nsp_message.now at self.old self.new read) }
        ensures refused { IfErr result (λ f. ReadRefused nsp_message.now at self.old self.new f) }
        ensures within { IfOk result (λ read. read.next ≤ length nsp_message.now) }
        ensures further { at < length nsp_message.now → IfOk result (λ read. at < read.next) }
        ensures own { self.new.own ≡ self.old.own }
        ensures identity { self.new.identity ≡ self.old.identity }
    {
        if self.failed {
            return Err(ReadFault::Failed);
        }
        let (item, next) = item_at(nsp_message, at);
        let Item::Whole(message) = item else {
            self.failed = true;
            self.pending = None;
            return Err(ReadFault::Unexpected);
        };
        match self.take(&message) {
            Ok(report) => Ok(ReadStep { report, next }),
            Err(fault) => Err(fault),
        }
    }

    /// Returns whether an unexpected answer failed this end, so that every request is refused as Failed until `renew`.
    pub fn has_failed(&self) -> bool
        ensures { result ≡ self.now.failed }
    {
        self.failed
    }

    /// Returns the records that are kept of a batch under way: those that came and weren't taken out. None where no
    /// batch is under way.
    pub fn records(&self) -> &[(u64, Octets)]
        ensures { result.now ≡ records_kept self.now.pending }
    {
        match &self.pending {
            Some(Pending::Batch(records)) => &records.0,
            _ => &[],
        }
    }

    /// Takes the records out that are kept of a batch under way: those that came since the last call. The report of the
    /// batch has the others alone. None where no batch is under way. It takes no memory.
    pub fn take_records(&mut self) -> Numbered
        ensures records { result ≡ records_kept self.old.pending }
        ensures rest { self.new ≡ record self.old { pending = none_kept self.old.pending } }
        ensures told { (told : List (ℕ × List ℕ))
            → put_back (told ++ result) self.new ≡ put_back told self.old }
    {
        match &mut self.pending {
            Some(Pending::Batch(records)) => mem::replace(records, Numbered(Vec::new(self.alloc))),
            _ => Numbered(Vec::new(self.alloc)),
        }
    }

    /// Returns what `read` answers where there is no room for a report: why the one DAP message that begins at `at`
    /// isn't read. In order: Failed; Unexpected, after which the end has failed, and keeps nothing of its requests;
    /// NoMemory, which changes nothing.
    pub fn refuse(&mut self, nsp_message: &[u8], at: usize) -> ReadFault
        requires { IsOffset at nsp_message.now }
        ensures refused { ReadRefused nsp_message.now at self.old self.new result }
        ensures own { self.new.own ≡ self.old.own }
        ensures identity { self.new.identity ≡ self.old.identity }
    {
        if self.failed {
            return ReadFault::Failed;
        }
        let (item, _) = item_at(nsp_message, at);
        if self.may_come(&item) {
            return ReadFault::NoMemory;
        }
        self.failed = true;
        self.pending = None;
        ReadFault::Unexpected
    }

    /// Returns whether what was read is a message, and expected as the next answer.
    fn may_come(&self, item: &Item<'_>) -> bool
        requires { (m : TheMessage) → item.now ≡ Whole m → IsSpelled m }
        ensures yes { result ≡ true → (p : ThePending) × (self.now.pending ≡ Some p)
            × IsInSequence p item.now }
        ensures no { result ≡ false → IsOutOfSequence item.now self.now.pending }
    {
        match (item, &self.pending) {
            (Item::Whole(message), Some(pending)) => pending.expects(message),
            _ => false,
        }
    }
}

/// More answers never take a report back: the reports are a function of the requests and of a prefix of the
/// answers.
pub fn reports_grow()
    ensures { (requests : List TheRequest) (answers more : List TheItem)
        → (reports : List TheReport)
        × (Told requests (answers ++ more) ≡ Told requests answers ++ reports) }
{}

/// What is asked depends on the client's Configuration only where that is sent, and which requests are admissible
/// doesn't depend on it.
pub fn identity_is_told_by_hello()
    ensures hello { (own : Own) → messages_of own Hello ≡ Config own ∷ [] }
    ensures others { (one two : Own) (request : TheRequest) → request ≢ Hello
        → messages_of one request ≡ messages_of two request }
    ensures admissible { (one two : Own) → FieldsFit (Config two)
        → (requests : List TheRequest) (answers : List TheItem) (request : TheRequest)
        → IsAdmissible one requests answers request → IsAdmissible two requests answers request }
{}

/// What an end keeps follows from the requests and answers that it is after, and from its Configuration; and it works.
pub fn standing_is_one()
    ensures one { (requests : List TheRequest) (answers : List TheItem) (one two : ClientState)
        → ClientAfter requests answers one → ClientAfter requests answers two
        → one.identity ≡ two.identity → one ≡ two }
    ensures works { (requests : List TheRequest) (answers : List TheItem) (end : ClientState)
        → ClientAfter requests answers end → end.failed ≡ false }
{}
