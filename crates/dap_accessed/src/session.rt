//! What a server keeps of one link.

ghost use Rattle.std.specs.Prelude.{◌≡◌, ◌≤◌, [], ◌∷◌, Some, IfOk, IsOk, OnOk, OnErr, true};
ghost use Rattle.dap_msg.specs.BothEnds.{max_nsp_message, min_buffer};
ghost use Rattle.dap_msg.specs.declared.items.Item.TheVariants.{Whole};
ghost use Rattle.dap_msg.specs.declared.message.Message.{Message as TheMessage};
ghost use Rattle.dap_msg.specs.Codes as codes;
ghost use Rattle.dap_msg.specs.Decoding.{IsSpelled};
ghost use Rattle.dap_msg.specs.Items.{ItemFits};
ghost use Rattle.dap_accessed.specs.Accesses.{fac_or, rights_of, rights_to_create};
ghost use Rattle.dap_accessed.specs.Groups.{GroupedItems};
ghost use Rattle.dap_accessed.specs.Replies.{bare_status, coded, refused_access};
ghost use Rattle.dap_accessed.specs.Served.{AreAnswers};
ghost use Rattle.dap_accessed.specs.Sessions.{IsIn, IsOpenIn, IsSilentIn, ServesItem, asked_in, with_files, new_session, open_at, phase_moved_up, refused_session, session_with, erased_at, erased_if, replaced_if, there_at, there_if, would_open};
ghost use Rattle.dap_accessed.specs.Setup.{IsServerSetup};
ghost use Rattle.dap_accessed.specs.Inner.Sessions.{Enters};
ghost use Rattle.dap_accessed.specs.Inner.Moves.{Makes, Moves, creates, erases, is_silent, move, opens, opens_nothing};
ghost use Rattle.dap_accessed.specs.Inner.Steps.{CanDo, step_move, is_quiet};
ghost use Rattle.dap_accessed.specs.Inner.Written.{IsShortReply, reply_message};
ghost use Rattle.dap_accessed.specs.declared.phase.Phase.TheVariants as phases;
ghost use Rattle.dap_accessed.specs.declared.step.Step.TheVariants as steps;

use crate::answers::{Answer, erased, one, opening};
use crate::asked::{Asked, asked_for};
use crate::fault::NoMemory;
use crate::phase::{OpenFile, Phase};
use crate::served::Served;
use crate::setup::{RIGHTS_TO_ERASE, ServerSetup, rights_for_access, rights_of_fac};
use crate::step::Step;
use crate::table::FileTable;
use dap_msg::codes::{
    ACCESS_REFUSED, ACCFUNC_CREATE, ACCFUNC_ERASE, ACCFUNC_OPEN, FILE_NOT_FOUND,
    REASON_BAD_ATTRIBUTES, REASON_FILE_EXISTS, REASON_NOT_PERMITTED, TYPE_ACCESS, unsupported,
};
use dap_msg::{AccessFields, Attributes, FileAccess, Item, MIN_BUFFER, MessageValue};
use rec_file::{RecordFile, Rights};
use std::alloc::Global;
use std::marker::Model;

/// What a server keeps of one link, but for the files: several links may have one table.
#[derive(Drop)]
pub struct Session {
    pub(crate) alloc: Global,
    pub(crate) setup: ServerSetup,
    /// How long a message the peer takes.
    pub(crate) limit: u16,
    /// What an Access would give a new file.
    pub(crate) kept: Option<Asked>,
    pub(crate) phase: Phase,
}

impl Model for Session {
    ghost use Rattle.dap_accessed.specs.Inner.Sessions.{IsSession};
    ghost use Rattle.dap_accessed.specs.Stored.{session_code};
    ghost use Rattle.dap_accessed.specs.Sessions.{SessionValue};

    ghost Value = { SessionValue };

    ghost coded = { session_code };

    ghost view = { λ a. record {
      own = a.setup.identity.bufsiz;
      setup = a.setup;
      limit = a.limit;
      kept = a.kept;
      phase = a.phase;
    } };

    ghost invariant = { λ a. IsSession a.setup a.limit a.kept };
}

/// Returns the rights that FAC gives, or those of the usual operation where it is 0.
fn rights_for(fac: u32, usual: FileAccess) -> Rights
    ensures { result ≡ rights_of (fac_or fac usual.0) }
{
    if fac == 0 {
        rights_for_access(usual)
    } else {
        rights_of_fac(fac)
    }
}

/// Returns the rights that an Access to create a file asks for: PUT too.
fn rights_to_create(fac: u32) -> Rights
    ensures { result ≡ rights_to_create fac }
{
    Rights {
        put: true,
        ..rights_for(fac, FileAccess::PUT)
    }
}

/// Returns the answer to an Access that opens nothing.
fn refused_access<'a>(reason: u8) -> Answer<'a>
    ensures message { reply_message result ≡ refused_access reason }
    ensures short { IsShortReply result }
{
    Answer::Reason {
        code: ACCESS_REFUSED,
        reason: [reason],
    }
}

/// Returns a file that is there, as an Access with this FAC opens it.
fn there_at(at: usize, fac: u32) -> OpenFile
    ensures { result ≡ there_at fac at }
{
    OpenFile {
        at,
        is_new: false,
        rights: rights_for(fac, FileAccess::GET),
    }
}

/// Returns the file that an Access would open, where there is one at this index, and it asks for no right too many.
fn there_if(setup: &ServerSetup, fac: u32, found: Option<usize>) -> Option<OpenFile>
    ensures { result ≡ there_if setup.now fac found }
{
    if setup.lacks(rights_for(fac, FileAccess::GET)) {
        return None;
    }
    Some(there_at(found?, fac))
}

/// Returns a file that is there, as an Access that would remove it asks for it.
fn erased_at(at: usize) -> OpenFile
    ensures { result ≡ erased_at at }
{
    OpenFile {
        at,
        is_new: false,
        rights: RIGHTS_TO_ERASE,
    }
}

/// Returns the file that an Access would erase, as one that has it alone, where there is one at this index, and it asks
/// for no right too many.
fn erased_if(setup: &ServerSetup, found: Option<usize>) -> Option<OpenFile>
    ensures { result ≡ erased_if setup.now found }
{
    if setup.lacks(RIGHTS_TO_ERASE) {
        return None;
    }
    Some(erased_at(found?))
}

/// Returns the file that an Access to create would replace, as one that has it alone, where there is one at this index,
/// and it asks for no right too many.
fn replaced_if(setup: &ServerSetup, fac: u32, found: Option<usize>) -> Option<OpenFile>
    ensures { result ≡ replaced_if setup.now fac found }
{
    if setup.lacks(rights_to_create(fac)) {
        return None;
    }
    Some(erased_at(found?))
}

/// Returns the file that an Access would open, replace or erase, where that is there, and it asks for no right too many.
fn would_open(setup: &ServerSetup, files: &FileTable, access: &AccessFields<'_>) -> Option<OpenFile>
    ensures { result ≡ would_open setup.now files.now access.now }
{
    let name = access.name.0;
    match access.func {
        ACCFUNC_OPEN => there_if(setup, access.fac, files.find_by(setup.names, name)),
        ACCFUNC_CREATE => {
            replaced_if(setup, access.fac, files.find_to_replace(setup.names, name))
        }
        ACCFUNC_ERASE if setup.full => erased_if(setup, files.find_to_erase(setup.names, name)),
        _ => None,
    }
}

impl Session {
    /// Creates a link on which no Config was served, with a buffer of this many bytes, at least 64. It takes no memory.
    pub fn new(alloc: Global, bufsiz: u16) -> Session
        requires low { min_buffer ≤ bufsiz }
        ensures { result ≡ new_session bufsiz }
    {
        Session::with_setup(alloc, ServerSetup::plain(bufsiz))
    }

    /// Creates a link of a server with this setup on which no Config was served. It takes no memory.
    #[tactic(auto, using(crate::proofs::StepIs::none_asked))]
    pub fn with_setup(alloc: Global, setup: ServerSetup) -> Session
        requires { IsServerSetup setup }
        ensures { result ≡ session_with setup }
    {
        Session {
            alloc,
            setup,
            limit: MIN_BUFFER,
            kept: Some(Asked::plain()),
            phase: Phase::Fresh,
        }
    }

    /// Begins another link, with the same setup: the open file is closed, and a PUT or an UPDATE that waits for its
    /// record is dropped.
    #[tactic(auto, using(crate::proofs::StepIs::none_asked))]
    pub fn renew(&mut self)
        ensures session { self.new ≡ session_with self.old.setup }
        ensures own { self.new.own ≡ self.old.own }
    {
        self.limit = MIN_BUFFER;
        self.kept = Some(Asked::plain());
        self.phase = Phase::Fresh;
    }

    /// Begins another link as [`Session::renew`] does; an Access on it may ask for these rights at most.
    pub fn renew_for(&mut self, most: Rights)
        ensures session { self.new ≡ session_with (record self.old.setup { most = most }) }
        ensures own { self.new.own ≡ self.old.own }
    {
        self.setup.most = most;
        self.renew();
    }

    /// Returns the rights that an Access may ask for.
    pub fn rights(&self) -> Rights
        ensures { result ≡ self.now.setup.most }
    {
        self.setup.most
    }

    /// Returns the file that is open, where one is.
    pub fn open_file(&self) -> Option<OpenFile>
        ensures { result ≡ open_at self.now.phase }
    {
        match self.phase {
            Phase::Fresh | Phase::Ready => None,
            Phase::Opened(opened)
            | Phase::Connected(opened, _)
            | Phase::PutDue(opened, _, _)
            | Phase::UpdateDue(opened, _)
            | Phase::Storing(opened, _, _)
            | Phase::Dropping(opened, _, _)
            | Phase::Stopped(opened, _) => Some(opened),
        }
    }

    /// Returns the file that an item would open, replace or erase: by an Access, while none is open, where it is there,
    /// and the Access asks for no right too many.
    pub fn asked(&self, files: &FileTable, item: &Item<'_>) -> Option<OpenFile>
        ensures { result ≡ asked_in self.now.setup files.now self.now.phase item.now }
    {
        match (self.phase, item) {
            (Phase::Ready, Item::Whole(MessageValue::Access(access))) => {
                would_open(&self.setup, files, access)
            }
            _ => None,
        }
    }

    /// Follows the removal of the file at this index of the table, where those after it have moved up.
    pub fn move_up(&mut self, removed: usize)
        ensures { self.new ≡ record self.old { phase = phase_moved_up removed self.old.phase } }
    {
        self.phase = self.phase.moved_up(removed);
    }

    /// Returns no answers.
    pub(crate) fn none(&self) -> Vec<Vec<u8>>
        ensures { AreAnswers self.now.limit [] result }
    {
        Vec::new(self.alloc)
    }

    /// Does what an item asks for.
    fn act(&mut self, files: &mut FileTable, step: &Step<'_>) -> Result<Vec<Vec<u8>>, NoMemory>
        requires { CanDo files.old step.now }
        ensures ok { Makes (step_move step.now (with_files files.old self.old))
            (with_files files.old self.old) (with_files files.new self.new) result }
        ensures there { OnOk result (IsOpenIn files.new self.new.phase) }
        ensures err { OnErr result (with_files files.new self.new ≡ with_files files.old self.old) }
        ensures quiet { is_quiet step.now ≡ true → IsOk result }
    {
        match step {
            Step::Enter(phase) => Ok(self.enter(*phase)),
            Step::Reply(answer, phase) => self.reply(*answer, *phase),
            Step::Configure(limit) => self.configure(files, *limit),
            Step::Keep(attributes) => Ok(self.keep(files, attributes)),
            Step::Access { func, name, fac } => self.access(files, *func, name, *fac),
            Step::Purge(opened) => self.purge(files, *opened),
            Step::Get(opened, stream, control) => self.get(files, *opened, *stream, control),
            Step::Fetch(opened, stream) => self.fetch(files, *opened, *stream),
            Step::Expect(opened, stream, control) => Ok(self.expect(
                files, *opened, *stream, control,
            )),
            Step::Put(opened, stream, key, body) => self.put(files, *opened, *stream, *key, body),
            Step::Update(opened, stream, body) => self.update(files, *opened, *stream, body),
            Step::Delete(opened, stream) => self.delete(files, *opened, *stream),
            Step::Store(opened, stream, ordinal, body) => self.store(
                files, *opened, *stream, *ordinal, body,
            ),
        }
    }

    /// Enters another phase, without an answer.
    pub(crate) fn enter(&mut self, phase: Phase) -> Vec<Vec<u8>>
        ensures { Enters self.old phase [] self.new result }
    {
        self.phase = phase;
        self.none()
    }

    /// Gives one short answer, and enters the phase after it.
    pub(crate) fn reply(
        &mut self,
        answer: Answer<'_>,
        phase: Phase,
    ) -> Result<Vec<Vec<u8>>, NoMemory>
        requires short { IsShortReply answer }
        ensures ok { IfOk result (λ answers. Enters self.old phase
            (coded self.old.setup.full (reply_message answer.entry) ∷ []) self.new answers) }
        ensures err { OnErr result (self.new ≡ self.old) }
    {
        let answers = one(self.alloc, self.limit, answer.coded(self.setup.full))?;
        self.phase = phase;
        Ok(answers)
    }

    /// Answers the Config of a peer that takes messages of this many bytes.
    fn configure(&mut self, files: &FileTable, limit: u16) -> Result<Vec<Vec<u8>>, NoMemory>
        requires { min_buffer ≤ limit }
        ensures ok { Makes (step_move (steps.Configure limit) (with_files files.now self.old))
            (with_files files.now self.old) (with_files files.now self.new) result }
        ensures there { OnOk result (IsOpenIn files.now self.new.phase) }
        ensures err { OnErr result (with_files files.now self.new ≡ with_files files.now self.old) }
    {
        let answers = self.reply(Answer::Config(self.setup.identity), Phase::Ready)?;
        self.limit = limit;
        Ok(answers)
    }

    /// Keeps what an Access would give a new file.
    fn keep(&mut self, files: &FileTable, attributes: &Attributes<'_>) -> Vec<Vec<u8>>
        requires { CanDo files.now (steps.Keep attributes.now) }
        ensures moves { Moves (with_files files.now self.old)
            (step_move (steps.Keep attributes.now) (with_files files.now self.old))
            (with_files files.now self.new) result }
        ensures there { IsOpenIn files.now self.new.phase }
    {
        self.kept = asked_for(attributes, self.setup.full);
        self.enter(Phase::Ready)
    }

    /// Answers an Access, which opens a file, creates one, erases one or is refused.
    fn access(
        &mut self,
        files: &mut FileTable,
        func: u8,
        name: &[u8],
        fac: u32,
    ) -> Result<Vec<Vec<u8>>, NoMemory>
        ensures ok { Makes
            (step_move (steps.Access func name.entry fac) (with_files files.old self.old))
            (with_files files.old self.old) (with_files files.new self.new) result }
        ensures there { OnOk result (IsOpenIn files.new self.new.phase) }
        ensures err { OnErr result (with_files files.new self.new ≡ with_files files.old self.old) }
    {
        match func {
            ACCFUNC_OPEN => self.open(files, name, fac),
            ACCFUNC_CREATE => self.create(files, name, fac),
            ACCFUNC_ERASE if self.setup.full => self.erase(files, name),
            _ => self.refuse_access(files, Answer::Status(unsupported(TYPE_ACCESS))),
        }
    }

    /// Answers an Access that opens no file. Every Access uses up the attributes that were kept.
    fn refuse_access(
        &mut self,
        files: &FileTable,
        answer: Answer<'_>,
    ) -> Result<Vec<Vec<u8>>, NoMemory>
        requires { IsShortReply answer }
        ensures ok { Makes
            (opens_nothing (with_files files.now self.old) (reply_message answer.entry))
            (with_files files.now self.old) (with_files files.now self.new) result }
        ensures there { OnOk result (IsOpenIn files.now self.new.phase) }
        ensures err { OnErr result (with_files files.now self.new ≡ with_files files.now self.old) }
    {
        let answers = self.reply(answer, Phase::Ready)?;
        self.kept = Some(Asked::plain());
        Ok(answers)
    }

    /// Answers an Access that opens a file. It is refused where there is none, and then where it asks for a right too
    /// many.
    fn open(
        &mut self,
        files: &mut FileTable,
        name: &[u8],
        fac: u32,
    ) -> Result<Vec<Vec<u8>>, NoMemory>
        ensures ok { Makes (opens (with_files files.old self.old) name.now fac)
            (with_files files.old self.old) (with_files files.new self.new) result }
        ensures there { OnOk result (IsOpenIn files.new self.new.phase) }
        ensures err { OnErr result (with_files files.new self.new ≡ with_files files.old self.old) }
    {
        let Some(at) = files.find_by(self.setup.names, name) else {
            return self.refuse_access(files, Answer::Status(FILE_NOT_FOUND));
        };
        if self.setup.lacks(rights_for(fac, FileAccess::GET)) {
            return self.refuse_access(files, refused_access(REASON_NOT_PERMITTED));
        }
        let file = files.file(at);
        let answers = opening(self.alloc, self.limit, file.shape(), file.look())?;
        self.kept = Some(Asked::plain());
        self.phase = Phase::Opened(there_at(at, fac));
        Ok(answers)
    }

    /// Answers an Access that creates a file, and removes the one that it replaces. It is refused where there is one of
    /// its name, or no number is left, then where it asks for a right too many, and then where its attributes are bad.
    fn create(
        &mut self,
        files: &mut FileTable,
        name: &[u8],
        fac: u32,
    ) -> Result<Vec<Vec<u8>>, NoMemory>
        ensures ok { Makes (creates (with_files files.old self.old) name.now fac)
            (with_files files.old self.old) (with_files files.new self.new) result }
        ensures there { OnOk result (IsOpenIn files.new self.new.phase) }
        ensures err { OnErr result (with_files files.new self.new ≡ with_files files.old self.old) }
    {
        let Some(number) = files.number_made(self.setup.names, name) else {
            return self.refuse_access(files, refused_access(REASON_FILE_EXISTS));
        };
        if self.setup.lacks(rights_to_create(fac)) {
            return self.refuse_access(files, refused_access(REASON_NOT_PERMITTED));
        }
        let Some(asked) = self.kept else {
            return self.refuse_access(files, refused_access(REASON_BAD_ATTRIBUTES));
        };
        let answers = opening(self.alloc, self.limit, asked.shape, asked.look)?;
        let at = files.make_over(self.alloc, self.setup.names, name, number, asked)?;
        self.kept = Some(Asked::plain());
        self.phase = Phase::Opened(OpenFile {
            at,
            is_new: true,
            rights: rights_for(fac, FileAccess::PUT),
        });
        Ok(answers)
    }

    /// Answers an Access that erases a file. It is refused where there is none, and then where it asks for a right too
    /// many.
    fn erase(&mut self, files: &mut FileTable, name: &[u8]) -> Result<Vec<Vec<u8>>, NoMemory>
        ensures ok { Makes (erases (with_files files.old self.old) name.now)
            (with_files files.old self.old) (with_files files.new self.new) result }
        ensures there { OnOk result (IsOpenIn files.new self.new.phase) }
        ensures err { OnErr result (with_files files.new self.new ≡ with_files files.old self.old) }
    {
        let Some(at) = files.find_to_erase(self.setup.names, name) else {
            return self.refuse_access(files, Answer::Status(FILE_NOT_FOUND));
        };
        if self.setup.lacks(RIGHTS_TO_ERASE) {
            return self.refuse_access(files, refused_access(REASON_NOT_PERMITTED));
        }
        let answers = erased(self.alloc, self.limit)?;
        files.remove(at);
        self.kept = Some(Asked::plain());
        self.phase = Phase::Ready;
        Ok(answers)
    }

    /// Answers an Access that may not open its file, by a Status with this code and nothing else.
    pub fn refuse_open(&mut self, files: &FileTable, code: u16) -> Result<Vec<Vec<u8>>, NoMemory>
        ensures session { OnOk result (self.new ≡ refused_session self.old) }
        ensures answer { IfOk result (AreAnswers self.old.limit (bare_status code ∷ [])) }
        ensures no_memory { OnErr result (self.new ≡ self.old) }
        ensures most { self.old.limit ≤ max_nsp_message }
    {
        // This line is only for the prover: it lets a proof see what is true of every session.
        let _ = &self.limit;
        self.refuse_access(files, Answer::Status(code))
    }

    /// Serves what was read already, over these files: the message or fault that `item_at` answered, and the offset
    /// after it (DAP 5.6.0, message sequences). A file that is open is in the table.
    ///
    /// The only refusal is [`NoMemory`]. Nothing has changed then, and the same call may be made again. A message
    /// that has no answer and stores no record takes no memory.
    pub fn serve_item(
        &mut self,
        files: &mut FileTable,
        item: Item<'_>,
        next: usize,
    ) -> Result<Served, NoMemory>
        requires spelled { (m : TheMessage) → item ≡ Whole m → IsSpelled m }
        requires there { IsOpenIn files.old self.old.phase }
        ensures serves { IfOk result (λ served. ServesItem item.entry
            (with_files files.old self.old) (with_files files.new self.new) served.answers) }
        ensures next { IfOk result (λ served. served.next ≡ next) }
        ensures there { IsOpenIn files.new self.new.phase }
        ensures no_memory { OnErr result ((files.new ≡ files.old) × (self.new ≡ self.old)) }
        ensures unrefused { (c : GroupedItems) → IsIn c (with_files files.old self.old)
            → IsSilentIn self.old.setup c item.entry → IsOk result }
    {
        let answers = self.answer_item(files, item)?;
        Ok(Served { answers, next })
    }

    /// Answers a message, or bytes of which no message can be read.
    pub(crate) fn answer_item(
        &mut self,
        files: &mut FileTable,
        item: Item<'_>,
    ) -> Result<Vec<Vec<u8>>, NoMemory>
        requires fits { ItemFits item }
        requires there { IsOpenIn files.old self.old.phase }
        ensures ok { Makes (move (with_files files.old self.old) item.entry)
            (with_files files.old self.old) (with_files files.new self.new) result }
        ensures there { IsOpenIn files.new self.new.phase }
        ensures err { OnErr result (with_files files.new self.new ≡ with_files files.old self.old) }
        ensures silent { is_silent self.old.phase item.entry ≡ true → IsOk result }
        ensures most { self.old.limit ≤ max_nsp_message }
    {
        match self.phase.step(item) {
            Ok(step) => self.act(files, &step),
            Err(code) => self.reply(Answer::Status(code), self.phase.after_refusal()),
        }
    }
}
