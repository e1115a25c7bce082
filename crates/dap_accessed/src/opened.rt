//! What is served while a file is open.

ghost use Rattle.std.specs.Prelude.{OnOk, ◌≡◌, ◌<◌, length, OnErr};
ghost use Rattle.dap_accessed.specs.Records.{stream_without_current};
ghost use Rattle.dap_accessed.specs.Inner.Moves.{Makes, Moves, refusal_move, refuses_large};
ghost use Rattle.dap_accessed.specs.Sessions.{IsOpenIn, with_files};
ghost use Rattle.dap_accessed.specs.Inner.Steps.{step_move};
ghost use Rattle.dap_accessed.specs.declared.step.Step.TheVariants as steps;

use crate::answers::{Answer, Room, filedata_len, one, too_large};
use crate::fault::NoMemory;
use crate::phase::{OpenFile, Phase};
use crate::refusing::{refused, settled};
use crate::session::Session;
use crate::table::FileTable;
use crate::verbs::{key_for, pick_for};
use dap_msg::ControlFields;
use rec_file::{Refusal, Stream};

/// Returns the stream with no current record.
pub(crate) fn without_current(mut stream: Stream) -> Stream
    ensures { result ≡ stream_without_current stream }
{
    stream.forget();
    stream
}

impl Session {
    /// Ends an access, without the file that it made.
    pub(crate) fn purge(
        &mut self,
        files: &mut FileTable,
        opened: OpenFile,
    ) -> Result<Vec<Vec<u8>>, NoMemory>
        requires { opened.at < length files.old }
        ensures ok { Makes (step_move (steps.Purge opened) (with_files files.old self.old))
            (with_files files.old self.old) (with_files files.new self.new) result }
        ensures there { OnOk result (IsOpenIn files.new self.new.phase) }
        ensures err { OnErr result (with_files files.new self.new ≡ with_files files.old self.old) }
    {
        let answers = self.reply(Answer::Complete, Phase::Ready)?;
        if opened.is_new {
            files.remove(opened.at);
        }
        Ok(answers)
    }

    /// Waits for the record of a PUT.
    pub(crate) fn expect(
        &mut self,
        files: &mut FileTable,
        opened: OpenFile,
        stream: Stream,
        control: &ControlFields<'_>,
    ) -> Vec<Vec<u8>>
        requires { opened.at < length files.old }
        ensures moves { Moves (with_files files.old self.old)
            (step_move (steps.Expect opened stream control.now) (with_files files.old self.old))
            (with_files files.new self.new) result }
        ensures there { IsOpenIn files.new self.new.phase }
    {
        let key = key_for(files.file(opened.at), stream, control);
        self.enter(Phase::PutDue(opened, stream, key))
    }

    /// Gives the record that a Control asks for.
    #[tactic(auto, using(dap_msg::proofs::ForCallers::file_data_measured))]
    pub(crate) fn get(
        &mut self,
        files: &mut FileTable,
        opened: OpenFile,
        stream: Stream,
        control: &ControlFields<'_>,
    ) -> Result<Vec<Vec<u8>>, NoMemory>
        requires { opened.at < length files.old }
        ensures ok { Makes
            (step_move (steps.Get opened stream control.now) (with_files files.old self.old))
            (with_files files.old self.old) (with_files files.new self.new) result }
        ensures there { OnOk result (IsOpenIn files.new self.new.phase) }
        ensures err { OnErr result (with_files files.new self.new ≡ with_files files.old self.old) }
    {
        let file = files.file(opened.at);
        let pick = match pick_for(file, stream, control) {
            Ok(pick) => pick,
            Err(refusal) => return self.refuse(files, opened, stream, refusal),
        };
        let mut after = stream;
        let (number, body) = match after.read(file, pick) {
            Ok(read) => read,
            Err(refusal) => return self.refuse(files, opened, stream, refusal),
        };
        if filedata_len(body) > usize::from(self.limit) {
            return self.refuse_large(files, opened, stream);
        }
        let answers = one(
            self.alloc,
            self.limit,
            Answer::Record {
                number: number.to_le_bytes(),
                body,
            },
        )?;
        self.phase = Phase::Connected(opened, after);
        Ok(answers)
    }

    /// Answers an operation that is refused without a change of the file.
    fn refuse(
        &mut self,
        files: &FileTable,
        opened: OpenFile,
        stream: Stream,
        refusal: Refusal,
    ) -> Result<Vec<Vec<u8>>, NoMemory>
        requires { opened.at < length files.now }
        ensures ok { Makes (refusal_move (with_files files.now self.old) opened stream refusal)
            (with_files files.now self.old) (with_files files.now self.new) result }
        ensures there { OnOk result (IsOpenIn files.now self.new.phase) }
        ensures err { OnErr result (with_files files.now self.new ≡ with_files files.now self.old) }
    {
        self.reply(
            refused(refusal),
            Phase::Connected(opened, without_current(stream)),
        )
    }

    /// Answers a GET of a record that is longer than the peer takes.
    fn refuse_large(
        &mut self,
        files: &FileTable,
        opened: OpenFile,
        stream: Stream,
    ) -> Result<Vec<Vec<u8>>, NoMemory>
        requires { opened.at < length files.now }
        ensures ok { Makes (refuses_large (with_files files.now self.old) opened stream)
            (with_files files.now self.old) (with_files files.now self.new) result }
        ensures there { OnOk result (IsOpenIn files.now self.new.phase) }
        ensures err { OnErr result (with_files files.now self.new ≡ with_files files.now self.old) }
    {
        self.reply(
            too_large(),
            Phase::Connected(opened, without_current(stream)),
        )
    }

    /// Deletes the stream's current record.
    pub(crate) fn delete(
        &mut self,
        files: &mut FileTable,
        opened: OpenFile,
        stream: Stream,
    ) -> Result<Vec<Vec<u8>>, NoMemory>
        requires { opened.at < length files.old }
        ensures ok { Makes (step_move (steps.Delete opened stream) (with_files files.old self.old))
            (with_files files.old self.old) (with_files files.new self.new) result }
        ensures there { OnOk result (IsOpenIn files.new self.new.phase) }
        ensures err { OnErr result (with_files files.new self.new ≡ with_files files.old self.old) }
    {
        let room = Room::new(self.alloc)?;
        let mut after = stream;
        let reply = files.delete(opened.at, &mut after);
        self.phase = Phase::Connected(opened, after);
        Ok(room.fill(self.limit, self.setup.full, settled(reply)))
    }

    /// Stores the record of a Filedata, under a key where there is one, unless the key was refused.
    pub(crate) fn put(
        &mut self,
        files: &mut FileTable,
        opened: OpenFile,
        stream: Stream,
        key: Result<Option<u32>, Refusal>,
        body: &[u8],
    ) -> Result<Vec<Vec<u8>>, NoMemory>
        requires { opened.at < length files.old }
        ensures ok { Makes
            (step_move (steps.Put opened stream key body.entry) (with_files files.old self.old))
            (with_files files.old self.old) (with_files files.new self.new) result }
        ensures there { OnOk result (IsOpenIn files.new self.new.phase) }
        ensures err { OnErr result (with_files files.new self.new ≡ with_files files.old self.old) }
    {
        let key = match key {
            Ok(key) => key,
            Err(refusal) => return self.refuse(files, opened, stream, refusal),
        };
        let room = Room::new(self.alloc)?;
        let mut after = stream;
        let reply = files.put(opened.at, &mut after, key, body)?;
        self.phase = Phase::Connected(opened, after);
        Ok(room.fill(self.limit, self.setup.full, settled(reply)))
    }

    /// Stores the record of a Filedata in place of the stream's current one.
    pub(crate) fn update(
        &mut self,
        files: &mut FileTable,
        opened: OpenFile,
        stream: Stream,
        body: &[u8],
    ) -> Result<Vec<Vec<u8>>, NoMemory>
        requires { opened.at < length files.old }
        ensures ok { Makes
            (step_move (steps.Update opened stream body.entry) (with_files files.old self.old))
            (with_files files.old self.old) (with_files files.new self.new) result }
        ensures there { OnOk result (IsOpenIn files.new self.new.phase) }
        ensures err { OnErr result (with_files files.new self.new ≡ with_files files.old self.old) }
    {
        let room = Room::new(self.alloc)?;
        let mut after = stream;
        let reply = files.update(opened.at, &mut after, body)?;
        self.phase = Phase::Connected(opened, after);
        Ok(room.fill(self.limit, self.setup.full, settled(reply)))
    }
}
