//! File transfers: all records to the peer, or records from it until the stream ends.

ghost use Rattle.std.specs.Prelude.{OnOk, ◌≡◌, ◌≤◌, ◌<◌, ◌+◌, length, IfOk, OnErr};
ghost use Rattle.dap_accessed.specs.Inner.Moves.{HasFetched, Makes, fetched_phase};
ghost use Rattle.dap_accessed.specs.Sessions.{IsOpenIn, with_files};
ghost use Rattle.dap_accessed.specs.Inner.Steps.{step_move};
ghost use Rattle.dap_accessed.specs.declared.step.Step.TheVariants as steps;
ghost use Rattle.rec_file.specs.Limits.{max_record_number};
ghost use Rattle.dap_accessed.specs.Records.{at_number};

use crate::answers::{Answer, Room, append, filedata_len, too_large};
use crate::fault::NoMemory;
use crate::phase::{OpenFile, Phase};
use crate::refusing::store_refused;
use crate::session::Session;
use crate::table::FileTable;
use dap_msg::codes::END_OF_FILE;
use rec_file::{Stream, first_record};

/// Returns the stream at another number, with no current record.
pub(crate) fn at_number(mut stream: Stream, number: u32) -> Stream
    requires above { 1 ≤ number }
    requires within { number ≤ max_record_number + 1 }
    ensures { result ≡ at_number number stream }
{
    stream.seek(number);
    stream
}

impl Session {
    /// Serves a Filedata of a Store.
    pub(crate) fn store(
        &mut self,
        files: &mut FileTable,
        opened: OpenFile,
        stream: Stream,
        ordinal: u32,
        body: &[u8],
    ) -> Result<Vec<Vec<u8>>, NoMemory>
        requires { opened.at < length files.old }
        ensures ok { Makes
            (step_move (steps.Store opened stream ordinal body.entry)
            (with_files files.old self.old))
            (with_files files.old self.old) (with_files files.new self.new) result }
        ensures there { OnOk result (IsOpenIn files.new self.new.phase) }
        ensures err { OnErr result (with_files files.new self.new ≡ with_files files.old self.old) }
    {
        let room = Room::new(self.alloc)?;
        let mut after = stream;
        let reply = files.put(opened.at, &mut after, None, body)?;
        let ordinal = ordinal.saturating_add(1);
        match reply {
            Ok(_) => {
                self.phase = Phase::Storing(opened, after, ordinal);
                Ok(self.none())
            }
            Err(refusal) => {
                self.phase = Phase::Dropping(opened, after, ordinal);
                let answer = store_refused(refusal, ordinal);
                Ok(room.fill(self.limit, self.setup.full, answer))
            }
        }
    }

    /// Gives the records from the stream's next on.
    pub(crate) fn fetch(
        &mut self,
        files: &mut FileTable,
        opened: OpenFile,
        stream: Stream,
    ) -> Result<Vec<Vec<u8>>, NoMemory>
        requires { opened.at < length files.old }
        ensures ok { Makes (step_move (steps.Fetch opened stream) (with_files files.old self.old))
            (with_files files.old self.old) (with_files files.new self.new) result }
        ensures there { OnOk result (IsOpenIn files.new self.new.phase) }
        ensures err { OnErr result (with_files files.new self.new ≡ with_files files.old self.old) }
    {
        let (answers, phase) = self.batch(files, opened, stream)?;
        self.phase = phase;
        Ok(answers)
    }

    /// Returns the records from the stream's next on, and the phase after them.
    fn batch(
        &self,
        files: &FileTable,
        opened: OpenFile,
        stream: Stream,
    ) -> Result<(Vec<Vec<u8>>, Phase), NoMemory>
        requires { opened.at < length files.now }
        ensures phase { IfOk result (λ r. r.1 ≡ fetched_phase
            (with_files files.now self.now) opened stream) }
        ensures answers { IfOk result (λ r. HasFetched
            (with_files files.now self.now) opened stream r.0) }
        ensures there { IfOk result (λ r. IsOpenIn files.now r.1) }
    {
        let file = files.file(opened.at);
        let mut answers = self.none();
        let mut next = stream.next();
        while let Some((number, body)) = first_record(file, next) {
            if filedata_len(body) > usize::from(self.limit) {
                let answer = too_large().coded(self.setup.full);
                append(self.alloc, self.limit, answer, &mut answers)?;
                return Ok((answers, Phase::Stopped(opened, at_number(stream, number))));
            }
            append(
                self.alloc,
                self.limit,
                Answer::Record {
                    number: number.to_le_bytes(),
                    body,
                },
                &mut answers,
            )?;
            next = number + 1;
        }
        append(
            self.alloc,
            self.limit,
            Answer::Status(END_OF_FILE),
            &mut answers,
        )?;
        Ok((answers, Phase::Connected(opened, at_number(stream, next))))
    }
}
