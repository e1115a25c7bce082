//! What an item asks for, by the phase in which it comes.

ghost use Rattle.std.specs.Prelude.{◌≡◌, ◌≤◌};
ghost use Rattle.dap_msg.specs.declared.items.Item.TheVariants.{Whole};
ghost use Rattle.dap_msg.specs.Items.{ItemFits};
ghost use Rattle.dap_msg.specs.Decoding.{IsSpelled};
ghost use Rattle.dap_accessed.specs.Standing.{Files};
ghost use Rattle.dap_accessed.specs.Effects.{control_status};
ghost use Rattle.dap_accessed.specs.Replies.{bare_status};
ghost use Rattle.dap_accessed.specs.Transfers.{continue_refused};
ghost use Rattle.dap_accessed.specs.Sessions.{IsOpenIn};
ghost use Rattle.dap_accessed.specs.Inner.Steps.{AsksFor, HasOpen, IsCommon};
ghost use Rattle.rec_file.specs.Limits.{max_record_number};
ghost use Rattle.dap_accessed.specs.declared.phase.Phase.TheVariants as phases;

use crate::answers::Answer;
use crate::opened::without_current;
use crate::phase::{OpenFile, Phase};
use crate::refusing::refused;
use crate::transfer::at_number;
use crate::verbs::{Verb, verb_of};
use dap_msg::codes::{
    CMPFUNC_CLOSE, CMPFUNC_END_OF_STREAM, CMPFUNC_PURGE, CMPFUNC_SKIP, CONFUNC_ABORT,
    CONFUNC_AGAIN, CONFUNC_RESUME, CONFUNC_SKIP, END_OF_FILE, SUCCESS, TYPE_COMPLETE,
    TYPE_CONFIGURATION, TYPE_CONTINUE, TYPE_CONTROL, invalid, out_of_sequence, unsupported,
};
use dap_msg::{Attributes, ControlFields, Item, MessageValue, is_too_small, limit_of, status_for};
use rec_file::{Refusal, Stream};

/// What an item asks for that is not refused, with all that is needed to do it.
#[derive(Drop)]
pub(crate) enum Step<'a> {
    /// A phase, without an answer.
    Enter(Phase),
    /// One short answer, and the phase after it.
    Reply(Answer<'a>, Phase),
    /// A peer that takes messages of this many bytes.
    Configure(u16),
    /// The attributes of a file that an Access would make.
    Keep(Attributes<'a>),
    /// A file.
    Access { func: u8, name: &'a [u8], fac: u32 },
    /// The end of an access, without the file that it made.
    Purge(OpenFile),
    /// The record that the Control is for.
    Get(OpenFile, Stream, ControlFields<'a>),
    /// The records from the stream's next on.
    Fetch(OpenFile, Stream),
    /// A record of which the Control has the key, if any, and the next item the bytes.
    Expect(OpenFile, Stream, ControlFields<'a>),
    /// A new record, under a key where there is one, unless the key was refused.
    Put(OpenFile, Stream, Result<Option<u32>, Refusal>, &'a [u8]),
    /// A record in place of the current one.
    Update(OpenFile, Stream, &'a [u8]),
    /// The current record removed.
    Delete(OpenFile, Stream),
    /// A new record of a Store.
    Store(OpenFile, Stream, u32, &'a [u8]),
}

impl Phase {
    /// Returns what an item asks for in this phase, or the code of the Status by which it is refused: no message can be
    /// read, it is out of sequence, or it asks for nothing that is done.
    pub(crate) fn step<'a>(self, item: Item<'a>) -> Result<Step<'a>, u16>
        requires fits { ItemFits item }
        requires there { (files : Files) × IsOpenIn files self }
        ensures { AsksFor self item.entry result }
    {
        let message = match item {
            Item::Whole(message) => message,
            Item::Malformed(fault) => return Err(status_for(&fault)),
        };
        match self {
            Phase::Fresh => fresh(message),
            Phase::Ready => ready(message),
            Phase::Opened(opened) => self.opened(opened, message),
            Phase::Connected(opened, stream) => self.connected(opened, stream, message),
            Phase::PutDue(opened, stream, key) => match message {
                MessageValue::Filedata { payload, .. } => Ok(Step::Put(
                    opened, stream, key, payload.0,
                )),
                _ => Err(out_of_sequence(message.number())),
            },
            Phase::UpdateDue(opened, stream) => match message {
                MessageValue::Filedata { payload, .. } => Ok(Step::Update(
                    opened, stream, payload.0,
                )),
                _ => Err(out_of_sequence(message.number())),
            },
            Phase::Storing(opened, stream, ordinal) => match message {
                MessageValue::Filedata { payload, .. } => {
                    Ok(Step::Store(opened, stream, ordinal, payload.0))
                }
                _ => self.otherwise(opened, message),
            },
            Phase::Dropping(opened, stream, ordinal) => {
                self.dropping(opened, stream, ordinal, message)
            }
            Phase::Stopped(opened, stream) => self.stopped(opened, stream, message),
        }
    }

    /// Returns what a message asks for where a file is open without a stream.
    fn opened<'a>(self, opened: OpenFile, message: MessageValue<'a>) -> Result<Step<'a>, u16>
        requires { self ≡ phases.Opened opened }
        ensures { AsksFor self (Whole message.entry) result }
    {
        match message {
            MessageValue::Control(control) => match verb_of(&control) {
                Verb::Connect => Ok(Step::Reply(
                    Answer::Ack,
                    Phase::Connected(opened, Stream::new(opened.rights)),
                )),
                verb => Err(control_refused(verb)),
            },
            _ => self.otherwise(opened, message),
        }
    }

    /// Returns what a message asks for where a stream is connected.
    fn connected<'a>(
        self,
        opened: OpenFile,
        stream: Stream,
        message: MessageValue<'a>,
    ) -> Result<Step<'a>, u16>
        requires { self ≡ phases.Connected opened stream }
        ensures { AsksFor self (Whole message.entry) result }
    {
        match message {
            MessageValue::Control(control) => match verb_of(&control) {
                Verb::Get => Ok(Step::Get(opened, stream, control)),
                Verb::Fetch if stream.rights().get => Ok(Step::Fetch(opened, stream)),
                Verb::Fetch => Ok(Step::Reply(
                    refused(Refusal::NotPermitted),
                    Phase::Connected(opened, without_current(stream)),
                )),
                Verb::Put => Ok(Step::Expect(opened, stream, control)),
                Verb::Update => Ok(Step::Enter(Phase::UpdateDue(opened, stream))),
                Verb::Store => Ok(Step::Enter(Phase::Storing(opened, stream, 0))),
                Verb::Delete => Ok(Step::Delete(opened, stream)),
                Verb::Rewind => Ok(Step::Reply(
                    Answer::Status(SUCCESS),
                    Phase::Connected(opened, at_number(stream, 1)),
                )),
                verb => Err(control_refused(verb)),
            },
            _ => self.otherwise(opened, message),
        }
    }

    /// Returns what a message asks for in a Store that drops what comes.
    fn dropping<'a>(
        self,
        opened: OpenFile,
        stream: Stream,
        ordinal: u32,
        message: MessageValue<'a>,
    ) -> Result<Step<'a>, u16>
        requires { self ≡ phases.Dropping opened stream ordinal }
        ensures { AsksFor self (Whole message.entry) result }
    {
        match message {
            MessageValue::Filedata { .. } => Ok(Step::Enter(Phase::Dropping(
                opened,
                stream,
                ordinal.saturating_add(1),
            ))),
            MessageValue::Contran { func } => match func {
                CONFUNC_SKIP => Ok(Step::Enter(Phase::Storing(opened, stream, ordinal))),
                _ => Err(continuation_refused(func)),
            },
            _ => self.otherwise(opened, message),
        }
    }

    /// Returns what a message asks for after a fetch that stopped.
    fn stopped<'a>(
        self,
        opened: OpenFile,
        stream: Stream,
        message: MessageValue<'a>,
    ) -> Result<Step<'a>, u16>
        requires phase { self ≡ phases.Stopped opened stream }
        requires next { stream.next ≤ max_record_number }
        ensures { AsksFor self (Whole message.entry) result }
    {
        match message {
            MessageValue::Contran { func } => match func {
                CONFUNC_AGAIN => Ok(Step::Fetch(opened, stream)),
                CONFUNC_SKIP => Ok(Step::Fetch(opened, at_number(stream, stream.next() + 1))),
                CONFUNC_ABORT => Ok(Step::Reply(
                    Answer::Status(END_OF_FILE),
                    Phase::Connected(opened, stream),
                )),
                _ => Err(continuation_refused(func)),
            },
            _ => self.otherwise(opened, message),
        }
    }

    /// Returns what a message asks for in each phase in which a file is open, unless the phase says otherwise.
    fn otherwise<'a>(self, opened: OpenFile, message: MessageValue<'a>) -> Result<Step<'a>, u16>
        requires there { HasOpen self opened }
        requires common { IsCommon self message }
        ensures { AsksFor self (Whole message.entry) result }
    {
        match message {
            MessageValue::Control(control) => Err(control_refused(verb_of(&control))),
            MessageValue::Accomp(complete) => match complete.func {
                CMPFUNC_CLOSE => Ok(Step::Reply(Answer::Complete, Phase::Ready)),
                CMPFUNC_PURGE => Ok(Step::Purge(opened)),
                CMPFUNC_END_OF_STREAM => match self {
                    Phase::Opened(_) => Err(out_of_sequence(TYPE_COMPLETE)),
                    _ => Ok(Step::Reply(Answer::Complete, Phase::Opened(opened))),
                },
                CMPFUNC_SKIP => Err(unsupported(TYPE_COMPLETE)),
                _ => Err(invalid(TYPE_COMPLETE)),
            },
            _ => Err(out_of_sequence(message.number())),
        }
    }
}

/// Returns what a message asks for where the peer's Config is due.
fn fresh<'a>(message: MessageValue<'a>) -> Result<Step<'a>, u16>
    ensures { AsksFor phases.Fresh (Whole message.entry) result }
{
    match message {
        MessageValue::Config(config) if is_too_small(config.bufsiz) => Err(invalid(
            TYPE_CONFIGURATION,
        )),
        MessageValue::Config(config) => Ok(Step::Configure(limit_of(config.bufsiz))),
        MessageValue::Other { .. } => Ok(Step::Enter(Phase::Fresh)),
        _ => Err(out_of_sequence(message.number())),
    }
}

/// Returns what a message asks for where no file is open.
fn ready<'a>(message: MessageValue<'a>) -> Result<Step<'a>, u16>
    requires { IsSpelled message }
    ensures { AsksFor phases.Ready (Whole message.entry) result }
{
    match message {
        MessageValue::Attrib(attributes) => Ok(Step::Keep(attributes)),
        MessageValue::Access(access) => Ok(Step::Access {
            func: access.func,
            name: access.name.0,
            fac: access.fac,
        }),
        MessageValue::Other { .. } => Ok(Step::Enter(Phase::Ready)),
        _ => Err(out_of_sequence(message.number())),
    }
}

/// Returns the code where a Control is out of sequence and a file is open.
fn control_refused(verb: Verb) -> u16
    ensures { bare_status result ≡ control_status verb }
{
    match verb {
        Verb::Unknown => unsupported(TYPE_CONTROL),
        _ => out_of_sequence(TYPE_CONTROL),
    }
}

/// Returns the code where a Continue Transfer asks for nothing that is done here.
fn continuation_refused(func: u8) -> u16
    ensures { bare_status result ≡ continue_refused func }
{
    match func {
        CONFUNC_RESUME => unsupported(TYPE_CONTINUE),
        _ => invalid(TYPE_CONTINUE),
    }
}
