//! The client, over lines.

ghost use Rattle.std.specs.Prelude.{◌≡◌, ◌≤◌, ◌⊎◌, [], ℕ, List, Some, OnOk, OnErr, IfOk, IfErr, MatchBool, ◌||◌, ◌&&◌, false, length, nat_lt};
ghost use Rattle.dap_msg.specs.BothEnds.{min_buffer};
ghost use Rattle.dap_msg.specs.Blocked.{bodies};
ghost use Rattle.dap_msg.specs.Fitting.{FieldsFit};
ghost use Rattle.dap_msg.specs.declared.message.Message.TheVariants.{Config};
ghost use Rattle.nsp_link.specs.Link.{SetupFault};
ghost use Rattle.dap_end.specs.Ports.{new_port};
ghost use Rattle.dap_end.specs.Asking.{HasAsked};
ghost use Rattle.dap_end.specs.Hearing.{hears};
ghost use Rattle.dap_end.specs.Done.{nothing_asked};
ghost use Rattle.dap_end.specs.Turns.{WentOn, TakesPacket};
ghost use Rattle.texts.specs.Adding.{Adds};
ghost use Rattle.dap_live.specs.declared.asking.Came.{Came as TheCame};
ghost use Rattle.dap_live.specs.Inner.Reaching.{Reaches};
ghost use Rattle.dap_live.specs.Each.{each_after, waits_told};
ghost use Rattle.dap_live.specs.Asking.{AnswersAsk, AskingDoes, ClientGoesOn, DoesAskOrder, Ends, Resends, TellsAlone, WasTold, begun, came_by, has_more as has_more_of};
ghost use Rattle.dap_live.specs.Inner.Saying.{front_text};

use crate::answers::{
    push_ask_refusal, push_done, push_link_refusal, push_refused, push_taken, push_told,
};
use crate::ask_orders::{AskOrder, read_ask_order};
use crate::orders::{Between, set_up_anew};
use crate::sending::{has_message, is_left, push_again, say_ack, waits};
use dap_accessing::{AskFault, Report, Request};
use dap_end::{AskingEnd, EndFault, TakeFault};
use dap_msg::Configuration;
use dap_text::{RequestText, Text};
use linewise::{Answer, Answers, Became};
use nsp_link::{Got, LinkFault, LinkSetup};
use std::alloc::{AllocError, Global};
use texts::{push_number, push_str};

/// The client, as an answerer of lines.
#[derive(Drop)]
pub struct Asking {
    alloc: Global,
    /// The end.
    pub end: AskingEnd,
    /// How its link is set up.
    pub setup: LinkSetup,
    /// The reports that wait to be printed: more than those of one line only where memory was refused.
    pub reports: Vec<Report>,
    /// Each record of a fetch is reported by itself.
    pub is_each: bool,
    /// How many records of the batch under way were reported by themselves.
    pub told: usize,
}

impl Asking {
    /// Creates an end of which nothing was asked, which says this of itself, with a BUFSIZ of at least 64. Refused as
    /// [`AskingEnd::with_identity`] is.
    pub fn new(
        alloc: Global,
        identity: Configuration,
        setup: LinkSetup,
    ) -> Result<Asking, LinkFault>
        requires low { min_buffer ≤ identity.bufsiz }
        requires fits { FieldsFit (Config identity) }
        ensures after { IfOk result (λ a. HasAsked nothing_asked a.end) }
        ensures port { IfOk result (λ a. a.end.port ≡ new_port setup) }
        ensures identity { IfOk result (λ a. a.end.present.identity ≡ identity) }
        ensures setup { IfOk result (λ a. a.setup ≡ setup) }
        ensures reports { IfOk result (λ a. a.reports.items ≡ []) }
        ensures each { IfOk result (λ a. (a.is_each ≡ false) × (a.told ≡ 0)) }
        ensures err { IfErr result (SetupFault setup) }
    {
        match AskingEnd::with_identity(alloc, identity, setup) {
            Ok(end) => {
                Ok(Asking {
                    alloc,
                    end,
                    setup,
                    reports: Vec::new(alloc),
                    is_each: false,
                    told: 0,
                })
            }
            Err(fault) => Err(fault),
        }
    }
}

/// What an order came to.
#[derive(Clone, Copy)]
pub enum Came {
    /// The answer has the reports.
    Told(Became),
    /// It hasn't.
    Untold(Became),
}

/// Receives a packet, and goes on.
fn take(
    end: &mut AskingEnd,
    bytes: &[u8],
    packets: &mut Vec<Vec<u8>>,
    reports: &mut Vec<Report>,
) -> Result<Got, TakeFault>
    requires { packets.old.items ≡ [] }
    ensures { TakesPacket (hears reports.old.items reports.new.items) end.old end.new bytes.now []
        (bodies packets.new.items) result }
{
    end.take(bytes, packets, reports)
}

/// Returns what became of a packet: the answer has the reports where the link took it.
fn came_of(taken: Result<Got, TakeFault>, became: Became) -> Came
    ensures { result ≡ came_by taken became }
{
    match taken {
        Err(TakeFault::Refused(_)) => Came::Untold(became),
        _ => Came::Told(became),
    }
}

/// Writes the answer to a packet.
fn take_packet(
    asking: &mut Asking,
    digits: &Text<'_>,
    text: &mut Vec<u8>,
) -> Result<Came, AllocError>
    requires { text.old.items ≡ [] }
    ensures ok { IfOk result
        (AskingDoes asking.old (AskOrder.Packet digits.now) asking.new text.new.items) }
    ensures err { OnErr result (Reaches asking.old (AskOrder.Packet digits.now) asking.new) }
{
    let bytes = digits.to_vec(asking.alloc)?;
    let mut packets = Vec::new(asking.alloc);
    let taken = take(&mut asking.end, &bytes, &mut packets, &mut asking.reports);
    let became = push_taken(text, taken, asking, &packets)?;
    Ok(came_of(taken, became))
}

/// Reads, passes on and writes what is left.
fn go_on(
    end: &mut AskingEnd,
    packets: &mut Vec<Vec<u8>>,
    reports: &mut Vec<Report>,
) -> Result<(), EndFault>
    requires { packets.old.items ≡ [] }
    ensures { WentOn (hears reports.old.items reports.new.items) end.old end.new []
        (bodies packets.new.items) result }
{
    end.go_on(packets, reports)
}

/// What is said before what going on comes to.
#[derive(Clone, Copy)]
pub(crate) enum Front {
    /// A request was asked, by this many messages.
    Asked(usize),
    /// None was, since a report is due.
    Busy,
}

/// Appends what is said before what going on comes to.
fn push_front(text: &mut Vec<u8>, front: Front) -> Result<(), AllocError>
    ensures { OnOk result (Adds text.old text.new (front_text front)) }
{
    match front {
        Front::Asked(count) => {
            push_number(text, "asked ", count)?;
            push_str(text, "\n")
        }
        Front::Busy => push_refused(text, "ask-busy"),
    }
}

/// Goes on, and says what comes of it after this.
fn go_on_after(asking: &mut Asking, front: Front, text: &mut Vec<u8>) -> Result<Came, AllocError>
    requires { text.old.items ≡ [] }
    ensures ok { IfOk result
        (ClientGoesOn asking.old (front_text front) asking.new text.new.items) }
    ensures err { OnErr result ((said : List ℕ) × (came : TheCame)
        × ClientGoesOn asking.old (front_text front) asking.new said came) }
{
    let mut packets = Vec::new(asking.alloc);
    let gone = go_on(&mut asking.end, &mut packets, &mut asking.reports);
    push_front(text, front)?;
    Ok(Came::Told(push_done(text, asking, &packets, gone)?))
}

/// Returns whether something is left to do for the client: a message that came isn't read, or something isn't sent.
fn has_more(end: &AskingEnd) -> bool
    ensures { result ≡ has_more_of end.now }
{
    !end.has_failed() && (has_message(end.link()) || is_left(end.link(), end.waiting(), false))
}

/// Goes on after segments that are sent again, and says what comes of it after their lines.
fn go_on_again(asking: &mut Asking, text: &mut Vec<u8>) -> Result<Came, AllocError>
    ensures ok { IfOk result (ClientGoesOn asking.old text.old.items asking.new text.new.items) }
    ensures err { OnErr result ((said : List ℕ) × (came : TheCame)
        × ClientGoesOn asking.old text.old.items asking.new said came) }
{
    let mut packets = Vec::new(asking.alloc);
    let gone = go_on(&mut asking.end, &mut packets, &mut asking.reports);
    Ok(Came::Told(push_done(text, asking, &packets, gone)?))
}

/// Goes on where something is left, or prints what waits to be reported.
fn go_on_if_left(asking: &mut Asking, text: &mut Vec<u8>) -> Result<Came, AllocError>
    ensures ok { IfOk result (λ came. MatchBool (has_more_of asking.old.end)
        (ClientGoesOn asking.old text.old.items asking.new text.new.items came)
        (TellsAlone asking.old text.old.items asking.new text.new.items came)) }
    ensures err { OnErr result ((said : List ℕ) × (came : TheCame)
        × MatchBool (has_more_of asking.old.end)
        (ClientGoesOn asking.old text.old.items asking.new said came)
        (TellsAlone asking.old text.old.items asking.new said came)) }
{
    if has_more(&asking.end) {
        go_on_again(asking, text)
    } else {
        push_told(text, asking)?;
        Ok(Came::Told(Became::Done))
    }
}

/// Sends all segments again that aren't acknowledged, and goes on, on a link that runs.
fn resend_running(asking: &mut Asking, text: &mut Vec<u8>) -> Result<Came, AllocError>
    requires { text.old.items ≡ [] }
    ensures ok { IfOk result (Resends asking.old asking.new text.new.items) }
    ensures err { OnErr result ((asking.new ≡ asking.old) ⊎ ((said : List ℕ) × (came : TheCame)
        × Resends asking.old asking.new said came)) }
{
    push_again(asking.end.link(), text)?;
    go_on_if_left(asking, text)
}

/// Sends all segments again that aren't acknowledged, and goes on.
fn resend(asking: &mut Asking, text: &mut Vec<u8>) -> Result<Came, AllocError>
    requires { text.old.items ≡ [] }
    ensures ok { IfOk result (AskingDoes asking.old AskOrder.Resend asking.new text.new.items) }
    ensures err { OnErr result (Reaches asking.old AskOrder.Resend asking.new) }
{
    if asking.end.link().has_failed() {
        return Ok(Came::Untold(push_link_refusal(text, LinkFault::Failed)?));
    }
    resend_running(asking, text)
}

/// Returns whether each record is reported by itself after this request, which says so or doesn't.
fn is_each_after(each: bool, request: &Request, before: bool) -> bool
    ensures { result ≡ each_after each request.now before }
{
    match request {
        Request::Fetch => each,
        _ => before,
    }
}

/// Notes that a request was asked: none of its records was reported.
fn begin_request(asking: &mut Asking, each: bool, request: &Request)
    ensures { asking.new ≡ begun each request.now asking.old }
{
    asking.is_each = is_each_after(each, request, asking.is_each);
    asking.told = 0;
}

/// Asks a request, on a link that runs.
fn ask_request(
    asking: &mut Asking,
    each: bool,
    request: &Request,
    text: &mut Vec<u8>,
) -> Result<Came, AllocError>
    requires { text.old.items ≡ [] }
    ensures ok { IfOk result (AnswersAsk each asking.old request.now asking.new text.new.items) }
    ensures err { OnErr result ((asking.new ≡ asking.old) ⊎ ((said : List ℕ) × (came : TheCame)
        × AnswersAsk each asking.old request.now asking.new said came)) }
{
    match asking.end.ask(request) {
        Ok(count) => {
            begin_request(asking, each, request);
            go_on_after(asking, Front::Asked(count), text)
        }
        Err(AskFault::Busy) => go_on_after(asking, Front::Busy, text),
        Err(fault) => Ok(Came::Untold(push_ask_refusal(text, fault)?)),
    }
}

/// Returns whether reports wait that would be reported in another way after a request that says this.
fn has_untold(asking: &Asking, each: bool) -> bool
    ensures { result
        ≡ ((each || asking.now.is_each) && nat_lt 0 (length asking.now.reports.items)) }
{
    (each || asking.is_each) && !asking.reports.is_empty()
}

/// Asks a request, which says that each record is reported by itself or doesn't, on a link that runs. While reports
/// wait to which memory was refused, none is asked that would have them reported in another way.
fn ask_running(
    asking: &mut Asking,
    each: bool,
    request: &Request,
    text: &mut Vec<u8>,
) -> Result<Came, AllocError>
    requires { text.old.items ≡ [] }
    ensures ok { IfOk result (AnswersAsk each asking.old request.now asking.new text.new.items) }
    ensures err { OnErr result ((asking.new ≡ asking.old) ⊎ ((said : List ℕ) × (came : TheCame)
        × AnswersAsk each asking.old request.now asking.new said came)) }
{
    if has_untold(asking, each) {
        return Err(AllocError);
    }
    ask_request(asking, each, request, text)
}

/// Asks what the words say.
fn ask(asking: &mut Asking, asked: &RequestText<'_>, text: &mut Vec<u8>) -> Result<Came, AllocError>
    requires { text.old.items ≡ [] }
    ensures ok { IfOk result
        (AskingDoes asking.old (AskOrder.Ask asked.now) asking.new text.new.items) }
    ensures err { OnErr result (Reaches asking.old (AskOrder.Ask asked.now) asking.new) }
{
    if asking.end.link().has_failed() {
        return Ok(Came::Untold(push_link_refusal(text, LinkFault::Failed)?));
    }
    let request = asked.to_request(asking.alloc)?;
    ask_running(asking, false, &request, text)
}

/// Asks for all records, each of which is reported by itself.
fn fetch_each(asking: &mut Asking, text: &mut Vec<u8>) -> Result<Came, AllocError>
    requires { text.old.items ≡ [] }
    ensures ok { IfOk result (AskingDoes asking.old AskOrder.FetchEach asking.new text.new.items) }
    ensures err { OnErr result (Reaches asking.old AskOrder.FetchEach asking.new) }
{
    if asking.end.link().has_failed() {
        return Ok(Came::Untold(push_link_refusal(text, LinkFault::Failed)?));
    }
    ask_running(asking, true, &Request::Fetch, text)
}

/// Begins a new link: as the last one was, or between these addresses. Nothing was asked on it, and the reports that
/// wait are dropped.
fn renew(asking: &mut Asking, anew: Option<Between>, text: &mut Vec<u8>) -> Result<Came, AllocError>
    requires { text.old.items ≡ [] }
    ensures ok { IfOk result (AskingDoes asking.old (AskOrder.New anew) asking.new text.new.items) }
    ensures err { OnErr result (asking.new ≡ asking.old) }
{
    let setup = set_up_anew(asking.setup, anew);
    match asking.end.renew(asking.alloc, setup) {
        Ok(()) => {
            asking.setup = setup;
            asking.reports.clear();
            asking.is_each = false;
            asking.told = 0;
            Ok(Came::Untold(Became::Done))
        }
        Err(fault) => Ok(Came::Untold(push_link_refusal(text, fault)?)),
    }
}

/// Does what a line says.
fn act(asking: &mut Asking, order: AskOrder<'_>, text: &mut Vec<u8>) -> Result<Came, AllocError>
    requires { text.old.items ≡ [] }
    ensures ok { IfOk result (AskingDoes asking.old order.entry asking.new text.new.items) }
    ensures err { OnErr result (Reaches asking.old order.entry asking.new) }
{
    match order {
        AskOrder::Packet(digits) => take_packet(asking, &digits, text),
        AskOrder::Ask(asked) => ask(asking, &asked, text),
        AskOrder::FetchEach => fetch_each(asking, text),
        AskOrder::Resend => resend(asking, text),
        AskOrder::Ack => Ok(Came::Untold(say_ack(asking.end.link(), text)?)),
        AskOrder::New(anew) => renew(asking, anew, text),
    }
}

/// Notes that all was reported that waited: the reports, and where each record is reported by itself those of a batch
/// under way.
fn note_told(asking: &mut Asking)
    ensures { WasTold asking.old asking.new }
{
    asking.reports.clear();
    if asking.is_each {
        asking.told = asking.end.records().len();
    }
}

/// Returns what became of an order. Where its answer has the reports, none waits any more.
fn end_answer(asking: &mut Asking, came: Came) -> Became
    ensures { Ends came asking.old asking.new result }
{
    match came {
        Came::Told(became) => {
            note_told(asking);
            became
        }
        Came::Untold(became) => became,
    }
}

/// Answers an order.
fn answer_one(asking: &mut Asking, order: AskOrder<'_>, text: &mut Vec<u8>) -> Became
    requires { text.old.items ≡ [] }
    ensures { DoesAskOrder asking.old (Some order.entry) asking.new text.new.items result }
{
    match act(asking, order, text) {
        Ok(came) => end_answer(asking, came),
        Err(_) => {
            text.clear();
            Became::NoMemory
        }
    }
}

/// Answers what a line says.
fn answer_order(asking: &mut Asking, order: Option<AskOrder<'_>>, text: &mut Vec<u8>) -> Became
    requires { text.old.items ≡ [] }
    ensures { DoesAskOrder asking.old order.entry asking.new text.new.items result }
{
    match order {
        Some(order) => answer_one(asking, order, text),
        None => Became::BadLine,
    }
}

/// Returns whether something waits to be reported.
fn has_told(asking: &Asking) -> bool
    ensures { result ≡ waits_told asking.now }
{
    !asking.reports.is_empty() || (asking.is_each && asking.told < asking.end.records().len())
}

/// Returns whether something is left to do for the client, or to be reported.
fn is_work_left(asking: &Asking) -> bool
    ensures { result ≡ (has_more_of asking.now.end || waits_told asking.now) }
{
    has_more(&asking.end) || has_told(asking)
}

impl Answers for Asking {
    ghost use Rattle.dap_live.specs.Asking.{answered, waiting};

    // Each answer is said as a whole.
    type Cursor = ();

    ghost answered = { answered };

    ghost waiting = { waiting };

    ghost pieces = { λ asking cursor. [] };

    fn answer(&mut self, line: &[u8], text: &mut Vec<u8>) -> Answer<()> {
        Answer::Whole(answer_order(self, read_ask_order(line), text))
    }

    fn miss(&mut self) {}

    fn more(&self, _cursor: (), _text: &mut Vec<u8>) -> Result<Option<()>, AllocError> {
        Ok(None)
    }

    fn waits(&self) -> Option<usize> {
        Some(waits(self.end.link(), is_work_left(self)))
    }
}
