//! One end of a link (NSP 4.0.0, data segments and their acknowledgement).

ghost use Rattle.std.specs.Prelude.{◌≡◌, ◌-◌, ◌≤◌, [], length, true, false, IfOk, IfErr, slice_get, unwrap_or};
ghost use Rattle.std.specs.Option.{option_copied};
ghost use Rattle.nsp_link.specs.Link.{IsSetup, SetupFault, IsLink, new_link, waiting_bytes};

use crate::fault::LinkFault;
use crate::incoming::{Incoming, begun_len};
use crate::piece::Segment;
use crate::ring::{Ring, free_slots};
use std::alloc::Global;
use std::collections::VecDeque;
use std::marker::Model;

/// The addresses and limits of an end.
#[derive(Clone, Copy, PartialEq, Eq)]
pub struct LinkSetup {
    /// This end's address, to which packets have to be sent.
    pub local: u16,
    /// The other end's address, from which they have to come; both may be the same.
    pub remote: u16,
    /// The bytes of a segment, 1 to 1,400: a message is cut into pieces of this size.
    pub seg_size: usize,
    /// The maximum number of segments sent and not acknowledged, 1 to 2,047; at most one early segment fewer is held.
    pub window: usize,
    /// The maximum of a message in bytes, 64 to 65,535, both of one that is sent and of one that is taken.
    pub max_message: usize,
}

/// What became of a packet that wasn't refused.
#[derive(Clone, Copy, Debug, PartialEq, Eq)]
pub enum Got {
    /// Its segment was the next one: it was taken, with all held ones that follow it without a hole.
    Accepted,
    /// Its segment was taken before.
    Repeat,
    /// Its segment comes after the next one; it is held where the window has a slot for it.
    Early,
    /// It carries no segment.
    AckOnly,
}

/// The maximum age of a segment or an acknowledgement that its 12-bit number identifies (NSP 4.0.0, segment numbers).
pub const MAX_AGE: u64 = 2047;

/// The maximum of a segment in bytes.
pub const MAX_SEGMENT: usize = 1400;

/// The maximum of a window: fewer than half of the 4,096 numbers.
pub const MAX_WINDOW: usize = MAX_AGE as usize;

/// The minimum of the limit on a message, in bytes.
const MIN_LIMIT: usize = 64;

/// The maximum of the limit on a message, in bytes.
pub const MAX_LIMIT: usize = 65535;

/// One end of an open link (NSP 4.0.0, data segments and their acknowledgement). What it returns is a prefix of
/// the messages that the other end sent, each once and in order, and no acknowledgement moves it beyond
/// what it sent.
#[derive(Drop)]
pub struct LinkEnd {
    pub(crate) alloc: Global,
    pub(crate) setup: LinkSetup,
    pub(crate) queue: VecDeque<Segment>,
    pub(crate) sent: u64,
    pub(crate) acked: u64,
    /// The bytes that are acknowledged of the message to which the oldest segment of the queue belongs.
    pub(crate) part: u64,
    /// Those bytes, and the bytes of the queue.
    pub(crate) waiting: u64,
    pub(crate) incoming: Incoming,
    pub(crate) held: Ring,
    pub(crate) early: usize,
    pub(crate) failed: bool,
}

impl Model for LinkEnd {
    ghost use Rattle.nsp_link.specs.Link.{LinkValue};

    ghost Value = { LinkValue };

    ghost use Rattle.nsp_link.specs.Inner.View.{link_view, IsLinkInside};

    ghost view = { link_view };

    ghost invariant = { IsLinkInside };
}

impl LinkEnd {
    /// Returns a new end, which sent and took nothing. `BadSetup` where a limit of the setup isn't in its range; else
    /// `NoMemory` alone.
    pub fn new(alloc: Global, setup: LinkSetup) -> Result<LinkEnd, LinkFault>
        ensures ok { IfOk result (λ v. IsSetup setup × (v ≡ new_link setup)) }
        ensures err { IfErr result (SetupFault setup) }
    {
        if !is_setup(&setup) {
            return Err(LinkFault::BadSetup);
        }
        let held = free_slots(alloc, setup.window)?;
        Ok(LinkEnd {
            alloc,
            setup,
            queue: VecDeque::new(alloc),
            sent: 0,
            acked: 0,
            part: 0,
            waiting: 0,
            incoming: Incoming {
                received: 0,
                partial: None,
                inbox: VecDeque::new(alloc),
            },
            held,
            early: 0,
            failed: false,
        })
    }

    /// Returns how it was set up.
    pub fn setup(&self) -> LinkSetup
        ensures { result ≡ self.now.setup }
    {
        self.setup
    }

    /// Returns how many segments were sent, each counted once, however often it was sent.
    pub fn sent_count(&self) -> u64
        ensures value { result ≡ self.now.sent }
        ensures valid { IsLink self.now }
    {
        self.sent
    }

    /// Returns how many segments were sent and are acknowledged.
    pub fn acked_count(&self) -> u64
        ensures value { result ≡ self.now.acked }
        ensures valid { IsLink self.now }
    {
        self.acked
    }

    /// Returns whether a packet showed that the two ends have lost each other.
    pub fn has_failed(&self) -> bool
        ensures { result ≡ self.now.failed }
    {
        self.failed
    }

    /// Returns how many segments were taken in order.
    pub fn received_count(&self) -> u64
        ensures value { result ≡ self.now.coming.received }
        ensures valid { IsLink self.now }
    {
        self.incoming.received
    }

    /// Returns how many segments were sent and aren't acknowledged: at most the window.
    pub fn unacked(&self) -> usize
        ensures value { result ≡ self.now.sent - self.now.acked }
        ensures small { result ≤ self.now.setup.window }
        ensures valid { IsLink self.now }
    {
        (self.sent - self.acked) as usize
    }

    /// Returns how many bytes the messages have that were sent and aren't acknowledged; the whole message counts until
    /// its last segment is acknowledged.
    pub fn waiting_bytes(&self) -> u64
        ensures value { result ≡ waiting_bytes self.now }
        ensures valid { IsLink self.now }
    {
        self.waiting
    }

    /// Returns the oldest whole message, which stays.
    pub fn peek_message(&self) -> Option<&[u8]>
        ensures { option_copied result ≡ slice_get self.now.coming.inbox 0 }
    {
        self.incoming.inbox.front().map(Vec::as_slice)
    }

    /// Returns how many early segments are held: fewer than the window.
    pub fn held_count(&self) -> usize
        ensures value { result ≡ length self.now.held }
        ensures small { result ≤ self.now.setup.window - 1 }
    {
        self.early
    }

    /// Returns how many bytes were received of the message whose last segment is still to come; 0 where there is none.
    pub fn partial_len(&self) -> usize
        ensures value { result ≡ length (unwrap_or self.now.coming.partial []) }
        ensures small { result ≤ self.now.setup.max_message }
    {
        begun_len(&self.incoming.partial).unwrap_or(0)
    }
}

/// Returns whether each limit of a setup is in its range.
pub fn is_setup(setup: &LinkSetup) -> bool
    ensures yes { result ≡ true → IsSetup setup.now }
    ensures no { result ≡ false → IsSetup setup.now → ⊥ }
{
    (1..=MAX_SEGMENT).contains(&setup.seg_size)
        && (1..=MAX_WINDOW).contains(&setup.window)
        && (MIN_LIMIT..=MAX_LIMIT).contains(&setup.max_message)
}
