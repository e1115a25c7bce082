//! What an end does by itself: it serves, or it asks.

ghost use Rattle.std.specs.Prelude.{◌≡◌, ◌<◌, ◌++◌, List, ℕ, true, length};
ghost use Rattle.std.proofs.Common.{arith, length-append};
ghost use Rattle.nsp_link.specs.Link.{LinkValue};
ghost use Rattle.dap_end.specs.Ports.{EndValue};
ghost use Rattle.dap_end.specs.Moved.{with_link};
ghost use Rattle.dap_end.specs.Done.{ServerHistory, ClientHistory};
ghost use Rattle.dap_end.specs.Serving.{IsAfter};
ghost use Rattle.dap_end.specs.Asking.{HasAsked};
ghost use Rattle.dap_end.specs.Histories.{Still};
ghost use Rattle.dap_end.specs.Inner.Kept.{LinkMoved};

use dap_accessed::Accessed;
use dap_accessing::Accessing;

/// What an end does by itself.
pub trait Role {
    /// Its history on a link.
    ghost History: { Type 0 };

    /// The end is as after this history.
    ghost fits: { History → EndValue Self → Type 0 };

    /// What is true of the NSP messages that came and aren't processed.
    ghost is_left: { List (List ℕ) → Self → Type 0 };

    /// It stays so where more come.
    ghost left_more: { (inbox more : List (List ℕ)) (state : Self) → is_left inbox state
        → is_left (inbox ++ more) state };

    /// Each history stays one where the link moves alone.
    ghost still_fits: { (v : EndValue Self) (link : LinkValue) → LinkMoved v.port.link link
        → Still fits v (record v { port = with_link v.port link }) };
}

impl Role for Accessed {
    ghost History = { ServerHistory };

    ghost fits = { IsAfter };

    ghost is_left = { λ _ _. Unit {0} };

    ghost left_more = { λ _ _ _ _. tt };

    ghost still_fits = { λ v link moves history h. record {
      serving = h.serving;
      gone = moves.gone history.given v.port.offset history.items h.gone;
      sends = moves.sends history.handed h.sends;
      answers = h.answers;
      fit = h.fit;
    } };
}

impl Role for Accessing {
    ghost History = { ClientHistory };

    ghost fits = { HasAsked };

    // The answer that failed it is left.
    ghost is_left = { λ inbox state. state.failed ≡ true → 0 < length inbox };

    ghost left_more = { λ inbox more state left failed.
        (let some = left failed in omega (arith, length-append inbox more, some)) };

    ghost still_fits = { λ v link moves history h. record {
      asking = h.asking;
      gone = moves.gone history.given v.port.offset history.answers h.gone;
      sends = moves.sends history.handed h.sends;
      messages = h.messages;
      waiting = h.waiting;
      fit = h.fit;
      full = h.full;
    } };
}
