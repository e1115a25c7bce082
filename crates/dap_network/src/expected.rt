//! What a client of this implementation reads on its link, whatever is done on the others. Each function does nothing:
//! its contract is the law.

ghost use Rattle.std.specs.Prelude.{◌≡◌, ◌≢◌, ℕ, List, Some, slice_get};
ghost use Rattle.dap_fields.specs.Spelling.{AreBytes};
ghost use Rattle.dap_accessed.specs.Sound.{AreFiles};
ghost use Rattle.dap_accessed.specs.Standing.{Files};
ghost use Rattle.dap_accessing.specs.declared.fault.ReadFault.{ReadFault as TheReadFault};
ghost use Rattle.dap_accessing.specs.declared.fault.ReadFault.TheVariants as read_fault;
ghost use Rattle.dap_end.specs.Agreement.{IsBufsiz};
ghost use Rattle.dap_end.specs.Asking.{ReadNone};
ghost use Rattle.dap_end.specs.Done.{AskingValue};
ghost use Rattle.dap_end.specs.Going.{oldest_message};
ghost use Rattle.dap_network.specs.Network.{HasNoClient, IsNewNetwork, Network, NetworkEvent, NetworkRuns, Peer};

/// No answer that a node gives to a client of this implementation is unexpected to it, whatever is done on other links
/// meanwhile: files locked, dropped and purged among it. So `many_links_keep_the_headline` speaks of every list of
/// calls of the node and such clients: where at first no link has a client, the files obey their shapes and no two have
/// one name, and the node and the client have a BUFSIZ that an end may have. What came are bytes, as `may_read`
/// promises. It is so too where the node's end of the link ended.
pub fn no_answer_is_unexpected_on_any_link()
    ensures { (first : Files) (events : List NetworkEvent) (old new : Network) (link : ℕ)
        (peer : Peer) (after : AskingValue) (f : TheReadFault)
        → AreFiles first → IsNewNetwork first old → HasNoClient old
        → IsBufsiz old.node.noted.shared.own
        → NetworkRuns old events new → slice_get new.peers link ≡ Some (Some peer)
        → IsBufsiz peer.client.present.own
        → AreBytes (oldest_message peer.client.port.link.coming.inbox)
        → ReadNone peer.client after f → f ≢ read_fault.Unexpected }
{
    crate::files_stay_sound();
}
