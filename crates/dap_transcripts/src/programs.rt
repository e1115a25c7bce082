//! Laws over the definitions alone. Each function does nothing: its contract is the law.

ghost use Rattle.std.specs.Prelude.{◌≡◌, ℕ, List, Option, Some, length, slice_get};
ghost use Rattle.linewise.specs.declared.talking.Became.{Became as TheBecame};
ghost use Rattle.linewise.specs.Talks.{AnswersInput};
ghost use Rattle.dap_end.specs.Joined.{IsBrought};
ghost use Rattle.dap_network.specs.Network.{Network, Peer};
ghost use Rattle.dap_live.specs.declared.asking.Asking.{Asking as TheAsking};
ghost use Rattle.dap_live.specs.declared.node.Node.{Node as TheNode};
ghost use Rattle.dap_live.specs.Asking as asking;
ghost use Rattle.dap_live.specs.Node as node;
ghost use Rattle.dap_transcripts.specs.AskLines.{IsAskPacket, RunsByLine};
ghost use Rattle.dap_transcripts.specs.Programs.{BringsIn, ClientLeads, ServerLeads};

/// Whatever the lines of an input: what `daplive ask` does by each line is a run of its client, but for a line by which it
/// begins anew, and one in which an answer is unexpected.
pub fn asked_transcripts_are_runs()
    ensures { (one new : TheAsking) (input rest text : List ℕ) (lines : List (Option TheBecame))
        → AnswersInput asking.answered asking.waiting one input new rest text lines
        → RunsByLine one input new rest text lines }
{}

/// Over any network between a program `daplive serve`, programs `daplive ask` and strangers: each line of the server is
/// some events of `dap_network`, in which no client does anything, or it begins a link. Each line of a client is some
/// events of it, or the client begins anew, or an answer was unexpected.
pub fn program_lines_lead()
    ensures server { (net : Network) (old new : TheNode) (line text : List ℕ) (became : TheBecame)
        → net.node ≡ old.node → length net.peers ≡ length net.node.ports
        → BringsIn net old line
        → node.answered old (Some line) new text became
        → ServerLeads net old new text }
    ensures client { (net : Network) (link : ℕ) (peer : Peer) (old new : TheAsking)
        (line text : List ℕ) (became : TheBecame)
        → slice_get net.peers link ≡ Some (Some peer) → peer.client ≡ old.end
        → ((bytes : List ℕ) → IsAskPacket line bytes
        → IsBrought peer.from_node old.end.port.link bytes)
        → asking.answered old (Some line) new text became
        → ClientLeads net link peer text new }
{}
