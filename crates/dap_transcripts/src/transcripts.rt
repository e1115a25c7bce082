//! Laws over the definitions alone. Each function does nothing: its contract is the law.

ghost use Rattle.std.specs.Prelude.{◌++◌, ℕ, [], List, Option, length};
ghost use Rattle.linewise.specs.declared.talking.Became.{Became as TheBecame};
ghost use Rattle.linewise.specs.Talks.{AnswersInput};
ghost use Rattle.nsp_link.specs.declared.link.LinkSetup.{LinkSetup as TheSetup};
ghost use Rattle.dap_accessed.specs.declared.setup.ServerSetup.{ServerSetup};
ghost use Rattle.dap_live.specs.declared.node.Node.{Node as TheNode};
ghost use Rattle.dap_live.specs.Node.{IsNewNode, answered, waiting};
ghost use Rattle.dap_transcripts.specs.Transcripts.{LinesHappened};
ghost use Rattle.dap_network.specs.Served.{IsServedAlong, NodeIsServed};
ghost use Rattle.dap_accessed.specs.Apart.{NamesAreApart};
ghost use Rattle.dap_accessed.specs.Sound.{AreFiles};

/// Whatever the lines of an input, and however many links there is room for: what `daplive serve` does by them, and what
/// it answers, is what happens to a serving node whose packets are those of its lines. So what `any_peers_are_served`
/// says holds of the program.
pub fn transcripts_are_served()
    ensures happened { (own : ServerSetup) (links most : ℕ) (usual : TheSetup) (one new : TheNode)
        (input rest text : List ℕ) (lines : List (Option TheBecame))
        → IsNewNode own links usual most one
        → AnswersInput answered waiting one input new rest text lines
        → LinesHappened one input rest text lines new }
    // There is one history of these lines. The files always obey their shapes, and no two names are one.
    ensures served { (own : ServerSetup) (links most : ℕ) (usual : TheSetup) (one new : TheNode)
        (input rest text : List ℕ) (lines : List (Option TheBecame))
        → IsNewNode own links usual most one
        → AnswersInput answered waiting one input new rest text lines
        → (happened : LinesHappened one input rest text lines new)
        × NodeIsServed [] (happened.begun ++ happened.events) new.node
        × IsServedAlong happened.base.noted.shared.setup []
        (length happened.base.noted.shared.sessions) [] [] happened.base (happened.begun ++ happened.events)
        new.node
        × AreFiles new.node.noted.shared.files
        × NamesAreApart new.node.noted.shared.setup.names new.node.noted.shared.files }
{
    dap_network::any_peers_are_served();
}
