//! Laws over the definitions alone. The functions do nothing: their contracts are the laws.

ghost use Rattle.std.specs.Prelude.{◌≡◌};
ghost use Rattle.dap_msg.specs.BothEnds.{true_identity};
ghost use Rattle.linewise.specs.Talks.{HaveOneText};
ghost use Rattle.dap_live.specs.Asking as asking;
ghost use Rattle.dap_live.specs.Node as node;
ghost use Rattle.live_cli.specs.declared.words.Options.{Options as TheOptions};
ghost use Rattle.live_cli.specs.declared.words.Role.{Role as TheRole};
ghost use Rattle.live_cli.specs.Running.{identity_of, server_of, link_setup};
ghost use Rattle.live_cli.specs.Words.{usual};

/// By the same options an input has one text, and one exit status: whatever two new ends answer to all its lines,
/// where no answer is out of memory.
pub fn inputs_have_one_text()
    ensures asking { (options : TheOptions)
        → HaveOneText asking.answered asking.waiting
        (λ one other. asking.IsNewAsking (link_setup options) (identity_of options) one
        × asking.IsNewAsking (link_setup options) (identity_of options) other) }
    ensures node { (options : TheOptions)
        → HaveOneText node.answered node.waiting
        (λ one other. node.IsNewNode (server_of options) options.links
        (link_setup options) options.waiting one
        × node.IsNewNode (server_of options) options.links
        (link_setup options) options.waiting other) }
{}

/// Where no option says otherwise, an end says of itself what is true of the ends here.
pub fn ends_say_by_default_what_is_true()
    ensures { (role : TheRole) → identity_of (usual role).1 ≡ true_identity 1024 }
{}
