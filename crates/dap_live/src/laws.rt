//! Laws over the definitions alone. The function does nothing: its contract is the law.

ghost use Rattle.std.specs.Prelude.{◌≡◌};
ghost use Rattle.dap_end.specs.Asking.{HasDone};
ghost use Rattle.linewise.specs.Talks.{HaveOneText};
ghost use Rattle.dap_live.specs.Asking as asking;
ghost use Rattle.dap_live.specs.Node as node;

/// An input has one text: two talks over it, of ends of one value, in which no answer is out of memory, have the
/// same text, and the same became of each line. An end came to its value by its calls.
pub fn inputs_have_one_text()
    ensures asking { HaveOneText asking.answered asking.waiting (λ one other.
        (one.end ≡ other.end) × (one.setup ≡ other.setup)
        × (one.reports.items ≡ other.reports.items) × (one.told ≡ other.told)
        × (one.is_each ≡ other.is_each) × HasDone one.end) }
    ensures node { HaveOneText node.answered node.waiting (λ one other.
        (one.node ≡ other.node) × (one.own ≡ other.own) × (one.usual ≡ other.usual)
        × (one.most_waiting ≡ other.most_waiting) × (one.last ≡ other.last)
        × (one.used ≡ other.used) × (one.given ≡ other.given) × node.HasRun one.node) }
{}
