//! Laws over the definitions alone, for the crates above. Each function does nothing: its contract is the law.

ghost use Rattle.std.specs.Prelude.{IsTrue, length, ◌≡◌, ◌≢◌, ◌<◌, ◌++◌, ◌∷◌, [], ℕ, List, map, Some};
ghost use Rattle.dap_msg.specs.declared.items.Item.{Item as TheItem};
ghost use Rattle.rec_file.specs.declared.picks.Rights.{Rights};
ghost use Rattle.dap_accessed.specs.declared.phase.OpenFile.{OpenFile};
ghost use Rattle.dap_accessed.specs.declared.setup.ServerSetup.{ServerSetup};
ghost use Rattle.dap_accessed.specs.Standing.{Files};
ghost use Rattle.dap_accessed.specs.Groups.{After, Answers, stands_after};
ghost use Rattle.dap_shared.specs.Nodes.{Node, is_locked_out, is_open, locks_out, added_on, AnswersOn, Begins, Drops, Event, FilesAfter, Serves, after_event, end_at, exchange_at, most_on, node_after, open_on, setup_with};
ghost use Rattle.dap_shared.specs.Keeping.{AreApart, AreOf, HoldsStill};

/// A node of one link is a server of one link: its state is the state of that, its files are those after the items, and
/// its answers those to them.
pub fn one_link_is_as_before()
    ensures stands { (own : ServerSetup) (first : Files) (items : List TheItem)
        → end_at 0 (node_after own first 1 (map (Serves 0) items)) ≡ stands_after own first items }
    ensures files { (own : ServerSetup) (first : Files) (items : List TheItem)
        → FilesAfter own first 1 (map (Serves 0) items) ≡ After own first items }
    ensures answers { (own : ServerSetup) (first : Files) (items : List TheItem)
        → AnswersOn 0 own first 1 (map (Serves 0) items) ≡ Answers own first items }
    // Where the link began with other rights than the setup's, the server has these.
    ensures rights { (own : ServerSetup) (most : Rights) (first : Files) (items : List TheItem)
        → end_at 0 (node_after own first 1 (Begins 0 most ∷ map (Serves 0) items))
        ≡ stands_after (setup_with most own) first items }
{}

/// After any history no two links have a file open that one of them made or may change.
pub fn writers_are_alone()
    ensures { (own : ServerSetup) (first : Files) (links : ℕ) (events : List Event) (one two : ℕ)
        → AreOf links events → one ≢ two
        → AreApart (open_on (exchange_at one (node_after own first links events)))
        (open_on (exchange_at two (node_after own first links events))) }
{}

/// An Access is refused as its file is locked exactly where another link locks it out.
pub fn a_locked_file_has_a_holder()
    ensures holder { (own : ServerSetup) (node : Node) (link : ℕ) (item : TheItem)
        → IsTrue (is_locked_out own link node item)
        → (other : ℕ) × (other < length node.exchanges)
        × IsTrue (locks_out own other link node item) }
    ensures locked { (own : ServerSetup) (node : Node) (link other : ℕ) (item : TheItem)
        → other < length node.exchanges → IsTrue (locks_out own other link node item)
        → IsTrue (is_locked_out own link node item) }
{}

/// After any history what is served on one link leaves each other link's open file open, under its name and with its
/// records.
pub fn an_open_file_stays()
    ensures { (own : ServerSetup) (first : Files) (links : ℕ) (events : List Event) (link other : ℕ)
        (item : TheItem) (held : OpenFile) → AreOf links events → link < links → other ≢ link
        → open_on (exchange_at other (node_after own first links events)) ≡ Some held
        → HoldsStill other (node_after own first links events)
        (after_event own (node_after own first links events) (Serves link item)) held }
{}

/// One more item on a link adds its answers to those before it on this link, and none to those of the others.
pub fn answers_grow_on()
    ensures own { (own : ServerSetup) (first : Files) (links : ℕ) (events : List Event) (link : ℕ)
        (item : TheItem) → link < links
        → AnswersOn link own first links (events ++ Serves link item ∷ [])
        ≡ AnswersOn link own first links events ++ added_on link own first links events item }
    ensures others { (own : ServerSetup) (first : Files) (links : ℕ) (events : List Event)
        (link other : ℕ)
        (item : TheItem) → other ≢ link
        → AnswersOn other own first links (events ++ Serves link item ∷ [])
        ≡ AnswersOn other own first links events }
{}

/// A file that a link has open isn't dropped. Where a file is dropped, each link's open file stays open, under its name
/// and with its records, and no link has one more answer.
pub fn a_drop_leaves_what_is_open()
    ensures busy { (own : ServerSetup) (node : Node) (at : ℕ)
        → IsTrue (is_open at node) → after_event own node (Drops at) ≡ node }
    ensures stays { (own : ServerSetup) (first : Files) (links : ℕ) (events : List Event)
        (link at : ℕ)
        (held : OpenFile) → AreOf links events
        → open_on (exchange_at link (node_after own first links events)) ≡ Some held
        → HoldsStill link (node_after own first links events)
        (after_event own (node_after own first links events) (Drops at)) held }
    ensures answers { (own : ServerSetup) (first : Files) (links : ℕ) (events : List Event)
        (link at : ℕ)
        → AnswersOn link own first links (events ++ Drops at ∷ [])
        ≡ AnswersOn link own first links events }
{}

/// A link has the rights with which it began last, whatever is served and whatever other links do; one that never began
/// has those of the node's setup.
pub fn a_link_keeps_its_rights()
    ensures { (own : ServerSetup) (first : Files) (links : ℕ) (events : List Event) (link : ℕ)
        → link < links
        → (exchange_at link (node_after own first links events)).most
        ≡ most_on link own.most events }
{}
