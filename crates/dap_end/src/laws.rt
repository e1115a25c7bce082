//! Laws over the definitions alone. Each function does nothing: its contract is the law.

ghost use Rattle.std.specs.Prelude.{◌≡◌, ◌≢◌, ◌⊎◌, ◌+◌, ◌-◌, ◌<◌, ℕ, List, [], ◌∷◌, ◌++◌, map, Option, Some, None, Result, Err, IfErr, false, option_map, option_to_list};
ghost use Rattle.std.specs.List.{AllByRecursion};
ghost use Rattle.dap_fields.specs.Spelling.{AreBytes};
ghost use Rattle.nsp_link.specs.declared.link.LinkSetup.{LinkSetup as TheSetup};
ghost use Rattle.nsp_link.specs.declared.link.Got.{Got as TheGot};
ghost use Rattle.nsp_link.specs.declared.fault.LinkFault.{LinkFault as TheFault};
ghost use Rattle.nsp_link.specs.Link.{IsSetup, IsSpelling, Sends, may_send, with_inbox};
ghost use Rattle.nsp_link.specs.declared.fault.LinkFault.TheVariants as fault;
ghost use Rattle.nsp_link.specs.Sending.{SendAllFault, WritesSent, ack_packet_of};
ghost use Rattle.dap_msg.specs.Blocked.{AllFit, Blocked, all_joined, messages_in};
ghost use Rattle.dap_msg.specs.declared.message.Message.{Message};
ghost use Rattle.dap_msg.specs.declared.items.Item.TheVariants.{Whole};
ghost use Rattle.dap_msg.specs.declared.items.Item.{Item};
ghost use Rattle.dap_msg.specs.Items.{ItemsFrom};
ghost use Rattle.dap_accessed.specs.declared.setup.ServerSetup.{ServerSetup};
ghost use Rattle.dap_accessed.specs.Standing.{Files};
ghost use Rattle.dap_accessed.specs.Groups.{After, Answers};
ghost use Rattle.dap_accessed.specs.Present.{StandsAfter};
ghost use Rattle.dap_accessing.specs.Present.{ClientAfter as WaitsAfter};
ghost use Rattle.dap_accessing.specs.Asked.{Asked, messages_of};
ghost use Rattle.dap_accessing.specs.Each.{IsBatch, none_kept, records_kept, reported_after};
ghost use Rattle.dap_accessing.specs.Phase.{limit_after};
ghost use Rattle.dap_accessing.specs.Told.{Told};
ghost use Rattle.dap_accessing.specs.Request.{Request as TheRequest};
ghost use Rattle.dap_accessing.specs.declared.report.Report.{Report as TheReport};
ghost use Rattle.dap_accessing.specs.declared.fault.ReadFault.{ReadFault as TheReadFault};
ghost use Rattle.dap_accessing.specs.declared.fault.ReadFault.TheVariants as read_fault;
ghost use Rattle.dap_end.specs.declared.fault.EndFault.{EndFault as TheEndFault};
ghost use Rattle.dap_end.specs.declared.fault.EndFault.TheVariants as end_fault;
ghost use Rattle.dap_end.specs.declared.fault.TakeFault.{TakeFault as TheTakeFault};
ghost use Rattle.dap_end.specs.Ports.{HandsOver, PortValue, new_port};
ghost use Rattle.dap_end.specs.Going.{AreFrontOf, AreItemsOf, oldest_message};
ghost use Rattle.dap_end.specs.Serving.{IsAfter, ServedOne};
ghost use Rattle.dap_end.specs.Done.{ServingValue, ServerHistory, answers_to, nothing_yet};
ghost use Rattle.dap_end.specs.Writing.{WroteMore};
ghost use Rattle.dap_end.specs.Turns.{DidAll, WentOn, TookIn, TakesPacket};
ghost use Rattle.dap_end.specs.Taking.{IsBounded, ServedInTurn, serves};
ghost use Rattle.dap_end.specs.Wanting.{is_want, why};
ghost use Rattle.dap_end.specs.Hearing.{ReadOn, ReadsAll, hears};
ghost use Rattle.dap_end.specs.Asking.{HasAsked, HasDone, AskedOne, ReadNone, ReadOne};
ghost use Rattle.dap_end.specs.Each.{with_told};
ghost use Rattle.dap_end.specs.Agreement.{IsBufsiz};
ghost use Rattle.dap_accessed.specs.Sound.{AreFiles};
ghost use Rattle.dap_end.specs.Done.{AskingValue, ClientHistory, nothing_asked};
ghost use Rattle.dap_end.specs.Headline.{AreWrittenOf, Arrival, IsFromPeer, WrittenPacket, written_bytes};
ghost use Rattle.dap_end.specs.Joined.{IsBrought, Pair};
ghost use Rattle.dap_end.specs.Calls.{AskingRuns, PairRuns, ServerRuns};

/// What follows for a server that is as after something: its files are those after the items that it served; these are
/// a prefix of the items in the NSP messages that came, and the next one is at the port's offset; what waited counts as
/// passed on once it was; and what was served on comes after what was served before.
pub fn serving_ends_stand()
    ensures files { (history : ServerHistory) (v : ServingValue) → IsAfter history v
        → v.present.files ≡ After v.present.setup history.first history.items }
    ensures front { (history : ServerHistory) (v : ServingValue) → IsAfter history v
        → AreFrontOf (history.given ++ v.port.link.coming.inbox) history.items }
    // The next item is the one at the port's offset.
    ensures next { (history : ServerHistory) (v : ServingValue) (bytes : List ℕ)
        (later : List (List ℕ))
        (rest : List Item) → IsAfter history v → v.port.link.coming.inbox ≡ bytes ∷ later
        → ItemsFrom bytes v.port.offset rest
        → AreItemsOf (history.given ++ bytes ∷ []) (history.items ++ rest) }
    ensures posted { (history : ServerHistory) (old new : ServingValue) (n : ℕ)
        → IsAfter history old
        → HandsOver old new n
        → IsAfter (record history { handed = history.handed ++ old.port.outbox }) new }
    // What was served on counts after that, and so does what was passed on. Of the link only what came and what is
    // queued moved.
    ensures served_on { (most : ℕ) (history : ServerHistory) (old new : ServingValue)
        → IsAfter history old
        → ServedInTurn most old new → (given handed : List (List ℕ)) × (items : List Item)
        × IsAfter (record history {
          given = given;
          items = history.items ++ items;
          handed = history.handed ++ handed;
        }) new × (given ++ new.port.link.coming.inbox
        ≡ history.given ++ old.port.link.coming.inbox) }
    ensures rest { (most : ℕ) (old new : ServingValue) → ServedInTurn most old new
        → (new.present.own ≡ old.present.own)
        × (new.port.link ≡ record (with_inbox old.port.link new.port.link.coming.inbox) {
          queue = new.port.link.queue;
        }) }
    // What is joined to NSP messages are all answers, in order.
    ensures joined { (own : ServerSetup) (first : Files) (items : List Item)
        → messages_in (answers_to own first [] items) ≡ Answers own first items }
{}

/// What follows for a client that has asked something: what it read is a prefix of the items in the NSP messages that
/// came, and the next one is at the port's offset; one more request that was asked, and what waited once it was passed
/// on, count too; and what was read on comes after what was read before, with the reports that it adds.
pub fn asking_ends_stand()
    ensures front { (history : ClientHistory) (v : AskingValue) → HasAsked history v
        → AreFrontOf (history.given ++ v.port.link.coming.inbox) history.answers }
    // The next answer is the one at the port's offset.
    ensures next { (history : ClientHistory) (v : AskingValue) (bytes : List ℕ)
        (later : List (List ℕ)) (rest : List Item) → HasAsked history v
        → v.port.link.coming.inbox ≡ bytes ∷ later → ItemsFrom bytes v.port.offset rest
        → AreItemsOf (history.given ++ bytes ∷ []) (history.answers ++ rest) }
    ensures asked { (history : ClientHistory) (request : TheRequest) (old new : AskingValue) (n : ℕ)
        → HasAsked history old → AskedOne request old new n → HasAsked (record history {
          requests = history.requests ++ request ∷ [];
          asked = history.asked ++ Blocked (limit_after (Told history.requests history.answers))
              (messages_of old.present.identity request);
        }) new }
    ensures posted { (history : ClientHistory) (old new : AskingValue) (n : ℕ)
        → HasAsked history old
        → HandsOver old new n
        → HasAsked (record history { handed = history.handed ++ old.port.outbox }) new }
    // What was read on counts after that, and the reports are those that it adds. Of the link only what came moved.
    ensures read_on { (history : ClientHistory) (old new : AskingValue) (reports : List TheReport)
        → HasAsked history old → ReadOn old new reports → (given : List (List ℕ))
        × (answers : List Item) × HasAsked (record history {
          given = given;
          answers = history.answers ++ answers;
        }) new × (given ++ new.port.link.coming.inbox ≡ history.given ++ old.port.link.coming.inbox)
        × (Told history.requests (history.answers ++ answers)
        ≡ Told history.requests history.answers ++ reports) }
    ensures rest { (old new : AskingValue) (reports : List TheReport) → ReadOn old new reports
        → (new.present.own ≡ old.present.own) × (new.port.outbox ≡ old.port.outbox)
        × (new.port.link ≡ with_inbox old.port.link new.port.link.coming.inbox) }
{}

/// Records of a batch under way may be taken out as they come. With all that were taken put back, a client is as one
/// that keeps them, whatever it does on its link and whatever it reads; but the report of the batch has the others
/// alone.
pub fn taken_records_count()
    ensures taken { (told : List (ℕ × List ℕ)) (history : ClientHistory) (v : AskingValue)
        → HasAsked history (with_told told v)
        → HasAsked history (with_told (told ++ records_kept v.present.pending)
        (record v { present = record v.present { pending = none_kept v.present.pending } })) }
    ensures read { (told : List (ℕ × List ℕ)) (history : ClientHistory) (old new : AskingValue)
        (report : Option TheReport) → IsBatch old.present → HasAsked history (with_told told old)
        → ReadOne old new report → (given : List (List ℕ)) × (answer : Item)
        × HasAsked (record history {
          given = given;
          answers = history.answers ++ answer ∷ [];
        }) (with_told told new)
        × (Told history.requests (history.answers ++ answer ∷ [])
        ≡ Told history.requests history.answers
        ++ option_to_list (option_map (reported_after told) report)) }
    ensures received { (told : List (ℕ × List ℕ)) (history : ClientHistory) (old new : AskingValue)
        (packet : List ℕ) (r : Result TheGot TheFault) → HasAsked history (with_told told old)
        → TookIn old new packet r → HasAsked history (with_told told new) }
    ensures posted { (told : List (ℕ × List ℕ)) (history : ClientHistory) (old new : AskingValue)
        (n : ℕ)
        → HasAsked history (with_told told old) → HandsOver old new n
        → HasAsked (record history { handed = history.handed ++ old.port.outbox })
        (with_told told new) }
    ensures wrote { (told : List (ℕ × List ℕ)) (history : ClientHistory) (old new : AskingValue)
        (packets : List (List ℕ)) → HasAsked history (with_told told old)
        → new ≡ record old { port = new.port } → WroteMore old.port new.port packets
        → HasAsked history (with_told told new) }
{}

/// Each call of a server, refused or not, is a run, with the packet that came in it. No call is one, and two are
/// one where the second begins as the first ends.
pub fn calls_are_runs()
    ensures none { (v : ServingValue) → ServerRuns [] v v [] }
    ensures more { (came later : List Arrival) (old mid new : ServingValue)
        (ws more : List WrittenPacket) → ServerRuns came old mid ws → ServerRuns later mid new more
        → ServerRuns (came ++ later) old new (ws ++ more) }
    ensures receive { (old new : ServingValue) (bytes : List ℕ) (r : Result TheGot TheFault)
        → TookIn old new bytes r → ServerRuns ((old.port.link, bytes) ∷ []) old new [] }
    ensures serve { (old new : ServingValue) (n : ℕ) → ServedOne old new n
        → ServerRuns [] old new [] }
    ensures serve_all { (most : ℕ) (old new : ServingValue) (r : Result (Unit {0}) TheEndFault)
        → DidAll (serves most) old new r → ServerRuns [] old new [] }
    ensures post { (old new : ServingValue) (n : ℕ) → HandsOver old new n
        → ServerRuns [] old new [] }
    ensures emit { (old new : ServingValue) (bytes : List ℕ) → new ≡ record old { port = new.port }
        → WroteMore old.port new.port (bytes ∷ []) → ServerRuns [] old new (record {
          bytes = bytes;
          segment = Some (old.port.link.sent + 1);
          acks = old.port.link.coming.received;
        } ∷ []) }
    ensures resend { (v : ServingValue) (i : ℕ) (bytes : List ℕ)
        → i < v.port.link.sent - v.port.link.acked
        → WritesSent v.port.link (Some (v.port.link.acked + 1 + i)) bytes
        → ServerRuns [] v v (record {
          bytes = bytes;
          segment = Some (v.port.link.acked + 1 + i);
          acks = v.port.link.coming.received;
        } ∷ []) }
    ensures ack { (v : ServingValue) (bytes : List ℕ)
        → IsSpelling (ack_packet_of v.port.link) bytes → ServerRuns [] v v (record {
          bytes = bytes;
          segment = None;
          acks = v.port.link.coming.received;
        } ∷ []) }
    ensures go_on { (most : ℕ) (old new : ServingValue) (out all : List (List ℕ))
        (r : Result (Unit {0}) TheEndFault) → WentOn (serves most) old new out all r
        → (wrote : List WrittenPacket) × ServerRuns [] old new wrote
        × (all ≡ out ++ written_bytes wrote) }
    ensures take { (most : ℕ) (old new : ServingValue) (bytes : List ℕ) (out all : List (List ℕ))
        (r : Result TheGot TheTakeFault) → TakesPacket (serves most) old new bytes out all r
        → (wrote : List WrittenPacket) × ServerRuns ((old.port.link, bytes) ∷ []) old new wrote
        × (all ≡ out ++ written_bytes wrote) }
{}

/// Each call of a client is a run, refused or not, but one in which an answer is out of sequence. No call is one, and
/// two are one where the second begins as the first ends.
pub fn asking_calls_are_runs()
    ensures none { (v : AskingValue) → AskingRuns [] [] v v [] [] }
    ensures more { (came later : List Arrival) (requests others : List TheRequest)
        (old mid new : AskingValue) (rs ss : List TheReport) (ws more : List WrittenPacket)
        → AskingRuns came requests old mid rs ws → AskingRuns later others mid new ss more
        → AskingRuns (came ++ later) (requests ++ others) old new (rs ++ ss) (ws ++ more) }
    ensures ask { (old new : AskingValue) (request : TheRequest) (n : ℕ)
        → AskedOne request old new n → AskingRuns [] (request ∷ []) old new [] [] }
    ensures receive { (old new : AskingValue) (bytes : List ℕ) (r : Result TheGot TheFault)
        → TookIn old new bytes r → AskingRuns ((old.port.link, bytes) ∷ []) [] old new [] [] }
    ensures read { (old new : AskingValue) (report : Option TheReport) → ReadOne old new report
        → AskingRuns [] [] old new (option_to_list report) [] }
    ensures read_all { (old new : AskingValue) (before all : List TheReport)
        (r : Result (Unit {0}) TheReadFault) → IfErr r (λ f. f ≢ read_fault.Unexpected)
        → ReadsAll old new before all r → (reports : List TheReport)
        × AskingRuns [] [] old new reports [] × (all ≡ before ++ reports) }
    ensures post { (old new : AskingValue) (n : ℕ) → HandsOver old new n
        → AskingRuns [] [] old new [] [] }
    ensures emit { (old new : AskingValue) (bytes : List ℕ) → new ≡ record old { port = new.port }
        → WroteMore old.port new.port (bytes ∷ []) → AskingRuns [] [] old new [] (record {
          bytes = bytes;
          segment = Some (old.port.link.sent + 1);
          acks = old.port.link.coming.received;
        } ∷ []) }
    ensures resend { (v : AskingValue) (i : ℕ) (bytes : List ℕ)
        → i < v.port.link.sent - v.port.link.acked
        → WritesSent v.port.link (Some (v.port.link.acked + 1 + i)) bytes
        → AskingRuns [] [] v v [] (record {
          bytes = bytes;
          segment = Some (v.port.link.acked + 1 + i);
          acks = v.port.link.coming.received;
        } ∷ []) }
    ensures ack { (v : AskingValue) (bytes : List ℕ)
        → IsSpelling (ack_packet_of v.port.link) bytes → AskingRuns [] [] v v [] (record {
          bytes = bytes;
          segment = None;
          acks = v.port.link.coming.received;
        } ∷ []) }
    ensures go_on { (old new : AskingValue) (out all : List (List ℕ))
        (before after : List TheReport) (r : Result (Unit {0}) TheEndFault)
        → IfErr r (λ f. f ≢ end_fault.Read read_fault.Unexpected)
        → WentOn (hears before after) old new out all r
        → (reports : List TheReport) × (wrote : List WrittenPacket)
        × AskingRuns [] [] old new reports wrote
        × (all ≡ out ++ written_bytes wrote) × (after ≡ before ++ reports) }
    ensures take { (old new : AskingValue) (bytes : List ℕ) (out all : List (List ℕ))
        (before after : List TheReport) (r : Result TheGot TheTakeFault)
        → IfErr r (λ f. why f ≢ end_fault.Read read_fault.Unexpected)
        → TakesPacket (hears before after) old new bytes out all r
        → (reports : List TheReport) × (wrote : List WrittenPacket)
        × AskingRuns ((old.port.link, bytes) ∷ []) [] old new reports wrote
        × (all ≡ out ++ written_bytes wrote) × (after ≡ before ++ reports) }
{}

/// Whatever bytes come to an end that served nothing yet, and whatever it was called to do, there is a list of items
/// that it served: its files are those after them, what it passed to its link is a prefix of the answers to them, and
/// each packet that it wrote carries its segment of that.
pub fn every_run_is_served()
    ensures { (came : List Arrival) (first : Files) (old new : ServingValue)
        (wrote : List WrittenPacket)
        → IsAfter (nothing_yet first) old → ServerRuns came old new wrote
        → (history : ServerHistory) × IsAfter history new × (history.first ≡ first)
        × (new.present.files ≡ After new.present.setup history.first history.items)
        × AreWrittenOf new.port.link history.handed wrote }
{}

/// Where the packets are those of a peer that sends some NSP messages, lost, repeated and reordered as they may be,
/// what the end served is a prefix of the items in them, each once and in order.
pub fn a_peer_is_served_in_order()
    ensures { (setup : TheSetup) (first : Files) (size : ℕ) (messages : List (List ℕ))
        (came : List Arrival) (old new : ServingValue) (wrote : List WrittenPacket)
        → AllByRecursion (λ c. IsFromPeer size messages c.0 c.1) came
        → old.port ≡ new_port setup → IsAfter (nothing_yet first) old
        → ServerRuns came old new wrote
        → (history : ServerHistory) × IsAfter history new × (history.first ≡ first)
        × AreFrontOf messages history.items }
{}

/// Whatever a server is called to do by itself leaves one end, and writes one list of packets, by what the end did
/// before: also where it is refused half-way, unless memory is refused.
pub fn serving_is_determined()
    ensures serve { (history : ServerHistory) (old one two : ServingValue) (n m : ℕ)
        → IsAfter history old
        → ServedOne old one n → ServedOne old two m → (one ≡ two) × (n ≡ m) }
    ensures serve_all { (most : ℕ) (history : ServerHistory) (old one two : ServingValue)
        (r s : Result (Unit {0}) TheEndFault) → IsAfter history old
        → IfErr r (λ f. is_want f ≡ false) → IfErr s (λ f. is_want f ≡ false)
        → DidAll (serves most) old one r → DidAll (serves most) old two s
        → (one ≡ two) × (r ≡ s) }
    ensures go_on { (most : ℕ) (history : ServerHistory) (old one two : ServingValue)
        (out xs ys : List (List ℕ))
        (r s : Result (Unit {0}) TheEndFault) → IsAfter history old → IfErr r (λ f. is_want f
        ≡ false)
        → IfErr s (λ f. is_want f ≡ false) → WentOn (serves most) old one out xs r
        → WentOn (serves most) old two out ys s → (one ≡ two) × (r ≡ s) × (xs ≡ ys) }
{}

/// Once a server has gone on, or has taken a packet and gone on, no more bytes wait than before, or fewer than its
/// limit and the answers to one message; and if the limit is above 0, and all that it sent is
/// acknowledged, it has served all that came.
pub fn answers_are_bounded()
    ensures go_on { (most : ℕ) (old new : ServingValue) (out all : List (List ℕ))
        (r : Result (Unit {0}) TheEndFault) → 0 < old.port.link.setup.seg_size
        → WentOn (serves most) old new out all r → IsBounded most old old new }
    ensures take { (most : ℕ) (old new : ServingValue) (bytes : List ℕ) (out all : List (List ℕ))
        (r : Result TheGot TheTakeFault) → 0 < old.port.link.setup.seg_size
        → TakesPacket (serves most) old new bytes out all r
        → (first : ServingValue) × (q : Result TheGot TheFault) × TookIn old first bytes q
        × IsBounded most old first new }
    ensures nothing_left { (most : ℕ) (history : ServerHistory) (old new : ServingValue)
        (out all : List (List ℕ))
        → 0 < most → 0 < old.port.link.setup.seg_size → 0 < new.port.link.setup.window
        → IsAfter history new → WentOn (serves most) old new out all (Ok tt)
        → new.port.link.sent ≡ new.port.link.acked → new.port.link.coming.inbox ≡ [] }
{}

/// A request that is asked, an answer that is read, and whatever a client does by itself leave one end, one list of
/// reports and one of packets, by what the end did before: also where it is refused half-way, unless memory is
/// refused. Of an answer that is read this holds also where records of the batch under way were taken out.
pub fn asking_is_determined()
    ensures ask { (history : ClientHistory) (request : TheRequest) (old one two : AskingValue)
        (n m : ℕ)
        → HasAsked history old → AskedOne request old one n → AskedOne request old two m
        → (one ≡ two) × (n ≡ m) }
    ensures read { (history : ClientHistory) (old one two : AskingValue) (r s : Option TheReport)
        → HasAsked history old → ReadOne old one r → ReadOne old two s → (one ≡ two) × (r ≡ s) }
    ensures read_on { (told : List (ℕ × List ℕ)) (history : ClientHistory)
        (old one two : AskingValue) (r s : Option TheReport)
        → HasAsked history (with_told told old) → ReadOne old one r → ReadOne old two s
        → (one ≡ two) × (r ≡ s) }
    ensures read_all { (old one two : AskingValue) (before rs ss : List TheReport)
        (r s : Result (Unit {0}) TheReadFault) → HasDone old
        → r ≢ Err read_fault.NoMemory → s ≢ Err read_fault.NoMemory
        → ReadsAll old one before rs r → ReadsAll old two before ss s
        → (one ≡ two) × (r ≡ s) × (rs ≡ ss) × HasDone one }
    ensures go_on { (old one two : AskingValue) (out xs ys : List (List ℕ))
        (before rs ss : List TheReport) (r s : Result (Unit {0}) TheEndFault) → HasDone old
        → IfErr r (λ f. is_want f ≡ false) → IfErr s (λ f. is_want f ≡ false)
        → WentOn (hears before rs) old one out xs r → WentOn (hears before ss) old two out ys s
        → (one ≡ two) × (r ≡ s) × (xs ≡ ys) × (rs ≡ ss) × HasDone one }
{}

/// A packet that is received leaves one end, and is answered by one list of packets, and of reports, by what the end
/// did before; so is one that is refused, or of which not all is done, unless memory is refused.
pub fn taking_is_determined()
    ensures serving { (most : ℕ) (history : ServerHistory) (old one two : ServingValue)
        (bytes : List ℕ)
        (out xs ys : List (List ℕ)) (r s : Result TheGot TheTakeFault) → AreBytes bytes
        → IsAfter history old → IfErr r (λ f. is_want (why f) ≡ false)
        → IfErr s (λ f. is_want (why f) ≡ false)
        → TakesPacket (serves most) old one bytes out xs r
        → TakesPacket (serves most) old two bytes out ys s
        → (one ≡ two) × (r ≡ s) × (xs ≡ ys) }
    ensures asking { (old one two : AskingValue) (bytes : List ℕ)
        (out xs ys : List (List ℕ)) (before rs ss : List TheReport)
        (r s : Result TheGot TheTakeFault) → AreBytes bytes → HasDone old
        → IfErr r (λ f. is_want (why f) ≡ false) → IfErr s (λ f. is_want (why f) ≡ false)
        → TakesPacket (hears before rs) old one bytes out xs r
        → TakesPacket (hears before ss) old two bytes out ys s
        → (one ≡ two) × (r ≡ s) × (xs ≡ ys) × (rs ≡ ss) × HasDone one }
{}

/// What is passed on is passed on or refused by what waits, unless memory is refused.
pub fn posting_is_determined()
    ensures one { (old one two : ServingValue) (n m : ℕ) → HandsOver old one n → HandsOver old two m
        → (one ≡ two) × (n ≡ m) }
    ensures apart { (old new : ServingValue) (n : ℕ) (f : TheFault) → f ≢ fault.NoMemory
        → HandsOver old new n → SendAllFault old.port.link old.port.outbox f → ⊥ }
    ensures asking { (old new : AskingValue) (n : ℕ) (f : TheFault) → f ≢ fault.NoMemory
        → HandsOver old new n → SendAllFault old.port.link old.port.outbox f → ⊥ }
    ensures why { (old : PortValue) (f g : TheFault) → f ≢ fault.NoMemory → g ≢ fault.NoMemory
        → SendAllFault old.link old.outbox f → SendAllFault old.link old.outbox g → f ≡ g }
{}

/// Whatever bytes come to an end of which nothing was asked, and whatever is asked of it, up to the first answer that
/// is out of sequence: its reports are those of the definition for the requests and of the answers that it read, what
/// it passed to its link is a prefix of the requests' messages, and each packet that it wrote carries its segment of
/// that.
pub fn every_run_is_told()
    ensures { (came : List Arrival) (requests : List TheRequest) (old new : AskingValue)
        (reports : List TheReport) (wrote : List WrittenPacket)
        → HasAsked nothing_asked old → AskingRuns came requests old new reports wrote
        → (history : ClientHistory) × HasAsked history new × (history.requests ≡ requests)
        × (reports ≡ Told history.requests history.answers)
        × AreWrittenOf new.port.link history.handed wrote }
{}

/// Where the packets are those of a peer that sends some NSP messages, lost, repeated and reordered as they may be,
/// the answers read are a prefix of the items in them, each once and in order.
pub fn a_peer_is_heard_in_order()
    ensures { (setup : TheSetup) (size : ℕ) (messages : List (List ℕ))
        (came : List Arrival) (requests : List TheRequest) (old new : AskingValue)
        (reports : List TheReport) (wrote : List WrittenPacket)
        → AllByRecursion (λ c. IsFromPeer size messages c.0 c.1) came
        → old.port ≡ new_port setup → HasAsked nothing_asked old
        → AskingRuns came requests old new reports wrote
        → (history : ClientHistory) × HasAsked history new × AreFrontOf messages history.answers }
{}

/// What an end holds follows from what it did, from its port, and from its setup or its Configuration. So whatever a
/// call leaves by which an end is as after something known, as those do that make it, renew it or give it files, is
/// determined.
pub fn ends_are_one()
    ensures serving { (history : ServerHistory) (one two : ServingValue) → IsAfter history one
        → IsAfter history two
        → one.port ≡ two.port → one.present.setup ≡ two.present.setup → one ≡ two }
    ensures asking { (history : ClientHistory) (one two : AskingValue) → HasAsked history one
        → HasAsked history two → one.port ≡ two.port → one.present.identity ≡ two.present.identity
        → one ≡ two }
{}

/// What receiving a packet leaves, and what is answered, follows from the end and the packet, out of memory aside; and
/// so does the next segment that an end writes, or that there is none.
pub fn packets_are_determined()
    ensures serving { (old one two : ServingValue) (bytes : List ℕ) (r s : Result TheGot TheFault)
        → AreBytes bytes → r ≢ Err fault.NoMemory → s ≢ Err fault.NoMemory
        → TookIn old one bytes r → TookIn old two bytes s → (one ≡ two) × (r ≡ s) }
    ensures asking { (old one two : AskingValue) (bytes : List ℕ) (r s : Result TheGot TheFault)
        → AreBytes bytes → r ≢ Err fault.NoMemory → s ≢ Err fault.NoMemory
        → TookIn old one bytes r → TookIn old two bytes s → (one ≡ two) × (r ≡ s) }
    ensures emitted { (handed : List (List ℕ)) (old one two : PortValue) (xs ys : List ℕ)
        → Sends old.link handed → WroteMore old one (xs ∷ []) → WroteMore old two (ys ∷ [])
        → (one ≡ two) × (xs ≡ ys) }
    ensures none { (old one : PortValue) (xs : List ℕ) → WroteMore old one (xs ∷ [])
        → may_send old.link ≡ false → ⊥ }
{}

/// A packet of a peer that sends some NSP messages, and nothing too old or too far ahead, is refused where memory is,
/// or where the end would have taken more than 2^40 segments, and for nothing else; and then it changes nothing.
pub fn peers_are_taken_in()
    ensures serving { (setup : TheSetup) (first : Files) (size : ℕ) (messages : List (List ℕ))
        (came : List Arrival) (old mid new : ServingValue) (wrote : List WrittenPacket)
        (bytes : List ℕ) (f : TheFault)
        → AllByRecursion (λ c. IsFromPeer size messages c.0 c.1) came
        → old.port ≡ new_port setup → IsAfter (nothing_yet first) old
        → ServerRuns came old mid wrote
        → IsFromPeer size messages mid.port.link bytes → TookIn mid new bytes (Err f)
        → ((f ≡ fault.NoMemory) ⊎ (f ≡ fault.Exhausted)) × (new ≡ mid) }
    ensures asking { (setup : TheSetup) (size : ℕ) (messages : List (List ℕ))
        (came : List Arrival) (requests : List TheRequest) (old mid new : AskingValue)
        (reports : List TheReport) (wrote : List WrittenPacket) (bytes : List ℕ) (f : TheFault)
        → AllByRecursion (λ c. IsFromPeer size messages c.0 c.1) came
        → old.port ≡ new_port setup → HasAsked nothing_asked old
        → AskingRuns came requests old mid reports wrote
        → IsFromPeer size messages mid.port.link bytes → TookIn mid new bytes (Err f)
        → ((f ≡ fault.NoMemory) ⊎ (f ≡ fault.Exhausted)) × (new ≡ mid) }
{}

/// A run of one of two ends, in which the packets that come are of those that the other wrote before, unaltered and
/// not more than 2,047 numbers old, is a run of both; and two are one where the second begins as the first ends.
pub fn runs_of_two_ends()
    ensures asking { (old : Pair) (a : AskingValue) (came : List Arrival)
        (requests : List TheRequest) (reports : List TheReport) (wrote : List WrittenPacket)
        → AllByRecursion (λ c. IsBrought old.from_b c.0 c.1) came
        → AskingRuns came requests old.a a reports wrote
        → PairRuns old (record old {
          a = a;
          from_a = old.from_a ++ wrote;
          requests = old.requests ++ requests;
          reports = old.reports ++ reports;
        }) }
    ensures serving { (old : Pair) (b : ServingValue) (came : List Arrival)
        (wrote : List WrittenPacket) → AllByRecursion (λ c. IsBrought old.from_a c.0 c.1) came
        → ServerRuns came old.b b wrote
        → PairRuns old (record old { b = b; from_b = old.from_b ++ wrote }) }
    ensures more { (old mid new : Pair) → PairRuns old mid → PairRuns mid new → PairRuns old new }
{}

/// Two new ends of one link, whose setups have each other's addresses and the same limit, keep the headline, over
/// every list of their calls and every packet that one wrote and the other gets, unaltered and not more than 2,047
/// numbers old: what was served is a prefix of what the requests ask, each once and in order, the files are those
/// after it, and the reports are those of the definition for a prefix of the answers to it.
pub fn two_ends_keep_the_headline()
    ensures { (s t : TheSetup) (first : Files) (a : AskingValue) (b : ServingValue) (new : Pair)
        → IsSetup s → IsSetup t → t ≡ record s {
          local = s.remote;
          remote = s.local;
          seg_size = t.seg_size;
          window = t.window;
        } → a.port ≡ new_port s → HasAsked nothing_asked a
        → b.port ≡ new_port t → IsAfter (nothing_yet first) b
        → PairRuns (record {
          a = a;
          b = b;
          from_a = [];
          from_b = [];
          requests = [];
          reports = [];
        }) new → (taken more read rest : List Message)
        × (taken ++ more ≡ Asked new.a.present.identity new.requests)
        × (new.b.present.files ≡ After new.b.present.setup first (map Whole taken))
        × (read ++ rest ≡ Answers new.b.present.setup first (map Whole taken))
        × (new.reports ≡ Told new.requests (map Whole read)) }
{}

/// No answer between two such ends is unexpected, so that `two_ends_keep_the_headline` speaks of every list of their
/// calls: where the files that the server had at first are files, and both have a BUFSIZ that an end may have.
pub fn no_answer_is_unexpected()
    ensures { (s t : TheSetup) (first : Files) (a : AskingValue) (b : ServingValue) (new : Pair)
        (after : AskingValue) (f : TheReadFault) → IsSetup s → IsSetup t → t ≡ record s {
          local = s.remote;
          remote = s.local;
          seg_size = t.seg_size;
          window = t.window;
        } → AreFiles first → IsBufsiz a.present.own → IsBufsiz b.present.own
        → a.port ≡ new_port s → HasAsked nothing_asked a
        → b.port ≡ new_port t → IsAfter (nothing_yet first) b
        → PairRuns (record {
          a = a;
          b = b;
          from_a = [];
          from_b = [];
          requests = [];
          reports = [];
        }) new → AreBytes (oldest_message new.a.port.link.coming.inbox)
        → ReadNone new.a after f → f ≢ read_fault.Unexpected }
{}
