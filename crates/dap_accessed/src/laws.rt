//! Laws over the definitions alone, for the crates above. Each function does nothing: its contract is
//! the law.

ghost use Rattle.std.specs.Prelude.{◌≡◌, ◌<◌, ◌^◌, ℕ, List, [], ◌∷◌, ◌++◌, length, Some, true};
ghost use Rattle.dap_msg.specs.declared.items.Item.{Item as TheItem};
ghost use Rattle.dap_msg.specs.declared.message.Message.TheVariants.{Config};
ghost use Rattle.dap_msg.specs.Fitting.{FieldsFit};
ghost use Rattle.dap_msg.specs.Items.{IsRead};
ghost use Rattle.dap_msg.specs.Blocked.{AllFit};
ghost use Rattle.dap_msg.specs.Sendable.{AreSendable};
ghost use Rattle.std.specs.List.{AllByRecursion};
ghost use Rattle.dap_accessed.specs.Sound.{AreFiles, IsSound};
ghost use Rattle.dap_accessed.specs.Apart.{NamesAreApart};
ghost use Rattle.dap_accessed.specs.Twins.{AreTwins, SameMessages};
ghost use Rattle.dap_accessed.specs.declared.setup.Names.{Names};
ghost use Rattle.dap_accessed.specs.declared.setup.ServerSetup.{ServerSetup};
ghost use Rattle.dap_accessed.specs.Standing.{Files, file_at};
ghost use Rattle.dap_accessed.specs.Adding.{MayGive, MayStore, newest, with_new_file, with_record};
ghost use Rattle.dap_accessed.specs.declared.asked.Asked.{Asked};
ghost use Rattle.dap_accessed.specs.Asked.{IsAsked, asked_fully};
ghost use Rattle.dap_accessed.specs.Replies.{file_attributes};
ghost use Rattle.rec_file.specs.declared.look.Look.{Look};
ghost use Rattle.rec_file.specs.declared.shapes.Shape.{Shape};
ghost use Rattle.rec_file.specs.Looks.{IsLook};
ghost use Rattle.rec_file.specs.Shapes.{is_shape};
ghost use Rattle.dap_accessed.specs.Groups.{After, Answers, answers_added, limit_for, stands_after};

/// One more message adds its answers to those of the messages before it, and no others.
pub fn answers_grow()
    ensures { (own : ServerSetup) (first : Files) (items : List TheItem) (item : TheItem)
        → Answers own first (items ++ item ∷ [])
        ≡ Answers own first items ++ answers_added own first items item }
{}

/// Where each file at first obeyed its shape, and no two had the same name, it is so after any messages; each shape
/// is one that `Shape::check` gives, the file that is open is in the table, and what the peer takes is 64 to 65,535
/// bytes.
pub fn stays_sound()
    ensures { (own : ServerSetup) (first : Files) (items : List TheItem)
        → AreFiles first → IsSound (stands_after own first items) }
{}

/// Each answer to one more message that was read has a spelling, and none is longer than the peer takes.
pub fn answers_are_sendable()
    ensures { (own : ServerSetup) → FieldsFit (Config own.identity)
        → (first : Files) (items : List TheItem)
        (item : TheItem) → AreFiles first → IsRead item
        → AreSendable (limit_for own first items) (answers_added own first items item) }
{}

/// All answers to messages that were read have spellings.
pub fn answers_fit()
    ensures { (own : ServerSetup) → FieldsFit (Config own.identity)
        → (first : Files) (items : List TheItem)
        → AreFiles first → AllByRecursion IsRead items → AllFit (Answers own first items) }
{}

/// A file and a record that an end is given leave files that obey their shapes and have different names.
pub fn given_files_are_sound()
    ensures file { (names : Names) (files : Files) (name : List ℕ) (asked : Asked) → AreFiles files
        → IsAsked asked → MayGive names name files
        → AreFiles (with_new_file names name asked files) }
    ensures record { (files : Files) (n : ℕ) (body : List ℕ) → AreFiles files → 0 < length files
        → MayStore (file_at (newest files) files) n body → AreFiles (with_record n body files) }
{}

/// Where no two of the files at first had one name, as the server compares names, no two ever have. So with folded
/// names no two files of the table fold alike, and with versions no two have one fold and one number.
pub fn names_stay_apart()
    ensures { (own : ServerSetup) (first : Files) (items : List TheItem)
        → NamesAreApart own.names first → NamesAreApart own.names (After own first items) }
{}

/// Two servers that differ in what they say of themselves alone, of whatever BUFSIZ, do the same: the files after any
/// messages are the same, so is the maximum length of a message that they send, and so are the answers, but that each
/// sends its Configuration.
pub fn identity_is_told_alone()
    ensures files { (one other : ServerSetup) (first : Files) (items : List TheItem)
        → AreTwins one other → After one first items ≡ After other first items }
    ensures limit { (one other : ServerSetup) (first : Files) (items : List TheItem)
        → AreTwins one other → limit_for one first items ≡ limit_for other first items }
    ensures answers { (one other : ServerSetup) (first : Files) (items : List TheItem)
        → AreTwins one other → SameMessages one.identity other.identity
        (Answers one first items) (Answers other first items) }
    ensures added { (one other : ServerSetup) (first : Files) (items : List TheItem)
        (item : TheItem) → AreTwins one other → SameMessages one.identity other.identity
        (answers_added one first items item) (answers_added other first items item) }
{}

/// States that the Attributes which a full server gives of a file ask a full server for a file of the same shape, of which
/// the same is kept: what a copy takes along stands in them (DAP 5.6.0, Attributes message).
pub fn attributes_ask_for_their_file()
    ensures { (shape : Shape) (look : Look) → is_shape shape ≡ true → IsLook shape look
        → asked_fully (file_attributes shape look)
        ≡ Some (record { shape = shape; look = look }) }
{}
