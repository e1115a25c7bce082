//! Laws over the definitions alone. Each function does nothing: its contract is the law.

ghost use Rattle.std.specs.Prelude.{◌≡◌, ◌≤◌, ◌++◌, ℕ, List, Ok, Some};
ghost use Rattle.dap_fields.specs.Spelling.{AreBytes};
ghost use Rattle.rec_file.specs.Limits.{max_record_number};
ghost use Rattle.dap_accessed.specs.declared.asked.Asked.{Asked};
ghost use Rattle.dap_accessed.specs.Asked.{IsAsked};
ghost use Rattle.dap_text.specs.Kept.{LineAsks};
ghost use Rattle.dap_text.specs.Filed.{file_line_of, record_line_of};
ghost use Rattle.dap_text.specs.Tables.{file_line, record_line};
ghost use Rattle.texts.specs.Text.{line_feed};
ghost use Rattle.dap_text.specs.declared.filed.FileLine.{FileLine};

/// States that what is printed of a file is read back: its name, its shape, and what is kept with it.
pub fn files_are_read_back()
    ensures { (name line : List ℕ) (asked : Asked) → AreBytes name → IsAsked asked
        → file_line name asked.shape asked.look ≡ line ++ line_feed
        → (file : FileLine) × (file_line_of line ≡ Some file) × (file.name ≡ name)
        × LineAsks file (Ok asked) }
{}

/// States that what is printed of a record is read back.
pub fn records_are_read_back()
    ensures { (number : ℕ) (body line : List ℕ) → number ≤ max_record_number → AreBytes body
        → record_line (number, body) ≡ line ++ line_feed
        → record_line_of line ≡ Some (record { number = number; body = body }) }
{}
