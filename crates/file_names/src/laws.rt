//! Laws over the definitions alone. Each function does nothing: its contract is the law.

ghost use Rattle.std.specs.Prelude.{◌≡◌, ◌≤◌, ℕ, true, List, ◌∷◌, ◌++◌};
ghost use Rattle.std.specs.List.{list_all};
ghost use Rattle.std.specs.Char.{is_ascii_digit};
ghost use Rattle.file_names.specs.Folds.{fold};
ghost use Rattle.file_names.specs.Versions.{max_version, version_name, version_number};

/// States that a fold finds itself: the fold of a fold, with `;` and digits after it or not, is that fold. So a file
/// that is named by its fold is found by that name.
pub fn folds_find_themselves()
    ensures again { (name : List ℕ) → fold (fold name) ≡ fold name }
    ensures numbered { (name digits : List ℕ) → list_all is_ascii_digit digits ≡ true
        → fold (fold name ++ 0x3B ∷ digits) ≡ fold name }
{}

/// States that the name of a version finds that version: it has the fold that it was made of, and asks for its number.
pub fn versions_find_themselves()
    ensures alike { (name : List ℕ) (number : ℕ) → number ≤ max_version
        → fold (version_name name number) ≡ fold name }
    ensures numbered { (name : List ℕ) (number : ℕ) → number ≤ max_version
        → version_number (version_name name number) ≡ number }
{}
