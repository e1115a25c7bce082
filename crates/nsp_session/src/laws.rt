//! Laws of the definitions, for whoever keeps connect data as bytes.

ghost use Rattle.std.specs.Prelude.{◌≡◌, ◌<◌, ◌⊎◌, ℕ, List, Some, IfSome, slice_index};
ghost use Rattle.nsp_session.specs.declared.session.Session.{Session};
ghost use Rattle.nsp_session.specs.declared.session.SessionFault.{SessionFault};
ghost use Rattle.nsp_session.specs.Sessions.{SpellsSession, SessionFits, session_spelling};
ghost use Rattle.nsp_session.specs.Reading.{session_in};
ghost use Rattle.nsp_session.specs.Faults.{HasSessionFault};

/// States that bytes spell one `Session` or have one fault, never both, and that what is written of a `Session` that fits
/// spells that one and no other. So what `encode_session` appended is read back by `decode_session`.
pub fn session_is_exact()
    ensures some { (bytes : List ℕ) → ((i : ℕ) → slice_index bytes i < 256)
        → ((s : Session) × SpellsSession s bytes) ⊎ ((f : SessionFault) × HasSessionFault f bytes) }
    ensures one { (s t : Session) (bytes : List ℕ)
        → SpellsSession s bytes → SpellsSession t bytes → s ≡ t }
    ensures one_fault { (f g : SessionFault) (bytes : List ℕ)
        → HasSessionFault f bytes → HasSessionFault g bytes → f ≡ g }
    ensures apart { (s : Session) (f : SessionFault) (bytes : List ℕ)
        → SpellsSession s bytes → HasSessionFault f bytes → ⊥ }
    ensures is_read { (s : Session) (bytes : List ℕ)
        → SpellsSession s bytes → session_in bytes ≡ Some s }
    ensures read { (bytes : List ℕ) → ((i : ℕ) → slice_index bytes i < 256)
        → IfSome (session_in bytes) (λ s. SpellsSession s bytes) }
    ensures written { (s : Session) → SessionFits s → SpellsSession s (session_spelling s) }
    ensures read_back { (s t : Session)
        → SessionFits s → SpellsSession t (session_spelling s) → t ≡ s }
{}
