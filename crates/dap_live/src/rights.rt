//! What a word says of the rights of a link.

ghost use Rattle.std.specs.Prelude.{◌≡◌};
ghost use Rattle.dap_live.specs.Rights.{named_rights, comma_separated, rights_by, with_right, with_rights};

use dap_accessed::rights_of_fac;
use dap_text::MAX_FAC;
use rec_file::Rights;
use texts::{find_byte, read_number};

/// No right.
const NO_RIGHTS: Rights = Rights {
    get: false,
    put: false,
    upd: false,
    del: false,
};

/// Adds the right that a word names; or returns None where it names none, or one that is among these.
fn add_right(rights: Rights, word: &[u8]) -> Option<Rights>
    ensures { result ≡ with_right rights word.now }
{
    match word {
        b"get" if !rights.get => Some(Rights {
            get: true,
            ..rights
        }),
        b"put" if !rights.put => Some(Rights {
            put: true,
            ..rights
        }),
        b"upd" if !rights.upd => Some(Rights {
            upd: true,
            ..rights
        }),
        b"del" if !rights.del => Some(Rights {
            del: true,
            ..rights
        }),
        _ => None,
    }
}

/// Adds the rights of a list of names with commas between them; or returns None where one is no name, or is among these.
#[tactic(auto, using(crate::proofs::RightsLemmas::one_right))]
fn add_rights(rights: Rights, names: &[u8]) -> Option<Rights>
    ensures { result ≡ with_rights rights (comma_separated names.now) }
{
    match find_byte(b',', names) {
        None => add_right(rights, names),
        Some(end) => add_rights(add_right(rights, &names[..end])?, &names[end + 1..]),
    }
}

/// Reads names of rights, none twice, with commas between them; or `-` for none.
fn read_named_rights(word: &[u8]) -> Option<Rights>
    ensures { result ≡ named_rights word.now }
{
    match word {
        b"-" => Some(NO_RIGHTS),
        names => add_rights(NO_RIGHTS, names),
    }
}

/// Reads `RIGHTS`: some of `get`, `put`, `upd` and `del`, none twice, with commas between them; `-` for none; or a number
/// from 0 to 15, the bits of a FAC (`rights_of_fac`).
pub(crate) fn read_rights(word: &[u8]) -> Option<Rights>
    ensures { result ≡ rights_by word.now }
{
    if let Some(rights) = read_named_rights(word) {
        return Some(rights);
    }
    Some(rights_of_fac(read_number(word, MAX_FAC)?))
}
