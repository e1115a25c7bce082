//! What a server is set up with.

ghost use Rattle.std.specs.Prelude.{◌≡◌};
ghost use Rattle.dap_accessed.specs.Accesses.{rights_of};
ghost use Rattle.dap_accessed.specs.Setup.{all_rights, asks_for_one, lacks, plain_setup};

use dap_msg::{Configuration, FileAccess};
use file_names::{Wanted, version_wanted};
use rec_file::Rights;

/// How the names of files are compared.
#[derive(Clone, Copy, PartialEq, Eq)]
pub enum Names {
    /// Byte by byte.
    Exact,
    /// By their folds: a device, a directory, a version and small letters don't count.
    Folded,
    /// By folds and versions: a file has a fold and a number, and a new one gets the next, or the one that is asked for.
    /// Of a fold that has this many files or more, a new one replaces the lowest that is below it.
    Versions(u16),
}

/// Returns whether a name asks for the latest version of a file, or for number 1.
pub(crate) fn asks_for_one(name: &[u8]) -> bool
    ensures { result ≡ asks_for_one name.now }
{
    matches!(version_wanted(name), Wanted::Latest | Wanted::Version(1))
}

/// What a server is set up with.
#[derive(Clone, Copy)]
pub struct ServerSetup {
    /// What it says of itself: the Configuration that it answers with.
    pub identity: Configuration,
    /// By which names an Access finds a file.
    pub names: Names,
    /// The rights that an Access may ask for.
    pub most: Rights,
    /// Whether it does what programs at a prompt need, which a plain server doesn't: the Status of a refusal with a
    /// reason has RMS's code ([`dap_msg::codes::rms_code`]), and an Access may erase a file.
    pub full: bool,
}

/// Every right.
pub const ALL_RIGHTS: Rights = Rights {
    get: true,
    put: true,
    upd: true,
    del: true,
};

/// What an Access to erase a file asks for, whatever its FAC is.
pub(crate) const RIGHTS_TO_ERASE: Rights = Rights {
    get: false,
    put: false,
    upd: false,
    del: true,
};

/// Returns the rights to do these operations.
pub(crate) fn rights_for_access(access: FileAccess) -> Rights
    ensures { result ≡ rights_of access.0 }
{
    Rights {
        get: access.allows_get(),
        put: access.allows_put(),
        upd: access.allows_update(),
        del: access.allows_delete(),
    }
}

/// Returns the rights for which the bits of a FAC stand: bit 0 PUT, 1 GET, 2 DELETE, 3 UPDATE; none for 0 (DAP 5.6.0,
/// Access message).
pub fn rights_of_fac(fac: u32) -> Rights
    ensures { result ≡ rights_of fac }
{
    rights_for_access(FileAccess::of_fac(fac))
}

impl ServerSetup {
    /// Returns a server with a buffer of this many bytes of which nothing else is asked: names are compared byte by
    /// byte, an Access may ask for every right, and it isn't full.
    pub fn plain(bufsiz: u16) -> ServerSetup
        ensures { result ≡ plain_setup bufsiz }
    {
        ServerSetup {
            identity: Configuration::plain(bufsiz),
            names: Names::Exact,
            most: ALL_RIGHTS,
            full: false,
        }
    }

    /// Returns whether one of these rights is more than an Access may ask for.
    pub(crate) fn lacks(&self, asked: Rights) -> bool
        ensures { result ≡ lacks self.now.most asked }
    {
        let most = self.most;
        (asked.get && !most.get)
            || (asked.put && !most.put)
            || (asked.upd && !most.upd)
            || (asked.del && !most.del)
    }
}
