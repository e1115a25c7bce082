//! The server.

ghost use Rattle.std.specs.Prelude.{◌≡◌, ◌≤◌, ◌<◌, ℕ, List, [], length, IfOk, IsOk, OnErr};
ghost use Rattle.dap_msg.specs.BothEnds.{max_nsp_message, min_buffer};
ghost use Rattle.dap_msg.specs.declared.items.Item.{Item as TheItem};
ghost use Rattle.dap_msg.specs.Items.{IsOffset, ItemAt};
ghost use Rattle.dap_msg.specs.declared.items.Item.TheVariants.{Whole};
ghost use Rattle.dap_msg.specs.declared.message.Message.{Message as TheMessage};
ghost use Rattle.dap_msg.specs.Decoding.{IsSpelled};
ghost use Rattle.dap_accessed.specs.Groups.{After};
ghost use Rattle.dap_accessed.specs.Present.{StandsAfter};
ghost use Rattle.dap_accessed.specs.Served.{IsSilent, ServesItemAt};
ghost use Rattle.dap_accessed.specs.Setup.{IsServerSetup, plain_setup};
ghost use Rattle.dap_accessed.specs.Standing.{Files};

use crate::fault::NoMemory;
use crate::served::Served;
use crate::session::Session;
use crate::setup::ServerSetup;
use crate::table::FileTable;
use dap_msg::{Item, item_at};
use std::alloc::Global;
use std::marker::Model;

/// The server: it holds the files, and serves one message after another (DAP 5.6.0, message sequences). It keeps no
/// list of what it served: it is as after any messages that leave what it keeps.
#[derive(Drop)]
pub struct Accessed {
    pub(crate) files: FileTable,
    pub(crate) session: Session,
}

impl Model for Accessed {
    ghost use Rattle.dap_accessed.specs.Present.{Present};
    ghost use Rattle.dap_accessed.specs.Sessions.{IsOpenIn, with_files};
    ghost use Rattle.dap_accessed.specs.Stored.{present_code};

    ghost Value = { Present };

    ghost coded = { present_code };

    ghost view = { λ a. with_files a.files a.session };

    ghost invariant = { λ a. IsOpenIn a.files a.session.phase };
}

impl Accessed {
    /// Creates an end with no files that waits for the peer's Config, with a buffer of this many bytes, at least 64. It
    /// takes no memory.
    pub fn new(alloc: Global, bufsiz: u16) -> Accessed
        requires low { min_buffer ≤ bufsiz }
        requires high { bufsiz ≤ max_nsp_message }
        ensures own { result.own ≡ bufsiz }
        ensures setup { result.setup ≡ plain_setup bufsiz }
        ensures stands { StandsAfter [] [] result }
    {
        Accessed::with_setup(alloc, ServerSetup::plain(bufsiz))
    }

    /// Creates an end with this setup, which has no files, and of which no message was served. It takes no memory.
    pub fn with_setup(alloc: Global, setup: ServerSetup) -> Accessed
        requires { IsServerSetup setup }
        ensures setup { result.setup ≡ setup }
        ensures own { result.own ≡ setup.identity.bufsiz }
        ensures stands { StandsAfter [] [] result }
    {
        Accessed {
            files: FileTable::new(alloc),
            session: Session::with_setup(alloc, setup),
        }
    }

    /// Returns the files, in the order in which they were made: what all groups of messages so far have made of them.
    pub fn files(&self) -> &FileTable
        ensures held { result.now ≡ self.now.files }
        ensures after { (first : Files) (items : List TheItem) → StandsAfter first items self.now
            → result.now ≡ After self.now.setup first items }
    {
        &self.files
    }

    /// Serves the one DAP message that begins at an offset of an NSP message (DAP 5.6.0, message sequences): `at` is
    /// less than its length, or 0 where it has none. Bytes of which no message can be read are answered by
    /// one Status, and nothing after them is read.
    ///
    /// The only refusal is [`NoMemory`]. Nothing has changed then, and the same call may be made again. A message
    /// that has no answer and stores no record takes no memory.
    pub fn serve(&mut self, nsp_message: &[u8], at: usize) -> Result<Served, NoMemory>
        requires { IsOffset at nsp_message.now }
        ensures serves { IfOk result (ServesItemAt nsp_message.now at self.old self.new) }
        ensures within { IfOk result (λ served. served.next ≤ length nsp_message.now) }
        ensures further { at < length nsp_message.now → IfOk result (λ served. at < served.next) }
        ensures no_memory { OnErr result (self.new ≡ self.old) }
        ensures unrefused { (first : Files) (items : List TheItem) (item : TheItem) (next : ℕ)
            → StandsAfter first items self.old → ItemAt nsp_message.now at item next
            → IsSilent self.old.setup first items item → IsOk result }
    {
        let (item, next) = item_at(nsp_message, at);
        self.serve_item(item, next)
    }

    /// Serves what was read already, as [`Accessed::serve`] does: the message or fault that `item_at` answered, and the
    /// offset after it.
    pub fn serve_item(&mut self, item: Item<'_>, next: usize) -> Result<Served, NoMemory>
        requires { (m : TheMessage) → item ≡ Whole m → IsSpelled m }
        ensures serves { (bytes : List ℕ) (at : ℕ) → ItemAt bytes at item.entry next
            → IfOk result (ServesItemAt bytes at self.old self.new) }
        ensures next { IfOk result (λ served. served.next ≡ next) }
        ensures no_memory { OnErr result (self.new ≡ self.old) }
        ensures unrefused { (first : Files) (items : List TheItem)
            → StandsAfter first items self.old
            → IsSilent self.old.setup first items item.entry → IsOk result }
    {
        let answers = self.session.answer_item(&mut self.files, item)?;
        Ok(Served { answers, next })
    }
}
