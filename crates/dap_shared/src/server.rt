//! What a port needs of whatever serves the items that it brought: a server of one link, or of several.

ghost use Rattle.std.specs.Prelude.{◌≡◌, ◌<◌, ℕ, List, length, IfOk, IsOk, OnErr};
ghost use Rattle.dap_msg.specs.BothEnds.{max_nsp_message};
ghost use Rattle.dap_msg.specs.Blocked.{bodies};
ghost use Rattle.dap_msg.specs.Decoding.{IsSpelled};
ghost use Rattle.dap_msg.specs.Items.{ItemAt};
ghost use Rattle.dap_msg.specs.declared.items.Item.{Item as TheItem};
ghost use Rattle.dap_msg.specs.declared.items.Item.TheVariants.{Whole};
ghost use Rattle.dap_msg.specs.declared.message.Message.{Message as TheMessage};
ghost use Rattle.dap_accessed.specs.declared.served.Served.{Served as TheServed};
ghost use Rattle.dap_accessed.specs.Present.{StandsAfter};
ghost use Rattle.dap_accessed.specs.Served.{AllAtMost, IsSilent, ServesItemAt};
ghost use Rattle.dap_accessed.specs.Standing.{Files};
ghost use Rattle.dap_shared.specs.Shared.{IsSilentAt, SharedServed};

use crate::shared::SharedFiles;
use dap_accessed::{Accessed, NoMemory, Served};
use dap_msg::Item;

/// Serves the items of links, one after another.
pub trait Serving {
    /// It has this link.
    ghost has_link: { Self → ℕ → Type 0 };

    /// The item at an offset of an NSP message was served.
    ghost serves: { ℕ → List ℕ → ℕ → Self → Self → TheServed → Type 0 };

    /// An item of a link takes no memory.
    ghost is_silent: { ℕ → Self → TheItem → Type 0 };

    /// Serves what was read already: the message or fault that `item_at` answered, and the offset after it. Refused
    /// only where memory is, with nothing changed, and not at an item that takes none.
    fn serve(&mut self, link: usize, item: Item<'_>, next: usize) -> Result<Served, NoMemory>
        requires link { has_link self.old link }
        requires spelled { (m : TheMessage) → item ≡ Whole m → IsSpelled m }
        ensures serves { (bytes : List ℕ) (at : ℕ) → ItemAt bytes at item.entry next
            → IfOk result (serves link bytes at self.old self.new) }
        ensures short { (bytes : List ℕ) (at : ℕ) → ItemAt bytes at item.entry next
            → IfOk result (λ s. AllAtMost max_nsp_message (bodies s.answers.items)) }
        ensures next { IfOk result (λ served. served.next ≡ next) }
        ensures link { has_link self.new link }
        ensures no_memory { OnErr result (self.new ≡ self.old) }
        ensures unrefused { is_silent link self.old item.entry → IsOk result };
}

impl Serving for Accessed {
    ghost has_link = { λ _ link. link ≡ 0 };

    ghost serves = { λ _ bytes at old new served. ServesItemAt bytes at old new served };

    ghost is_silent = { λ _ accessed item. (first : Files) × (items : List TheItem)
        × StandsAfter first items accessed × IsSilent accessed.setup first items item };

    fn serve(&mut self, _link: usize, item: Item<'_>, next: usize) -> Result<Served, NoMemory> {
        self.serve_item(item, next)
    }
}

impl Serving for SharedFiles {
    ghost has_link = { λ shared link. link < length shared.sessions };

    ghost serves = { λ link bytes at old new served. SharedServed link bytes at old new served };

    ghost is_silent = { IsSilentAt };

    fn serve(&mut self, link: usize, item: Item<'_>, next: usize) -> Result<Served, NoMemory> {
        self.serve_item(link, item, next)
    }
}
