//! Which links of a server are used.

ghost use Rattle.std.specs.Prelude.{◌≡◌, IfOk, false, replicate, set};
ghost use Rattle.std.specs.List.{list_any};

use dap_accessed::NoMemory;
use std::alloc::Global;
use std::marker::Model;

/// Of each link, whether it is used, which contracts see as a list.
#[derive(Drop)]
pub struct Used(Vec<bool>);

impl Model for Used {
    ghost use Rattle.std.specs.Prelude.{Bool, List};

    ghost Value = { List Bool };

    ghost view = { λ a. a.0.items };
}

/// Returns a list of this many links, none of which is used.
fn none_used(alloc: Global, links: usize) -> Result<Vec<bool>, NoMemory>
    ensures { IfOk result (λ used. used.items ≡ replicate links false) }
{
    let mut used = Vec::with_capacity(alloc, links)?;
    for _ in 0..links {
        used.push(false)?;
    }
    Ok(used)
}

/// Notes whether a link is used, where there is one at this index.
fn set_one(used: &mut Vec<bool>, link: usize, is_used: bool)
    ensures { used.new.items ≡ set used.old.items link is_used }
{
    if let Some(slot) = used.get_mut(link) {
        *slot = is_used;
    }
}

/// Returns whether a link is used.
fn is_one(used: &bool) -> bool
    ensures { result ≡ used.now }
{
    *used
}

/// Returns whether some link of a list is used.
fn is_any(used: &[bool]) -> bool
    ensures { result ≡ list_any (λ used. used) used.now }
{
    used.iter().any(is_one)
}

impl Used {
    /// Returns this many links that aren't used.
    pub(crate) fn none(alloc: Global, links: usize) -> Result<Used, NoMemory>
        ensures { IfOk result (λ used. used ≡ replicate links false) }
    {
        Ok(Used(none_used(alloc, links)?))
    }

    /// Notes whether a link is used.
    pub(crate) fn set(&mut self, link: usize, is_used: bool)
        ensures { self.new ≡ set self.old link is_used }
    {
        set_one(&mut self.0, link, is_used);
    }

    /// Returns whether some link is used.
    pub(crate) fn any(&self) -> bool
        ensures { result ≡ list_any (λ used. used) self.now }
    {
        is_any(&self.0)
    }
}
