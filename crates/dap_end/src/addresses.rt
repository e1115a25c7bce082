//! Which link of a node has which address. A table has at each local address the link that has it.

ghost use Rattle.std.specs.Prelude.{◌≡◌, ◌≢◌, ℕ, IfOk, None, Some, false, length, replicate, set, slice_get, true};
ghost use Rattle.std.specs.List.{position};
ghost use Rattle.dap_end.specs.Node.{has_local, is_between, is_free_link};
ghost use Rattle.dap_end.specs.Inner.NodeInside.{IsTable, unlisted};

use crate::port::Port;
use dap_accessed::NoMemory;
use std::alloc::Global;

/// How many local addresses there are.
const ADDRESSES: usize = 1 << u16::BITS;

/// Returns a table of no links.
pub(crate) fn no_links(alloc: Global) -> Result<Vec<Option<usize>>, NoMemory>
    ensures { IfOk result (λ table. table.items ≡ replicate 65536 None) }
{
    let mut table = Vec::with_capacity(alloc, ADDRESSES)?;
    for _ in 0..ADDRESSES {
        table.push(None)?;
    }
    Ok(table)
}

/// Takes the local address of a link out of the table, where the link is there.
pub(crate) fn unlist(table: &mut Vec<Option<usize>>, port: &Option<Port>)
    requires { length table.old.items ≡ 65536 }
    ensures { table.new.items ≡ unlisted port.now table.old.items }
{
    if let Some(port) = port {
        table[usize::from(port.link.setup().local)] = None;
    }
}

/// Puts a link into the table with this local address, in place of the address that it has.
pub(crate) fn list_anew(
    table: &mut Vec<Option<usize>>,
    port: &Option<Port>,
    link: usize,
    local: u16,
)
    requires { length table.old.items ≡ 65536 }
    ensures { table.new.items ≡ set (unlisted port.now table.old.items) local (Some link) }
{
    unlist(table, port);
    table[usize::from(local)] = Some(link);
}

/// Returns the link that has this local address.
pub(crate) fn find_local(table: &[Option<usize>], local: u16) -> Option<usize>
    requires { length table.now ≡ 65536 }
    ensures { slice_get table.now local ≡ Some result }
{
    table[usize::from(local)]
}

/// Returns whether another link has this local address.
pub(crate) fn is_taken(table: &[Option<usize>], link: usize, local: u16) -> bool
    requires { length table.now ≡ 65536 }
    ensures yes { result ≡ true
        → (other : ℕ) × (slice_get table.now local ≡ Some (Some other)) × (other ≢ link) }
    ensures no { result ≡ false
        → (other : ℕ) → slice_get table.now local ≡ Some (Some other) → other ≡ link }
{
    match table[usize::from(local)] {
        Some(other) => other != link,
        None => false,
    }
}

/// Returns whether a link is there, and these are its local address and its peer's.
fn joins(port: &Option<Port>, local: u16, remote: u16) -> bool
    ensures { result ≡ is_between local remote port.now }
{
    match port {
        Some(port) => {
            let setup = port.link.setup();
            setup.local == local && setup.remote == remote
        }
        None => false,
    }
}

/// Returns the link that has this local address and this peer.
pub(crate) fn find_between(
    table: &[Option<usize>],
    ports: &[Option<Port>],
    local: u16,
    remote: u16,
) -> Option<usize>
    requires { IsTable table.now ports.now }
    ensures { result ≡ position (is_between local remote) ports.now }
{
    match find_local(table, local) {
        Some(link) if joins(&ports[link], local, remote) => Some(link),
        _ => None,
    }
}

/// Returns whether a link isn't there.
fn is_empty(port: &Option<Port>) -> bool
    ensures { result ≡ is_free_link port.now }
{
    port.is_none()
}

/// Returns the first link that isn't there.
pub(crate) fn find_free(ports: &[Option<Port>]) -> Option<usize>
    ensures { result ≡ position is_free_link ports.now }
{
    ports.iter().position(is_empty)
}
