//! A new world.

ghost use Rattle.std.specs.Prelude.{◌≡◌, IfOk, IfErr, false, true};
ghost use Rattle.dap_world.specs.Setups.{IsWorldSetup, NewFault};
ghost use Rattle.dap_world.specs.Wires.{end_address};
ghost use Rattle.dap_world.specs.Inner.Setups.{link_setup_of};
ghost use Rattle.dap_world.specs.Machine.{initial_state};
ghost use Rattle.dap_world.specs.Headline.{HeadlineOf};
ghost use Rattle.dap_world.specs.Settling.{IsUnused};
ghost use Rattle.nsp_link.specs.declared.fault.LinkFault.TheVariants as link_fault;
ghost use Rattle.dap_events.specs.declared.event.WorldFault.TheVariants.{BadSetup, NoMemory};

use crate::ends::other_end;
use crate::world::World;
use dap_end::{AskingEnd, ServingEnd};
use dap_events::{End, WorldFault, WorldSetup};
use dap_msg::MIN_BUFFER;
use nsp_link::{LinkFault, LinkSetup};
use std::alloc::Global;

/// Returns the address of an end.
fn address(end: End) -> u16
    ensures { result ≡ end_address end }
{
    match end {
        End::A => 0x0101,
        End::B => 0x0202,
    }
}

/// Returns the limits of an end's link.
fn link_setup(setup: &WorldSetup, end: End) -> LinkSetup
    ensures { result ≡ link_setup_of setup.now end }
{
    LinkSetup {
        local: address(end),
        remote: address(other_end(end)),
        seg_size: setup.seg_size,
        window: setup.window,
        max_message: usize::from(setup.bufsiz_a.max(setup.bufsiz_b)),
    }
}

/// Returns why there is no end of these limits.
fn no_end(fault: LinkFault) -> WorldFault
    ensures memory { fault ≡ link_fault.NoMemory → result ≡ NoMemory }
    ensures setup { (fault ≡ link_fault.NoMemory → ⊥) → result ≡ BadSetup }
{
    match fault {
        LinkFault::NoMemory => WorldFault::NoMemory,
        _ => WorldFault::BadSetup,
    }
}

impl World {
    /// Creates a world in which nothing happened. `BadSetup` where a number of the setup isn't in its range; else
    /// `NoMemory` alone.
    pub fn new(alloc: Global, setup: WorldSetup) -> Result<World, WorldFault>
        ensures ok { IfOk result (λ w. IsWorldSetup setup × (w ≡ initial_state setup)) }
        ensures headline { IfOk result HeadlineOf }
        ensures err { IfErr result (NewFault setup) }
    {
        if setup.bufsiz_a < MIN_BUFFER || setup.bufsiz_b < MIN_BUFFER {
            return Err(WorldFault::BadSetup);
        }
        let asking = match AskingEnd::new(alloc, setup.bufsiz_a, link_setup(&setup, End::A)) {
            Ok(end) => end,
            Err(fault) => return Err(no_end(fault)),
        };
        let serving = match ServingEnd::new(alloc, setup.bufsiz_b, link_setup(&setup, End::B)) {
            Ok(end) => end,
            Err(fault) => return Err(no_end(fault)),
        };
        Ok(World {
            alloc,
            asking,
            serving,
            wire_a: Vec::new(alloc),
            wire_b: Vec::new(alloc),
            posted_a: 0,
            posted_b: 0,
            requests: Vec::new(alloc),
            sent: Vec::new(alloc),
            served: 0,
            reports: Vec::new(alloc),
            read: 0,
        })
    }

    /// Returns whether nothing was asked and no packet was written.
    pub fn is_fresh(&self) -> bool
        ensures yes { result ≡ true → IsUnused self.now }
        ensures no { result ≡ false → IsUnused self.now → ⊥ }
    {
        self.requests.is_empty() && self.wire_a.is_empty() && self.wire_b.is_empty()
    }
}
