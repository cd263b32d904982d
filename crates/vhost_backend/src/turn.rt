//! Turns of rings on guest memory.
ghost use Rattle.std.specs.Prelude.{◌≡◌, ◌^◌, ◌<◌, false, Some, None, if◌then◌else◌};
ghost use Rattle.vhost_backend.specs.Sight.{sight_of};
ghost use Rattle.vhost_backend.specs.BlockTurn.{TakesStep};

use crate::backend::{Backend, Todo};
use crate::block_queue::{BlockQueue, Way};
use crate::ring_memory::RingMemory;
use crate::rings::Event;
use std::alloc::Global;
use virtio_blk::DeviceLimits;

/// Takes a step of a ring's turn. What is to be done by that goes into `todo`. Returns whether it took one: it takes
/// none if the turn is over, or an allocation failed.
pub fn take_step<H, D: RingMemory<H>>(
    backend: &mut Backend,
    ring: usize,
    queue: &mut BlockQueue,
    alloc: Global,
    mem: &D,
    host: &mut H,
    terms: DeviceLimits,
    way: Option<&Way<'_>>,
    todo: &mut Todo,
) -> bool
    requires held { D.held mem.now host.old }
    requires small { terms.sectors < 2 ^ 55 }
    ensures takes { TakesStep (D.steps mem.now) (sight_of way.entry) terms ring backend.old queue.old host.old
        (if result then Some todo.new else None) backend.new queue.new host.new }
    ensures stays { result ≡ false → todo.new ≡ todo.old }
    ensures held { D.held mem.now host.new }
{
    if !backend.rings().may_pop(ring) {
        return false;
    }
    match queue.next_in(alloc, mem, host, terms, way) {
        Some(event) => {
            backend.handle(Event::Ring(ring, event), todo);
            true
        }
        None => false,
    }
}
