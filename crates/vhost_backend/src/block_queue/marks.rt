//! What is marked of a ring and of its chains.
ghost use Rattle.std.specs.Prelude.{◌≡◌, [], ◌∷◌, flat_map};
ghost use Rattle.vhost_backend.specs.BlockQueue.{Publishes};
ghost use Rattle.vhost_backend.specs.Marks.{Marks, MarksRing, asking_marks, chain_marks, logged_at, return_marks};
ghost use Rattle.vhost_backend.specs.Marks.{segment_marks};

use super::{GiveBack, gave};
use crate::pieces::Piece;
use crate::ring_memory::RingMemory;
use virtio_queue::{AnyQueue, PackedBuffer};
use vm_memory_device::{Chain as Descriptors, Segment};

// Marks the pages of a segment, if it is written.
fn mark_segment<H, D: RingMemory<H>>(mem: &D, host: &mut H, segment: Segment)
    requires { D.held mem.now host.old }
    ensures marks { Marks (D.steps mem.now) (segment_marks segment) host.old host.new }
    ensures held { D.held mem.now host.new }
{
    if segment.writable {
        mem.mark(host, segment.addr.0, 0, u64::from(segment.len));
    }
}

// Marks the pages of all writable bytes of a chain.
pub(super) fn mark_chain<H, D: RingMemory<H>>(mem: &D, host: &mut H, chain: &Descriptors)
    requires { D.held mem.now host.old }
    ensures marks { Marks (D.steps mem.now) (chain_marks chain.now) host.old host.new }
    ensures held { D.held mem.now host.new }
{
    let segments = chain.segments();
    for i in 0..segments.len() {
        mark_segment(mem, host, segments[i]);
    }
}

// Marks a range of a used ring, also where its writes are logged.
pub(super) fn mark_logged<H, D: RingMemory<H>>(
    mem: &D,
    host: &mut H,
    log: Option<u64>,
    piece: Piece,
)
    requires { D.held mem.now host.old }
    ensures marks { MarksRing (D.steps mem.now) (logged_at log piece) host.old host.new }
    ensures held { D.held mem.now host.new }
{
    mem.mark_ring(host, piece.base, piece.offset, piece.len);
    if let Some(log) = log {
        if log != piece.base {
            mem.mark_ring(host, log, piece.offset, piece.len);
        }
    }
}

// Marks two ranges of a used ring.
fn mark_both<H, D: RingMemory<H>>(
    mem: &D,
    host: &mut H,
    log: Option<u64>,
    first: Piece,
    second: Piece,
)
    requires { D.held mem.now host.old }
    ensures marks { MarksRing (D.steps mem.now) (flat_map (logged_at log) (first ∷ second ∷ [])) host.old host.new }
    ensures held { D.held mem.now host.new }
{
    mark_logged(mem, host, log, first);
    mark_logged(mem, host, log, second);
}

// The entry of a queue's next return, what publishes it, and where they are logged: a packed ring returns chains among
// its descriptors.
fn return_marks(queue: &AnyQueue, log: Option<u64>) -> (Piece, Piece, Option<u64>)
    ensures { flat_map (logged_at result.2) (result.0 ∷ result.1 ∷ []) ≡ return_marks queue.now log }
{
    let (base, entry, len, last, log) = match queue {
        AnyQueue::Split(queue) => {
            let slot = queue.next_used() % queue.size();
            (queue.state().used_ring, 4 + 8 * u64::from(slot), 8, 2, log)
        }
        AnyQueue::Packed(queue) => {
            let state = queue.state();
            let slot = 16 * u64::from(state.next_used.slot);
            (state.desc_ring, slot + 8, 6, slot + 14, None)
        }
    };
    let first = Piece {
        base,
        offset: entry,
        len,
    };
    (first, two_bytes(base, last), log)
}

fn two_bytes(base: u64, offset: u64) -> Piece
    ensures { result ≡ record { base = base; offset = offset; len = 2 } }
{
    Piece {
        base,
        offset,
        len: 2,
    }
}

// Marks the pages of what asks the driver to notify.
pub(super) fn mark_asking<H, D: RingMemory<H>>(
    mem: &D,
    host: &mut H,
    queue: &AnyQueue,
    log: Option<u64>,
)
    requires { D.held mem.now host.old }
    ensures marks { MarksRing (D.steps mem.now) (asking_marks queue.now log) host.old host.new }
    ensures held { D.held mem.now host.new }
{
    match queue {
        AnyQueue::Split(queue) => {
            let state = queue.state();
            let offset = if state.event_idx_enabled {
                4 + 8 * u64::from(state.size)
            } else {
                0
            };
            mark_logged(mem, host, log, two_bytes(state.used_ring, offset));
        }
        AnyQueue::Packed(queue) => {
            let area = queue.state().device_area;
            mark_both(mem, host, log, two_bytes(area, 0), two_bytes(area, 2));
        }
    }
}

// Returns a chain, and then marks the pages of the ring.
pub(super) fn publish<H, D: RingMemory<H>>(
    queue: &mut AnyQueue,
    log: Option<u64>,
    mem: &D,
    host: &mut H,
    buffer: PackedBuffer,
    len: u32,
) -> GiveBack
    requires { D.held mem.now host.old }
    ensures publishes { Publishes (D.steps mem.now) queue.old log buffer len host.old result queue.new host.new }
    ensures held { D.held mem.now host.new }
{
    let (first, second, log) = return_marks(queue, log);
    let returned = mem.add_used(host, queue, buffer, len);
    mark_both(mem, host, log, first, second);
    gave(returned)
}
