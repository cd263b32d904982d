//! What holds of chains that are fetched: each function here is a theorem, and does nothing.
ghost use Rattle.std.specs.Prelude.{◌≡◌, [], ℕ, All, List, Option, Some, option_to_list};
ghost use Rattle.vm_memory_base.specs.Table.{Says};
ghost use Rattle.vm_memory_device.specs.declared.chain.Segment.{Segment};
ghost use Rattle.virtio_queue.specs.Any.{asking, enabling, returning};
ghost use Rattle.virtio_queue.specs.Looks.{index_of};
ghost use Rattle.virtio_queue.specs.State.{Virtqueue};
ghost use Rattle.virtio_queue.specs.declared.any.AnyQueue.{AnyQueue};
ghost use Rattle.virtio_queue.specs.declared.any.AnyQueue.TheVariants.{Split};
ghost use Rattle.virtio_queue.specs.declared.packed.state.PackedBuffer.{PackedBuffer};
ghost use Rattle.vhost_iotlb.specs.Kept.{IsCurrent};
ghost use Rattle.vhost_iotlb.specs.Taking.{AreReal, left};
ghost use Rattle.vhost_iotlb.specs.declared.kept.Kept.{Kept};
ghost use Rattle.vhost_backend.specs.Fetch.{Awaits, FetchState, GoesOn, IsFound, IsStatusOf, IsTranslated};
ghost use Rattle.vhost_backend.specs.Fetch.{TakesWhatCame, chain_wants, guest_chain, ring_wants, status_want};
ghost use Rattle.vhost_backend.specs.RingUse.{IsPossible, IsWanted, Uses};

use vhost_iotlb::taking_laws::a_mapping_that_comes_is_taken;

/// The chain of guest addresses that is made of what was found is the driver's chain, byte by byte. Byte `k` of what it
/// reads lies where byte `k` of what the driver's chain reads leads, by a mapping that permits a read; byte `k` of what
/// it writes where byte `k` of what that writes leads, by one that permits a write; and there are as many. The chain of
/// a status alone has one byte, where the last byte leads that the driver's chain writes.
///
/// Witness: vhost_backend::chain_of_found
pub fn guest_chain_is_the_drivers()
    ensures whole { (f : Says) (driver guest : List Segment) (ks : List Kept) → IsFound (chain_wants driver) ks
        → All (IsCurrent f) ks → guest_chain ks ≡ Some guest → IsTranslated f driver guest }
    ensures status { (f : Says) (driver guest : List Segment) (ks : List Kept)
        → let ws = option_to_list (status_want driver) in AreReal ws → IsFound ws ks → All (IsCurrent f) ks
        → guest_chain ks ≡ Some guest → IsStatusOf f driver guest }
{}

/// A fetch that waits for a mapping finds more once a table has that, however little: no answer to a miss is in vain.
///
/// Witness: vhost_backend::go_on
pub fn what_came_is_taken()
    ensures { (f : Says) (most : ℕ) (old new : FetchState) → Awaits old.state (left old.wants 0 old.kept)
        → GoesOn f most old new → TakesWhatCame f most old new }
{
    a_mapping_that_comes_is_taken();
}

/// All that is used of a ring to return a chain, to wait for the next one, to see whether its driver is to be notified,
/// and to read where it returns chains, lies in the areas that are fetched, for the access that it takes. So none of
/// these misses a mapping once they are kept.
///
/// Witness: vhost_backend::of_ring
pub fn what_a_ring_uses_is_fetched()
    ensures returns { (q : AnyQueue) (log : Option ℕ) (buffer : PackedBuffer) (len : ℕ) → IsPossible q
        → Uses (IsWanted (ring_wants q log)) (returning q buffer len) }
    ensures waits { (q : AnyQueue) (log : Option ℕ) → IsPossible q
        → Uses (IsWanted (ring_wants q log)) (enabling q) }
    ensures asks { (q : AnyQueue) (log : Option ℕ) → Uses (IsWanted (ring_wants q log)) (asking q) }
    ensures begins { (q : Virtqueue) (log : Option ℕ)
        → Uses (IsWanted (ring_wants (Split q) log)) (index_of q.state.ready q.state.used_ring) }
{}
