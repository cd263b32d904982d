//! What holds of every list of messages to a table, whatever else is done with its host before, between and after them:
//! each function here is a theorem, and does nothing. It calls the theorems that it follows from.
ghost use Rattle.std.specs.Prelude.{◌≡◌, ◌+◌, ◌-◌, ◌^◌, ◌<◌, ℕ, true, false, List, ◌∷◌, ◌++◌, All, Option, Some, None};
ghost use Rattle.std.specs.Prelude.{slice_get, Result, Ok};
ghost use Rattle.vm_memory_base.specs.Address.{step};
ghost use Rattle.vm_memory_base.specs.Permissions.{allow};
ghost use Rattle.vm_memory_base.specs.Table as table;
ghost use Rattle.vm_memory_base.specs.Table.{Table, TableEvent, events_of, says, says_after, says_after_all};
ghost use Rattle.vm_memory_base.specs.declared.iotlb.Permissions.{Permissions};
ghost use Rattle.vm_memory_guest.specs.Access.{Reached};
ghost use Rattle.vm_memory_guest.specs.Host.{Host};
ghost use Rattle.vm_memory_guest.specs.Memory.{Memory, Translation, behind_of};
ghost use Rattle.vm_memory_guest.specs.Region.{Backed, cell};
ghost use Rattle.vm_memory_device.specs.Reach.{GoesThrough, IsLast};
ghost use Rattle.vm_memory_device.specs.Reach.{reached_by};
ghost use Rattle.vhost_iotlb.specs.Changes.{Handles, IsAmong};
ghost use Rattle.vhost_iotlb.specs.Invalidation.{unmaps, updates};
ghost use Rattle.vhost_message.specs.Regions.{guest_of};
ghost use Rattle.vhost_message.specs.declared.iotlb.IotlbMessage.{IotlbMessage};
ghost use Rattle.vhost_message.specs.declared.iotlb.IotlbMessage.TheVariants.{Invalidate, Update};
ghost use Rattle.vhost_message.specs.declared.regions.MemoryRegion.{MemoryRegion};

use vm_memory_base::Bitmap;
use vm_memory_base::laws::table::tables_keep_to_their_limits;
use vm_memory_device::laws::tables::{
    accesses_go_through_what_calls_left, tables_say_what_calls_left,
};

/// A range that messages set is one that an UPDATE among them asked for.
///
/// Witness: tests_iotlb::map_and_take_back
pub fn ranges_are_set_for_updates<B: Bitmap>()
    ensures { (number : ℕ) (regions : List MemoryRegion) (ms : List IotlbMessage) (calls : List TableEvent)
        (old new : Host B) (iova to len : ℕ) (perm : Permissions) → Handles number regions ms calls old new
        → IsAmong (table.Set iova to len perm) calls
        → (user : ℕ) × IsAmong (Update iova len user perm) ms
        × (guest_of regions user len ≡ Some (record { 0 = to })) }
{}

/// After any list of messages a table says of each address what the call or eviction that covers it last made of it: an
/// UPDATE that was applied mapped it, or an INVALIDATE or an eviction unmapped it. If none covers it, it
/// says what it said before.
///
/// Witness: vhost_iotlb::invalidated_addresses_are_missed
pub fn tables_say_what_was_updated_last<B: Bitmap>()
    ensures all { (number x : ℕ) (regions : List MemoryRegion) (ms : List IotlbMessage) (calls : List TableEvent)
        (old new : Host B) (t : Table) → Handles number regions ms calls old new
        → slice_get old.tables number ≡ Some t → x < 2 ^ 64
        → (u : Table) × (slice_get new.tables number ≡ Some u)
        × (says u x ≡ says_after_all (events_of calls t) x (says t x)) }
    ensures last { (number x : ℕ) (regions : List MemoryRegion) (ms : List IotlbMessage) (calls : List TableEvent)
        (old new : Host B) (t u : Table) (call : TableEvent) → Handles number regions ms calls old new
        → slice_get old.tables number ≡ Some t → slice_get new.tables number ≡ Some u → x < 2 ^ 64
        → IsLast x (events_of calls t) call → says u x ≡ says_after call x None }
{
    tables_keep_to_their_limits();
    tables_say_what_calls_left();
}

/// After any list of messages an access behind the table reaches each byte through the mapping that an UPDATE set last
/// for its address, and never through one that an INVALIDATE or an eviction unmapped.
///
/// Witness: vhost_iotlb::invalidated_addresses_are_missed
pub fn accesses_go_through_what_was_updated_last<B: Bitmap>()
    ensures all { (regions : List MemoryRegion) (ms : List IotlbMessage) (calls : List TableEvent)
        (old new : Host B) (m : Memory) (b : Translation) (t : Table) (a n i : ℕ) (access : Permissions)
        (x : Reached) → Handles b.table regions ms calls old new → behind_of m.iommu ≡ Some b
        → slice_get old.tables b.table ≡ Some t → slice_get (reached_by m new.tables a n access).path i ≡ Some x
        → GoesThrough m.regions (a + i) (says_after_all (events_of calls t) (a + i) (says t (a + i))) access x }
    ensures updated { (regions : List MemoryRegion) (ms : List IotlbMessage) (calls : List TableEvent)
        (old new : Host B) (m : Memory) (b : Translation) (t : Table) (a n i iova to len : ℕ)
        (access perm : Permissions) (x : Reached) → Handles b.table regions ms calls old new
        → behind_of m.iommu ≡ Some b → slice_get old.tables b.table ≡ Some t
        → slice_get (reached_by m new.tables a n access).path i ≡ Some x
        → IsLast (a + i) (events_of calls t) (table.Set iova to len perm)
        → (allow perm access ≡ true) × (cell m.regions (step to (a + i - iova)) ≡ Backed x.region x.cell) }
    ensures taken_back { (regions : List MemoryRegion) (ms : List IotlbMessage) (calls : List TableEvent)
        (old new : Host B) (m : Memory) (b : Translation) (t : Table) (a n i : ℕ) (access : Permissions)
        (x : Reached) (call : TableEvent) → Handles b.table regions ms calls old new
        → behind_of m.iommu ≡ Some b → slice_get old.tables b.table ≡ Some t
        → slice_get (reached_by m new.tables a n access).path i ≡ Some x
        → IsLast (a + i) (events_of calls t) call → says_after call (a + i) None ≡ None → ⊥ }
{
    accesses_go_through_what_calls_left();
}

/// After an INVALIDATE that names an address, and no UPDATE of that address since, the table misses it, and no access
/// behind the table reaches a byte there, whatever came before and since. After a malformed one that holds for each
/// address that no UPDATE had since. No access can have the last address, 2^64 - 1.
///
/// Witness: tests_iotlb::map_and_take_back
pub fn invalidated_addresses_are_missed<B: Bitmap>()
    ensures missed { (number x iova size : ℕ) (regions : List MemoryRegion) (earlier later : List IotlbMessage)
        (calls : List TableEvent) (old new : Host B) (t : Table)
        → Handles number regions (earlier ++ Invalidate iova size ∷ later) calls old new
        → slice_get old.tables number ≡ Some t → x < 2 ^ 64 - 1 → unmaps iova size x ≡ true
        → All (λ m. updates x m ≡ false) later
        → (u : Table) × (slice_get new.tables number ≡ Some u) × (says u x ≡ None) }
    ensures unreached { (a n i iova size : ℕ) (regions : List MemoryRegion) (earlier later : List IotlbMessage)
        (calls : List TableEvent) (old new : Host B) (m : Memory) (b : Translation) (t : Table)
        (access : Permissions) (x : Reached)
        → Handles b.table regions (earlier ++ Invalidate iova size ∷ later) calls old new
        → behind_of m.iommu ≡ Some b → slice_get old.tables b.table ≡ Some t → a + i < 2 ^ 64 - 1
        → unmaps iova size (a + i) ≡ true → All (λ n. updates (a + i) n ≡ false) later
        → slice_get (reached_by m new.tables a n access).path i ≡ Some x → ⊥ }
{
    tables_say_what_was_updated_last::<B>();
    accesses_go_through_what_was_updated_last::<B>();
}
