//! Functions that meet the premises of laws, and whose clauses follow from them.
ghost use Rattle.std.specs.Prelude.{◌≡◌, ◌+◌, ◌-◌, ◌^◌, ◌<◌, ◌∷◌, [], ℕ, true, List, Some, None, IfSome, slice_get};
ghost use Rattle.vm_memory_base.specs.Table as table;
ghost use Rattle.vm_memory_base.specs.Table.{Table, TableEvent, says};
ghost use Rattle.vm_memory_base.specs.declared.iotlb.Permissions.{Permissions};
ghost use Rattle.vm_memory_base.specs.declared.iotlb.Permissions.TheVariants.{ReadWrite};
ghost use Rattle.vm_memory_guest.specs.Access.{Reached};
ghost use Rattle.vm_memory_guest.specs.Memory.{Memory, Translation, behind_of};
ghost use Rattle.vm_memory_device.specs.Reach.{reached_by};
ghost use Rattle.vhost_iotlb.specs.Changes.{Handles, IsAmong};
ghost use Rattle.vhost_iotlb.specs.Invalidation.{unmaps};
ghost use Rattle.vhost_message.specs.Regions.{guest_of};
ghost use Rattle.vhost_message.specs.declared.iotlb.IotlbMessage.TheVariants.{Invalidate, Update};

use crate::worlds::{FIRST, IOVA, PAGE, World, make_world, mapped};
use std::sync::Arc;
use std::test::Fail;
use vhost_iotlb::laws::{invalidated_addresses_are_missed, ranges_are_set_for_updates};
use vhost_iotlb::{DeviceTable, IotlbMessage};
use vm_memory_base::{Bitmap, GuestAddress, Permissions};
use vm_memory_device::{IommuMemory, TableIommu};
use vm_memory_guest::laws::effects::writes_keep_shapes;
use vm_memory_guest::{Bytes, GuestMemory, GuestMemoryMmap, HostMemory};

// Writes bytes to guest memory, if the host has it. No table changes.
fn write<M: GuestMemory, B: Bitmap>(
    memory: &M,
    host: &mut HostMemory<B>,
    bytes: &[u8],
    address: GuestAddress,
)
    ensures { host.new.tables ≡ host.old.tables }
{
    writes_keep_shapes::<B>();
    if host.holds(memory) {
        let _count = memory.write(host, bytes, address);
    }
}

// Maps a range, writes there, takes the range back, and writes again: then the table misses the range, and no access
// behind it reaches a byte there.
fn map_and_take_back<M: GuestMemory, B: Bitmap>(
    device: &DeviceTable,
    host: &mut HostMemory<B>,
    memory: &M,
    bytes: &[u8],
    iova: u64,
    size: u64,
    user_address: u64,
)
    ensures came { let ms = Update iova size user_address ReadWrite ∷ Invalidate iova size ∷ [] in
        (calls : List TableEvent) × Handles device.now.table.0 device.now.memory ms calls host.old host.new
        × ((at to len : ℕ) (perm : Permissions) → IsAmong (table.Set at to len perm) calls → (user : ℕ)
        × IsAmong (Update at len user perm) ms × (guest_of device.now.memory user len ≡ Some (record { 0 = to }))) }
    ensures missed { IfSome (slice_get host.old.tables device.now.table.0) (λ t. (x : ℕ) → x < 2 ^ 64 - 1
        → unmaps iova size x ≡ true
        → (u : Table) × (slice_get host.new.tables device.now.table.0 ≡ Some u) × (says u x ≡ None)) }
    ensures unreached { (m : Memory) (b : Translation) → behind_of m.iommu ≡ Some b → b.table ≡ device.now.table.0
        → IfSome (slice_get host.old.tables b.table) (λ t. (a n i : ℕ) (access : Permissions) (x : Reached)
        → a + i < 2 ^ 64 - 1 → unmaps iova size (a + i) ≡ true
        → slice_get (reached_by m host.new.tables a n access).path i ≡ Some x → ⊥) }
{
    ranges_are_set_for_updates::<B>();
    invalidated_addresses_are_missed::<B>();
    let update = IotlbMessage::Update {
        iova,
        size,
        user_address,
        permissions: Permissions::ReadWrite,
    };
    let _applied = device.apply(host, &update);
    write(memory, host, bytes, GuestAddress(iova));
    let _taken_back = device.apply(host, &IotlbMessage::Invalidate { iova, size });
    write(memory, host, bytes, GuestAddress(iova));
}

#[test]
fn what_is_taken_back_is_missed(rt: HostRuntime) -> Result<(), Fail> {
    let alloc = rt.alloc();
    let World { mut host, table } = make_world(alloc, 8)?;
    let layout = GuestMemoryMmap::from_ranges(alloc, &mut host, &[(GuestAddress(0), 0x1000)])?;
    let space = host.new_space(())?;
    let iommu = Arc::new(alloc, TableIommu::new(table.table))?;
    let memory = IommuMemory::new(alloc, layout, iommu, true, space);
    map_and_take_back(&table, &mut host, &memory, &[7; 8], IOVA, PAGE, FIRST);
    assert!(rt; mapped(&host, table.table, IOVA).is_none());
    let layout = memory.get_backend();
    let mut bytes = [0; 9];
    assert!(rt; host.holds(layout));
    layout.read_slice(&host, &mut bytes, GuestAddress(0))?;
    assert_eq!(rt; bytes, [7, 7, 7, 7, 7, 7, 7, 7, 0]);
    Ok(())
}
