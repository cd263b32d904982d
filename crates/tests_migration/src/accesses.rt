//! Accesses of guest memory, of which it is proved that they mark what they change, where a migration looks for it.
ghost use Rattle.std.specs.Prelude.{List, All};
ghost use Rattle.vm_memory_guest.specs.Dirt.{with_pages};
ghost use Rattle.vm_memory_guest.specs.Lent.{MarksChanges};
ghost use Rattle.vm_memory_guest.specs.Window.{Window};
ghost use Rattle.live_migration.specs.Writing.{MarksItsBlock};

use crate::guests::{Host, dirty_count};
use live_migration::laws::writes_mark_what_they_change;
use std::alloc::Global;
use std::sync::atomic::Ordering;
use std::test::Fail;
use vm_memory_base::{ExactBitmap, GuestAddress};
use vm_memory_guest::{BlockId, Bytes, GuestMemory, GuestMemoryMmap, HostMemory};

// Writes bytes at an address of a memory that is not behind an IOMMU, as many as fit.
fn write_bytes<M: GuestMemory, B: ExactBitmap>(
    memory: &M,
    host: &mut HostMemory<B>,
    bytes: &[u8],
    address: GuestAddress,
)
    ensures { (windows : List Window) × All MarksItsBlock windows
        × MarksChanges windows (with_pages B.pages host.old) (with_pages B.pages host.new) }
{
    writes_mark_what_they_change::<B>();
    let Some(_) = memory.physical_memory() else {
        return;
    };
    if !host.holds(memory) {
        return;
    }
    let _written = memory.write(host, bytes, address);
}

// Stores a number at an address of such a memory.
fn store_number<M: GuestMemory, B: ExactBitmap>(
    memory: &M,
    host: &mut HostMemory<B>,
    number: u32,
    address: GuestAddress,
)
    ensures { (windows : List Window) × All MarksItsBlock windows
        × MarksChanges windows (with_pages B.pages host.old) (with_pages B.pages host.new) }
{
    writes_mark_what_they_change::<B>();
    let Some(_) = memory.physical_memory() else {
        return;
    };
    if !host.holds(memory) {
        return;
    }
    let _stored = memory.store(host, number, address, Ordering::SeqCst);
}

// Writes the second byte of a block through a part of a window.
fn write_second<B: ExactBitmap>(host: &mut HostMemory<B>, block: BlockId, byte: u8)
    ensures { (windows : List Window) × All MarksItsBlock windows
        × MarksChanges windows (with_pages B.pages host.old) (with_pages B.pages host.new) }
{
    writes_mark_what_they_change::<B>();
    if !host.shape().has_place(block, 0, 2) {
        return;
    }
    let window = host.window(block, 0, 2);
    let Ok(part) = window.subslice(1, 1) else {
        return;
    };
    if part.len() != 1 {
        return;
    }
    if !host.holds(&part) {
        return;
    }
    host.write(&part, &[byte]);
}

#[test]
fn accesses_mark_their_blocks(rt: HostRuntime) -> Result<(), Fail> {
    let alloc = rt.alloc();
    let mut host = Host::new(alloc);
    let ranges = [
        (GuestAddress(0x1000), 0x3000),
        (GuestAddress(0x8000), 0x1000),
    ];
    let memory = GuestMemoryMmap::from_ranges(alloc, &mut host, &ranges)?;
    // Three bytes across the first two pages, a number in the third, and the second byte of the other block.
    write_bytes(&memory, &mut host, &[1, 2, 3], GuestAddress(0x1fff));
    store_number(&memory, &mut host, 7, GuestAddress(0x3010));
    write_second(&mut host, BlockId(1), 9);
    assert!(rt; dirty_count(&host, alloc, BlockId(0))? == 3);
    assert!(rt; dirty_count(&host, alloc, BlockId(1))? == 1);
    Ok(())
}
