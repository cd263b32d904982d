//! Guest memory behind an IOMMU.

use std::alloc::Global;
use std::sync::Arc;
use vm_memory::{
    Bytes, ExclusiveBitmap, GuestAddress, GuestMemoryMmap, HostMemory, IommuMemory, NewBitmap,
    Permissions, TableIommu,
};

/// A device reads through a mapping that permits only reads.
pub fn behind_an_iommu(rt: &impl Print, alloc: Global) -> anyhow::Result<()> {
    let mut host = HostMemory::<ExclusiveBitmap>::new(alloc);
    let ranges = [(GuestAddress(0), 0x1000)];
    let backend = GuestMemoryMmap::from_ranges(alloc, &mut host, &ranges)?;
    // The table of the IOMMU, and the bitmap of I/O pages that writes mark.
    let table = host.new_table()?;
    let space = host.new_space(ExclusiveBitmap::with_len(alloc, 0x10_0000)?)?;
    let (iova, to) = (GuestAddress(0x8000), GuestAddress(0x200));
    host.table_mut(table)
        .set_mapping(iova, to, 0x100, Permissions::Read)?;
    let iommu = Arc::new(alloc, TableIommu::new(table))?;
    let memory = IommuMemory::new(alloc, backend, iommu, true, space);
    let byte = memory.read_obj::<u8, _>(&host, iova)?;
    match memory.write_obj(&mut host, 1u8, iova) {
        Ok(()) => println!(rt; "read {byte}, wrote")?,
        Err(error) => println!(rt; "read {byte}, refused: {error}")?,
    }
    Ok(())
}
