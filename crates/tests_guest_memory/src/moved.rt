//! Long values.

use std::alloc::{AllocError, Global};
use std::test::Fail;
use vm_memory_base::{ByteValued, GuestAddress};
use vm_memory_guest::{Bytes, GuestMemory, GuestMemoryMmap, HostMemory};

// So many bytes, no two neighbouring pages of which are alike.
fn pattern(alloc: Global, size: usize) -> Result<Vec<u8>, AllocError> {
    (0..size).map(|index| (index % 251) as u8).collect(alloc)
}

// A value of 64 kibibytes.
type Large = [u8; 0x1_0000];

fn expect_large(alloc: Global, value: &Large, wanted: &[u8]) -> Result<(), Fail> {
    let mut bytes = vec![in alloc; 0u8; 0x1_0000]?;
    if !value.to_slice(bytes.as_mut_slice()) || bytes.as_slice() != wanted {
        return Err(Fail::new("another value came"));
    }
    Ok(())
}

// Fails where a value that is written has not these bytes where it lies, or another is read there.
fn expect_kept<M: GuestMemory>(
    alloc: Global,
    host: &mut HostMemory<()>,
    memory: &M,
    value: Large,
    bytes: &[u8],
) -> Result<(), Fail> {
    if !host.holds(memory) {
        return Err(Fail::new("the host does not hold the memory"));
    }
    memory.write_obj(host, value, GuestAddress(0x800))?;
    let mut lie = vec![in alloc; 0u8; 0x1_0000]?;
    memory.read_slice(host, lie.as_mut_slice(), GuestAddress(0x800))?;
    if lie.as_slice() != bytes {
        return Err(Fail::new("other bytes lie there"));
    }
    let read = memory.read_obj(host, GuestAddress(0x800))?;
    expect_large(alloc, &read, bytes)
}

// A value is written and read over the bound of two regions, and its bytes are read where they lie. Then it goes to a
// vector, and comes from it.
#[test]
fn values_of_sixty_four_kibibytes_move(rt: HostRuntime) -> Result<(), Fail> {
    let bytes = pattern(rt.alloc(), 0x1_0000)?;
    let value = Large::from_slice(bytes.as_slice()).ok_or("these are not its bytes")?;
    let mut host = HostMemory::<()>::new(rt.alloc());
    let ranges = [(GuestAddress(0), 0x9000), (GuestAddress(0x9000), 0x8000)];
    let memory = GuestMemoryMmap::from_ranges(rt.alloc(), &mut host, &ranges)?;
    expect_kept(rt.alloc(), &mut host, &memory, value, bytes.as_slice())?;
    let mut sink = Vec::new(rt.alloc());
    value.write_all_to(&mut sink)?;
    assert!(rt; sink.as_slice() == bytes.as_slice());
    let mut source = sink.as_slice();
    let read = Large::read_exact_from(&mut source)?;
    expect_large(rt.alloc(), &read, bytes.as_slice())
}
