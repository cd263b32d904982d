//! Sources and sinks of any type: lists of bytes.

use crate::calls::bare_machine;
use std::alloc::Global;
use std::test::Fail;
use vm_memory::{
    ExactBitmap, GuestAddress, GuestMemoryRegion, Iommu, Machine, Permissions, Refusal,
};

// Makes a memory of both regions, and one behind the IOMMU, where 0x5000 leads to 0.
fn make_memories<R: GuestMemoryRegion, I: Iommu, B: ExactBitmap>(
    machine: &mut Machine<R, I, B>,
) -> Result<(), Refusal> {
    machine.from_regions(&[0, 1])?;
    machine.plain(0)?;
    machine.new_memory(0, 0, 0, true)?;
    let (iova, to) = (GuestAddress(0x5000), GuestAddress(0));
    machine.set_mapping(0, iova, to, 0x1000, Permissions::ReadWrite)
}

// Bytes are a source that follows no script.
fn expect_taken_in<R: GuestMemoryRegion, I: Iommu, B: ExactBitmap>(
    machine: &mut Machine<R, I, B>,
    addr: GuestAddress,
) -> Result<(), Fail> {
    let mut source: &[u8] = &[1, 2, 3, 4, 5, 6, 7, 8, 9, 10];
    let some = machine.read_volatile_from(0, addr, &mut source, 6);
    let left = source;
    let exact = machine.read_exact_volatile_from(0, GuestAddress(0x1_0000), &mut source, 6);
    if some != Ok(4) || left != [5, 6, 7, 8, 9, 10].as_slice() {
        return Err(Fail::new(format_args!("{some:?} leaves {left:?}")));
    }
    if exact != Ok(()) || !source.is_empty() {
        return Err(Fail::new(format_args!("{exact:?} leaves {source:?}")));
    }
    Ok(())
}

// A vector is a sink that follows none. The first bytes of both regions are the same bytes, to which the IOMMU leads.
fn expect_sent_out<R: GuestMemoryRegion, I: Iommu, B: ExactBitmap>(
    alloc: Global,
    machine: &Machine<R, I, B>,
    addr: GuestAddress,
) -> Result<(), Fail> {
    let mut sink = Vec::new(alloc);
    let some = machine.write_volatile_to(0, addr, &mut sink, 8);
    let count = sink.len();
    let all = machine.write_all_volatile_to(1, GuestAddress(0x5000), &mut sink, 3);
    let none = machine.write_volatile_to(2, addr, &mut sink, 8);
    if some != Ok(4) || count != 4 || all != Ok(()) || none != Err(Refusal::NoSuch) {
        return Err(Fail::new(format_args!("{some:?}, {count}, {all:?} and {none:?}")));
    }
    if sink.as_slice() != [1, 2, 3, 4, 5, 6, 7].as_slice() {
        return Err(Fail::new(format_args!("the sink has {sink:?}")));
    }
    Ok(())
}

fn expect_moved<R: GuestMemoryRegion, I: Iommu, B: ExactBitmap>(
    alloc: Global,
    machine: &mut Machine<R, I, B>,
) -> Result<(), Fail> {
    if let Err(refusal) = make_memories(machine) {
        return Err(Fail::new(format_args!("{refusal:?}")));
    }
    let addr = GuestAddress(0x1384);
    expect_taken_in(machine, addr)?;
    expect_sent_out(alloc, machine, addr)
}

#[test]
fn calls_move_bytes_of_any_source_and_to_any_sink(rt: HostRuntime) -> Result<(), Fail> {
    let mut machine = bare_machine(rt.alloc())?;
    expect_moved(rt.alloc(), &mut machine)
}
