//! Commands that many tests make.

use std::alloc::{AllocError, Global};
use vm_memory::{ByteList, Command, GuestAddress, NumberList};

/// Makes a layout of these regions of the pool.
pub fn layout_of(alloc: Global, numbers: &[usize]) -> Result<Command, AllocError> {
    let numbers = Vec::from_slice(alloc, numbers)?;
    Ok(Command::FromRegions(NumberList::from_vec(numbers)))
}

/// Writes bytes.
pub fn write_of(
    alloc: Global,
    memory: usize,
    addr: u64,
    bytes: &[u8],
) -> Result<Command, AllocError> {
    let bytes = Vec::from_slice(alloc, bytes)?;
    Ok(Command::Write {
        memory,
        addr: GuestAddress(addr),
        bytes: ByteList::from_vec(bytes),
    })
}

/// Reads bytes.
pub fn read_of(memory: usize, addr: u64, count: usize) -> Command {
    Command::Read {
        memory,
        addr: GuestAddress(addr),
        count,
    }
}
