//! Sockets and files that end or fail in the middle of a transfer of guest memory.

use crate::transfers::Amount::{All, UpTo};
use crate::transfers::Place::{Memory, Region, Window};
use crate::transfers::{comes_in, goes_out};
use std::fs::{self, File};
use std::io::{ErrorKind, Read, Write};
use std::os::unix::net::UnixStream;
use std::test::Fail;
use test_text::expect_text;
use vm_memory_base::{GuestAddress, ReadVolatile, VolatileMemoryResult};
use vm_memory_guest::{Bytes, GuestMemoryError, GuestMemoryMmap, HostMemory};

// A file, and another that is read where the first ends.
#[derive(Drop)]
struct TwoFiles {
    first: File,
    then: File,
}

impl ReadVolatile for TwoFiles {
    ghost use Rattle.std.specs.Prelude.{None};

    ghost source = { λ s. None };

    ghost known_left = { λ s. None };

    fn read_volatile(&mut self, buf: &mut [u8]) -> VolatileMemoryResult<usize> {
        match self.first.read_volatile(buf) {
            Ok(0) => self.then.read_volatile(buf),
            answer => answer,
        }
    }

    fn known_left(&self) -> Option<usize> {
        None
    }
}

const SOCKETS: [&str; 4] = [
    "Err(PartialBuffer { expected: 8, completed: 6 }) [1, 2, 3, 4, 5, 6, 170, 170]",
    // The socket has no more for now.
    "Err(IOError(Os { code: 11, kind: WouldBlock, message: \"Resource temporarily unavailable\" })) \
     [1, 2, 3, 4, 5, 6, 170, 170]",
    "Err(IOError(Os { code: 11, kind: WouldBlock, message: \"Resource temporarily unavailable\" })) \
     [170, 170, 170, 170, 1, 2, 170, 170]",
    "Err(IOError(Os { code: 11, kind: WouldBlock, message: \"Resource temporarily unavailable\" })) \
     [170, 170, 170, 170, 170, 170, 170, 170]",
];

#[test]
fn a_socket_that_ends_or_fails_leaves_what_came(rt: HostRuntime) -> Result<(), Fail> {
    let (mut one, mut other) = UnixStream::pair(&rt)?;
    other.set_nonblocking(true)?;
    one.write_all(&[1, 2, 3, 4, 5, 6])?;
    let told = comes_in(rt.alloc(), Memory(0), All(8), &mut other)?;
    expect_text(1, told.as_str(), SOCKETS[1])?;
    one.write_all(&[1, 2])?;
    let told = comes_in(rt.alloc(), Region(0), All(3), &mut other)?;
    expect_text(2, told.as_str(), SOCKETS[2])?;
    let told = comes_in(rt.alloc(), Window(0), UpTo(3), &mut other)?;
    expect_text(3, told.as_str(), SOCKETS[3])?;
    one.write_all(&[1, 2, 3, 4, 5, 6])?;
    drop(one);
    let told = comes_in(rt.alloc(), Memory(0), All(8), &mut other)?;
    expect_text(0, told.as_str(), SOCKETS[0])
}

// A file that was opened to be written fails each read.
const FILES: [&str; 3] = [
    "Err(IOError(Os { code: 9, kind: Uncategorized, message: \"Bad file descriptor\" })) [1, 2, 3, 4, 170, 170, 170, \
     170]",
    "Err(IOError(Os { code: 9, kind: Uncategorized, message: \"Bad file descriptor\" })) [170, 170, 170, 170, 170, 5, \
     6, 170]",
    "Err(IOError(Os { code: 9, kind: Uncategorized, message: \"Bad file descriptor\" })) [170, 170, 170, 170, 170, \
     170, 170, 170]",
];

const FULL: &str =
    "Err(IOError(Os { code: 28, kind: StorageFull, message: \"No space left on device\" }))";

#[test]
fn a_file_that_fails_leaves_what_came(rt: HostRuntime) -> Result<(), Fail> {
    let path = "vmmem-torn-file-test";
    let mut file = File::create(&rt, path)?;
    let then = File::create(&rt, path)?;
    let first = File::open(&rt, path)?;
    fs::remove_file(&rt, path)?;
    file.write_all(&[1, 2, 3, 4])?;
    let mut source = TwoFiles { first, then };
    let told = comes_in(rt.alloc(), Memory(0), All(8), &mut source)?;
    expect_text(0, told.as_str(), FILES[0])?;
    file.write_all(&[5, 6])?;
    let told = comes_in(rt.alloc(), Region(1), All(3), &mut source)?;
    expect_text(1, told.as_str(), FILES[1])?;
    let told = comes_in(rt.alloc(), Window(0), UpTo(3), &mut source)?;
    expect_text(2, told.as_str(), FILES[2])?;
    let mut full = File::create(&rt, "/dev/full")?;
    for (case, place) in [Memory(0), Region(0), Window(0)].iter().enumerate() {
        let all = goes_out(rt.alloc(), *place, All(3), &mut full)?;
        expect_text(case, all.as_str(), FULL)?;
        let some = goes_out(rt.alloc(), *place, UpTo(3), &mut full)?;
        expect_text(case, some.as_str(), FULL)?;
    }
    Ok(())
}

// How many bytes a socket still has, if they are those of a list from the first on.
fn drained(stream: &mut UnixStream, bytes: &[u8]) -> Option<usize> {
    let mut buffer = [0u8; 0x1000];
    let mut came = 0usize;
    for _ in 0..0x1_0000 {
        match stream.read(&mut buffer) {
            Ok(0) => return Some(came),
            Ok(count) => {
                let end = came.checked_add(count)?;
                if bytes.get(came..end)? != buffer.get(..count)? {
                    return None;
                }
                came = end;
            }
            Err(_) => return None,
        }
    }
    None
}

// Fails where a transfer of four mebibytes is not refused as one to a full socket is, or changes a byte.
fn expect_refused(
    host: &mut HostMemory<()>,
    memory: &GuestMemoryMmap,
    sink: &mut UnixStream,
    bytes: &[u8],
    place: &mut [u8],
) -> Result<(), Fail> {
    let start = GuestAddress(0);
    if !host.holds(memory) {
        return Err(Fail::new("the host does not hold the memory"));
    }
    memory.write_slice(host, bytes, start)?;
    let answer = memory.write_all_volatile_to(host, start, sink, bytes.len());
    memory.read_slice(host, place, start)?;
    match answer {
        Err(GuestMemoryError::IOError(error)) if error.kind() == ErrorKind::WouldBlock => {}
        other => return Err(Fail::new(format_args!("{other:?}"))),
    }
    if &*place != bytes {
        return Err(Fail::new("bytes changed"));
    }
    Ok(())
}

#[test]
fn a_socket_that_is_full_fails_a_transfer_in_the_middle(rt: HostRuntime) -> Result<(), Fail> {
    let alloc = rt.alloc();
    let (mut one, mut other) = UnixStream::pair(&rt)?;
    one.set_nonblocking(true)?;
    let mut host = HostMemory::<()>::new(alloc);
    let ranges = [(GuestAddress(0), 0x1000), (GuestAddress(0x1000), 0x3f_f000)];
    let memory = GuestMemoryMmap::from_ranges(alloc, &mut host, &ranges)?;
    let bytes: Vec<u8> = (0..0x40_0000usize)
        .map(|index| (index % 251) as u8)
        .collect(alloc)?;
    let mut place = vec![in alloc; 0u8; 0x40_0000]?;
    expect_refused(
        &mut host,
        &memory,
        &mut one,
        bytes.as_slice(),
        place.as_mut_slice(),
    )?;
    drop(one);
    let came = drained(&mut other, bytes.as_slice()).ok_or("these are other bytes")?;
    assert!(rt; came > 0x1000 && came < 0x40_0000);
    Ok(())
}
