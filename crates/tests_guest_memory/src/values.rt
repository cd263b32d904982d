//! Values of a type in guest memory: loads and stores, and values that lie over two blocks.

use std::alloc::Global;
use std::sync::atomic::Ordering;
use std::test::Fail;
use test_regions::{Place, memory_of};
use test_text::expect_text;
use vm_memory_base::{ByteValued, GuestAddress};
use vm_memory_guest::{Bytes, GuestMemory, GuestMemoryResult, Hinted, HostMemory};

const TWO_BLOCKS: [Place; 2] = [Place::Block(0, 0x400), Place::Block(0x400, 0x400)];

const SIX_AND_SIX: [Place; 2] = [Place::Block(0, 6), Place::Block(6, 6)];

// An address, what a store and a load of 0x01020304 there answer, what a value of eight bytes written and read, and
// what a read of twelve bytes at 0x3fc has after the store, and one of eight bytes at the address after the value.
const VALUES: [(u64, &str, &str, [u8; 12], &str); 7] = [
    // No region has a byte there.
    (
        0x800,
        "Err(InvalidGuestAddress(GuestAddress(2048))) Err(InvalidGuestAddress(GuestAddress(2048)))",
        "Err(InvalidGuestAddress(GuestAddress(2048))) Err(InvalidGuestAddress(GuestAddress(2048)))",
        [9; 12],
        "Err(InvalidGuestAddress(GuestAddress(2048))) [0, 0, 0, 0, 0, 0, 0, 0]",
    ),
    (
        0x801,
        "Err(InvalidGuestAddress(GuestAddress(2049))) Err(InvalidGuestAddress(GuestAddress(2049)))",
        "Err(InvalidGuestAddress(GuestAddress(2049))) Err(InvalidGuestAddress(GuestAddress(2049)))",
        [9; 12],
        "Err(InvalidGuestAddress(GuestAddress(2049))) [0, 0, 0, 0, 0, 0, 0, 0]",
    ),
    (
        0x3fe,
        "Err(InvalidBackendAddress) Err(InvalidBackendAddress)",
        "Ok(()) Ok(578437695752307201)",
        [9; 12],
        "Ok(8) [1, 2, 3, 4, 5, 6, 7, 8]",
    ),
    (
        0x402,
        "Err(InvalidBackendAddress) Err(InvalidBackendAddress)",
        "Ok(()) Ok(578437695752307201)",
        [9; 12],
        "Ok(8) [1, 2, 3, 4, 5, 6, 7, 8]",
    ),
    (
        0x404,
        "Ok(()) Ok(16909060)",
        "Ok(()) Ok(578437695752307201)",
        [9, 9, 9, 9, 9, 9, 9, 9, 4, 3, 2, 1],
        "Ok(8) [1, 2, 3, 4, 5, 6, 7, 8]",
    ),
    (
        0x7c0,
        "Ok(()) Ok(16909060)",
        "Ok(()) Ok(578437695752307201)",
        [9; 12],
        "Ok(8) [1, 2, 3, 4, 5, 6, 7, 8]",
    ),
    (
        0x7fc,
        "Ok(()) Ok(16909060)",
        "Err(PartialBuffer { expected: 8, completed: 4 }) Err(PartialBuffer { expected: 8, completed: 4 })",
        [9; 12],
        "Ok(4) [1, 2, 3, 4, 0, 0, 0, 0]",
    ),
];

// What a store and a load of 0x01020304 tell, what is told of a value of eight bytes written and read, what twelve
// bytes at 0x3fc are after the store, and what is told of eight bytes at the address after the value, with these.
fn told_of_values<M: GuestMemory>(
    alloc: Global,
    host: &mut HostMemory<()>,
    memory: &M,
    at: GuestAddress,
) -> Result<String, Fail> {
    if !host.holds(memory) {
        return Err(Fail::new("the host does not hold the memory"));
    }
    memory.write_slice(host, &[9; 12], GuestAddress(0x3fc))?;
    let stored = memory.store(host, 0x0102_0304u32, at, Ordering::SeqCst);
    let loaded = memory.load::<u32, ()>(host, at, Ordering::SeqCst);
    let mut seen = [0; 12];
    memory.read_slice(host, &mut seen, GuestAddress(0x3fc))?;
    let wrote = memory.write_obj(host, 0x0807_0605_0403_0201u64, at);
    let had = memory.read_obj::<u64, ()>(host, at);
    let mut eight = [0; 8];
    let count = memory.read(host, &mut eight, at);
    Ok(format!(in alloc; "{stored:?} {loaded:?} {wrote:?} {had:?} {seen:?} {count:?} {eight:?}")?)
}

// The bytes of an aligned address lie in two blocks: what a store and a load there tell, and all bytes then.
fn told_of_split_store<M: GuestMemory>(
    alloc: Global,
    host: &mut HostMemory<()>,
    memory: &M,
) -> Result<String, Fail> {
    if !host.holds(memory) {
        return Err(Fail::new("the host does not hold the memory"));
    }
    let stored = memory.store(host, 7u32, GuestAddress(4), Ordering::SeqCst);
    let loaded = memory.load::<u32, ()>(host, GuestAddress(4), Ordering::SeqCst);
    let mut bytes = [9; 12];
    memory.read_slice(host, &mut bytes, GuestAddress(0))?;
    Ok(format!(in alloc; "{stored:?} {loaded:?} {bytes:?}")?)
}

#[test]
fn a_store_takes_one_window_and_a_value_any_number(rt: HostRuntime) -> Result<(), Fail> {
    let alloc = rt.alloc();
    let mut host = HostMemory::new(alloc);
    let memory = memory_of(alloc, &mut host, &TWO_BLOCKS)?;
    for (case, (addr, stores, values, left, bytes)) in VALUES.iter().enumerate() {
        let told = told_of_values(alloc, &mut host, &memory, GuestAddress(*addr))?;
        let wanted = format!(in alloc; "{stores} {values} {left:?} {bytes}")?;
        expect_text(case, told.as_str(), wanted.as_str())?;
        // Twice, since the second time the hint is of another region, or the same.
        let near = Hinted::new(&memory);
        for _ in 0..2 {
            let told = told_of_values(alloc, &mut host, &near, GuestAddress(*addr))?;
            expect_text(case, told.as_str(), wanted.as_str())?;
        }
        // A value without a byte is there at any address.
        assert!(rt; comes_back(&mut host, &memory, [0u32; 0], *addr, &[])?);
    }
    let memory = memory_of(alloc, &mut host, &SIX_AND_SIX)?;
    let told = told_of_split_store(alloc, &mut host, &memory)?;
    expect_text(
        0,
        told.as_str(),
        "Err(InvalidBackendAddress) Err(InvalidBackendAddress) [0, 0, 0, 0, 0, 0, 0, 0, 0, 0, 0, 0]",
    )
}

// Whether a value that is written at an address has these bytes there and is read back, and is read of these bytes.
fn comes_back<M: GuestMemory, T: ByteValued + PartialEq>(
    host: &mut HostMemory<()>,
    memory: &M,
    value: T,
    addr: u64,
    bytes: &[u8],
) -> GuestMemoryResult<bool> {
    let mut seen = [0u8; 1024];
    if !host.holds(memory) || bytes.len() > seen.len() {
        return Ok(false);
    }
    let at = GuestAddress(addr);
    let seen = &mut seen[..bytes.len()];
    memory.write_obj(host, value, at)?;
    memory.read_slice(host, seen, at)?;
    let has_bytes = &*seen == bytes;
    let back = memory.read_obj::<T, ()>(host, at)?;
    seen.fill(0xee);
    memory.write_slice(host, seen, at)?;
    memory.write_slice(host, bytes, at)?;
    let again = memory.read_obj::<T, ()>(host, at)?;
    Ok(has_bytes && back == value && again == value)
}

// The bytes of a memory at an address.
fn bytes_at<M: GuestMemory>(
    alloc: Global,
    host: &HostMemory<()>,
    memory: &M,
    addr: u64,
    count: usize,
) -> Result<Vec<u8>, Fail> {
    if !host.holds(memory) {
        return Err(Fail::new("the host does not hold the memory"));
    }
    let mut bytes = vec![in alloc; 0u8; count]?;
    memory.read_slice(host, bytes.as_mut_slice(), GuestAddress(addr))?;
    Ok(bytes)
}

// Bytes of which each is its number modulo 251.
fn numbered<const N: usize>() -> [u8; N] {
    let mut bytes = [0u8; N];
    for (index, byte) in bytes.iter_mut().enumerate() {
        *byte = (index % 251) as u8;
    }
    bytes
}

// What is told of a value that fills a block, and of one that ends past the memory, written and read, and then the
// last two bytes of the memory.
const LONG_VALUES: &str = "Ok(true)
Err(PartialBuffer { expected: 1024, completed: 256 })
Err(PartialBuffer { expected: 1024, completed: 256 })
[3, 4]
";

fn told_of_long_values<M: GuestMemory>(
    alloc: Global,
    host: &mut HostMemory<()>,
    memory: &M,
) -> Result<String, Fail> {
    let long = numbered::<1024>();
    let whole = comes_back(host, memory, long, 0, &long);
    let wrote = comes_back(host, memory, long, 0x700, &long);
    let mut text = format!(in alloc; "{whole:?}\n{wrote:?}\n")?;
    if !host.holds(memory) {
        return Err(Fail::new("the host does not hold the memory"));
    }
    let had = memory.read_obj::<[u8; 1024], ()>(host, GuestAddress(0x700));
    writeln!(text, "{had:?}")?;
    let last = memory.read_obj::<[u8; 2], ()>(host, GuestAddress(0x7fe))?;
    writeln!(text, "{last:?}")?;
    Ok(text)
}

#[test]
fn a_value_lies_over_two_blocks(rt: HostRuntime) -> Result<(), Fail> {
    let alloc = rt.alloc();
    let mut host = HostMemory::new(alloc);
    let memory = memory_of(alloc, &mut host, &TWO_BLOCKS)?;
    let (long, hundred) = (numbered::<1024>(), numbered::<100>());
    let inner = 0x0807_0605_0403_0201u64;
    assert!(rt; comes_back(&mut host, &memory, hundred, 0x3d0, &hundred)?);
    assert!(rt; comes_back(&mut host, &memory, inner, 0x3fc, &[1, 2, 3, 4, 5, 6, 7, 8])?);
    let bytes = bytes_at(alloc, &host, &memory, 0x3fb, 10)?;
    assert!(rt; bytes.as_slice() == &[43, 1, 2, 3, 4, 5, 6, 7, 8, 52][..]);
    assert!(rt; comes_back(&mut host, &memory, long, 0x200, &long)?);
    let told = told_of_long_values(alloc, &mut host, &memory)?;
    expect_text(0, told.as_str(), LONG_VALUES)
}
