//! Whole migrations in rounds, while the guest is written.

use crate::guests::{
    are_equal, bytes_of, guest_of, hear_ready, len_of, put, send_pages, take_until,
};
use live_migration::{Options, Receiver, Reply, Sender, Stage};
use std::alloc::Global;
use std::test::Fail;
use test_text::next_number;
use vm_memory_base::{ExactBitmap, GuestAddress, NewBitmap};
use vm_memory_guest::{BlockId, HostMemory};

// The lengths and page sizes of the blocks, and how many bytes are written before the first round and in each of three.
const CASES: [(&[(usize, usize)], usize); 9] = [
    // An empty memory.
    (&[], 0),
    // One page, of zeros and written.
    (&[(0x1000, 0x1000)], 0),
    (&[(0x1000, 0x1000)], 5),
    // A last page that is cut, and a block shorter than its page.
    (&[(0x2801, 0x1000)], 9),
    (&[(3, 0x1000)], 2),
    // Two blocks with page sizes 1 and 4096.
    (&[(0x101, 1), (0x3000, 0x1000)], 7),
    // Three blocks, of which the last ends in a byte.
    (&[(1, 1), (7, 2), (0x41, 0x20)], 11),
    // More pages than a batch has room for.
    (&[(0x18_0000, 0x1000)], 500),
    // Pages as long as they may be.
    (&[(0x10_0001, 0x10_0000)], 1),
];

// Writes some bytes of the guest.
fn write_some<B: ExactBitmap>(
    host: &mut HostMemory<B>,
    places: &[(BlockId, GuestAddress)],
    count: usize,
    state: &mut u64,
) {
    if places.is_empty() {
        return;
    }
    for _ in 0..count {
        let pick = next_number(state) as usize % places.len();
        let block = places[pick].0;
        let len = len_of(host, block);
        if len == 0 {
            return;
        }
        let at = next_number(state) as usize % len;
        put(host, block, at, (next_number(state) % 256) as u8);
    }
}

// Sends a guest in four rounds, up to done.
fn send_all<B: ExactBitmap>(
    alloc: Global,
    host: &mut HostMemory<B>,
    places: &[(BlockId, GuestAddress)],
    how: (usize, Options),
    stream: &mut Vec<u8>,
) -> Result<Sender, Fail> {
    let (writes, options) = how;
    let mut state = 7;
    write_some(host, places, writes, &mut state);
    let mut sender = Sender::begin(alloc, host, places, options, stream)?;
    hear_ready(&mut sender)?;
    for round in 0..4 {
        send_pages(alloc, &mut sender, host, places.len(), stream)?;
        if round == 3 {
            sender.send_section(alloc, stream, b"timer", &[1, 2, 3])?;
        } else {
            write_some(host, places, writes, &mut state);
        }
        sender.end_round(alloc, stream)?;
    }
    sender.done(alloc, stream)?;
    Ok(sender)
}

// Receives a stream up to done, and then the sender gives the guest up. Answers whether the blocks are equal. The other
// host has a block of five bytes.
fn is_moved<B: ExactBitmap, C: NewBitmap + Drop>(
    alloc: Global,
    host: &mut HostMemory<B>,
    places: &[(BlockId, GuestAddress)],
    how: (usize, Options),
    other: &mut HostMemory<C>,
) -> Result<bool, Fail> {
    let mut stream = Vec::new(alloc);
    let mut sender = send_all(alloc, host, places, how, &mut stream)?;
    put(other, BlockId(0), 4, 9);
    let mut input = stream.as_slice();
    let mut receiver = Receiver::begin(alloc, &mut input, other, 0x40_0000)?;
    take_until(&mut receiver, input, other, Stage::Done)?;
    let mut last = Vec::new(alloc);
    // Go is not sent before the receiver has accepted.
    sender.go(&mut last).err().ok_or("go was sent too early")?;
    sender.accepted(&mut Reply::Accepted.encode().as_slice())?;
    sender.go(&mut last)?;
    take_until(&mut receiver, last.as_slice(), other, Stage::Gone)?;
    let guest = receiver
        .into_guest()
        .ok()
        .ok_or("the guest was not given out")?;
    let section = guest.sections.first().ok_or("no section came")?;
    Ok(
        are_equal(host, places, other, guest.base)
            && bytes_of(other, BlockId(0)) == [0, 0, 0, 0, 9].as_slice()
            && section.name.as_slice() == b"timer".as_slice()
            && section.bytes.as_slice() == [1, 2, 3].as_slice(),
    )
}

#[test]
fn guests_move(rt: HostRuntime) -> Result<(), Fail> {
    for (case, (blocks, writes)) in CASES.iter().enumerate() {
        for digests in [false, true] {
            let (mut host, places) = guest_of(rt.alloc(), blocks)?;
            let (mut other, _) = guest_of(rt.alloc(), &[(5, 1)])?;
            let how = (*writes, Options { digests });
            let is_equal = is_moved(rt.alloc(), &mut host, &places, how, &mut other)?;
            assert!(rt; is_equal, "case {case}");
        }
    }
    Ok(())
}
