//! Moves the memory of a guest from one host to another. The two ends are threads here, with a pair of sockets between
//! them.

use anyhow::{Context, Result, bail};
use live_migration::{Guest, Options, Receiver, Refusal, Reply, SendError, Sender};
use std::alloc::Global;
use std::io::{Read, Write};
use std::net::Net;
use std::num::NonZeroUsize;
use std::os::unix::net::UnixStream;
use std::thread::{self, Threads};
use vm_memory::{
    Bitmap, BlockId, ExactBitmap, ExclusiveBitmap, GuestAddress, HostMemory, NewBitmap,
};

type Host = HostMemory<ExclusiveBitmap>;

// The bytes of the guest's memory.
const SIZE: usize = 0x10_0000;

// What a sender may ask for: the memory, and some states of devices.
const LIMIT: u64 = 0x11_0000;

// How many rounds are sent. The guest is stopped in the last one.
const ROUNDS: u8 = 4;

// Writes a byte of the guest's memory, which marks its page.
fn write_guest<B: Bitmap>(host: &mut HostMemory<B>, at: usize, byte: u8) {
    if host.shape().has_place(BlockId(0), at, 1) {
        let window = host.window(BlockId(0), at, 1);
        host.write(&window, &[byte]);
    }
}

// Sends the pages of each block that were written since its last harvest, and in the first round all.
fn send_pages<B: ExactBitmap, O: Write>(
    alloc: Global,
    sender: &mut Sender,
    host: &mut HostMemory<B>,
    blocks: usize,
    output: &mut O,
) -> Result<(), SendError> {
    for _ in 0..blocks {
        let pages = sender.harvest(alloc, host)?;
        for _ in 0..pages {
            // Copies at most 1 MiB of the pages that wait, and none when none waits.
            if sender.copy_batch(host)? == 0 {
                break;
            }
            sender.send_batch(output)?;
        }
    }
    Ok(())
}

// Sends a guest, which runs between the rounds and is stopped in the last one.
fn send<B: ExactBitmap, I: Read, O: Write>(
    alloc: Global,
    host: &mut HostMemory<B>,
    blocks: &[(BlockId, GuestAddress)],
    input: &mut I,
    output: &mut O,
) -> Result<(), SendError> {
    let mut sender = Sender::begin(alloc, host, blocks, Options::default(), output)?;
    sender.ready(input)?;
    for round in 1..ROUNDS {
        send_pages(alloc, &mut sender, host, blocks.len(), output)?;
        sender.end_round(alloc, output)?;
        write_guest(host, 0x1000 * round as usize, round);
    }
    send_pages(alloc, &mut sender, host, blocks.len(), output)?;
    sender.send_section(alloc, output, b"timer", &[ROUNDS])?;
    sender.end_round(alloc, output)?;
    sender.done(alloc, output)?;
    sender.accepted(input)?;
    sender.go(output)
}

// Takes a guest. Its blocks come after those that the host has.
fn receive<B: NewBitmap + Drop, I: Read, O: Write>(
    alloc: Global,
    host: &mut HostMemory<B>,
    input: &mut I,
    output: &mut O,
) -> Result<Guest, Refusal> {
    let mut receiver = Receiver::begin(alloc, input, host, LIMIT)?;
    if output.write_all(&Reply::Ready.encode()).is_err() {
        return Err(Refusal::Failed);
    }
    receiver.receive(input, output, host)?;
    match receiver.into_guest() {
        Ok(guest) => Ok(guest),
        Err(_) => Err(Refusal::Order),
    }
}

// The sending end: a guest of one block, which is given up in the end.
fn sending_end(alloc: Global, stream: UnixStream) -> Result<Host> {
    let page_size = NonZeroUsize::new(0x1000).context("a page has no bytes")?;
    let mut host = Host::new(alloc);
    let bitmap = ExclusiveBitmap::new(alloc, SIZE, page_size)?;
    let block = host.new_block_with(SIZE, bitmap)?;
    write_guest(&mut host, 0x2345, 7);
    let blocks = [(block, GuestAddress(0))];
    send(alloc, &mut host, &blocks, &mut &stream, &mut &stream)?;
    Ok(host)
}

// The receiving end. What it refuses goes back.
fn receiving_end(alloc: Global, stream: UnixStream) -> Result<(Host, Guest)> {
    let mut host = Host::new(alloc);
    match receive(alloc, &mut host, &mut &stream, &mut &stream) {
        Ok(guest) => Ok((host, guest)),
        Err(refusal) => {
            let mut output = &stream;
            output.write_all(&Reply::Refused(refusal).encode())?;
            bail!("refused: {refusal}")
        }
    }
}

// The bytes of a block, or none.
fn bytes_of<B: Bitmap>(host: &HostMemory<B>, block: BlockId) -> &[u8] {
    let len = host.shape().block_len(block).unwrap_or(0);
    if !host.shape().has_place(block, 0, len) {
        return &[];
    }
    let window = host.window(block, 0, len);
    host.bytes(&window)
}

/// Moves a guest, and compares its memory at both ends.
pub fn move_a_guest(rt: &(impl Print + Threads + Net), alloc: Global) -> Result<()> {
    let (near, far) = UnixStream::pair(rt)?;
    let (sent, came) = thread::join(
        rt,
        || sending_end(alloc, near),
        || receiving_end(alloc, far),
    );
    let old = sent?;
    let (new, guest) = came?;
    let (ours, theirs) = (
        bytes_of(&old, BlockId(0)),
        bytes_of(&new, BlockId(guest.base)),
    );
    println!(rt; "{} bytes came, equal: {}", theirs.len(), theirs == ours)?;
    for section in guest.sections.as_slice() {
        println!(rt; "a state of {} bytes", section.bytes.len())?;
    }
    Ok(())
}
