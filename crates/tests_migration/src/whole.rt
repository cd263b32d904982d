//! Migrations over any reader and writer, of which it is proved that they end with equal blocks if all that was
//! written is read.
ghost use Rattle.std.specs.Prelude.{◌≡◌, [], Some, IfOk, OnOk};
ghost use Rattle.vm_memory_guest.specs.Host.{Host, block_at};
ghost use Rattle.live_migration.specs.Calls.{ReadsAll};
ghost use Rattle.live_migration.specs.declared.receiver.progress.Progress.{Progress};

use crate::guests::{Host, bytes_of, guest_of, put};
use live_migration::laws::receivers_have_what_was_sent;
use live_migration::{Options, Receiver, Refusal, Reply, SendError, Sender};
use std::alloc::Global;
use std::io::{Read, Write};
use std::os::unix::net::UnixStream;
use std::test::Fail;
use std::thread;
use vm_memory_base::{Bitmap, ExactBitmap, ExclusiveBitmap, GuestAddress, NewBitmap};
use vm_memory_guest::{BlockId, HostMemory};

// Sends a block in one round, while nothing is written, to a writer that had nothing. Its pages have to fit into one
// batch.
pub(crate) fn send_whole<B: ExactBitmap, C: Bitmap, R: Read, W: Write>(
    alloc: Global,
    host: &mut HostMemory<B>,
    block: BlockId,
    replies: &mut R,
    writer: &mut W,
) -> Result<(), SendError>
    ensures { OnOk result (W.contents writer.old ≡ Some [] → (p : Progress) (next : Host C)
        → ReadsAll C.made C.marks (W.contents writer.new) p next
        → block_at next.blocks p.base ≡ block_at host.new.blocks block.0) }
{
    receivers_have_what_was_sent::<B, C>();
    let options = Options { digests: true };
    let places = [(block, GuestAddress(0))];
    let mut sender = Sender::begin(alloc, host, &places, options, writer)?;
    sender.ready(replies)?;
    sender.harvest(alloc, host)?;
    sender.copy_batch(host)?;
    sender.send_batch(writer)?;
    sender.end_round(alloc, writer)?;
    sender.done(alloc, writer)?;
    sender.accepted(replies)?;
    sender.go(writer)?;
    Ok(())
}

// Receives blocks, and answers the number of the first.
pub(crate) fn receive_whole<C: NewBitmap + Drop, R: Read, W: Write>(
    alloc: Global,
    host: &mut HostMemory<C>,
    reader: &mut R,
    replies: &mut W,
) -> Result<usize, Refusal>
    ensures { IfOk result (λ number. (p : Progress) × (p.base ≡ number) × (R.remaining reader.new ≡ Some []
        → ReadsAll C.made C.marks (R.remaining reader.old) p host.new)) }
{
    let mut receiver = Receiver::begin(alloc, reader, host, 0x1_0000)?;
    if replies.write_all(&Reply::Ready.encode()).is_err() {
        return Err(Refusal::Failed);
    }
    receiver.receive(reader, replies, host)?;
    match receiver.into_guest() {
        Ok(guest) => Ok(guest.base),
        Err(_) => Err(Refusal::Order),
    }
}

// Moves a block to another host, and answers its number there.
fn moved<B: ExactBitmap, C: NewBitmap + Drop>(
    alloc: Global,
    host: &mut HostMemory<B>,
    block: BlockId,
    other: &mut HostMemory<C>,
) -> Result<usize, Fail>
    ensures { IfOk result (λ number. block_at other.new.blocks number ≡ block_at host.new.blocks block.0) }
{
    let mut replies = Vec::new(alloc);
    replies.extend_from_slice(&Reply::Ready.encode())?;
    replies.extend_from_slice(&Reply::Accepted.encode())?;
    let mut stream = Vec::new(alloc);
    send_whole::<B, C, _, _>(alloc, host, block, &mut replies.as_slice(), &mut stream)?;
    let mut input = stream.as_slice();
    let number = receive_whole(alloc, other, &mut input, &mut Vec::new(alloc))?;
    if !input.is_empty() {
        return Err(Fail::new("bytes are left"));
    }
    Ok(number)
}

// A guest of two pages and a cut one, and its block.
fn written_guest(alloc: Global) -> Result<(Host, BlockId), Fail> {
    let (mut host, places) = guest_of(alloc, &[(0x2345, 0x100)])?;
    let block = places.first().ok_or("there is no block")?.0;
    put(&mut host, block, 0x2344, 7);
    put(&mut host, block, 0x1234, 9);
    Ok((host, block))
}

#[test]
fn a_migration_is_proved_to_end_equal(rt: HostRuntime) -> Result<(), Fail> {
    let (mut host, block) = written_guest(rt.alloc())?;
    let mut other = Host::new(rt.alloc());
    let number = moved(rt.alloc(), &mut host, block, &mut other)?;
    // Of the call it is proved that the blocks are equal, and here that it succeeds.
    assert!(rt; bytes_of(&other, BlockId(number)) == bytes_of(&host, block));
    Ok(())
}

// The same two functions at the ends of a pair of sockets, whose bytes no contract knows.
fn send_to(
    alloc: Global,
    mut host: Host,
    block: BlockId,
    stream: UnixStream,
) -> Result<Host, SendError> {
    send_whole::<_, ExclusiveBitmap, _, _>(alloc, &mut host, block, &mut &stream, &mut &stream)?;
    Ok(host)
}

fn receive_from(alloc: Global, stream: UnixStream) -> Result<(Host, usize), Refusal> {
    let mut host = Host::new(alloc);
    let number = receive_whole(alloc, &mut host, &mut &stream, &mut &stream)?;
    Ok((host, number))
}

#[test]
fn a_migration_over_sockets_ends_equal(rt: HostRuntime) -> Result<(), Fail> {
    let alloc = rt.alloc();
    let (guest, block) = written_guest(alloc)?;
    let (near, far) = UnixStream::pair(&rt)?;
    let (sent, came) = thread::join(
        &rt,
        || send_to(alloc, guest, block, near),
        || receive_from(alloc, far),
    );
    let host = sent?;
    let (other, number) = came?;
    assert!(rt; bytes_of(&other, BlockId(number)) == bytes_of(&host, block));
    Ok(())
}
