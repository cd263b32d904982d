//! A sender over any writer, and of what it is proved while its guest is written and copies are refused.
ghost use Rattle.std.specs.Prelude.{◌≡◌, ◌<◌, ℕ, All, List, [], Option, Some, IfOk, OnOk};
ghost use Rattle.vm_memory_guest.specs.Dirt.{with_pages};
ghost use Rattle.vm_memory_guest.specs.Lent.{MarksChanges};
ghost use Rattle.vm_memory_guest.specs.Window.{Window};
ghost use Rattle.live_migration.specs.Calls.{Call, DoAll};
ghost use Rattle.live_migration.specs.Following.{Follows};
ghost use Rattle.live_migration.specs.Rounds.{Ends, IsKept};
ghost use Rattle.live_migration.specs.Writing.{MarksItsBlock};

use crate::guests::{Host, bytes_of, dirty_count, guest_of, put};
use crate::whole::receive_whole;
use live_migration::laws::{
    calls_add_up, no_page_is_lost, receivers_have_what_was_sent, writes_mark_what_they_change,
};
use live_migration::{Options, Reply, SendError, Sender};
use std::alloc::Global;
use std::io::{Read, Write};
use std::test::Fail;
use vm_memory_base::{ExactBitmap, GuestAddress};
use vm_memory_guest::{BlockId, HostMemory};

// Writes a byte of a block, if the host has it.
fn put_marked<B: ExactBitmap>(host: &mut HostMemory<B>, block: BlockId, at: usize, byte: u8)
    ensures { (windows : List Window) × All MarksItsBlock windows
        × MarksChanges windows (with_pages B.pages host.old) (with_pages B.pages host.new) }
{
    writes_mark_what_they_change::<B>();
    if !host.shape().has_place(block, at, 1) {
        return;
    }
    let window = host.window(block, at, 1);
    host.write(&window, &[byte]);
}

// Copies what waits, and answers whether that was not refused.
fn copies<B: ExactBitmap>(sender: &mut Sender, host: &HostMemory<B>) -> bool
    ensures { (stream : Option (List ℕ)) → (calls : List Call) × DoAll B.pages calls
        record { sender = sender.old; host = host.now; stream = stream }
        record { sender = sender.new; host = host.now; stream = stream } }
{
    match sender.copy_batch(host) {
        Ok(_) => true,
        Err(_) => false,
    }
}

// A round of a block, of which a byte is written after the harvest.
fn send_round<B: ExactBitmap, W: Write>(
    alloc: Global,
    sender: &mut Sender,
    host: &mut HostMemory<B>,
    place: (BlockId, usize, u8),
    writer: &mut W,
) -> Result<(), SendError>
    ensures { OnOk result ((calls : List Call) × DoAll B.pages calls
        record { sender = sender.old; host = host.old; stream = W.contents writer.old }
        record { sender = sender.new; host = host.new; stream = W.contents writer.new }) }
{
    calls_add_up::<B>();
    let (block, at, byte) = place;
    sender.harvest(alloc, host)?;
    put_marked(host, block, at, byte);
    copies(sender, host);
    sender.send_batch(writer)?;
    sender.end_round(alloc, writer)?;
    Ok(())
}

// Sends rounds of a block to a writer that had nothing.
fn send_rounds<B: ExactBitmap, R: Read, W: Write>(
    alloc: Global,
    host: &mut HostMemory<B>,
    block: BlockId,
    rounds: u8,
    replies: &mut R,
    writer: &mut W,
) -> Result<Sender, SendError>
    ensures { IfOk result (λ sender. W.contents writer.old ≡ Some [] → (s : Ends)
        × Follows B.pages sender.rounds host.new s
        × ((number page : ℕ) → number < s.count → IsKept s number page)) }
{
    receivers_have_what_was_sent::<B, B>();
    no_page_is_lost();
    calls_add_up::<B>();
    let places = [(block, GuestAddress(0))];
    let options = Options { digests: true };
    let mut sender = Sender::begin(alloc, host, &places, options, writer)?;
    sender.ready(replies)?;
    for round in 0..rounds {
        let place = (block, 0x123 * round as usize, round);
        send_round(alloc, &mut sender, host, place, writer)?;
    }
    Ok(sender)
}

// Finishes a migration.
fn give_up<R: Read, W: Write>(
    alloc: Global,
    sender: &mut Sender,
    replies: &mut R,
    writer: &mut W,
) -> Result<(), SendError> {
    sender.done(alloc, writer)?;
    sender.accepted(replies)?;
    sender.go(writer)
}

#[test]
fn no_page_is_proved_to_be_lost(rt: HostRuntime) -> Result<(), Fail> {
    let alloc = rt.alloc();
    let (mut host, places) = guest_of(alloc, &[(0x2345, 0x100)])?;
    let block = places.first().ok_or("there is no block")?.0;
    let mut stream = Vec::new(alloc);
    let ready = Reply::Ready.encode();
    let accepted = Reply::Accepted.encode();
    let mut sender = send_rounds(
        alloc,
        &mut host,
        block,
        5,
        &mut ready.as_slice(),
        &mut stream,
    )?;
    give_up(alloc, &mut sender, &mut accepted.as_slice(), &mut stream)?;
    let mut other = Host::new(alloc);
    let mut input = stream.as_slice();
    let number = receive_whole(alloc, &mut other, &mut input, &mut Vec::new(alloc))?;
    // The last byte was written after the last harvest: its page is dirty, and all else came.
    assert!(rt; dirty_count(&host, alloc, block)? == 1);
    put(&mut other, BlockId(number), 0x48c, 4);
    assert!(rt; bytes_of(&other, BlockId(number)) == bytes_of(&host, block));
    Ok(())
}
