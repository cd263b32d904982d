//! Frames that are taken one by one from any reader, and a stream that is read twice.
ghost use Rattle.std.specs.Prelude.{◌≡◌, Some, OnOk};
ghost use Rattle.live_migration.specs.Calls.{ReadsAll};
ghost use Rattle.live_migration.specs.Receiving.{ReceivesAll};
ghost use Rattle.live_migration.specs.declared.receiver.progress.Progress.{Progress};

use crate::guests::{Host, bytes_of};
use crate::streams::{LIMIT, stream_of};
use crate::whole::receive_whole;
use live_migration::laws::{frames_add_up, streams_mean_one_thing};
use live_migration::{Receiver, Refusal, Stage};
use std::alloc::Global;
use std::io::Read;
use std::test::Fail;
use vm_memory_base::{Bitmap, NewBitmap};
use vm_memory_guest::{BlockId, HostMemory};

// Takes frames up to go.
fn take_all<C: Bitmap, R: Read>(
    receiver: &mut Receiver,
    reader: &mut R,
    host: &mut HostMemory<C>,
) -> Result<(), Refusal>
    ensures { OnOk result (ReceivesAll C.marks (R.remaining reader.old) (R.remaining reader.new) receiver.old.seen.base
        receiver.old.seen.entries.items host.old host.new) }
{
    frames_add_up::<C>();
    for _ in 0..u64::MAX {
        let stage = receiver.take(reader, host)?;
        if stage == Stage::Gone {
            return Ok(());
        }
    }
    Err(Refusal::Order)
}

// Receives a stream twice, of which no byte may be left.
fn receive_twice<C: NewBitmap + Drop, D: NewBitmap + Drop>(
    alloc: Global,
    stream: &[u8],
    host: &mut HostMemory<C>,
    other: &mut HostMemory<D>,
) -> Result<(), Refusal>
    ensures { OnOk result ((p q : Progress) × (one : ReadsAll C.made C.marks (Some stream.now) p host.new)
        × (two : ReadsAll D.made D.marks (Some stream.now) q other.new) × (p.entries.items ≡ q.entries.items)
        × (one.frames.messages ≡ two.frames.messages)) }
{
    streams_mean_one_thing();
    let (mut first, mut second) = (stream, stream);
    receive_whole(alloc, host, &mut first, &mut Vec::new(alloc))?;
    receive_whole(alloc, other, &mut second, &mut Vec::new(alloc))?;
    if !first.is_empty() {
        return Err(Refusal::FrameLength);
    }
    if !second.is_empty() {
        return Err(Refusal::FrameLength);
    }
    Ok(())
}

// A whole stream of blocks of 5 and 3 bytes: pages, a page of zeros, the end of the round, done, and go.
const WHOLE: &str = "b 4,1 4,e 4,0 8,0 x,0102 4,2 4,c 4,1 8,0 4,3 4,4 4,0 4,5 4,0 4,6 4,0";

#[test]
fn frames_add_up_to_blocks(rt: HostRuntime) -> Result<(), Fail> {
    let alloc = rt.alloc();
    let stream = stream_of(alloc, WHOLE)?;
    let (mut host, mut other) = (Host::new(alloc), Host::new(alloc));
    receive_twice(alloc, stream.as_slice(), &mut host, &mut other)?;
    let mut third = Host::new(alloc);
    let mut input = stream.as_slice();
    let mut receiver = Receiver::begin(alloc, &mut input, &mut third, LIMIT)?;
    take_all(&mut receiver, &mut input, &mut third)?;
    for host in [&host, &other, &third] {
        assert!(rt; bytes_of(host, BlockId(0)) == [1, 2, 0, 0, 0].as_slice());
        assert!(rt; bytes_of(host, BlockId(1)) == [0, 0, 0].as_slice());
    }
    Ok(())
}
