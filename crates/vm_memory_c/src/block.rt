//! A block device's back end on a connection with a vhost-user front end, for C: opens one, tells it what happens, and
//! asks what is to be done.
ghost use Rattle.std.specs.Prelude.{◌≡◌, ◌⊎◌, Some, None, IsSome, true, false, if◌then◌else◌};
ghost use Rattle.vhost_calls.specs.Values.{connection_state};
ghost use Rattle.vhost_backend.specs.BlockBackend.{channel_lost, resized};
ghost use Rattle.vhost_backend.specs.BlockConnection.{Maps, done, ended, failed, kicked, reply_came, sent, taken};
ghost use Rattle.vhost_backend.specs.BlockConnection.{tracking, with_backend};
ghost use Rattle.vhost_backend.specs.Run.{RunsBy};
ghost use Rattle.vm_memory_c.specs.Block.{OpensAt, Stays};

use crate::block_handle::BlockHandle;
use crate::raw_box::RawBox;
use std::alloc::Global;
use std::mem;
use vhost_backend::rows::{ActionRow, Counts, EndRow, PieceRow};
use vhost_backend::{BlockConnection, BlockDisk, TableCounts};
use vhost_calls::{VhostOffer, VhostState, code};
use vm_memory_guest::{BlockBytes, HostPlace};

// Takes the connection of an open handle, which is closed until it is put back.
fn take(alloc: Global, connection: &mut BlockHandle) -> Box<BlockConnection>
    requires { IsSome connection.old.state }
    ensures held { Some result.value ≡ connection.old.state }
    ensures closed { connection.new.state ≡ None }
{
    let handle = mem::replace(connection, BlockHandle::closed(alloc));
    handle.into_raw_box().into_box()
}

fn put(connection: &mut BlockHandle, held: Box<BlockConnection>)
    ensures { connection.new.state ≡ Some held.value }
{
    *connection = BlockHandle::of(RawBox::of(held));
}

/// Opens a connection with nothing negotiated, and puts its handle into `connection`, which has to be closed or new.
/// The configuration has at most 256 bytes. Returns 0; or `VHOST_OFFER` or `MEMORY`, and then the handle stays.
#[unsafe(no_mangle)]
pub extern "C" fn vmm_backend_open(
    alloc: Global,
    connection: &mut BlockHandle,
    offer: &VhostOffer,
    config: &[u8],
    disk: &BlockDisk,
) -> u32
    ensures { OpensAt alloc offer.now config.now disk.now connection.old.state result connection.new.state }
{
    let made = match vhost_backend::open(alloc, offer, config, disk) {
        Ok(made) => made,
        Err(code) => return code,
    };
    match Box::new(alloc, made) {
        Ok(held) => {
            put(connection, held);
            code::DONE
        }
        Err(_) => code::MEMORY,
    }
}

/// Takes a whole message, and how many descriptors came with it. Returns 0 if it was taken, and 1 if the one before it
/// is not done, or the connection is over: then nothing changes.
#[unsafe(no_mangle)]
pub extern "C" fn vmm_backend_message(
    alloc: Global,
    connection: &mut BlockHandle,
    message: &[u8],
    descriptors: usize,
) -> u32
    requires { IsSome connection.old.state }
    ensures { Stays connection.old.state connection.new.state
        (λ old new. let t = taken old message.now descriptors in (new ≡ t.0)
        × (result ≡ (if t.1 then 0 else 1))) }
{
    let mut held = take(alloc, connection);
    let is_taken = held.take_message(message, descriptors);
    put(connection, held);
    u32::from(!is_taken)
}

/// Takes the place of the region that is to be mapped. Returns 0 if that could be done. If not, the place is the
/// caller's again.
#[unsafe(no_mangle)]
pub extern "C" fn vmm_backend_mapped(
    alloc: Global,
    connection: &mut BlockHandle,
    place: HostPlace,
) -> u32
    requires { IsSome connection.old.state }
    ensures { Stays connection.old.state connection.new.state
        (λ old new. ((result ≡ 0) × Maps old true new) ⊎ ((result ≡ 1) × Maps old false new)) }
{
    let mut held = take(alloc, connection);
    let is_done = held.mapped(BlockBytes::at(place));
    put(connection, held);
    u32::from(!is_done)
}

/// Takes the place of the region of requests in flight that is to be mapped. It stays the connection's until that
/// closes or takes another one. vmm_backend_done comes after it.
#[unsafe(no_mangle)]
pub extern "C" fn vmm_backend_track(alloc: Global, connection: &mut BlockHandle, place: HostPlace)
    requires { IsSome connection.old.state }
    ensures { Stays connection.old.state connection.new.state
        (λ old new. new ≡ tracking old place.bytes) }
{
    let mut held = take(alloc, connection);
    held.track(BlockBytes::at(place));
    put(connection, held);
}

/// Takes note that what was asked for was done.
#[unsafe(no_mangle)]
pub extern "C" fn vmm_backend_done(alloc: Global, connection: &mut BlockHandle)
    requires { IsSome connection.old.state }
    ensures { Stays connection.old.state connection.new.state (λ old new. new ≡ done old) }
{
    let mut held = take(alloc, connection);
    held.done();
    put(connection, held);
}

/// Takes note that what was asked for could not be done: the connection ends.
#[unsafe(no_mangle)]
pub extern "C" fn vmm_backend_failed(alloc: Global, connection: &mut BlockHandle)
    requires { IsSome connection.old.state }
    ensures { Stays connection.old.state connection.new.state (λ old new. new ≡ failed old) }
{
    let mut held = take(alloc, connection);
    held.failed();
    put(connection, held);
}

/// Takes note that the driver of a ring notified.
#[unsafe(no_mangle)]
pub extern "C" fn vmm_backend_kick(alloc: Global, connection: &mut BlockHandle, ring: u32)
    requires { IsSome connection.old.state }
    ensures { Stays connection.old.state connection.new.state (λ old new. new ≡ kicked old ring) }
{
    let mut held = take(alloc, connection);
    held.kick(ring as usize);
    put(connection, held);
}

/// Takes a whole reply that came on the back end's own channel. Returns 0 if one was due, and otherwise 1: then the
/// connection ends.
#[unsafe(no_mangle)]
pub extern "C" fn vmm_backend_answered(
    alloc: Global,
    connection: &mut BlockHandle,
    message: &[u8],
) -> u32
    requires { IsSome connection.old.state }
    ensures { Stays connection.old.state connection.new.state
        (λ old new. let t = reply_came old message.now in (new ≡ t.0) × (result ≡ (if t.1 then 0 else 1))) }
{
    let mut held = take(alloc, connection);
    let is_due = held.answered(message);
    put(connection, held);
    u32::from(!is_due)
}

/// Takes note that the back end's own channel is lost.
#[unsafe(no_mangle)]
pub extern "C" fn vmm_backend_channel_lost(alloc: Global, connection: &mut BlockHandle)
    requires { IsSome connection.old.state }
    ensures { Stays connection.old.state connection.new.state
        (λ old new. new ≡ with_backend old (channel_lost old.backend)) }
{
    let mut held = take(alloc, connection);
    held.channel_lost();
    put(connection, held);
}

/// Takes note that so many bytes of replies were sent.
#[unsafe(no_mangle)]
pub extern "C" fn vmm_backend_sent(alloc: Global, connection: &mut BlockHandle, count: usize)
    requires { IsSome connection.old.state }
    ensures { Stays connection.old.state connection.new.state (λ old new. new ≡ sent old count) }
{
    let mut held = take(alloc, connection);
    held.sent(count);
    put(connection, held);
}

/// The disk has so many sectors from now on, and the configuration says so.
#[unsafe(no_mangle)]
pub extern "C" fn vmm_backend_resize(alloc: Global, connection: &mut BlockHandle, sectors: u64)
    requires { IsSome connection.old.state }
    ensures { Stays connection.old.state connection.new.state
        (λ old new. new ≡ with_backend old (resized old.backend sectors)) }
{
    let mut held = take(alloc, connection);
    held.resize(sectors);
    put(connection, held);
}

/// Ends the connection.
#[unsafe(no_mangle)]
pub extern "C" fn vmm_backend_hang_up(alloc: Global, connection: &mut BlockHandle)
    requires { IsSome connection.old.state }
    ensures { Stays connection.old.state connection.new.state (λ old new. new ≡ ended old) }
{
    let mut held = take(alloc, connection);
    held.hang_up();
    put(connection, held);
}

/// Takes ends of parts, and gives what is to be done as far as there is room. What the run before it gave was done.
#[unsafe(no_mangle)]
pub extern "C" fn vmm_backend_run(
    alloc: Global,
    connection: &mut BlockHandle,
    ends: &[EndRow],
    turns: u32,
    actions: &mut [ActionRow],
    pieces: &mut [PieceRow],
    output: &mut [u8],
    counts: &mut Counts,
)
    requires { IsSome connection.old.state }
    ensures { Stays connection.old.state connection.new.state
        (λ old new. RunsBy old ends.now turns actions.new pieces.new output.new counts.new new) }
{
    let mut held = take(alloc, connection);
    *counts = held.run(ends, turns, actions, pieces, output);
    put(connection, held);
}

/// Puts what was negotiated into `state`.
#[unsafe(no_mangle)]
pub extern "C" fn vmm_backend_state(
    alloc: Global,
    connection: &mut BlockHandle,
    state: &mut VhostState,
)
    requires { IsSome connection.old.state }
    ensures { Stays connection.old.state connection.new.state
        (λ old new. (new ≡ old) × (state.new ≡ connection_state old.backend.backend.connection)) }
{
    let held = take(alloc, connection);
    *state = vhost_calls::state(held.connection());
    put(connection, held);
}

/// Puts into `counts` how often the device's I/O table was changed.
#[unsafe(no_mangle)]
pub extern "C" fn vmm_backend_table(
    alloc: Global,
    connection: &mut BlockHandle,
    counts: &mut TableCounts,
)
    requires { IsSome connection.old.state }
    ensures { Stays connection.old.state connection.new.state
        (λ old new. (new ≡ old) × (counts.new ≡ old.table_counts)) }
{
    let held = take(alloc, connection);
    *counts = held.table_counts();
    put(connection, held);
}

/// Closes an open connection, and frees all that it has.
#[unsafe(no_mangle)]
pub extern "C" fn vmm_backend_close(alloc: Global, connection: &mut BlockHandle)
    requires { IsSome connection.old.state }
    ensures { connection.new.state ≡ None }
{
    drop(take(alloc, connection));
}
