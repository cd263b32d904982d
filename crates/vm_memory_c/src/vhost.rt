//! A back end's connection with a vhost-user front end, for C: opens one, calls it, and closes it.
ghost use Rattle.std.specs.Prelude.{◌≡◌, Some, None, IsSome, Ok};
ghost use Rattle.vhost_message.specs.Stream.{wanted};
ghost use Rattle.vhost_calls.specs.Calls.{ChangesConfig, Gives, Handles, Sends, Stops, pages_at, refusal_of, region_at};
ghost use Rattle.vhost_calls.specs.Calls.{reply_of, vring_at, wanted_of};
ghost use Rattle.vhost_calls.specs.Channel.{access_at, access_fail_of, answered, config_change, miss_of};
ghost use Rattle.vhost_calls.specs.Values.{connection_state};
ghost use Rattle.vm_memory_c.specs.Vhost.{OpensAt, StaysOpen};

use crate::backend::Backend;
use crate::raw_box::RawBox;
use std::alloc::Global;
use std::mem;
use vhost_calls::{
    BackendReqHandler, VhostOffer, VhostPages, VhostRegion, VhostRequest, VhostState, VhostVring,
    VhostWanted, code,
};

// Takes the connection of an open handle, which is closed until it is put back.
fn take(alloc: Global, connection: &mut Backend) -> Box<BackendReqHandler>
    requires { IsSome connection.old.state }
    ensures held { Some result.value ≡ connection.old.state }
    ensures closed { connection.new.state ≡ None }
{
    let handle = mem::replace(connection, Backend::closed(alloc));
    handle.into_raw_box().into_box()
}

fn put(connection: &mut Backend, held: Box<BackendReqHandler>)
    ensures { connection.new.state ≡ Some held.value }
{
    *connection = Backend::of(RawBox::of(held));
}

/// Opens a connection with nothing negotiated, and puts its handle into `connection`, which has to be closed or new.
/// The configuration has at most 256 bytes. Returns 0; or `VHOST_OFFER` or `MEMORY`, and then the handle stays.
#[unsafe(no_mangle)]
pub extern "C" fn vmm_vhost_open(
    alloc: Global,
    connection: &mut Backend,
    offer: &VhostOffer,
    config: &[u8],
) -> u32
    ensures { OpensAt offer.now config.now connection.old.state result connection.new.state }
{
    let made = match vhost_calls::open(alloc, offer, config) {
        Ok(made) => made,
        Err(code) => return code,
    };
    match Box::new(alloc, made) {
        Ok(held) => {
            put(connection, held);
            code::DONE
        }
        Err(_) => code::MEMORY,
    }
}

/// Says what is still to come of a message that begins with these bytes. It needs no connection.
#[unsafe(no_mangle)]
pub extern "C" fn vmm_vhost_wanted(start: &[u8], rest: &mut VhostWanted) -> u32
    ensures gives { Gives (wanted_of start.now) rest.old result rest.new }
    ensures cuts { result ≡ 0 → wanted start.now ≡ Ok rest.new.bytes }
{
    vhost_calls::wanted(start, rest)
}

/// Takes a message and how many descriptors came with it, and puts into `request` what it asks for. If it is refused,
/// nothing changes.
#[unsafe(no_mangle)]
pub extern "C" fn vmm_vhost_handle(
    alloc: Global,
    connection: &mut Backend,
    message: &[u8],
    descriptors: usize,
    request: &mut VhostRequest,
) -> u32
    requires { IsSome connection.old.state }
    ensures { StaysOpen connection.old.state connection.new.state
        (λ old new. Handles old message.now descriptors request.old result request.new new) }
{
    let mut held = take(alloc, connection);
    let code = vhost_calls::handle(&mut held, message, descriptors, request);
    put(connection, held);
    code
}

/// Puts the reply to a message that was taken and done to the front of the output, if it has room, and returns how many
/// bytes the reply has: 0 if none is due, and at most 280.
#[unsafe(no_mangle)]
pub extern "C" fn vmm_vhost_reply(
    alloc: Global,
    connection: &mut Backend,
    message: &[u8],
    output: &mut [u8],
) -> usize
    requires { IsSome connection.old.state }
    ensures { StaysOpen connection.old.state connection.new.state
        (λ old new. (new ≡ old) × Sends (reply_of old message.now) output.old result output.new) }
{
    let held = take(alloc, connection);
    let count = vhost_calls::reply(&held, message, output);
    put(connection, held);
    count
}

/// Puts the reply to a message that was refused or could not be done to the front of the output, as `vmm_vhost_reply`.
#[unsafe(no_mangle)]
pub extern "C" fn vmm_vhost_refuse(
    alloc: Global,
    connection: &mut Backend,
    message: &[u8],
    output: &mut [u8],
) -> usize
    requires { IsSome connection.old.state }
    ensures { StaysOpen connection.old.state connection.new.state
        (λ old new. (new ≡ old) × Sends (refusal_of old message.now) output.old result output.new) }
{
    let held = take(alloc, connection);
    let count = vhost_calls::refuse(&held, message, output);
    put(connection, held);
    count
}

/// Sets the index at which a stopped ring goes on.
#[unsafe(no_mangle)]
pub extern "C" fn vmm_vhost_stop(
    alloc: Global,
    connection: &mut Backend,
    index: u32,
    base: u32,
) -> u32
    requires { IsSome connection.old.state }
    ensures { StaysOpen connection.old.state connection.new.state (λ old new. Stops old index base result new) }
{
    let mut held = take(alloc, connection);
    let code = vhost_calls::stop(&mut held, index, base);
    put(connection, held);
    code
}

/// Replaces bytes of the configuration from an offset on.
#[unsafe(no_mangle)]
pub extern "C" fn vmm_vhost_change_config(
    alloc: Global,
    connection: &mut Backend,
    offset: u32,
    bytes: &[u8],
) -> u32
    requires { IsSome connection.old.state }
    ensures { StaysOpen connection.old.state connection.new.state
        (λ old new. ChangesConfig old offset bytes.now result new) }
{
    let mut held = take(alloc, connection);
    let code = vhost_calls::change_config(&mut held, offset, bytes);
    put(connection, held);
    code
}

/// Puts a ring as it is to be served into `vring`, or says why it is not to be served.
#[unsafe(no_mangle)]
pub extern "C" fn vmm_vhost_running(
    alloc: Global,
    connection: &mut Backend,
    index: u32,
    vring: &mut VhostVring,
) -> u32
    requires { IsSome connection.old.state }
    ensures { StaysOpen connection.old.state connection.new.state
        (λ old new. (new ≡ old) × Gives (vring_at old index) vring.old result vring.new) }
{
    let held = take(alloc, connection);
    let code = vhost_calls::running(&held, index, vring);
    put(connection, held);
    code
}

/// Puts a region of the memory into `region`, or says that no region has this number.
#[unsafe(no_mangle)]
pub extern "C" fn vmm_vhost_region(
    alloc: Global,
    connection: &mut Backend,
    number: usize,
    region: &mut VhostRegion,
) -> u32
    requires { IsSome connection.old.state }
    ensures { StaysOpen connection.old.state connection.new.state
        (λ old new. (new ≡ old) × Gives (region_at old number) region.old result region.new) }
{
    let held = take(alloc, connection);
    let code = vhost_calls::region(&held, number, region);
    put(connection, held);
    code
}

/// Puts the pages that are marked in the log for so many bytes of guest memory from an address on into `pages`, or says
/// that the log has no bit for one of them.
#[unsafe(no_mangle)]
pub extern "C" fn vmm_vhost_logged(
    alloc: Global,
    connection: &mut Backend,
    address: u64,
    len: u64,
    pages: &mut VhostPages,
) -> u32
    requires { IsSome connection.old.state }
    ensures { StaysOpen connection.old.state connection.new.state
        (λ old new. (new ≡ old) × Gives (pages_at old address len) pages.old result pages.new) }
{
    let held = take(alloc, connection);
    let code = vhost_calls::logged(&held, address, len, pages);
    put(connection, held);
    code
}

/// Puts the message of a MISS for an address and an access, 1 to read, 2 to write, 3 for both, to the front of the
/// output, as `vmm_vhost_reply`. It needs no connection.
#[unsafe(no_mangle)]
pub extern "C" fn vmm_vhost_miss(iova: u64, access: u32, output: &mut [u8]) -> usize
    ensures { Sends (miss_of iova (access_at access)) output.old result output.new }
{
    vhost_calls::miss(iova, access, output)
}

/// Puts the message of an ACCESS_FAIL to the front of the output, as `vmm_vhost_miss`.
#[unsafe(no_mangle)]
pub extern "C" fn vmm_vhost_access_fail(iova: u64, access: u32, output: &mut [u8]) -> usize
    ensures { Sends (access_fail_of iova (access_at access)) output.old result output.new }
{
    vhost_calls::access_fail(iova, access, output)
}

/// Puts the message that the configuration changed to the front of the output, as `vmm_vhost_miss`.
#[unsafe(no_mangle)]
pub extern "C" fn vmm_vhost_config_change(output: &mut [u8]) -> usize
    ensures { Sends config_change output.old result output.new }
{
    vhost_calls::config_change(output)
}

/// Puts the number in a reply that came on the back end's own channel into `value`, or says why it is none.
#[unsafe(no_mangle)]
pub extern "C" fn vmm_vhost_answered(message: &[u8], value: &mut u64) -> u32
    ensures { Gives (answered message.now) value.old result value.new }
{
    vhost_calls::answered(message, value)
}

/// Puts what was negotiated into `state`.
#[unsafe(no_mangle)]
pub extern "C" fn vmm_vhost_state(alloc: Global, connection: &mut Backend, state: &mut VhostState)
    requires { IsSome connection.old.state }
    ensures { StaysOpen connection.old.state connection.new.state
        (λ old new. (new ≡ old) × (state.new ≡ connection_state old)) }
{
    let held = take(alloc, connection);
    *state = vhost_calls::state(&held);
    put(connection, held);
}

/// Puts the configuration, which a front end may have written to, to the front of the output, as `vmm_vhost_reply`.
#[unsafe(no_mangle)]
pub extern "C" fn vmm_vhost_config(
    alloc: Global,
    connection: &mut Backend,
    output: &mut [u8],
) -> usize
    requires { IsSome connection.old.state }
    ensures { StaysOpen connection.old.state connection.new.state
        (λ old new. (new ≡ old) × Sends old.config output.old result output.new) }
{
    let held = take(alloc, connection);
    let count = vhost_calls::config(&held, output);
    put(connection, held);
    count
}

/// Closes an open connection, and frees all that it has.
#[unsafe(no_mangle)]
pub extern "C" fn vmm_vhost_close(alloc: Global, connection: &mut Backend)
    requires { IsSome connection.old.state }
    ensures { connection.new.state ≡ None }
{
    drop(take(alloc, connection));
}
