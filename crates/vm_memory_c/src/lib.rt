//! Sessions and back ends' connections for C: opens one, calls it, and closes it.
#![tactic(auto)]

ghost use Rattle.std.specs.Prelude.{◌≡◌, None, IsSome, option_map};
ghost use Rattle.vm_memory_c.specs.Calls.{CallsAt, GivesBackAt, LendsAt, MissesAt, Opens};
ghost use Rattle.vm_session.specs.Retries.{without_memories};

mod backend;
mod block;
mod block_handle;
mod handle;
mod raw_box;
mod vhost;

use handle::Handle;
use raw_box::RawBox;
use std::alloc::Global;
use std::mem;
use vm_memory_guest::HostPlace;
use vm_session::{Answer, Call, Miss, Session};

/// Opens a session, and puts its handle into `session`, which has to be closed or new. Returns 0, or 3 if the
/// allocation fails, and then the handle stays.
///
/// Leaves open: 3, for a failed allocation, each time. Then the handle stays.
#[unsafe(no_mangle)]
pub extern "C" fn vmm_open(alloc: Global, session: &mut Handle) -> u32
    ensures { Opens session.old.state result session.new.state }
{
    match Box::new(alloc, Session::new(alloc)) {
        Ok(open) => {
            *session = Handle::of(RawBox::of(open));
            0
        }
        Err(_) => 3,
    }
}

/// Makes a call of an open session. If a table refused it, `miss` is what it missed first, and otherwise `miss` stays.
#[unsafe(no_mangle)]
pub extern "C" fn vmm_call(
    alloc: Global,
    session: &mut Handle,
    call: &Call,
    input: &[u8],
    output: &mut [u8],
    answer: &mut Answer,
    miss: &mut Miss,
)
    requires { IsSome session.old.state }
    ensures calls { CallsAt session.old.state call.now input.now output.old answer.new output.new session.new.state }
    ensures misses { MissesAt session.new.state call.now answer.new miss.old miss.new }
{
    let handle = mem::replace(session, Handle::closed(alloc));
    let mut open = handle.into_raw_box().into_box();
    open.call_telling(call, input, output, answer, miss);
    *session = Handle::of(RawBox::of(open));
}

/// Makes a block of the bytes that lie at a place, as they are, tracked in pages of `page` bytes that are all clean.
/// They are the block's alone until it is given back or the session is closed, or if it is refused the caller's again.
#[unsafe(no_mangle)]
pub extern "C" fn vmm_lend(
    alloc: Global,
    session: &mut Handle,
    place: HostPlace,
    page: usize,
    answer: &mut Answer,
)
    requires { IsSome session.old.state }
    ensures { LendsAt session.old.state place.bytes page answer.new session.new.state }
{
    let handle = mem::replace(session, Handle::closed(alloc));
    let mut open = handle.into_raw_box().into_box();
    *answer = open.block_at(place, page);
    *session = Handle::of(RawBox::of(open));
}

/// Gives a block of an open session back: it has no bytes any more, and its number stays. Those of a place are the
/// caller's again. Returns the code of the answer: if it is not 0, nothing changed.
#[unsafe(no_mangle)]
pub extern "C" fn vmm_give_back(alloc: Global, session: &mut Handle, block: usize) -> u32
    requires { IsSome session.old.state }
    ensures { GivesBackAt session.old.state block result session.new.state }
{
    let handle = mem::replace(session, Handle::closed(alloc));
    let mut open = handle.into_raw_box().into_box();
    let answer = open.give_back(block);
    *session = Handle::of(RawBox::of(open));
    answer.code
}

/// Has an open session forget all regions, layouts and memories.
#[unsafe(no_mangle)]
pub extern "C" fn vmm_forget_regions(alloc: Global, session: &mut Handle)
    requires { IsSome session.old.state }
    ensures { session.new.state ≡ option_map without_memories session.old.state }
{
    let handle = mem::replace(session, Handle::closed(alloc));
    let mut open = handle.into_raw_box().into_box();
    open.forget_regions();
    *session = Handle::of(RawBox::of(open));
}

/// Closes an open session, and frees all that it has.
#[unsafe(no_mangle)]
pub extern "C" fn vmm_close(alloc: Global, session: &mut Handle)
    requires { IsSome session.old.state }
    ensures { session.new.state ≡ None }
{
    let handle = mem::replace(session, Handle::closed(alloc));
    drop(handle.into_raw_box().into_box());
}
