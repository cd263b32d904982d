//! Data of requests that guest memory lends where they lie.
ghost use Rattle.std.specs.Prelude.{◌≡◌, ◌+◌, length, drop, MatchOption};
ghost use Rattle.vm_memory_device.specs.Chain.{entries_from, readable, text};
ghost use Rattle.vm_memory_guest.specs.Host.{shape_of, Holds, bytes_at};
ghost use Rattle.vm_memory_guest.specs.Window.{cells_of, window_names};
ghost use Rattle.virtio_blk.specs.Inside.{IsLent};

use vm_memory_base::{Address, Bitmap, GuestAddress, Permissions};
use vm_memory_device::Chain;
use vm_memory_guest::{GuestMemory, HostMemory, VolatileSlice};

// Where the `len` bytes after a header begin, if they are one segment, as drivers make it.
#[inline]
pub(crate) fn data_segment(chain: &Chain, len: usize) -> Option<GuestAddress>
    requires { len ≡ length (drop 16 (text (readable chain.now))) }
    ensures { MatchOption result (Unit {0}) (λ a. drop 16 (text (readable chain.now)) ≡ entries_from a.0 len) }
{
    let segments = chain.segments();
    let header = segments.get(0)?;
    let body = segments.get(1)?;
    if header.writable || header.len != 16 || body.writable || body.len as usize != len {
        return None;
    }
    Some(body.addr)
}

// Where data is from a byte on, if it is known where it begins.
#[inline]
pub(crate) fn data_from(start: Option<GuestAddress>, moved: usize) -> Option<GuestAddress>
    ensures { MatchOption result (Unit {0}) (λ a. MatchOption start ⊥ (λ b. a.0 ≡ b.0 + moved)) }
{
    start?.checked_add(moved as u64)
}

// The window of an access from an address on, if that is known, and if the access is allowed and finds all of its bytes
// in one window.
#[inline(always)]
fn whole_window<M: GuestMemory, B: Bitmap>(
    mem: &M,
    host: &HostMemory<B>,
    start: Option<GuestAddress>,
    len: usize,
) -> Option<VolatileSlice>
    requires { Holds (shape_of host.now) (M.names mem.now) }
    ensures held { MatchOption result (Unit {0}) (λ w. Holds (shape_of host.now) (window_names w)) }
    ensures lent { MatchOption result (Unit {0}) (λ w. MatchOption start ⊥
        (λ a. IsLent (M.memory mem.now) host.now a.0 len (bytes_at host.now.blocks (cells_of w)))) }
    ensures len { MatchOption result (Unit {0}) (λ w. length (bytes_at host.now.blocks (cells_of w)) ≡ len) }
{
    let addr = start?;
    let Ok(mut walk) = mem.get_slices(host, addr, len, Permissions::Read) else {
        return None;
    };
    let Some(Ok(window)) = walk.next() else {
        return None;
    };
    if window.len() == len {
        Some(window)
    } else {
        None
    }
}

// Lends the bytes of guest memory from an address on, if that is known, and if an access of them is allowed and finds
// them in one window.
#[inline(always)]
pub(crate) fn lent<'h, M: GuestMemory, B: Bitmap>(
    mem: &M,
    host: &'h HostMemory<B>,
    start: Option<GuestAddress>,
    len: usize,
) -> Option<&'h [u8]>
    requires { Holds (shape_of host.now) (M.names mem.now) }
    ensures lent { MatchOption result (Unit {0})
        (λ bytes. MatchOption start ⊥ (λ a. IsLent (M.memory mem.now) host.now a.0 len bytes.now)) }
    ensures len { MatchOption result (Unit {0}) (λ bytes. length bytes.now ≡ len) }
{
    let window = whole_window(mem, host, start, len)?;
    Some(host.bytes(&window))
}
