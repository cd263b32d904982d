//! Access to bytes of guest memory, by guest address.
ghost use Rattle.std.specs.Prelude.{◌≡◌, ◌⊎◌, ◌-◌, ◌^◌, ◌<◌, ◌≤◌, min, length, IfOk, IfSome, MatchResult, Ok, Err};
ghost use Rattle.std.specs.Prelude.{option_map, ◌==◌, if◌then◌else◌};
ghost use Rattle.std.specs.List.{AllByRecursion};
ghost use Rattle.vm_memory_guest.specs.Access.{access_of, windows};
ghost use Rattle.vm_memory_guest.specs.Host.{shape_of, Holds};
ghost use Rattle.vm_memory_guest.specs.Answer.{filled_buffer, told};
ghost use Rattle.vm_memory_guest.specs.Error.{error_of, of_window};
ghost use Rattle.vm_memory_guest.specs.Memory.{route};
ghost use Rattle.vm_memory_guest.specs.Transfer.{UntilWhole, ended};
ghost use Rattle.vm_memory_guest.specs.Typed.{first_aligned, place_of};
ghost use Rattle.vm_memory_guest.specs.lemmas.TypedFacts.{first-sized};
ghost use Rattle.vm_memory_guest.specs.Walk.{alone, reached, GivesAccess, NeedsPieces, RefusesAccess, WantsMemory};
ghost use Rattle.vm_memory_guest.specs.Window.{span, cells, window_names, Writes};
ghost use Rattle.vm_memory_guest.specs.declared.region.error.GuestMemoryError.TheVariants as errors;

use super::backend::GuestMemoryBackend;
use super::transfer::{ended, receive_windows, send_windows};
use super::{GuestMemory, IommuMemorySliceIterator};
use crate::bytes::Bytes;
use crate::host::HostMemory;
use crate::region::error::{GuestMemoryError, GuestMemoryResult};
use crate::volatile_memory::slice::{self, VolatileSlice};
use std::sync::atomic::Ordering;
use vm_memory_base::{
    AtomicAccess, Bitmap, ByteValued, GuestAddress, Permissions, ReadVolatile, WriteVolatile,
};

impl<T: GuestMemory> Bytes<GuestAddress> for T {
    type E = GuestMemoryError;

    ghost reach = { λ m tables addr n access. told error_of (reached (T.memory m) tables addr.0 n access) };

    ghost place = { λ m tables addr size access.
        place_of size (access_of (T.memory m).regions (route (T.memory m) tables) addr.0 size access) };

    ghost partial = { errors.PartialBuffer };

    ghost no_memory = { errors.Memory };

    ghost may_want = { λ m tables addr n access. NeedsPieces (T.memory m) tables addr.0 n access };

    ghost moved = { λ m tables addr n access. told error_of (reached (T.memory m) tables addr.0 n access) };

    ghost moved_whole = { λ m tables addr n access. told error_of (reached (T.memory m) tables addr.0 n access) };

    ghost filling = { UntilWhole };

    ghost sending = { UntilWhole };

    ghost failure = { of_window };

    #[inline(always)]
    fn write<B: Bitmap>(
        &self,
        host: &mut HostMemory<B>,
        buf: &[u8],
        addr: GuestAddress,
    ) -> GuestMemoryResult<usize> {
        if let Some(window) = window_of(self, host, addr, buf.len(), Permissions::Write) {
            host.write(&window, buf);
            return Ok(buf.len());
        }
        let walk = windows_of(self, host, addr, buf.len(), Permissions::Write)?;
        write_windows(walk, host, buf)
    }

    #[inline(always)]
    fn read<B: Bitmap>(
        &self,
        host: &HostMemory<B>,
        buf: &mut [u8],
        addr: GuestAddress,
    ) -> GuestMemoryResult<usize> {
        if let Some(window) = window_of(self, host, addr, buf.len(), Permissions::Read) {
            buf.copy_from_slice(host.bytes(&window));
            return Ok(buf.len());
        }
        let walk = windows_of(self, host, addr, buf.len(), Permissions::Read)?;
        read_windows(walk, host, buf)
    }

    #[inline(always)]
    fn write_slice<B: Bitmap>(
        &self,
        host: &mut HostMemory<B>,
        buf: &[u8],
        addr: GuestAddress,
    ) -> GuestMemoryResult<()> {
        let completed = Bytes::write(self, host, buf, addr)?;
        whole(buf.len(), completed)
    }

    #[inline(always)]
    fn read_slice<B: Bitmap>(
        &self,
        host: &HostMemory<B>,
        buf: &mut [u8],
        addr: GuestAddress,
    ) -> GuestMemoryResult<()> {
        let expected = buf.len();
        let completed = Bytes::read(self, host, buf, addr)?;
        whole(expected, completed)
    }

    #[inline(always)]
    fn write_obj<V: ByteValued, B: Bitmap>(
        &self,
        host: &mut HostMemory<B>,
        val: V,
        addr: GuestAddress,
    ) -> GuestMemoryResult<()> {
        let size = V::size();
        if size <= AT_ONCE {
            if let Some(window) = window_of(self, host, addr, size, Permissions::Write) {
                host.write_value(&window, &val, 0);
                return Ok(());
            }
        }
        let windows = windows_of(self, host, addr, size, Permissions::Write)?;
        let completed = write_value(windows, host, &val)?;
        whole(size, completed)
    }

    #[inline(always)]
    fn read_obj<V: ByteValued, B: Bitmap>(
        &self,
        host: &HostMemory<B>,
        addr: GuestAddress,
    ) -> GuestMemoryResult<V> {
        let size = V::size();
        if size <= AT_ONCE {
            if let Some(window) = window_of(self, host, addr, size, Permissions::Read) {
                return Ok(host.value(&window));
            }
        }
        let walk = windows_of(self, host, addr, size, Permissions::Read)?;
        let mut value = V::zeroed();
        let completed = read_value(walk, host, &mut value)?;
        whole(size, completed)?;
        value.recall_law();
        Ok(value)
    }

    #[inline(always)]
    fn store<V: AtomicAccess, B: Bitmap>(
        &self,
        host: &mut HostMemory<B>,
        val: V,
        addr: GuestAddress,
        _order: Ordering,
    ) -> GuestMemoryResult<()> {
        let size = V::size();
        if let Some(window) = window_of(self, host, addr, size, Permissions::Write) {
            if window.is_aligned(size) {
                host.write_value(&window, &val, 0);
                return Ok(());
            }
        }
        let walk = windows_of(self, host, addr, size, Permissions::Write)?;
        let window = first_window(walk, size)?;
        host.write_value(&window, &val, 0);
        Ok(())
    }

    #[inline(always)]
    fn load<V: AtomicAccess, B: Bitmap>(
        &self,
        host: &HostMemory<B>,
        addr: GuestAddress,
        _order: Ordering,
    ) -> GuestMemoryResult<V> {
        let size = V::size();
        if let Some(window) = window_of(self, host, addr, size, Permissions::Read) {
            if window.is_aligned(size) {
                return Ok(host.value(&window));
            }
        }
        let walk = windows_of(self, host, addr, size, Permissions::Read)?;
        let window = first_window(walk, size)?;
        Ok(host.value(&window))
    }

    fn read_volatile_from<F: ReadVolatile, B: Bitmap>(
        &self,
        host: &mut HostMemory<B>,
        addr: GuestAddress,
        src: &mut F,
        count: usize,
    ) -> GuestMemoryResult<usize> {
        let walk = windows_of(self, host, addr, count, Permissions::Write)?;
        receive_windows(walk, host, src, false)
    }

    fn read_exact_volatile_from<F: ReadVolatile, B: Bitmap>(
        &self,
        host: &mut HostMemory<B>,
        addr: GuestAddress,
        src: &mut F,
        count: usize,
    ) -> GuestMemoryResult<()> {
        let windows = windows_of(self, host, addr, count, Permissions::Write)?;
        let completed = receive_windows(windows, host, src, true)?;
        whole(count, completed)
    }

    fn write_volatile_to<F: WriteVolatile, B: Bitmap>(
        &self,
        host: &HostMemory<B>,
        addr: GuestAddress,
        dst: &mut F,
        count: usize,
    ) -> GuestMemoryResult<usize> {
        let walk = windows_of(self, host, addr, count, Permissions::Read)?;
        send_windows(walk, host, dst)
    }

    fn write_all_volatile_to<F: WriteVolatile, B: Bitmap>(
        &self,
        host: &HostMemory<B>,
        addr: GuestAddress,
        dst: &mut F,
        count: usize,
    ) -> GuestMemoryResult<()> {
        let walk = windows_of(self, host, addr, count, Permissions::Read)?;
        let completed = send_windows(walk, host, dst)?;
        whole(count, completed)
    }

    ghost place_has_all = { λ m tables addr size access.
        let reached = access_of (T.memory m).regions (route (T.memory m) tables) addr.0 size access in
        first-sized size (windows reached.path) (option_map error_of reached.fault) };
}

// The bytes of a longer value would be moved one by one if they were moved at once.
const AT_ONCE: usize = 16;

// The number of no region, which is asked first by a call that has no hint.
const NO_REGION: usize = usize::MAX;

// The window that an access lies in, if it is found at once.
#[inline(always)]
fn window_of<M: GuestMemory, B: Bitmap>(
    memory: &M,
    host: &HostMemory<B>,
    addr: GuestAddress,
    count: usize,
    access: Permissions,
) -> Option<VolatileSlice>
    requires { Holds (shape_of host.now) (M.names memory.now) }
    ensures gives { let m = M.memory memory.now in
        IfSome result (λ w. GivesAccess m host.now.tables addr.0 count access (alone w)) }
    ensures size { IfSome result (λ w. w.size ≡ count) }
    ensures held { IfSome result (λ w. Holds (shape_of host.now) (window_names w)) }
{
    memory.find_window(host, addr, count, access, NO_REGION).0
}

// The walk of an access: at most as many bytes as are asked for, in windows that the host holds.
#[inline(always)]
fn windows_of<'m, M: GuestMemory, B: Bitmap>(
    memory: &'m M,
    host: &HostMemory<B>,
    addr: GuestAddress,
    count: usize,
    access: Permissions,
) -> GuestMemoryResult<IommuMemorySliceIterator<'m, M::PhysicalMemory>>
    requires { Holds (shape_of host.now) (M.names memory.now) }
    ensures answer { let m = M.memory memory.now in MatchResult result
        (GivesAccess m host.now.tables addr.0 count access)
        (λ e. WantsMemory m host.now.tables addr.0 count access e
        ⊎ RefusesAccess m host.now.tables addr.0 count access e) }
    ensures held { IfOk result
        (λ walk. AllByRecursion (λ w. Holds (shape_of host.now) (window_names w)) walk.windows) }
    ensures fits { IfOk result (λ walk. span walk.windows ≤ count) }
{
    memory.get_slices(host, addr, count, access)
}

// Moves the buffer into the windows that a walk gives, one after the other, up to an error.
#[inline(always)]
fn write_windows<M: GuestMemoryBackend, B: Bitmap>(
    walk: IommuMemorySliceIterator<'_, M>,
    host: &mut HostMemory<B>,
    buf: &[u8],
) -> GuestMemoryResult<usize>
    requires held { AllByRecursion (λ w. Holds (shape_of host.old) (window_names w)) walk.windows }
    requires fits { span walk.windows ≤ length buf.now }
    ensures answer { let walk = walk.entry in
        result ≡ ended (span walk.windows) (option_map error_of walk.fault) }
    ensures bytes { Writes B.marks walk.entry.windows buf.now host.old host.new }
{
    let mut total = 0;
    for item in walk {
        match item {
            Ok(window) => {
                let end = total + window.len();
                host.write(&window, &buf[total..end]);
                total = end;
            }
            Err(error) => return ended(total, error),
        }
    }
    Ok(total)
}

// Fills the buffer from the windows that a walk gives, one after the other, up to an error.
#[inline(always)]
fn read_windows<M: GuestMemoryBackend, B: Bitmap>(
    walk: IommuMemorySliceIterator<'_, M>,
    host: &HostMemory<B>,
    buf: &mut [u8],
) -> GuestMemoryResult<usize>
    requires held { AllByRecursion (λ w. Holds (shape_of host.now) (window_names w)) walk.windows }
    requires fits { span walk.windows ≤ length buf.old }
    ensures answer { let walk = walk.entry in
        result ≡ ended (span walk.windows) (option_map error_of walk.fault) }
    ensures bytes { buf.new ≡ filled_buffer host.now.blocks (cells walk.entry.windows) buf.old }
{
    let mut total = 0;
    for item in walk {
        match item {
            Ok(window) => {
                let end = total + window.len();
                buf[total..end].copy_from_slice(host.bytes(&window));
                total = end;
            }
            Err(error) => return ended(total, error),
        }
    }
    Ok(total)
}

// Moves the bytes of a value into the windows that a walk gives, as `write_windows` does.
#[inline(always)]
fn write_value<M: GuestMemoryBackend, V: ByteValued, B: Bitmap>(
    walk: IommuMemorySliceIterator<'_, M>,
    host: &mut HostMemory<B>,
    value: &V,
) -> GuestMemoryResult<usize>
    requires held { AllByRecursion (λ w. Holds (shape_of host.old) (window_names w)) walk.windows }
    requires fits { span walk.windows ≤ min V.width (2 ^ 64 - 1) }
    ensures answer { let walk = walk.entry in
        result ≡ ended (span walk.windows) (option_map error_of walk.fault) }
    ensures bytes { Writes B.marks walk.entry.windows (V.bytes value.now) host.old host.new }
{
    value.recall_law();
    let mut total = 0;
    for item in walk {
        match item {
            Ok(window) => {
                host.write_value(&window, value, total);
                total += window.len();
            }
            Err(error) => return ended(total, error),
        }
    }
    Ok(total)
}

// Fills the bytes of a value from the windows that a walk gives, as `read_windows` does.
#[inline(always)]
fn read_value<M: GuestMemoryBackend, V: ByteValued, B: Bitmap>(
    walk: IommuMemorySliceIterator<'_, M>,
    host: &HostMemory<B>,
    value: &mut V,
) -> GuestMemoryResult<usize>
    requires held { AllByRecursion (λ w. Holds (shape_of host.now) (window_names w)) walk.windows }
    requires fits { span walk.windows ≤ min V.width (2 ^ 64 - 1) }
    ensures answer { let walk = walk.entry in
        result ≡ ended (span walk.windows) (option_map error_of walk.fault) }
    ensures bytes { let cells = cells walk.entry.windows in
        V.bytes value.new ≡ filled_buffer host.now.blocks cells (V.bytes value.old) }
{
    let mut total = 0;
    for item in walk {
        match item {
            Ok(window) => {
                value.set_bytes(total, host.bytes(&window));
                total += window.len();
            }
            Err(error) => return ended(total, error),
        }
    }
    Ok(total)
}

// The window of a load or a store of `size` bytes: the first that a walk gives.
#[inline(always)]
fn first_window<M: GuestMemoryBackend>(
    mut walk: IommuMemorySliceIterator<'_, M>,
    size: usize,
) -> GuestMemoryResult<VolatileSlice>
    requires { 0 < size }
    ensures { result ≡ first_aligned size walk.entry.windows (option_map error_of walk.entry.fault) }
{
    let Some(first) = walk.next() else {
        return Err(GuestMemoryError::InvalidBackendAddress);
    };
    let window = first?;
    if window.len() != size || !window.is_aligned(size) {
        return Err(GuestMemoryError::InvalidBackendAddress);
    }
    Ok(window)
}

// Whether all that was expected was completed, as guest memory tells it.
#[inline(always)]
fn whole(expected: usize, completed: usize) -> GuestMemoryResult<()>
    ensures { let short = GuestMemoryError.PartialBuffer expected completed in
        result ≡ (if completed == expected then Ok tt else Err short) }
{
    Ok(slice::whole(expected, completed)?)
}
