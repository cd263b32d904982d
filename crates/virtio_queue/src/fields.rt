//! The fields of a queue in guest memory: each is read or written by one access.
ghost use Rattle.std.specs.Prelude.{◌≡◌, ◌⊎◌, ◌+◌, ◌*◌, ◌<◌, ◌^◌, ◌++◌, ◌∷◌, [], true, option_map, All, Ok, IfOk};
ghost use Rattle.std.specs.Prelude.{IsTrue, MatchResult, OnOk};
ghost use Rattle.std.specs.Int.{w16, w32, from_le_bytes, to_le_bytes};
ghost use Rattle.vm_memory_base.specs.declared.iotlb.Permissions.TheVariants.{Read, Write};
ghost use Rattle.vm_memory_guest.specs.Error.{error_of};
ghost use Rattle.vm_memory_guest.specs.Host.{bytes_at, shape_of, Holds};
ghost use Rattle.vm_memory_guest.specs.Typed.{first_aligned};
ghost use Rattle.vm_memory_guest.specs.Walk.{NeedsPieces};
ghost use Rattle.vm_memory_guest.specs.Window.{Writes, cells_of, window_names};
ghost use Rattle.virtio_queue.specs.Driver.{Puts};
ghost use Rattle.virtio_queue.specs.Fields.{Answers, MayWant, StoresWord, WritesBytes, descriptor_at, is_word};
ghost use Rattle.virtio_queue.specs.Fields.{lies_whole, pair_at, place, room_at, room_fault, stored_at, told};
ghost use Rattle.virtio_queue.specs.Fields.{window_at, word_at};

use crate::descriptor::Descriptor;
use crate::error::QueueError;
use std::sync::atomic::Ordering;
use vm_memory_base::{Bitmap, ByteValued, GuestAddress, Permissions};
use vm_memory_guest::laws::accesses::{accesses_are_by_bytes, windows_of_accesses_are_their_paths};
use vm_memory_guest::laws::effects::{writes_keep_shapes, written_is_read_back};
use vm_memory_guest::laws::host::names_are_held_one_by_one;
use vm_memory_guest::laws::paths::windows_are_the_path;
use vm_memory_guest::laws::typed::loads_and_stores_are_by_bytes;
use vm_memory_guest::{
    Bytes, GuestMemory, GuestMemoryBackend, GuestMemoryError, HostMemory, IommuMemorySliceIterator,
    VolatileSlice,
};

// The address of a field of `size` bytes at `base + offset`.
#[inline]
pub(crate) fn place(base: u64, offset: u64, size: u64) -> Result<u64, QueueError>
    requires some { 0 < size }
    requires near { offset + size < 2 ^ 32 }
    ensures { result ≡ place base offset size }
{
    match base.checked_add(offset + (size - 1)) {
        Some(last) => Ok(last - (size - 1)),
        None => Err(QueueError::AddressOverflow),
    }
}

// Loads the number of 16 bits at `base + offset`.
#[inline(always)]
pub(crate) fn load_word<M: GuestMemory, B: Bitmap>(
    mem: &M,
    host: &HostMemory<B>,
    base: u64,
    offset: u64,
) -> Result<u16, QueueError>
    requires held { Holds (shape_of host.now) (M.names mem.now) }
    requires near { offset + 2 < 2 ^ 32 }
    ensures { let m = M.memory mem.now in
        Answers (MayWant m host.now base offset 2 Read) (word_at m host.now base offset) result }
{
    loads_and_stores_are_by_bytes::<()>();
    let addr = GuestAddress(place(base, offset, 2)?);
    match Bytes::load::<u16, B>(mem, host, addr, Ordering::SeqCst) {
        Ok(word) => Ok(word),
        Err(error) => Err(QueueError::of_access(error)),
    }
}

// Reads the descriptor of this index in a table.
#[inline(always)]
pub(crate) fn descriptor_at<M: GuestMemory, B: Bitmap>(
    mem: &M,
    host: &HostMemory<B>,
    table: u64,
    index: u16,
) -> Result<Descriptor, QueueError>
    requires { Holds (shape_of host.now) (M.names mem.now) }
    ensures { let m = M.memory mem.now in
        Answers (MayWant m host.now table (16 * index) 16 Read) (descriptor_at m host.now table index) result }
{
    accesses_are_by_bytes::<()>();
    windows_of_accesses_are_their_paths();
    let addr = GuestAddress(place(table, 16 * u64::from(index), 16)?);
    match Bytes::read_obj::<Descriptor, B>(mem, host, addr) {
        Ok(descriptor) => Ok(descriptor),
        Err(error) => Err(QueueError::of_access(error)),
    }
}

// Stores a number of 16 bits at `base + offset`. Then it lies there.
#[inline]
pub(crate) fn store_word<M: GuestMemory, B: Bitmap>(
    mem: &M,
    host: &mut HostMemory<B>,
    base: u64,
    offset: u64,
    value: u16,
) -> Result<(), QueueError>
    requires held { Holds (shape_of host.old) (M.names mem.now) }
    requires near { offset + 2 < 2 ^ 32 }
    ensures stored { StoresWord B.marks (M.memory mem.now) base offset value host.old result host.new }
    ensures lies { OnOk result (stored_at (M.memory mem.now) host.new base offset ≡ Ok value) }
    ensures shape { shape_of host.new ≡ shape_of host.old }
{
    windows_are_the_path();
    names_are_held_one_by_one();
    writes_keep_shapes::<B>();
    written_is_read_back();
    let addr = GuestAddress(place(base, offset, 2)?);
    match Bytes::store(mem, host, value, addr, Ordering::SeqCst) {
        Ok(()) => Ok(()),
        Err(error) => Err(QueueError::of_access(error)),
    }
}

// Whether a window is that of a load or a store of a number of 16 bits.
#[inline(always)]
fn is_word<B: Bitmap>(window: &VolatileSlice, host: &HostMemory<B>) -> bool
    requires { Holds (shape_of host.now) (window_names window.now) }
    ensures { result ≡ is_word window.now }
{
    window.len() == 2 && Bytes::<usize>::load::<u16, B>(window, host, 0, Ordering::SeqCst).is_ok()
}

// The window of a load or a store of a number of 16 bits: the first that a walk gives.
#[inline(always)]
fn first_word<P: GuestMemoryBackend, B: Bitmap>(
    mut walk: IommuMemorySliceIterator<'_, P>,
    host: &HostMemory<B>,
) -> Result<VolatileSlice, QueueError>
    requires { All (λ w. Holds (shape_of host.now) (window_names w)) walk.windows }
    ensures { result ≡ told (first_aligned 2 walk.entry.windows (option_map error_of walk.entry.fault)) }
{
    match walk.next() {
        Some(Ok(window)) if is_word(&window, host) => Ok(window),
        Some(Err(error)) => Err(QueueError::of_access(error)),
        _ => Err(QueueError::of_access(GuestMemoryError::InvalidBackendAddress)),
    }
}

// The window of a number of 16 bits at `base + offset`. It is accessed with no further look-up, so that cannot be
// refused.
#[inline(always)]
pub(crate) fn window_at<M: GuestMemory, B: Bitmap>(
    mem: &M,
    host: &HostMemory<B>,
    base: u64,
    offset: u64,
    access: Permissions,
) -> Result<VolatileSlice, QueueError>
    requires held { Holds (shape_of host.now) (M.names mem.now) }
    requires near { offset + 2 < 2 ^ 32 }
    ensures window { let m = M.memory mem.now in
        Answers (MayWant m host.now base offset 2 access) (window_at m host.now base offset access) result }
    ensures held { IfOk result (λ w. Holds (shape_of host.now) (window_names w)) }
    ensures word { IfOk result (λ w. is_word w ≡ true) }
{
    windows_are_the_path();
    names_are_held_one_by_one();
    let addr = GuestAddress(place(base, offset, 2)?);
    if let (Some(window), _) = mem.find_window(host, addr, 2, access, 0) {
        if is_word(&window, host) {
            return Ok(window);
        }
    }
    match mem.get_slices(host, addr, 2, access) {
        Ok(walk) => first_word(walk, host),
        Err(error) => Err(QueueError::of_access(error)),
    }
}

// The number of 16 bits in its window.
#[inline(always)]
pub(crate) fn load_in<B: Bitmap>(window: &VolatileSlice, host: &HostMemory<B>) -> u16
    requires held { Holds (shape_of host.now) (window_names window.now) }
    requires word { is_word window.now ≡ true }
    ensures { result ≡ from_le_bytes w16 (bytes_at host.now.blocks (cells_of window.now)) }
{
    match Bytes::<usize>::load::<u16, B>(window, host, 0, Ordering::SeqCst) {
        Ok(word) => word,
        Err(_) => unreachable!(),
    }
}

// Stores a number of 16 bits in its window.
#[inline(always)]
pub(crate) fn store_in<B: Bitmap>(window: &VolatileSlice, host: &mut HostMemory<B>, value: u16)
    requires held { Holds (shape_of host.old) (window_names window.now) }
    requires word { is_word window.now ≡ true }
    ensures written { Writes B.marks (window.now ∷ []) (to_le_bytes w16 value) host.old host.new }
    ensures shape { shape_of host.new ≡ shape_of host.old }
{
    let _view = window.bitmap();
    match Bytes::<usize>::store::<u16, B>(window, host, value, 0, Ordering::SeqCst) {
        Ok(()) => (),
        Err(_) => unreachable!(),
    }
}

// Writes two numbers of 32 bits to an address at which they lie whole.
#[inline]
pub(crate) fn write_pair<M: GuestMemory, B: Bitmap>(
    mem: &M,
    host: &mut HostMemory<B>,
    addr: u64,
    first: u32,
    second: u32,
) -> Result<(), QueueError>
    requires held { Holds (shape_of host.old) (M.names mem.now) }
    requires whole { IsTrue (lies_whole (M.memory mem.now) host.old addr 8 Write) }
    ensures written { let m = M.memory mem.now in MatchResult result
        (λ _. WritesBytes B.marks m addr (to_le_bytes w32 first ++ to_le_bytes w32 second) host.old host.new)
        (λ e. (e ≡ QueueError.Memory) × NeedsPieces m host.old.tables addr 8 Write × (host.new ≡ host.old)) }
    ensures shape { shape_of host.new ≡ shape_of host.old }
{
    accesses_are_by_bytes::<()>();
    match Bytes::write_obj(mem, host, (first, second), GuestAddress(addr)) {
        Ok(()) => Ok(()),
        Err(error) => Err(QueueError::of_access(error)),
    }
}

// Writes a number of 32 bits and one of 16 bits to an address at which they lie whole.
#[inline]
pub(crate) fn write_rest<M: GuestMemory, B: Bitmap>(
    mem: &M,
    host: &mut HostMemory<B>,
    addr: u64,
    len: u32,
    id: u16,
) -> Result<(), QueueError>
    requires held { Holds (shape_of host.old) (M.names mem.now) }
    requires whole { IsTrue (lies_whole (M.memory mem.now) host.old addr 6 Write) }
    ensures written { let m = M.memory mem.now in MatchResult result
        (λ _. WritesBytes B.marks m addr (to_le_bytes w32 len ++ to_le_bytes w16 id) host.old host.new)
        (λ e. (e ≡ QueueError.Memory) × NeedsPieces m host.old.tables addr 6 Write × (host.new ≡ host.old)) }
    ensures shape { shape_of host.new ≡ shape_of host.old }
{
    accesses_are_by_bytes::<()>();
    match Bytes::write_obj(mem, host, (len, id), GuestAddress(addr)) {
        Ok(()) => Ok(()),
        Err(error) => Err(QueueError::of_access(error)),
    }
}

// Writes a value at `base + offset`, as far as memory goes.
pub(crate) fn put_value<T: ByteValued, M: GuestMemory, B: Bitmap>(
    mem: &M,
    host: &mut HostMemory<B>,
    base: u64,
    offset: u64,
    value: T,
) -> Result<(), QueueError>
    requires held { Holds (shape_of host.old) (M.names mem.now) }
    requires some { 0 < T.width }
    requires near { offset + T.width < 2 ^ 32 }
    ensures put { Puts B.marks (M.memory mem.now) base offset (T.bytes value) host.old result host.new }
    ensures shape { shape_of host.new ≡ shape_of host.old }
{
    accesses_are_by_bytes::<()>();
    value.recall_law();
    let addr = GuestAddress(place(base, offset, T::size() as u64)?);
    match Bytes::write_obj(mem, host, value, addr) {
        Ok(()) => Ok(()),
        Err(error) => Err(QueueError::of_access(error)),
    }
}

// Reads two numbers of 32 bits at `base + offset`.
pub(crate) fn read_pair<M: GuestMemory, B: Bitmap>(
    mem: &M,
    host: &HostMemory<B>,
    base: u64,
    offset: u64,
) -> Result<(u32, u32), QueueError>
    requires held { Holds (shape_of host.now) (M.names mem.now) }
    requires near { offset + 8 < 2 ^ 32 }
    ensures { let m = M.memory mem.now in
        Answers (MayWant m host.now base offset 8 Read) (pair_at m host.now base offset) result }
{
    accesses_are_by_bytes::<()>();
    windows_of_accesses_are_their_paths();
    let addr = GuestAddress(place(base, offset, 8)?);
    match Bytes::read_obj::<(u32, u32), B>(mem, host, addr) {
        Ok(pair) => Ok(pair),
        Err(error) => Err(QueueError::of_access(error)),
    }
}

// Whether `count` bytes at an address lie whole in memory and may be accessed so.
pub(crate) fn lies_whole<M: GuestMemory, B: Bitmap>(
    mem: &M,
    host: &HostMemory<B>,
    addr: u64,
    count: u64,
    access: Permissions,
) -> Result<bool, QueueError>
    requires held { Holds (shape_of host.now) (M.names mem.now) }
    requires some { 0 < count }
    ensures { let m = M.memory mem.now in Answers (NeedsPieces m host.now.tables addr count access)
        (Ok (lies_whole m host.now addr count access)) result }
{
    if addr > u64::MAX - (count - 1) {
        return Ok(false);
    }
    match mem.check_range(host, GuestAddress(addr), count as usize, access) {
        Ok(whole) => Ok(whole),
        Err(error) => Err(QueueError::of_access(error)),
    }
}

// The address `base + offset`, if `size` bytes can be written there.
#[inline(always)]
pub(crate) fn room_at<M: GuestMemory, B: Bitmap>(
    mem: &M,
    host: &HostMemory<B>,
    base: u64,
    offset: u64,
    size: u64,
) -> Result<u64, QueueError>
    requires held { Holds (shape_of host.now) (M.names mem.now) }
    requires some { 0 < size }
    requires near { offset + size < 2 ^ 32 }
    ensures room { let m = M.memory mem.now in
        Answers (MayWant m host.now base offset size Write) (room_at m host.now base offset size) result }
    ensures whole { IfOk result (λ a. IsTrue (lies_whole (M.memory mem.now) host.now a size Write)) }
{
    let addr = place(base, offset, size)?;
    if lies_whole(mem, host, addr, size, Permissions::Write)? {
        return Ok(addr);
    }
    Err(room_fault(mem, host, addr, size))
}

// The error for an entry of `size` bytes that does not lie whole in memory.
#[cold]
#[inline(never)]
fn room_fault<M: GuestMemory, B: Bitmap>(
    mem: &M,
    host: &HostMemory<B>,
    addr: u64,
    size: u64,
) -> QueueError
    requires held { Holds (shape_of host.now) (M.names mem.now) }
    requires near { size < 2 ^ 32 }
    ensures { let m = M.memory mem.now in
        (result ≡ room_fault m host.now addr size)
        ⊎ ((result ≡ QueueError.Memory) × NeedsPieces m host.now.tables addr size Write) }
{
    match mem.get_slices(host, GuestAddress(addr), size as usize, Permissions::Write) {
        Ok(walk) => {
            drop(walk);
            QueueError::InvalidUsedEntry
        }
        Err(error) => QueueError::of_access(error),
    }
}
