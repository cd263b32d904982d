//! What access to bytes means, whatever is accessed.
ghost use Rattle.std.specs.Prelude.{◌≡◌, ◌≤◌, ◌<◌, ◌^◌, ℕ, List, length, Result, IfOk};
ghost use Rattle.vm_memory_base.specs.Table.{Table};
ghost use Rattle.vm_memory_base.specs.declared.iotlb.Permissions.{Permissions};
ghost use Rattle.vm_memory_base.specs.declared.iotlb.Permissions.TheVariants.{Read, Write};
ghost use Rattle.vm_memory_guest.specs.Host.{shape_of, bytes_at, Holds};
ghost use Rattle.vm_memory_guest.specs.Window.{Window, span, cells, cells_of, Writes};
ghost use Rattle.vm_memory_guest.specs.Answer.{Reach, Outcome, filled_buffer};
ghost use Rattle.vm_memory_guest.specs.Transfer.{Moving, Once, UntilWhole, Fills, Takes, Transfers, all_of, beside};
ghost use Rattle.vm_memory_guest.specs.Transfer.{ended};
ghost use Rattle.vm_memory_guest.specs.Typed.{answered, given};
ghost use Rattle.vm_memory_base.specs.declared.io.VolatileMemoryError.{VolatileMemoryError};

use crate::host::{HostMemory, Named};
use std::sync::atomic::Ordering;
use vm_memory_base::{AtomicAccess, Bitmap, ByteValued, ReadVolatile, WriteVolatile};

/// Access to bytes by addresses of type `A`: an offset of a window or of a region, or an address of guest memory.
///
/// An access reaches windows of the host that it is lent, one after the other, up to the first address where there
/// is no byte: the crate's README.md, "Accesses". A write moves the buffer into them and marks each at once. Every call
/// requires that the host holds what `self` names.
///
/// ```text
/// let count = memory.write(&mut host, &[1, 2, 3], address)?;
/// memory.read_slice(&host, &mut buffer, address)?;
/// ```
///
/// Leaves open: of guest memory, a failed allocation for each access through an IOMMU that is on and allows it by two
/// pieces or more. Then nothing changed. A source or a sink may report one of its own.
pub trait Bytes<A>: Named {
    /// Why an access was refused.
    type E;

    /// What an access of some bytes at an address reaches, in a host with these tables.
    ghost reach: { Self → List Table → A → ℕ → Permissions → Reach Self.E };

    /// The one window that a load or a store of some bytes at an address takes, in a host with these tables, or why
    /// there is none.
    ghost place: { Self → List Table → A → ℕ → Permissions → Result Window Self.E };

    /// The error of an access in part, of the expected and the completed bytes.
    ghost partial: { ℕ → ℕ → Self.E };

    /// The error of a failed allocation. Nothing changed then, unless a source or a sink had moved bytes.
    ghost no_memory: { Self.E };

    /// When an access of some bytes at an address may fail to allocate, in a host with these tables.
    ghost may_want: { Self → List Table → A → ℕ → Permissions → Type 0 };

    /// The windows that a transfer of at most some bytes at an address moves, in a host with these tables, and what
    /// keeps it from moving more.
    ghost moved: { Self → List Table → A → ℕ → Permissions → Reach Self.E };

    /// The same for a transfer that has to move all of these bytes.
    ghost moved_whole: { Self → List Table → A → ℕ → Permissions → Reach Self.E };

    /// How a transfer in that has to fill all bytes fills a window.
    ghost filling: { Moving };

    /// How a transfer out moves a window.
    ghost sending: { Moving };

    /// The error that stands for one of a source or a sink.
    ghost failure: { VolatileMemoryError → Self.E };

    /// Writes the beginning of the buffer that fits, and returns how many bytes that is. If no byte fits, the error
    /// says why. For an empty buffer it returns 0, except that a region without host bytes refuses it. Behind an IOMMU
    /// that is on, an access that it allows by two pieces or more allocates for them. If that fails, the error is
    /// `Memory`, and nothing changes.
    fn write<B: Bitmap>(
        &self,
        host: &mut HostMemory<B>,
        buf: &[u8],
        addr: A,
    ) -> Result<usize, Self::E>
        requires { Holds (shape_of host.old) (Self.names self.now) }
        ensures answer { let r = reach self.now host.old.tables addr (length buf.now) Write in
            Outcome no_memory (may_want self.now host.old.tables addr (length buf.now) Write)
            (ended (span r.windows) r.fault) (host.new ≡ host.old)
            (Writes B.marks r.windows buf.now host.old host.new) result }
        ensures at_most { IfOk result (λ count. count ≤ length buf.now) }
        ensures shape { shape_of host.new ≡ shape_of host.old };

    /// Reads into the beginning of the buffer, and returns how many bytes that is. Its errors are those of `write`.
    fn read<B: Bitmap>(
        &self,
        host: &HostMemory<B>,
        buf: &mut [u8],
        addr: A,
    ) -> Result<usize, Self::E>
        requires { Holds (shape_of host.now) (Self.names self.now) }
        ensures answer { let r = reach self.now host.now.tables addr (length buf.old) Read in
            Outcome no_memory (may_want self.now host.now.tables addr (length buf.old) Read)
            (ended (span r.windows) r.fault) (buf.new ≡ buf.old)
            (buf.new ≡ filled_buffer host.now.blocks (cells r.windows) buf.old) result }
        ensures at_most { IfOk result (λ count. count ≤ length buf.old) };

    /// Writes the whole buffer. If only its beginning fits, it writes that, and the error says how long it is.
    /// If no byte fits, the error says why, as in `write`.
    fn write_slice<B: Bitmap>(
        &self,
        host: &mut HostMemory<B>,
        buf: &[u8],
        addr: A,
    ) -> Result<(), Self::E>
        requires { Holds (shape_of host.old) (Self.names self.now) }
        ensures answer { let r = reach self.now host.old.tables addr (length buf.now) Write in
            Outcome no_memory (may_want self.now host.old.tables addr (length buf.now) Write)
            (all_of partial (length buf.now) (ended (span r.windows) r.fault)) (host.new ≡ host.old)
            (Writes B.marks r.windows buf.now host.old host.new) result }
        ensures shape { shape_of host.new ≡ shape_of host.old };

    /// Fills the whole buffer. If only its beginning can be filled, it fills that, and the error says how long it
    /// is. If no byte can be read, the error says why, as in `read`.
    fn read_slice<B: Bitmap>(
        &self,
        host: &HostMemory<B>,
        buf: &mut [u8],
        addr: A,
    ) -> Result<(), Self::E>
        requires { Holds (shape_of host.now) (Self.names self.now) }
        ensures answer { let r = reach self.now host.now.tables addr (length buf.old) Read in
            Outcome no_memory (may_want self.now host.now.tables addr (length buf.old) Read)
            (all_of partial (length buf.old) (ended (span r.windows) r.fault)) (buf.new ≡ buf.old)
            (buf.new ≡ filled_buffer host.now.blocks (cells r.windows) buf.old) result };

    /// Writes a value, as `write_slice` writes its bytes.
    ///
    /// Leaves open: all but the shape of the host, for values of 2^64 bytes or more.
    fn write_obj<T: ByteValued, B: Bitmap>(
        &self,
        host: &mut HostMemory<B>,
        val: T,
        addr: A,
    ) -> Result<(), Self::E>
        requires { Holds (shape_of host.old) (Self.names self.now) }
        ensures answer { T.width < 2 ^ 64 → let r = reach self.now host.old.tables addr T.width Write in
            Outcome no_memory (may_want self.now host.old.tables addr T.width Write)
            (all_of partial T.width (ended (span r.windows) r.fault)) (host.new ≡ host.old)
            (Writes B.marks r.windows (T.bytes val) host.old host.new) result }
        ensures shape { shape_of host.new ≡ shape_of host.old };

    /// Reads a value, as `read_slice` reads its bytes.
    ///
    /// Leaves open: the result, for values of 2^64 bytes or more.
    fn read_obj<T: ByteValued, B: Bitmap>(
        &self,
        host: &HostMemory<B>,
        addr: A,
    ) -> Result<T, Self::E>
        requires { Holds (shape_of host.now) (Self.names self.now) }
        ensures { T.width < 2 ^ 64 → let r = reach self.now host.now.tables addr T.width Read in
            Outcome no_memory (may_want self.now host.now.tables addr T.width Read)
            (answered (λ _. T.value_of (bytes_at host.now.blocks (cells r.windows)))
            (all_of partial T.width (ended (span r.windows) r.fault)))
            (Unit {0}) (Unit {0}) result };

    /// Stores a value as one atomic integer, in one window and at a place in its block that is a multiple of the
    /// value's size. Every store is sequentially consistent, whatever order is asked for. A value that lies across
    /// two windows or at another place is refused: in guest memory and in a region as `InvalidBackendAddress`, in a
    /// window as `OutOfBounds`, `Overflow` or `Misaligned`. Other errors are as in `write`.
    fn store<T: AtomicAccess, B: Bitmap>(
        &self,
        host: &mut HostMemory<B>,
        val: T,
        addr: A,
        order: Ordering,
    ) -> Result<(), Self::E>
        requires { Holds (shape_of host.old) (Self.names self.now) }
        ensures answer { let w = place self.now host.old.tables addr T.width Write in
            Outcome no_memory (may_want self.now host.old.tables addr T.width Write)
            (answered (λ _. tt) w) (host.new ≡ host.old)
            (Writes B.marks (given w) (T.bytes val) host.old host.new) result }
        ensures shape { shape_of host.new ≡ shape_of host.old };

    /// Loads a value as one atomic integer, from one window and a place in its block that is a multiple of the value's
    /// size. Every load is sequentially consistent, whatever order is asked for. Its errors are those of `store`.
    fn load<T: AtomicAccess, B: Bitmap>(
        &self,
        host: &HostMemory<B>,
        addr: A,
        order: Ordering,
    ) -> Result<T, Self::E>
        requires { Holds (shape_of host.now) (Self.names self.now) }
        ensures { let w = place self.now host.now.tables addr T.width Read in
            Outcome no_memory (may_want self.now host.now.tables addr T.width Read)
            (answered (λ v. T.value_of (bytes_at host.now.blocks (cells_of v))) w)
            (Unit {0}) (Unit {0}) result };

    /// Lends a source the windows of at most `count` bytes, one after the other, up to the first that it does not
    /// fill, and returns how many bytes came. If no window can be lent, the error says why. An interrupted try is
    /// made again, at most 64 times in a row. Any other error of the source is returned at once. Each try marks what
    /// it filled, or all that was lent if it failed.
    fn read_volatile_from<F: ReadVolatile, B: Bitmap>(
        &self,
        host: &mut HostMemory<B>,
        addr: A,
        src: &mut F,
        count: usize,
    ) -> Result<usize, Self::E>
        requires { Holds (shape_of host.old) (Self.names self.now) }
        ensures answer { let r = moved self.now host.old.tables addr count Write in
            Transfers no_memory (may_want self.now host.old.tables addr count Write) failure r
            (Fills F.source F.reads F.known_left B.marks Once)
            (λ total. total) (beside src.old host.old) result (beside src.new host.new) }
        ensures at_most { IfOk result (λ total. total ≤ count) }
        ensures shape { shape_of host.new ≡ shape_of host.old };

    /// Fills `count` bytes from a source. In guest memory the error says how many bytes came, if the source ends
    /// early, or the memory ends after the first byte. A window or a region that lacks some of the bytes fills none;
    /// if the source ends early, its error is `UnexpectedEof`. A failure of the source is returned.
    fn read_exact_volatile_from<F: ReadVolatile, B: Bitmap>(
        &self,
        host: &mut HostMemory<B>,
        addr: A,
        src: &mut F,
        count: usize,
    ) -> Result<(), Self::E>
        requires { Holds (shape_of host.old) (Self.names self.now) }
        ensures answer { let r = moved_whole self.now host.old.tables addr count Write in
            Transfers no_memory (may_want self.now host.old.tables addr count Write) failure r
            (Fills F.source F.reads F.known_left B.marks filling)
            (all_of partial count) (beside src.old host.old) result (beside src.new host.new) }
        ensures shape { shape_of host.new ≡ shape_of host.old };

    /// Offers a sink the bytes of the windows of at most `count` bytes, one window after the other, and returns how
    /// many it took. If no byte can be offered, the error says why. An interrupted try is made again, at most 64
    /// times in a row. Any other error of the sink is returned at once. No byte and no mark changes.
    fn write_volatile_to<F: WriteVolatile, B: Bitmap>(
        &self,
        host: &HostMemory<B>,
        addr: A,
        dst: &mut F,
        count: usize,
    ) -> Result<usize, Self::E>
        requires { Holds (shape_of host.now) (Self.names self.now) }
        ensures answer { let r = moved self.now host.now.tables addr count Read in
            Transfers no_memory (may_want self.now host.now.tables addr count Read) failure r
            (Takes F.sink F.taken F.may_want F.writes host.now.blocks sending)
            (λ total. total) dst.old result dst.new }
        ensures at_most { IfOk result (λ total. total ≤ count) };

    /// Offers a sink `count` bytes until it has taken them. In guest memory, if the memory ends after the first
    /// byte, the error says how many it took. A window or a region that lacks some of the bytes offers none. A sink
    /// that takes none is `WriteZero`. A failure of the sink is returned. No byte and no mark changes.
    fn write_all_volatile_to<F: WriteVolatile, B: Bitmap>(
        &self,
        host: &HostMemory<B>,
        addr: A,
        dst: &mut F,
        count: usize,
    ) -> Result<(), Self::E>
        requires { Holds (shape_of host.now) (Self.names self.now) }
        ensures answer { let r = moved_whole self.now host.now.tables addr count Read in
            Transfers no_memory (may_want self.now host.now.tables addr count Read) failure r
            (Takes F.sink F.taken F.may_want F.writes host.now.blocks UntilWhole) (all_of partial count)
            dst.old result dst.new };

    /// The window of a load or a store has exactly the size asked for.
    ghost place_has_all: { (m : Self) (tables : List Table) (addr : A) (n : ℕ) (access : Permissions)
        → IfOk (place m tables addr n access) (λ w. w.size ≡ n) };
}
