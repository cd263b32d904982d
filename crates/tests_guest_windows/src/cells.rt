//! Access to bytes by a type of this crate: the cells of a window, by their numbers.
ghost use Rattle.std.specs.Prelude.{◌≡◌, ◌*◌};
ghost use Rattle.vm_memory_guest.specs.Window.{window_names};
ghost use Rattle.vm_memory_guest.specs.Answer.{window_reach};
ghost use Rattle.vm_memory_guest.specs.Transfer.{Alone, Once, cut_of, exact_of};
ghost use Rattle.vm_memory_guest.specs.Typed.{aligned_of};
ghost use Rattle.vm_memory_guest.specs.lemmas.TypedFacts.{aligned-sized};
ghost use Rattle.vm_memory_base.specs.declared.io.VolatileMemoryError.TheVariants.{PartialBuffer, Memory};

use std::sync::atomic::Ordering;
use vm_memory_base::{
    AtomicAccess, Bitmap, ByteValued, ReadVolatile, VolatileMemoryError, VolatileMemoryResult,
    WriteVolatile,
};
use vm_memory_guest::{Bytes, HostMemory, HostShape, Named, VolatileSlice};

/// A window whose bytes are accessed from the beginning of a cell on. A cell has four bytes.
#[derive(Clone, Copy, Debug)]
pub struct Cells {
    pub window: VolatileSlice,
}

impl Named for Cells {
    ghost names = { λ c. window_names c.window };

    fn held_by(&self, shape: &HostShape) -> bool {
        self.window.held_by(shape)
    }
}

// Where a cell begins.
fn start_of(cell: u16) -> usize
    ensures { result ≡ 4 * cell }
{
    4 * usize::from(cell)
}

impl Bytes<u16> for Cells {
    type E = VolatileMemoryError;

    ghost reach = { λ c tables cell count access. window_reach c.window (4 * cell) count };

    ghost place = { λ c tables cell size access. aligned_of c.window (4 * cell) size };

    ghost partial = { PartialBuffer };

    ghost no_memory = { Memory };

    ghost may_want = { λ c tables cell count access. ⊥ };

    ghost moved = { λ c tables cell count access. cut_of c.window (4 * cell) count };

    ghost moved_whole = { λ c tables cell count access. exact_of c.window (4 * cell) count };

    ghost filling = { Alone };

    ghost sending = { Once };

    ghost failure = { λ e. e };

    fn write<B: Bitmap>(
        &self,
        host: &mut HostMemory<B>,
        buf: &[u8],
        addr: u16,
    ) -> VolatileMemoryResult<usize> {
        self.window.write(host, buf, start_of(addr))
    }

    fn read<B: Bitmap>(
        &self,
        host: &HostMemory<B>,
        buf: &mut [u8],
        addr: u16,
    ) -> VolatileMemoryResult<usize> {
        self.window.read(host, buf, start_of(addr))
    }

    fn write_slice<B: Bitmap>(
        &self,
        host: &mut HostMemory<B>,
        buf: &[u8],
        addr: u16,
    ) -> VolatileMemoryResult<()> {
        self.window.write_slice(host, buf, start_of(addr))
    }

    fn read_slice<B: Bitmap>(
        &self,
        host: &HostMemory<B>,
        buf: &mut [u8],
        addr: u16,
    ) -> VolatileMemoryResult<()> {
        self.window.read_slice(host, buf, start_of(addr))
    }

    fn write_obj<T: ByteValued, B: Bitmap>(
        &self,
        host: &mut HostMemory<B>,
        val: T,
        addr: u16,
    ) -> VolatileMemoryResult<()> {
        self.window.write_obj(host, val, start_of(addr))
    }

    fn read_obj<T: ByteValued, B: Bitmap>(
        &self,
        host: &HostMemory<B>,
        addr: u16,
    ) -> VolatileMemoryResult<T> {
        self.window.read_obj(host, start_of(addr))
    }

    fn store<T: AtomicAccess, B: Bitmap>(
        &self,
        host: &mut HostMemory<B>,
        val: T,
        addr: u16,
        order: Ordering,
    ) -> VolatileMemoryResult<()> {
        self.window.store(host, val, start_of(addr), order)
    }

    fn load<T: AtomicAccess, B: Bitmap>(
        &self,
        host: &HostMemory<B>,
        addr: u16,
        order: Ordering,
    ) -> VolatileMemoryResult<T> {
        self.window.load(host, start_of(addr), order)
    }

    fn read_volatile_from<F: ReadVolatile, B: Bitmap>(
        &self,
        host: &mut HostMemory<B>,
        addr: u16,
        src: &mut F,
        count: usize,
    ) -> VolatileMemoryResult<usize> {
        self.window
            .read_volatile_from(host, start_of(addr), src, count)
    }

    fn read_exact_volatile_from<F: ReadVolatile, B: Bitmap>(
        &self,
        host: &mut HostMemory<B>,
        addr: u16,
        src: &mut F,
        count: usize,
    ) -> VolatileMemoryResult<()> {
        self.window
            .read_exact_volatile_from(host, start_of(addr), src, count)
    }

    fn write_volatile_to<F: WriteVolatile, B: Bitmap>(
        &self,
        host: &HostMemory<B>,
        addr: u16,
        dst: &mut F,
        count: usize,
    ) -> VolatileMemoryResult<usize> {
        self.window
            .write_volatile_to(host, start_of(addr), dst, count)
    }

    fn write_all_volatile_to<F: WriteVolatile, B: Bitmap>(
        &self,
        host: &HostMemory<B>,
        addr: u16,
        dst: &mut F,
        count: usize,
    ) -> VolatileMemoryResult<()> {
        self.window
            .write_all_volatile_to(host, start_of(addr), dst, count)
    }

    ghost place_has_all = { λ c tables cell size access. aligned-sized c.window (4 * cell) size };
}
