//! Windows that are lent to sources of bytes.
ghost use Rattle.std.specs.Prelude.{◌≡◌, ℕ, ◌+◌, ◌<◌, ◌≤◌, List, length, IfOk, IfErr};
ghost use Rattle.vm_memory_base.specs.Transfer.{ReadsAs, FillsBy, Again};
ghost use Rattle.vm_memory_guest.specs.Host.{shape_of, Holds, block_at, bytes_at, cells_from, written};
ghost use Rattle.vm_memory_guest.specs.Inside.{blocks_of};
ghost use Rattle.vm_memory_guest.specs.Transfer.{LendsWindow, LendsRest, LendsWhole, Fills, filling, marked_of};
ghost use Rattle.vm_memory_guest.specs.Transfer.{touched_of};
ghost use Rattle.vm_memory_guest.specs.Window.{window_names, cells_of};

use super::HostMemory;
use super::address::Place;
use super::block_bytes::BlockBytes;
use crate::volatile_memory::slice::VolatileSlice;
use vm_memory_base::{
    Bitmap, RETRIES, ReadExactFault, ReadVolatile, VolatileMemoryResult, is_interrupted,
};

// Lends a source the bytes of a place, for one try.
fn read_in<S: ReadVolatile>(
    blocks: &mut Vec<BlockBytes>,
    at: Place,
    source: &mut S,
) -> VolatileMemoryResult<usize>
    requires there { at.block < length blocks.old.items }
    requires within { at.offset + at.len ≤ length (block_at (blocks_of blocks.old) at.block) }
    ensures count { IfOk result (λ count. count ≤ at.len) }
    ensures tried { let cells = cells_from at.block at.offset at.len in (bytes : List ℕ) × (length bytes ≡ at.len)
        × ReadsAs (S.source source.old) (bytes_at (blocks_of blocks.old) cells) result bytes (S.source source.new)
        × S.reads source.old (bytes_at (blocks_of blocks.old) cells) result bytes source.new
        × (blocks_of blocks.new ≡ written cells bytes (blocks_of blocks.old)) }
{
    let all = &mut blocks[at.block];
    let place = &mut all.as_mut_slice()[at.offset..at.offset + at.len];
    source.read_volatile(place)
}

// Lends a source the bytes of a place, which it fills by itself.
fn fill_in<S: ReadVolatile>(
    blocks: &mut Vec<BlockBytes>,
    at: Place,
    source: &mut S,
) -> Result<(), ReadExactFault>
    requires there { at.block < length blocks.old.items }
    requires within { at.offset + at.len ≤ length (block_at (blocks_of blocks.old) at.block) }
    ensures touched { IfErr result (λ fault. fault.touched ≤ at.len) }
    ensures tried { let cells = cells_from at.block at.offset at.len in (bytes : List ℕ) × (length bytes ≡ at.len)
        × FillsBy S.source S.reads S.known_left source.old
        (bytes_at (blocks_of blocks.old) cells) result bytes source.new
        × (blocks_of blocks.new ≡ written cells bytes (blocks_of blocks.old)) }
{
    let all = &mut blocks[at.block];
    let place = &mut all.as_mut_slice()[at.offset..at.offset + at.len];
    source.read_exact_volatile(place)
}

// How many bytes of so many that a source was to fill are marked.
fn touched_of(size: usize, answer: &Result<(), ReadExactFault>) -> usize
    ensures { result ≡ touched_of size answer.now }
{
    match answer {
        Ok(()) => size,
        Err(fault) => fault.touched,
    }
}

// How many bytes of so many that were lent to a source are marked.
fn marked_of(size: usize, answer: &VolatileMemoryResult<usize>) -> usize
    ensures { result ≡ marked_of size answer.now }
{
    match answer {
        Ok(count) => *count,
        Err(_) => size,
    }
}

impl<B> HostMemory<B> {
    // Lends a source the bytes of a window, for one try.
    #[tactic(auto, using(crate::proofs::WrittenLaws::written_lengths))]
    fn read_place<S: ReadVolatile>(
        &mut self,
        window: &VolatileSlice,
        source: &mut S,
    ) -> VolatileMemoryResult<usize>
        requires { Holds (shape_of self.old) (window_names window.now) }
        ensures count { IfOk result (λ count. count ≤ window.now.size) }
        ensures tried { (bytes : List ℕ) × (length bytes ≡ window.now.size)
            × ReadsAs (S.source source.old) (bytes_at self.old.blocks (cells_of window.now)) result
            bytes (S.source source.new)
            × S.reads source.old (bytes_at self.old.blocks (cells_of window.now)) result bytes source.new
            × (self.new ≡ record self.old { blocks = written (cells_of window.now) bytes self.old.blocks }) }
        ensures shape { shape_of self.new ≡ shape_of self.old }
    {
        read_in(&mut self.blocks, window.place(), source)
    }

    // Lends a source a window for one try, and marks what the try filled, or all after a failure.
    fn lend<S: ReadVolatile>(
        &mut self,
        window: &VolatileSlice,
        source: &mut S,
    ) -> VolatileMemoryResult<usize>
    where
        B: Bitmap,
        requires { Holds (shape_of self.old) (window_names window.now) }
        ensures count { IfOk result (λ count. count ≤ window.now.size) }
        ensures lends { LendsWindow S.source S.reads B.marks window.now (source.old, self.old) result
            (source.new, self.new) }
        ensures shape { shape_of self.new ≡ shape_of self.old }
    {
        let answer = self.read_place(window, source);
        let marked = marked_of(window.size, &answer);
        self.mark_window(&window.front(marked));
        answer
    }

    /// Lends a source a window, and again after each interruption, at most 64 times in a row. Each try marks
    /// what it filled, or the whole window if it failed.
    pub(crate) fn read_from<S: ReadVolatile>(
        &mut self,
        window: &VolatileSlice,
        source: &mut S,
    ) -> VolatileMemoryResult<usize>
    where
        B: Bitmap,
        requires { Holds (shape_of self.old) (window_names window.now) }
        ensures count { IfOk result (λ count. count ≤ window.now.size) }
        ensures lends { Again (LendsWindow S.source S.reads B.marks window.now) (source.old, self.old) result
            (source.new, self.new) }
        ensures shape { shape_of self.new ≡ shape_of self.old }
    {
        let mut left = RETRIES;
        while left > 0 {
            let answer = self.lend(window, source);
            if !is_interrupted(&answer) {
                return answer;
            }
            left -= 1;
        }
        self.lend(window, source)
    }

    /// Lends a source the rest of a window that it has not filled, until the window is full or the source
    /// gives nothing. Each try marks what it filled, or all that it was lent if it failed.
    pub(crate) fn fill_from<S: ReadVolatile>(
        &mut self,
        window: &VolatileSlice,
        source: &mut S,
    ) -> VolatileMemoryResult<usize>
    where
        B: Bitmap,
        requires { Holds (shape_of self.old) (window_names window.now) }
        ensures count { IfOk result (λ count. count ≤ window.now.size) }
        ensures lends { LendsRest S.source S.reads B.marks window.now (source.old, self.old) result
            (source.new, self.new) }
        ensures shape { shape_of self.new ≡ shape_of self.old }
    {
        let size = window.len();
        let mut filled = 0;
        while filled < size {
            let rest = window.part(filled, size - filled);
            match self.read_from(&rest, source) {
                Ok(0) => return Ok(filled),
                Ok(count) => filled += count,
                Err(error) => return Err(error),
            }
        }
        Ok(filled)
    }

    // Lends a source the bytes of a window, which it fills by itself.
    #[tactic(auto, using(crate::proofs::WrittenLaws::written_lengths))]
    fn fill_place<S: ReadVolatile>(
        &mut self,
        window: &VolatileSlice,
        source: &mut S,
    ) -> Result<(), ReadExactFault>
        requires { Holds (shape_of self.old) (window_names window.now) }
        ensures touched { IfErr result (λ fault. fault.touched ≤ window.now.size) }
        ensures tried { (bytes : List ℕ) × (length bytes ≡ window.now.size)
            × FillsBy S.source S.reads S.known_left source.old (bytes_at self.old.blocks (cells_of window.now))
            result bytes source.new
            × (self.new ≡ record self.old { blocks = written (cells_of window.now) bytes self.old.blocks }) }
        ensures shape { shape_of self.new ≡ shape_of self.old }
    {
        fill_in(&mut self.blocks, window.place(), source)
    }

    /// Lends a source a window, which it fills by itself. All of the window is marked, or what the source
    /// touched if it failed.
    pub(crate) fn fill_whole<S: ReadVolatile>(
        &mut self,
        window: &VolatileSlice,
        source: &mut S,
    ) -> VolatileMemoryResult<usize>
    where
        B: Bitmap,
        requires { Holds (shape_of self.old) (window_names window.now) }
        ensures count { IfOk result (λ count. count ≡ window.now.size) }
        ensures lends { LendsWhole S.source S.reads S.known_left B.marks window.now (source.old, self.old) result
            (source.new, self.new) }
        ensures shape { shape_of self.new ≡ shape_of self.old }
    {
        let filled = self.fill_place(window, source);
        let marked = touched_of(window.size, &filled);
        self.mark_window(&window.front(marked));
        match filled {
            Ok(()) => Ok(window.size),
            Err(fault) => Err(fault.error),
        }
    }

    /// Lends a source a window of an access: until it is full, or for one try.
    pub(crate) fn receive<S: ReadVolatile>(
        &mut self,
        window: &VolatileSlice,
        source: &mut S,
        until_full: bool,
    ) -> VolatileMemoryResult<usize>
    where
        B: Bitmap,
        requires { Holds (shape_of self.old) (window_names window.now) }
        ensures count { IfOk result (λ count. count ≤ window.now.size) }
        ensures fills { Fills S.source S.reads S.known_left B.marks (filling until_full) window.now
            (source.old, self.old) result (source.new, self.new) }
        ensures shape { shape_of self.new ≡ shape_of self.old }
    {
        if until_full {
            self.fill_from(window, source)
        } else {
            self.read_from(window, source)
        }
    }
}
