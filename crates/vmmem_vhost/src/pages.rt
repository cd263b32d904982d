//! The guest's I/O table: where each page lies in guest memory, and what is read and written through it.

use crate::world::{FRAMES, IOVA, PAGE, PAGES};
use anyhow::bail;
use std::alloc::{AllocError, Global};
use vhost_backend::ConnectionMemory;
use vm_memory_base::GuestAddress;

// What a frame has that a page left.
const LEFT: u8 = 0xdd;

/// The guest's table, which frames are free, and which pages the back end was told of and not asked to forget since.
#[derive(Drop)]
pub struct Pages {
    frames: [u64; PAGES as usize],
    free: Vec<u64>,
    told: [bool; PAGES as usize],
}

impl Pages {
    /// A table in which each page has a frame.
    pub fn new(alloc: Global) -> Result<Pages, AllocError> {
        let mut frames = [0; PAGES as usize];
        for (page, frame) in (0..PAGES).zip(frames.iter_mut()) {
            *frame = page.wrapping_mul(7).wrapping_add(5) % FRAMES;
        }
        let mut free = Vec::new(alloc);
        for frame in 0..FRAMES {
            if !frames.contains(&frame) {
                free.push(frame)?;
            }
        }
        Ok(Pages {
            frames,
            free,
            told: [false; PAGES as usize],
        })
    }

    /// The frame of a page.
    pub fn frame_of(&self, page: u64) -> u64 {
        self.frames.get(page as usize).copied().unwrap_or(0)
    }

    pub fn was_told(&self, page: u64) -> bool {
        self.told.get(page as usize).copied().unwrap_or(false)
    }

    pub fn set_told(&mut self, page: u64, told: bool) {
        if let Some(place) = self.told.get_mut(page as usize) {
            *place = told;
        }
    }

    /// The back end has no page.
    pub fn forget_all(&mut self) {
        self.told = [false; PAGES as usize];
    }

    // Where an I/O address lies in guest memory, and how many bytes its page has from it on.
    fn place_of(&self, iova: u64) -> Option<(GuestAddress, usize)> {
        let from = iova.checked_sub(IOVA)?;
        let frame = self.frames.get((from / PAGE) as usize).copied()?;
        let at = from % PAGE;
        let address = frame.wrapping_mul(PAGE).wrapping_add(at);
        Some((GuestAddress(address), (PAGE - at) as usize))
    }

    /// Writes bytes from an I/O address on, as the driver.
    pub fn write(
        &self,
        memory: &mut ConnectionMemory,
        bytes: &[u8],
        iova: u64,
    ) -> anyhow::Result<()> {
        let mut at = iova;
        let mut rest = bytes;
        for _ in 0..=PAGES {
            if rest.is_empty() {
                return Ok(());
            }
            let Some((address, room)) = self.place_of(at) else {
                break;
            };
            let count = room.min(rest.len());
            memory.write(&rest[..count], address)?;
            rest = &rest[count..];
            at = at.wrapping_add(count as u64);
        }
        bail!("the driver writes past its pages");
    }

    /// Fills bytes from an I/O address on, as the driver.
    pub fn read(
        &self,
        memory: &ConnectionMemory,
        bytes: &mut [u8],
        iova: u64,
    ) -> anyhow::Result<()> {
        let mut from = 0;
        for _ in 0..=PAGES {
            if from >= bytes.len() {
                return Ok(());
            }
            let Some((address, room)) = self.place_of(iova.wrapping_add(from as u64)) else {
                break;
            };
            let count = room.min(bytes.len() - from);
            memory.read(&mut bytes[from..from + count], address)?;
            from += count;
        }
        bail!("the driver reads past its pages");
    }

    /// Moves a page to the frame that is free for longest, and leaves other bytes in the old one. The back end has to
    /// have no mapping of it.
    pub fn move_page(
        &mut self,
        alloc: Global,
        memory: &mut ConnectionMemory,
        page: u64,
    ) -> anyhow::Result<()> {
        let from = self.frame_of(page);
        let Some(to) = self.free.pop() else {
            return Ok(());
        };
        self.free.insert(0, from)?;
        if let Some(place) = self.frames.get_mut(page as usize) {
            *place = to;
        }
        let old = GuestAddress(from.wrapping_mul(PAGE));
        let mut bytes = vec![in alloc; 0u8; PAGE as usize]?;
        memory.read(bytes.as_mut_slice(), old)?;
        memory.write(bytes.as_slice(), GuestAddress(to.wrapping_mul(PAGE)))?;
        bytes.as_mut_slice().fill(LEFT);
        memory.write(bytes.as_slice(), old)?;
        Ok(())
    }
}
