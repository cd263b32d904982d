//! The driver's half of the ring, by the guest's own table.

use crate::pages::Pages;
use crate::world::{IOVA, PAGE, QUEUE_PAGE, QUEUE_SIZE, USED_PAGE, iova_of};
use std::alloc::Global;
use vhost_backend::ConnectionMemory;
use virtio_queue::VRING_USED_F_NO_NOTIFY;

/// How many bytes a descriptor has.
pub const DESCRIPTOR: u64 = 16;

/// Where the descriptors, the available ring and the used ring begin.
pub const TABLE: u64 = IOVA + QUEUE_PAGE * PAGE;

pub const AVAILABLE: u64 = TABLE + DESCRIPTOR * QUEUE_SIZE as u64;

pub const USED: u64 = IOVA + USED_PAGE * PAGE;

// The index of the used entry that the driver waits for, and that of the head that the device waits for.
const USED_EVENT: u64 = AVAILABLE + 4 + 2 * QUEUE_SIZE as u64;

const AVAIL_EVENT: u64 = USED + 4 + 8 * QUEUE_SIZE as u64;

/// A descriptor: where its bytes lie, how many there are, and its flags. The next one has the next number.
pub type Part = (u64, u32, u16);

/// How many heads were published, and how many used entries were taken, modulo 2^16.
#[derive(Clone, Copy)]
pub struct Driver {
    pub next_avail: u16,
    pub next_used: u16,
}

// A number of 16 bits of the rings.
fn word(pages: &Pages, memory: &ConnectionMemory, iova: u64) -> anyhow::Result<u16> {
    let mut bytes = [0; 2];
    pages.read(memory, &mut bytes, iova)?;
    Ok(u16::from_le_bytes(bytes))
}

fn set_word(
    pages: &Pages,
    memory: &mut ConnectionMemory,
    iova: u64,
    value: u16,
) -> anyhow::Result<()> {
    pages.write(memory, &value.to_le_bytes(), iova)
}

// The bytes of a descriptor.
fn descriptor(part: Part, next: u16) -> [u8; 16] {
    let (addr, len, flags) = part;
    let [a, b, c, d, e, f, g, h] = addr.to_le_bytes();
    let [i, j, k, l] = len.to_le_bytes();
    let [m, n] = flags.to_le_bytes();
    let [o, p] = next.to_le_bytes();
    [a, b, c, d, e, f, g, h, i, j, k, l, m, n, o, p]
}

/// Puts descriptors into a table, from a number on.
pub fn put_parts(
    pages: &Pages,
    memory: &mut ConnectionMemory,
    table: u64,
    first: u16,
    parts: &[Part],
) -> anyhow::Result<()> {
    let mut index = first;
    for part in parts {
        let at = table.wrapping_add(DESCRIPTOR.wrapping_mul(u64::from(index)));
        index = index.wrapping_add(1);
        pages.write(memory, &descriptor(*part, index), at)?;
    }
    Ok(())
}

impl Driver {
    /// Empty rings.
    pub fn begin(
        &mut self,
        alloc: Global,
        pages: &Pages,
        memory: &mut ConnectionMemory,
    ) -> anyhow::Result<()> {
        let zeros = vec![in alloc; 0u8; PAGE as usize]?;
        for page in [QUEUE_PAGE, USED_PAGE] {
            pages.write(memory, zeros.as_slice(), iova_of(page))?;
        }
        *self = Driver {
            next_avail: 0,
            next_used: 0,
        };
        Ok(())
    }

    /// Publishes a head.
    pub fn publish(
        &mut self,
        pages: &Pages,
        memory: &mut ConnectionMemory,
        head: u16,
    ) -> anyhow::Result<()> {
        let slot = u64::from(self.next_avail % QUEUE_SIZE);
        set_word(pages, memory, AVAILABLE.wrapping_add(4 + 2 * slot), head)?;
        self.next_avail = self.next_avail.wrapping_add(1);
        set_word(pages, memory, AVAILABLE + 2, self.next_avail)
    }

    /// Takes the head of the next chain that the device returned. If there is none, the driver waits for the next one.
    pub fn take_used(
        &mut self,
        pages: &Pages,
        memory: &mut ConnectionMemory,
    ) -> anyhow::Result<Option<u16>> {
        if word(pages, memory, USED + 2)? == self.next_used {
            set_word(pages, memory, USED_EVENT, self.next_used)?;
            return Ok(None);
        }
        let slot = u64::from(self.next_used % QUEUE_SIZE);
        self.next_used = self.next_used.wrapping_add(1);
        Ok(Some(word(pages, memory, USED.wrapping_add(4 + 8 * slot))?))
    }

    /// Whether the device has to be kicked for the heads that were published after so many: if the index that it waits
    /// for was passed, or by flags, unless it asked for no kick.
    pub fn must_kick(
        &self,
        pages: &Pages,
        memory: &ConnectionMemory,
        events: bool,
        old: u16,
    ) -> anyhow::Result<bool> {
        if self.next_avail == old {
            return Ok(false);
        }
        if events {
            let event = word(pages, memory, AVAIL_EVENT)?;
            let passed = self.next_avail.wrapping_sub(event).wrapping_sub(1);
            return Ok(passed < self.next_avail.wrapping_sub(old));
        }
        Ok(word(pages, memory, USED)? & VRING_USED_F_NO_NOTIFY == 0)
    }
}
