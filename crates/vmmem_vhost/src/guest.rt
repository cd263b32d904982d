//! The guest: its memory's table, its driver, the requests that it makes, and what it knows of the disk. It outlives
//! connections.
ghost use Rattle.std.specs.Prelude.{◌<◌};

use crate::driver::{DESCRIPTOR, Driver, Part, TABLE, put_parts};
use crate::pages::Pages;
use crate::world::{
    DATA_PAGE, HEADER_PAGE, IOVA, PAGE, ROWS_PAGE, SECTORS, SLOT_DESCRIPTORS, SLOT_PAGES,
    SLOT_SECTORS, SLOTS, STATUS_PAGE, iova_of,
};
use anyhow::bail;
use rand_core::Rng;
use rand_xoshiro::Xoshiro256PlusPlus;
use std::alloc::Global;
use vhost_backend::ConnectionMemory;
use virtio_blk::{VIRTIO_BLK_S_IOERR, VIRTIO_BLK_S_OK, VIRTIO_BLK_T_IN, VIRTIO_BLK_T_OUT};
use virtio_queue::{VRING_DESC_F_INDIRECT, VRING_DESC_F_NEXT, VRING_DESC_F_WRITE};

// How many rows a request has for its indirect table of 4, and how many of all lie in the first of their pages.
const SLOT_ROWS: u64 = 7;

const FIRST_ROWS: u64 = 9;

/// What a front end did and saw.
#[derive(Clone, Copy, Debug)]
pub struct Seen {
    /// The requests that were done, and those that failed.
    pub requests: u64,
    pub failed: u64,
    /// How often the device was kicked.
    pub kicks: u64,
    /// The addresses that the back end missed, and those of them that it had and evicted.
    pub misses: u64,
    pub evictions: u64,
    /// The ranges that were invalidated, and the accesses that a mapping forbade.
    pub invalidations: u64,
    pub forbidden: u64,
    /// The malformed messages that were refused.
    pub refused: u64,
    /// The bytes that were read, and those that are not what was written.
    pub bytes: u64,
    pub wrong: u64,
}

/// Nothing was seen yet.
pub const NOTHING: Seen = Seen {
    requests: 0,
    failed: 0,
    kicks: 0,
    misses: 0,
    evictions: 0,
    invalidations: 0,
    forbidden: 0,
    refused: 0,
    bytes: 0,
    wrong: 0,
};

/// What goes wrong with the first page of data of a request: the front end does not map it, or not for the access.
#[derive(Clone, Copy, PartialEq, Eq)]
pub enum Trouble {
    None,
    Refused,
    Forbidden,
}

/// A request: whether it writes, its sector, how many sectors, where its parts lie, how many sectors of the data are in
/// the first of two segments, where its indirect table lies if it has one, and what goes wrong with it.
#[derive(Clone, Copy)]
pub struct Asked {
    writes: bool,
    sector: u64,
    count: u64,
    header: u64,
    data: u64,
    status: u64,
    front: u64,
    rows: Option<u64>,
    pub trouble: Trouble,
}

impl Asked {
    /// The page where its data begins.
    pub fn page(&self) -> u64 {
        self.data.wrapping_sub(IOVA) / PAGE
    }
}

/// A guest.
#[derive(Drop)]
pub struct Guest {
    pub alloc: Global,
    /// The numbers that requests are made of, and those by which everything else happens. What the requests are does
    /// not depend on what happens meanwhile.
    pub requests: Xoshiro256PlusPlus,
    pub chances: Xoshiro256PlusPlus,
    pub hostile: bool,
    /// Whether notifications go by event indices.
    pub events: bool,
    pub pages: Pages,
    pub driver: Driver,
    pub disk: Vec<u8>,
    /// How many requests are still to be made, those that are under way, and how many malformed messages are due.
    pub left: u64,
    pub sent: [Option<Asked>; SLOTS],
    pub attacks: u64,
    pub seen: Seen,
}

// The bytes of a header.
fn header_of(asked: Asked) -> [u8; 16] {
    let kind = if asked.writes {
        VIRTIO_BLK_T_OUT
    } else {
        VIRTIO_BLK_T_IN
    };
    let [a, b, c, d] = kind.to_le_bytes();
    let [s, t, u, v, w, x, y, z] = asked.sector.to_le_bytes();
    [a, b, c, d, 0, 0, 0, 0, s, t, u, v, w, x, y, z]
}

// The parts of a request's chain.
fn parts_of(asked: Asked) -> [Part; 4] {
    let len = asked.count.min(16) as u32 * 512;
    let front = asked.front.min(16) as u32 * 512;
    let flags = if asked.writes { 0 } else { VRING_DESC_F_WRITE };
    let next = VRING_DESC_F_NEXT;
    let rest = asked.data.wrapping_add(u64::from(front));
    [
        (asked.header, 16, next),
        (asked.data, front, flags | next),
        (rest, len.wrapping_sub(front), flags | next),
        (asked.status, 1, VRING_DESC_F_WRITE),
    ]
}

impl Guest {
    // A number of a request below another.
    fn pick(&mut self, limit: u64) -> u64
        requires { 0 < limit }
        ensures { result < limit }
    {
        self.requests.next_u64() % limit
    }

    /// A number of what happens below another.
    pub fn below(&mut self, limit: u64) -> u64
        requires { 0 < limit }
        ensures { result < limit }
    {
        self.chances.next_u64() % limit
    }

    /// Empty rings.
    pub fn begin(&mut self, memory: &mut ConnectionMemory) -> anyhow::Result<()> {
        self.driver.begin(self.alloc, &self.pages, memory)
    }

    /// Whether requests are under way.
    pub fn has_sent(&self) -> bool {
        self.sent.iter().any(|asked| asked.is_some())
    }

    /// Whether nothing is left to be done.
    pub fn is_done(&self) -> bool {
        self.left == 0 && self.attacks == 0 && !self.has_sent()
    }

    /// What goes wrong with a page, by the request that is under way there.
    pub fn trouble_of(&self, page: u64) -> Trouble {
        for sent in &self.sent {
            match sent {
                Some(asked) if asked.page() == page => return asked.trouble,
                _ => {}
            }
        }
        Trouble::None
    }

    // Where the indirect table of a request lies, if it has one: some of them have rows in two pages.
    fn next_rows(&mut self, slot: u64) -> Option<u64> {
        if self.pick(3) > 0 {
            return None;
        }
        let first = iova_of(ROWS_PAGE + 1).wrapping_sub(FIRST_ROWS * DESCRIPTOR);
        let row = SLOT_ROWS.wrapping_mul(slot).wrapping_add(self.pick(4));
        Some(first.wrapping_add(DESCRIPTOR.wrapping_mul(row)))
    }

    // A request at random, with a part of the pages and of the disk for itself.
    fn next_request(&mut self, slot: usize) -> Asked {
        let slot = slot as u64 % SLOTS as u64;
        let part = PAGE / SLOTS as u64;
        let writes = self.pick(2) == 0;
        let count = 1 + self.pick(16);
        let places = SLOT_PAGES * (PAGE / 512) - count;
        Asked {
            writes,
            sector: SLOT_SECTORS * slot + self.pick(SLOT_SECTORS - count + 1),
            count,
            header: iova_of(HEADER_PAGE).wrapping_add(part * slot + 16 * self.pick(part / 16)),
            data: iova_of(DATA_PAGE + SLOT_PAGES * slot).wrapping_add(512 * self.pick(places + 1)),
            status: iova_of(STATUS_PAGE).wrapping_add(part * slot + self.pick(part)),
            front: self.pick(count),
            rows: self.next_rows(slot),
            trouble: match self.pick(40) {
                0 => Trouble::Refused,
                1 => Trouble::Forbidden,
                _ => Trouble::None,
            },
        }
    }

    /// A place for a request, if there is one and a request is left.
    pub fn free_slot(&self) -> Option<usize> {
        if self.left == 0 {
            return None;
        }
        self.sent.iter().position(|asked| asked.is_none())
    }

    /// Makes a request, whose data lie in guest memory from then on. Sometimes a malformed message is due after it.
    pub fn make(&mut self, memory: &mut ConnectionMemory, slot: usize) -> anyhow::Result<Asked> {
        let asked = self.next_request(slot);
        let len = (asked.count as usize).saturating_mul(512);
        let mut data = vec![in self.alloc; 0u8; len]?;
        self.requests.fill_bytes(data.as_mut_slice());
        self.pages.write(memory, data.as_slice(), asked.data)?;
        if self.hostile && self.pick(4) == 0 {
            self.attacks = self.attacks.saturating_add(1);
        }
        self.left = self.left.saturating_sub(1);
        if let Some(place) = self.sent.get_mut(slot) {
            *place = Some(asked);
        }
        Ok(asked)
    }

    /// Publishes the request of a slot, if there is one.
    pub fn publish(&mut self, memory: &mut ConnectionMemory, slot: usize) -> anyhow::Result<()> {
        let Some(asked) = self.sent.get(slot).copied().flatten() else {
            return Ok(());
        };
        self.pages.write(memory, &header_of(asked), asked.header)?;
        self.pages.write(memory, &[255], asked.status)?;
        let head = (slot % SLOTS) as u16 * SLOT_DESCRIPTORS;
        let parts = parts_of(asked);
        match asked.rows {
            Some(rows) => {
                let len = parts.len() as u32 * DESCRIPTOR as u32;
                put_parts(&self.pages, memory, rows, 0, &parts)?;
                let table = [(rows, len, VRING_DESC_F_INDIRECT)];
                put_parts(&self.pages, memory, TABLE, head, &table)?;
            }
            None => put_parts(&self.pages, memory, TABLE, head, &parts)?,
        }
        self.driver.publish(&self.pages, memory, head)
    }

    /// Takes a request that the device returned, if there is one, and looks at what came of it.
    pub fn collect(&mut self, memory: &mut ConnectionMemory) -> anyhow::Result<Option<Asked>> {
        let Some(head) = self.driver.take_used(&self.pages, memory)? else {
            return Ok(None);
        };
        let slot = usize::from(head / SLOT_DESCRIPTORS);
        let sent = match self.sent.get_mut(slot) {
            Some(sent) => sent.take(),
            None => None,
        };
        let Some(asked) = sent else {
            bail!("the device returns a head that was not published: {head}");
        };
        let mut status = [0];
        self.pages.read(memory, &mut status, asked.status)?;
        match (status[0], asked.trouble) {
            (VIRTIO_BLK_S_OK, Trouble::None) => self.compare(memory, asked)?,
            (VIRTIO_BLK_S_IOERR, Trouble::Refused | Trouble::Forbidden) => {
                self.seen.failed = self.seen.failed.saturating_add(1);
            }
            _ => bail!("the status is {}", status[0]),
        }
        self.seen.requests = self.seen.requests.saturating_add(1);
        Ok(Some(asked))
    }

    // Compares what was read with what was written, or takes what was written for the disk's.
    fn compare(&mut self, memory: &ConnectionMemory, asked: Asked) -> anyhow::Result<()> {
        let len = (asked.count as usize).saturating_mul(512);
        let mut data = vec![in self.alloc; 0u8; len]?;
        self.pages.read(memory, data.as_mut_slice(), asked.data)?;
        let from = (asked.sector.min(SECTORS) as usize).saturating_mul(512);
        let Some(disk) = self
            .disk
            .as_mut_slice()
            .get_mut(from..from.saturating_add(len))
        else {
            bail!("a request past the disk");
        };
        for (place, byte) in disk.iter_mut().zip(data.as_slice()) {
            if asked.writes {
                *place = *byte;
            } else if *place != *byte {
                self.seen.wrong = self.seen.wrong.saturating_add(1);
            }
        }
        if !asked.writes {
            self.seen.bytes = self.seen.bytes.saturating_add(len as u64);
        }
        Ok(())
    }
}
