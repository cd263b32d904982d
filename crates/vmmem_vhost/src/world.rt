//! What a front end and a back end of this program have in common: how guest memory and I/O addresses are laid out.

/// How many bytes a page has, and how many pages of guest memory there are.
pub const PAGE: u64 = 0x1000;

pub const FRAMES: u64 = 64;

/// How many bytes guest memory has.
pub const MEMORY: u64 = FRAMES * PAGE;

/// How many bytes a region of it has at most.
pub const MOST_MEMORY: usize = MEMORY as usize;

/// Where I/O addresses begin, and how many pages of them a driver uses: one with the descriptors and the available
/// ring, one with the used ring, one with the headers, one with the statuses, two with the rows of indirect tables, and
/// then those of data.
pub const IOVA: u64 = 0x10_0000_0000;

pub const QUEUE_PAGE: u64 = 0;

pub const USED_PAGE: u64 = 1;

pub const HEADER_PAGE: u64 = 2;

pub const STATUS_PAGE: u64 = 3;

pub const ROWS_PAGE: u64 = 4;

pub const DATA_PAGE: u64 = 6;

pub const PAGES: u64 = 26;

/// How many requests may be under way at once, how many pages of data each of them has for itself, and how many sectors
/// of the disk.
pub const SLOTS: usize = 4;

pub const SLOT_PAGES: u64 = 5;

pub const SLOT_SECTORS: u64 = 64;

/// How many descriptors each has, and how many the queue.
pub const SLOT_DESCRIPTORS: u16 = 4;

pub const QUEUE_SIZE: u16 = 16;

/// How many sectors the disk has, and what it is called.
pub const SECTORS: u64 = SLOTS as u64 * SLOT_SECTORS;

pub const DISK_NAME: &[u8] = b"vmmem_vhost disk 0\0\0";

/// The request of a back end that calls its driver.
pub const CALL: u32 = 4;

/// What stands in place of a ring's descriptor if none comes: such a SET_VRING_KICK is a kick.
pub const NO_DESCRIPTOR: u64 = 0x100;

/// The two regions of guest memory: the guest address of each, how many bytes it has, and where it lies in the front
/// end's own memory.
pub const REGIONS: [(u64, u64, u64); 2] = [
    (0, MEMORY / 2, 0x7fff_4000_0000),
    (MEMORY / 2, MEMORY / 2, 0x7ffe_8000_0000),
];

/// Where a page of guest memory lies in the front end's own.
pub fn user_of(frame: u64) -> u64 {
    let address = frame % FRAMES * PAGE;
    let [(_, _, low), (middle, _, high)] = REGIONS;
    if address < middle {
        low.wrapping_add(address)
    } else {
        high.wrapping_add(address.wrapping_sub(middle))
    }
}

/// The first I/O address of a page.
pub fn iova_of(page: u64) -> u64 {
    IOVA.wrapping_add(page.wrapping_mul(PAGE))
}
