//! The bytes of the region of requests in flight, which outlives the back end.
ghost use Rattle.std.specs.Prelude.{◌≡◌, ◌+◌, ◌≤◌, ◌++◌, [], IfOk, Some, drop, length, take};
ghost use Rattle.vhost_inflight.specs.Store.{stored};
ghost use Rattle.vhost_backend.specs.Region.{region_bytes};

use std::alloc::{AllocError, Global};
use std::marker::Model;
use std::sync::atomic::{AtomicU64, Ordering};
use vhost_inflight::{Store, Value};
use vm_memory_guest::BlockBytes;

/// A copy of bytes of a region.
#[derive(Drop)]
pub struct RegionBytes {
    bytes: Vec<u8>,
}

impl Model for RegionBytes {
    ghost use Rattle.std.specs.Prelude.{List, ℕ};

    ghost Value = { List ℕ };

    ghost view = { λ b. b.bytes.items };
}

impl RegionBytes {
    /// The bytes.
    pub fn as_slice(&self) -> &[u8]
        ensures { result.now ≡ self.now }
    {
        self.bytes.as_slice()
    }
}

/// Bytes at a place of the program's that another process may keep, or none.
#[derive(Drop)]
pub struct Region {
    bytes: Option<BlockBytes>,
    // Stores are plain moves, which a compiler reorders: a step on a word that nothing else uses keeps them apart.
    order: AtomicU64,
}

impl Model for Region {
    ghost use Rattle.std.specs.Prelude.{List, ℕ};
    ghost use Rattle.vhost_backend.specs.Region.{region_bytes};

    ghost Value = { List ℕ };

    ghost view = { λ r. region_bytes r.bytes };
}

// Puts bytes in place of others.
fn put(bytes: &mut [u8], offset: usize, new: &[u8])
    requires { offset + length new.now ≤ length bytes.old }
    ensures { bytes.new ≡ take offset bytes.old ++ (new.now ++ drop (offset + length new.now) bytes.old) }
{
    bytes[offset..offset + new.len()].copy_from_slice(new);
}

// The bytes of a region after a store.
fn store_in(bytes: &mut [u8], store: Store)
    ensures { bytes.new ≡ stored bytes.old store }
{
    let (len, offset) = (bytes.len(), store.offset);
    match store.value {
        Value::Byte(value) => {
            if offset < len {
                put(bytes, offset, &[value]);
            }
        }
        Value::Word(value) => {
            if len >= 2 && offset <= len - 2 {
                put(bytes, offset, &value.to_le_bytes());
            }
        }
        Value::Quad(value) => {
            if len >= 8 && offset <= len - 8 {
                put(bytes, offset, &value.to_le_bytes());
            }
        }
    }
}

// At most so many bytes from one on.
fn part_of(bytes: &[u8], offset: usize, len: usize) -> &[u8]
    ensures { result.now ≡ take len (drop offset bytes.now) }
{
    let from = offset.min(bytes.len());
    let rest = &bytes[from..];
    &rest[..len.min(rest.len())]
}

impl Region {
    /// No bytes.
    pub fn none() -> Region
        ensures { result ≡ [] }
    {
        Region {
            bytes: None,
            order: AtomicU64::new(0),
        }
    }

    /// These bytes from now on.
    pub fn set(&mut self, bytes: BlockBytes)
        ensures { self.new ≡ region_bytes (Some bytes) }
    {
        self.bytes = Some(bytes);
    }

    /// A copy of at most so many bytes from one on.
    pub fn read(&self, alloc: Global, offset: usize, len: usize) -> Result<RegionBytes, AllocError>
        ensures { IfOk result (λ bytes. bytes ≡ take len (drop offset self.now)) }
    {
        let bytes = match &self.bytes {
            Some(BlockBytes::Owned(bytes)) => part_of(bytes.as_slice(), offset, len),
            Some(BlockBytes::Lent(bytes)) => part_of(bytes.as_slice(), offset, len),
            None => &[],
        };
        Ok(RegionBytes {
            bytes: bytes.to_vec(alloc)?,
        })
    }

    /// Stores a number, after all that was stored before and before all that is stored later. One that does not lie in
    /// the region changes nothing.
    pub fn store(&mut self, store: Store)
        ensures { self.new ≡ stored self.old store }
    {
        self.order.fetch_add(1, Ordering::SeqCst);
        match &mut self.bytes {
            Some(BlockBytes::Owned(bytes)) => store_in(bytes.as_mut_slice(), store),
            Some(BlockBytes::Lent(bytes)) => store_in(bytes.as_mut_slice(), store),
            None => {}
        }
        self.order.fetch_add(1, Ordering::SeqCst);
    }
}
