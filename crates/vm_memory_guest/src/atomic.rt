//! Guest memory that a thread may replace while others use snapshots of it.
ghost use Rattle.std.specs.Prelude.{◌≡◌, ⊤};

use crate::address_space::GuestAddressSpace;
use crate::guest_memory::GuestMemory;
use crossbeam_utils::CachePadded;
use std::alloc::{AllocError, Global};
use std::marker::Model;
use std::mem;
use std::ops::Deref;
use std::sync::atomic::{AtomicU64, Ordering};
use std::sync::{Arc, Mutex, MutexGuard, RwLock, Wait};
use vm_memory_base::Lends;

// The memory that snapshots are taken of, the turn of those that replace it, and how often it was replaced. The number
// changes only under the write lock, so it belongs to the memory that a reader of the lock finds. It has a cache line
// of its own: whoever looks at it shares that line with no one who takes a lock.
#[derive(Drop)]
struct Current<M> {
    memory: RwLock<Arc<M>>,
    turn: Mutex<()>,
    replaced: CachePadded<AtomicU64>,
}

impl<M: GuestMemory + Drop> Current<M> {
    // A snapshot, and how often the memory had been replaced when it was taken.
    fn snapshot(&self, rt: &impl Wait) -> Result<(u64, GuestMemoryLoadGuard<M>), AllocError> {
        let last = self.memory.read(rt);
        let replaced = self.replaced.load(Ordering::SeqCst);
        let memory = Arc::try_clone(&*last)?;
        Ok((replaced, GuestMemoryLoadGuard { memory }))
    }
}

/// Guest memory that threads share, and that one of them may replace as a whole.
///
/// A snapshot is shared under a lock that is held for nothing else, so it never waits for a thread that makes a
/// layout. No clause names what a lock keeps; tests show which memory a snapshot is of.
///
/// Leaves open: which memory a snapshot is of, whether a replacement is made, and a failed allocation at any time.
#[derive(Drop)]
pub struct GuestMemoryAtomic<M: GuestMemory + Drop> {
    current: Arc<Current<M>>,
}

impl<M: GuestMemory + Drop> GuestMemoryAtomic<M> {
    /// Shares a memory. `AllocError` if an allocation fails.
    pub fn new(alloc: Global, memory: M) -> Result<GuestMemoryAtomic<M>, AllocError> {
        GuestMemoryAtomic::from_arc(alloc, Arc::new(alloc, memory)?)
    }

    /// Shares a memory that is shared already. `AllocError` if the allocation of its locks fails.
    pub fn from_arc(alloc: Global, memory: Arc<M>) -> Result<GuestMemoryAtomic<M>, AllocError> {
        let current = Current {
            memory: RwLock::new(memory),
            turn: Mutex::new(()),
            replaced: CachePadded::new(AtomicU64::new(0)),
        };
        Ok(GuestMemoryAtomic {
            current: Arc::new(alloc, current)?,
        })
    }

    /// Takes the turn to replace the memory. It waits while another thread has it. Snapshots are taken as before.
    pub fn lock(&self, rt: &impl Wait) -> GuestMemoryExclusiveGuard<'_, M> {
        GuestMemoryExclusiveGuard {
            current: &*self.current,
            _turn: self.current.turn.lock(rt),
        }
    }

    /// A reader for one thread, which keeps a snapshot and renews it when the memory was replaced. It may wait for a
    /// replacement that is being made. `AllocError` if the memory or its locks have 2^63 - 1 owners.
    pub fn reader(&self, rt: &impl Wait) -> Result<GuestMemoryReader<M>, AllocError> {
        let current = Arc::try_clone(&self.current)?;
        let (seen, snapshot) = current.snapshot(rt)?;
        Ok(GuestMemoryReader {
            current,
            seen,
            snapshot,
        })
    }
}

/// The clone shares the memory, and sees each replacement. `AllocError` past 2^63 - 1 owners.
impl<M: GuestMemory + Drop> Clone for GuestMemoryAtomic<M> {
    ghost is_clone = { λ _ _. ⊤ };

    fn clone(&self) -> Result<Self, AllocError> {
        Ok(GuestMemoryAtomic {
            current: Arc::try_clone(&self.current)?,
        })
    }
}

impl<M: GuestMemory + Drop> GuestAddressSpace for GuestMemoryAtomic<M> {
    type M = M;

    type T = GuestMemoryLoadGuard<M>;

    ghost may_be = { λ _ _. ⊤ };

    fn memory(
        &self,
        rt: &impl Wait,
        _alloc: Global,
    ) -> Result<GuestMemoryLoadGuard<M>, AllocError> {
        let memory = Arc::try_clone(&*self.current.memory.read(rt))?;
        Ok(GuestMemoryLoadGuard { memory })
    }
}

/// A snapshot of a memory that may have been replaced since. It never changes.
#[derive(Drop)]
pub struct GuestMemoryLoadGuard<M: GuestMemory + Drop> {
    memory: Arc<M>,
}

impl<M: GuestMemory + Drop> Model for GuestMemoryLoadGuard<M> {
    ghost Value = { M };

    ghost view = { λ guard. guard.memory.value };
}

impl<M: GuestMemory + Drop> GuestMemoryLoadGuard<M> {
    /// Gives the owner of the memory.
    pub fn into_inner(self) -> Arc<M>
        ensures { result.value ≡ self }
    {
        let GuestMemoryLoadGuard { memory } = self;
        memory
    }
}

/// The clone is a snapshot of the same memory. `AllocError` past 2^63 - 1 owners.
impl<M: GuestMemory + Drop> Clone for GuestMemoryLoadGuard<M> {
    ghost is_clone = { λ old new. new ≡ old };

    fn clone(&self) -> Result<Self, AllocError> {
        Ok(GuestMemoryLoadGuard {
            memory: Arc::try_clone(&self.memory)?,
        })
    }
}

impl<M: GuestMemory + Drop> Lends for GuestMemoryLoadGuard<M> {
    type Target = M;

    ghost lent = { λ memory. memory };

    #[inline]
    fn lend(&self) -> &M {
        &*self.memory
    }
}

impl<M: GuestMemory + Drop> Deref for GuestMemoryLoadGuard<M> {
    type Target = M;

    ghost deref_gives = { λ guard memory. memory ≡ guard };

    #[inline]
    fn deref(&self) -> &M {
        &*self.memory
    }
}

/// A reader of a memory that may be replaced, for one thread: it keeps a snapshot, and checks at each call whether that
/// is still of the current memory. `GuestMemoryAtomic::reader` makes it.
///
/// As long as the memory is not replaced, a call takes no lock and writes nothing that threads share. A device thread
/// asks its reader for the memory at each request:
///
/// ```text
/// let mut reader = space.reader(&rt)?;
/// for request in requests {
///     let memory = reader.memory(&rt)?;
///     memory.lend().write(&mut host, request.bytes, request.address)?;
/// }
/// ```
///
/// The reader owns its snapshot, so a memory that was replaced stays until each of its readers was asked again or
/// dropped.
///
/// Leaves open: which memory it lends, and a failed allocation at any time.
#[derive(Drop)]
pub struct GuestMemoryReader<M: GuestMemory + Drop> {
    current: Arc<Current<M>>,
    seen: u64,
    snapshot: GuestMemoryLoadGuard<M>,
}

impl<M: GuestMemory + Drop> GuestMemoryReader<M> {
    /// Lends the snapshot that the reader keeps, once it is of the current memory: if the memory was replaced since the
    /// last call, a new snapshot replaces the old one first. Only then may it wait, for a replacement that
    /// is being made. So each replacement made before the call is seen, and an older memory is never lent after a
    /// newer one.
    ///
    /// What is lent stays as it is for as long as it is lent. A clone of it may be kept while the reader
    /// goes on. `AllocError` if the new memory has 2^63 - 1 owners. Then the reader keeps the old snapshot, and the
    /// next call tries again.
    #[inline(always)]
    pub fn memory(&mut self, rt: &impl Wait) -> Result<&GuestMemoryLoadGuard<M>, AllocError> {
        if self.current.replaced.load(Ordering::SeqCst) != self.seen {
            self.renew(rt)?;
        }
        Ok(&self.snapshot)
    }

    // Takes a snapshot of the last memory in place of the one that is kept.
    #[inline(never)]
    fn renew(&mut self, rt: &impl Wait) -> Result<(), AllocError> {
        let (seen, snapshot) = self.current.snapshot(rt)?;
        self.seen = seen;
        self.snapshot = snapshot;
        Ok(())
    }
}

/// The turn to replace a memory.
#[derive(Drop)]
pub struct GuestMemoryExclusiveGuard<'a, M: GuestMemory + Drop> {
    current: &'a Current<M>,
    _turn: MutexGuard<'a, ()>,
}

impl<'a, M: GuestMemory + Drop> GuestMemoryExclusiveGuard<'a, M> {
    /// Replaces the memory, and ends the turn. It waits for snapshots that are being taken. Snapshots that were
    /// taken before stay as they are. `AllocError` if the allocation to share the new memory fails, and then the
    /// old one stays.
    pub fn replace(self, rt: &impl Wait, alloc: Global, memory: M) -> Result<(), AllocError> {
        let memory = Arc::new(alloc, memory)?;
        let mut last = self.current.memory.write(rt);
        let old = mem::replace(&mut *last, memory);
        self.current.replaced.fetch_add(1, Ordering::SeqCst);
        drop(last);
        drop(old);
        Ok(())
    }
}
