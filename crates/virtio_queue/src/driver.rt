//! The driver's half of a queue.
ghost use Rattle.std.specs.Prelude.{◌≡◌, ◌+◌, ◌*◌, ◌<◌, ◌^◌};
ghost use Rattle.vm_memory_guest.specs.Host.{shape_of, Holds};
ghost use Rattle.virtio_queue.specs.Driver.{MayWantField, MayWantNext, Publishes, Puts, after_publish, after_take};
ghost use Rattle.virtio_queue.specs.Driver.{device_of, field_at, layout_of, next_entry, offset_of, ring_of};
ghost use Rattle.virtio_queue.specs.Fields.{Answers, StoresWord};

use crate::descriptor::Descriptor;
use crate::error::QueueError;
use crate::fields::{load_word, put_value, read_pair, store_word};
use crate::queue::{Queue, is_size};
use vm_memory_base::{Bitmap, ByteValued, GuestAddress};
use vm_memory_guest::{GuestMemory, HostMemory};

/// A field of 16 bits of the rings of a queue.
#[derive(Clone, Copy, Debug, PartialEq, Eq)]
pub enum QueueField {
    /// The flags of the available ring: NO_INTERRUPT is 1.
    AvailFlags,
    /// The driver's index.
    AvailIdx,
    /// The head in a slot of the available ring.
    AvailHead(u16),
    /// The index of the used entry that the driver waits for, after the available ring.
    UsedEvent,
    /// The flags of the used ring: NO_NOTIFY is 1.
    UsedFlags,
    /// The device's index.
    UsedIdx,
    /// The index of the head that the device waits for, after the used ring.
    AvailEvent,
}

/// The driver's half of a queue: for tests of devices, and for programs that play a driver. All its fields are public,
/// and any field of the rings can be set to anything, so that a driver can go wrong on purpose.
///
/// ```text
/// let mut driver = DriverQueue::new(GuestAddress(0x1000), 16)?;
/// let mut queue = driver.queue()?;
/// driver.put_descriptor(&memory, &mut host, 0, descriptor)?;
/// driver.publish(&memory, &mut host, 0)?;
/// ```
#[derive(Clone, Copy, Debug, PartialEq, Eq)]
pub struct DriverQueue {
    /// How many descriptors the table has, and how many entries each ring has.
    pub size: u16,
    /// The guest address of the table of descriptors.
    pub desc_table: u64,
    /// The guest address of the available ring.
    pub avail_ring: u64,
    /// The guest address of the used ring.
    pub used_ring: u64,
    /// How many heads were published, modulo 2^16.
    pub next_avail: u16,
    /// How many used entries were taken, modulo 2^16.
    pub next_used: u16,
}

impl DriverQueue {
    /// A queue whose areas lie one after the other from an address on: the table, the available ring, and the used
    /// ring at the next multiple of 4. It writes nothing: where memory is zero, the rings are empty. `InvalidSize`
    /// if the size is not a power of two from 1 to 32768, `InvalidDescTableAlign` if the address is not a multiple
    /// of 16, `AddressOverflow` if the areas pass the greatest address.
    pub fn new(base: GuestAddress, size: u16) -> Result<DriverQueue, QueueError>
        ensures { result ≡ layout_of base.0 size }
    {
        if !is_size(size) {
            return Err(QueueError::InvalidSize);
        }
        if base.0 % 16 != 0 {
            return Err(QueueError::InvalidDescTableAlign);
        }
        let n = size as u64;
        let used = (18 * n + 9) / 4 * 4;
        if base.0 > u64::MAX - (used + 5 + 8 * n) {
            return Err(QueueError::AddressOverflow);
        }
        Ok(DriverQueue {
            size,
            desc_table: base.0,
            avail_ring: base.0 + 16 * n,
            used_ring: base.0 + used,
            next_avail: 0,
            next_used: 0,
        })
    }

    /// The device's half over the same areas: ready, with nothing popped and nothing returned. It is refused as the
    /// size or an address of the driver's half is.
    pub fn queue(&self) -> Result<Queue, QueueError>
        ensures { result ≡ device_of self.now }
    {
        let mut queue = Queue::new(self.size)?;
        queue.try_set_desc_table_address(GuestAddress(self.desc_table))?;
        queue.try_set_avail_ring_address(GuestAddress(self.avail_ring))?;
        queue.try_set_used_ring_address(GuestAddress(self.used_ring))?;
        queue.set_ready(true);
        Ok(queue)
    }

    // The start of the ring of a field, and the field's offset in it.
    fn place(&self, field: QueueField) -> (u64, u64)
        ensures place { result ≡ (ring_of self.now field, offset_of self.now field) }
        ensures near { result.1 + 2 < 2 ^ 32 }
    {
        let n = self.size as u64;
        match field {
            QueueField::AvailFlags => (self.avail_ring, 0),
            QueueField::AvailIdx => (self.avail_ring, 2),
            QueueField::AvailHead(slot) => (self.avail_ring, 4 + 2 * slot as u64),
            QueueField::UsedEvent => (self.avail_ring, 4 + 2 * n),
            QueueField::UsedFlags => (self.used_ring, 0),
            QueueField::UsedIdx => (self.used_ring, 2),
            QueueField::AvailEvent => (self.used_ring, 4 + 8 * n),
        }
    }

    /// What lies in a field of the rings.
    pub fn field<M: GuestMemory, B: Bitmap>(
        &self,
        mem: &M,
        host: &HostMemory<B>,
        field: QueueField,
    ) -> Result<u16, QueueError>
        requires { Holds (shape_of host.now) (M.names mem.now) }
        ensures { let m = M.memory mem.now in
            Answers (MayWantField m host.now self.now field) (field_at m host.now self.now field) result }
    {
        let (ring, offset) = self.place(field);
        load_word(mem, host, ring, offset)
    }

    /// Sets a field of the rings, to anything.
    pub fn set_field<M: GuestMemory, B: Bitmap>(
        &self,
        mem: &M,
        host: &mut HostMemory<B>,
        field: QueueField,
        value: u16,
    ) -> Result<(), QueueError>
        requires { Holds (shape_of host.old) (M.names mem.now) }
        ensures set { StoresWord B.marks (M.memory mem.now) (ring_of self.now field) (offset_of self.now field) value
            host.old result host.new }
        ensures shape { shape_of host.new ≡ shape_of host.old }
    {
        let (ring, offset) = self.place(field);
        store_word(mem, host, ring, offset, value)
    }

    /// Puts a descriptor into the table, at any index. If memory ends inside it, its beginning is written.
    pub fn put_descriptor<M: GuestMemory, B: Bitmap>(
        &self,
        mem: &M,
        host: &mut HostMemory<B>,
        index: u16,
        descriptor: Descriptor,
    ) -> Result<(), QueueError>
        requires { Holds (shape_of host.old) (M.names mem.now) }
        ensures put { Puts B.marks (M.memory mem.now) self.now.desc_table (16 * index)
            (⟦<Descriptor as ByteValued>⟧.bytes descriptor) host.old result host.new }
        ensures shape { shape_of host.new ≡ shape_of host.old }
    {
        put_value(mem, host, self.desc_table, 16 * index as u64, descriptor)
    }

    /// Publishes a head: it goes into the next slot of the available ring, and after it the index. `InvalidSize`
    /// if the size is 0.
    ///
    /// Leaves open: for a failed allocation, whether the head is stored.
    pub fn publish<M: GuestMemory, B: Bitmap>(
        &mut self,
        mem: &M,
        host: &mut HostMemory<B>,
        head: u16,
    ) -> Result<(), QueueError>
        requires { Holds (shape_of host.old) (M.names mem.now) }
        ensures published { Publishes B.marks (M.memory mem.now) self.old head host.old result host.new }
        ensures moved { self.new ≡ after_publish self.old result }
        ensures shape { shape_of host.new ≡ shape_of host.old }
    {
        if self.size == 0 {
            return Err(QueueError::InvalidSize);
        }
        let slot = self.next_avail % self.size;
        let next = self.next_avail.wrapping_add(1);
        store_word(mem, host, self.avail_ring, 4 + 2 * slot as u64, head)?;
        store_word(mem, host, self.avail_ring, 2, next)?;
        self.next_avail = next;
        Ok(())
    }

    /// Takes the next used entry, if the device has published one: a head, and how many bytes the device wrote.
    /// `InvalidSize` if the size is 0.
    pub fn take_used<M: GuestMemory, B: Bitmap>(
        &mut self,
        mem: &M,
        host: &HostMemory<B>,
    ) -> Result<Option<(u32, u32)>, QueueError>
        requires { Holds (shape_of host.now) (M.names mem.now) }
        ensures taken { let m = M.memory mem.now in
            Answers (MayWantNext m host.now self.old) (next_entry m host.now self.old) result }
        ensures moved { self.new ≡ after_take self.old result }
    {
        if self.size == 0 {
            return Err(QueueError::InvalidSize);
        }
        if load_word(mem, host, self.used_ring, 2)? == self.next_used {
            return Ok(None);
        }
        let slot = self.next_used % self.size;
        let entry = read_pair(mem, host, self.used_ring, 4 + 8 * slot as u64)?;
        self.next_used = self.next_used.wrapping_add(1);
        Ok(Some(entry))
    }
}
