//! The driver's half of a packed queue.
ghost use Rattle.std.specs.Prelude.{◌≡◌, ◌+◌, ◌*◌, ◌<◌, ◌≤◌, ◌^◌};
ghost use Rattle.vm_memory_base.specs.declared.iotlb.Permissions.TheVariants.{Read};
ghost use Rattle.vm_memory_guest.specs.Host.{shape_of, Holds};
ghost use Rattle.virtio_queue.specs.Driver.{Puts};
ghost use Rattle.virtio_queue.specs.Fields.{Answers, MayWant, StoresWord, word_at};
ghost use Rattle.virtio_queue.specs.Packed.{moved};
ghost use Rattle.virtio_queue.specs.PackedDriver.{Publishes, after_publish, after_skip, area_of, device_of, layout_of};
ghost use Rattle.virtio_queue.specs.PackedDriver.{made_available, moved_in, next_used, offset_of, skipped, split_of};

use super::chain::packed_at;
use super::descriptor::PackedDescriptor;
use super::position::RingPosition;
use super::{PackedQueue, is_packed_size};
use crate::descriptor::Descriptor;
use crate::error::QueueError;
use crate::fields::{load_word, put_value, store_word};
use vm_memory_base::{Bitmap, ByteValued, GuestAddress};
use vm_memory_guest::{GuestMemory, HostMemory};

/// A field of 16 bits of a packed queue.
#[derive(Clone, Copy, Debug, PartialEq, Eq)]
pub enum PackedField {
    /// The flags of the descriptor in a slot.
    SlotFlags(u16),
    /// The offset and wrap counter of the slot that the driver waits for.
    DriverOffset,
    /// The driver's flags: ENABLE 0, DISABLE 1, DESC 2.
    DriverFlags,
    /// The offset and wrap counter of the slot that the device waits for.
    DeviceOffset,
    /// The device's flags.
    DeviceFlags,
}

/// The driver's half of a packed queue: for tests of devices, and for programs that play a driver. All its fields are
/// public, and any field can be set to anything, so that a driver can go wrong on purpose. It keeps no table of its
/// ids.
///
/// ```text
/// let mut driver = PackedDriver::new(GuestAddress(0x1000), 7)?;
/// let mut queue = driver.queue()?;
/// driver.publish(&memory, &mut host, descriptor)?;
/// ```
#[derive(Clone, Copy, Debug, PartialEq, Eq)]
pub struct PackedDriver {
    /// How many descriptors the ring has.
    pub size: u16,
    /// The guest address of the ring of descriptors.
    pub desc_ring: u64,
    /// The guest address of the driver's event suppression structure.
    pub driver_area: u64,
    /// The guest address of the device's event suppression structure.
    pub device_area: u64,
    /// Where the next descriptor is made available.
    pub next_avail: RingPosition,
    /// Where the next used descriptor is taken.
    pub next_used: RingPosition,
}

// The position `count` slots further, in a ring of any size.
fn moved_in(size: u16, position: RingPosition, count: u16) -> Result<RingPosition, QueueError>
    ensures { result ≡ moved_in size position count }
{
    if !is_packed_size(size) || position.slot >= size || count > size {
        return Err(QueueError::InvalidSize);
    }
    Ok(position.moved(size, count))
}

impl PackedDriver {
    /// A queue whose areas lie one after the other from an address on: the ring, the driver's area, and the device's.
    /// It writes nothing: where memory is zero, the ring is empty. `InvalidSize` if the size is not 1 to 32768,
    /// `InvalidDescTableAlign` if the address is not a multiple of 16, `AddressOverflow` if the areas pass the greatest
    /// address.
    pub fn new(base: GuestAddress, size: u16) -> Result<PackedDriver, QueueError>
        ensures { result ≡ layout_of base.0 size }
    {
        if !is_packed_size(size) {
            return Err(QueueError::InvalidSize);
        }
        if base.0 % 16 != 0 {
            return Err(QueueError::InvalidDescTableAlign);
        }
        let len = 16 * size as u64;
        if base.0 > u64::MAX - (len + 7) {
            return Err(QueueError::AddressOverflow);
        }
        Ok(PackedDriver {
            size,
            desc_ring: base.0,
            driver_area: base.0 + len,
            device_area: base.0 + (len + 4),
            next_avail: RingPosition::beginning(),
            next_used: RingPosition::beginning(),
        })
    }

    /// The device's half over the same areas: ready, with nothing popped and nothing returned. It is refused as the
    /// size or an address of the driver's half is.
    pub fn queue(&self) -> Result<PackedQueue, QueueError>
        ensures { result ≡ device_of self.now }
    {
        let mut queue = PackedQueue::new(self.size)?;
        queue.try_set_desc_ring_address(GuestAddress(self.desc_ring))?;
        queue.try_set_driver_area_address(GuestAddress(self.driver_area))?;
        queue.try_set_device_area_address(GuestAddress(self.device_area))?;
        queue.set_ready(true);
        Ok(queue)
    }

    // The start of the area of a field, and the field's offset in it.
    fn place(&self, field: PackedField) -> (u64, u64)
        ensures place { result ≡ (area_of self.now field, offset_of field) }
        ensures near { result.1 + 2 < 2 ^ 32 }
    {
        match field {
            PackedField::SlotFlags(slot) => (self.desc_ring, 16 * slot as u64 + 14),
            PackedField::DriverOffset => (self.driver_area, 0),
            PackedField::DriverFlags => (self.driver_area, 2),
            PackedField::DeviceOffset => (self.device_area, 0),
            PackedField::DeviceFlags => (self.device_area, 2),
        }
    }

    /// What lies in a field.
    pub fn field<M: GuestMemory, B: Bitmap>(
        &self,
        mem: &M,
        host: &HostMemory<B>,
        field: PackedField,
    ) -> Result<u16, QueueError>
        requires { Holds (shape_of host.now) (M.names mem.now) }
        ensures { let m = M.memory mem.now in let area = area_of self.now field in
            Answers (MayWant m host.now area (offset_of field) 2 Read)
            (word_at m host.now area (offset_of field)) result }
    {
        let (area, offset) = self.place(field);
        load_word(mem, host, area, offset)
    }

    /// Sets a field, to anything.
    pub fn set_field<M: GuestMemory, B: Bitmap>(
        &self,
        mem: &M,
        host: &mut HostMemory<B>,
        field: PackedField,
        value: u16,
    ) -> Result<(), QueueError>
        requires { Holds (shape_of host.old) (M.names mem.now) }
        ensures set { StoresWord B.marks (M.memory mem.now) (area_of self.now field) (offset_of field) value
            host.old result host.new }
        ensures shape { shape_of host.new ≡ shape_of host.old }
    {
        let (area, offset) = self.place(field);
        store_word(mem, host, area, offset, value)
    }

    /// Puts a descriptor into a slot, with any flags. If memory ends inside it, its beginning is written.
    pub fn put_descriptor<M: GuestMemory, B: Bitmap>(
        &self,
        mem: &M,
        host: &mut HostMemory<B>,
        slot: u16,
        descriptor: PackedDescriptor,
    ) -> Result<(), QueueError>
        requires { Holds (shape_of host.old) (M.names mem.now) }
        ensures put { Puts B.marks (M.memory mem.now) self.now.desc_ring (16 * slot)
            (⟦<Descriptor as ByteValued>⟧.bytes (split_of descriptor)) host.old result host.new }
        ensures shape { shape_of host.new ≡ shape_of host.old }
    {
        let bytes = descriptor.to_split();
        put_value(mem, host, self.desc_ring, 16 * slot as u64, bytes)
    }

    // Puts a descriptor into the next slot, with the flags that make it available.
    fn put_available<M: GuestMemory, B: Bitmap>(
        &self,
        mem: &M,
        host: &mut HostMemory<B>,
        descriptor: PackedDescriptor,
    ) -> Result<(), QueueError>
        requires { Holds (shape_of host.old) (M.names mem.now) }
        ensures put { let slot = made_available descriptor self.now.next_avail.wrap in
            Puts B.marks (M.memory mem.now) self.now.desc_ring (16 * self.now.next_avail.slot)
            (⟦<Descriptor as ByteValued>⟧.bytes (split_of slot)) host.old result host.new }
        ensures shape { shape_of host.new ≡ shape_of host.old }
    {
        let place = self.next_avail;
        let slot = descriptor.made_available(place.wrap);
        self.put_descriptor(mem, host, place.slot, slot)
    }

    /// Puts a descriptor into the next slot, with the flags that make it available, and moves on. A chain is put by one
    /// call for each of its descriptors, the device doing nothing meanwhile. `InvalidSize` if the ring has no such
    /// slot.
    pub fn publish<M: GuestMemory, B: Bitmap>(
        &mut self,
        mem: &M,
        host: &mut HostMemory<B>,
        descriptor: PackedDescriptor,
    ) -> Result<(), QueueError>
        requires { Holds (shape_of host.old) (M.names mem.now) }
        ensures published { let slot = made_available descriptor self.old.next_avail.wrap in
            Publishes B.marks (M.memory mem.now) self.old (⟦<Descriptor as ByteValued>⟧.bytes (split_of slot))
            host.old result host.new }
        ensures moved { self.new ≡ after_publish self.old result }
        ensures shape { shape_of host.new ≡ shape_of host.old }
    {
        match moved_in(self.size, self.next_avail, 1) {
            Ok(next) => {
                let put = self.put_available(mem, host, descriptor);
                if put.is_ok() {
                    self.next_avail = next;
                }
                put
            }
            Err(error) => Err(error),
        }
    }

    /// The id and the length in the next used descriptor, if the device has returned one. `skip` goes past it.
    pub fn next_used<M: GuestMemory, B: Bitmap>(
        &self,
        mem: &M,
        host: &HostMemory<B>,
    ) -> Result<Option<(u16, u32)>, QueueError>
        requires { Holds (shape_of host.now) (M.names mem.now) }
        ensures { let m = M.memory mem.now in
            Answers (MayWant m host.now self.now.desc_ring (16 * self.now.next_used.slot) 16 Read)
            (next_used m host.now self.now) result }
    {
        let place = self.next_used;
        let used = packed_at(mem, host, self.desc_ring, place.slot)?;
        Ok(used.is_used(place.wrap).then_some((used.id, used.len)))
    }

    /// Goes past a used descriptor: past as many slots as its chain took. `InvalidSize` if the ring has fewer.
    pub fn skip(&mut self, slots: u16) -> Result<(), QueueError>
        ensures skipped { result ≡ skipped self.old slots }
        ensures moved { self.new ≡ after_skip self.old slots }
    {
        self.next_used = moved_in(self.size, self.next_used, slots)?;
        Ok(())
    }
}
