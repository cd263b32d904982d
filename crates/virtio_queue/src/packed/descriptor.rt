//! Descriptors of packed rings.
ghost use Rattle.std.specs.Prelude.{◌≡◌};
ghost use Rattle.virtio_queue.specs.PackedDriver.{made_available, split_of};
ghost use Rattle.virtio_queue.specs.PackedRing.{is_available, is_indirect, is_last, is_used, packed_of, plain};
ghost use Rattle.virtio_queue.specs.PackedRing.{segment_of};

use crate::descriptor::Descriptor;
use vm_memory_device::Segment;

/// The flag that a side writes as its wrap counter to give a descriptor to the other one.
pub const VRING_PACKED_DESC_F_AVAIL: u16 = 0x80;

/// The flag that a driver writes as the inverse of its wrap counter, and a device as its wrap counter.
pub const VRING_PACKED_DESC_F_USED: u16 = 0x8000;

/// A descriptor of a packed ring, as its 16 bytes lie in guest memory: the crate's README.md, "Packed queues".
#[derive(Clone, Copy, Debug, PartialEq, Eq)]
pub struct PackedDescriptor {
    /// The guest address of its segment.
    pub addr: u64,
    /// How many bytes its segment has, or, once it is used, how many the device wrote to the chain.
    pub len: u32,
    /// The driver's id for the chain, in the chain's last descriptor, and in a used one.
    pub id: u16,
    /// NEXT 1, WRITE 2, INDIRECT 4, AVAIL 0x80, USED 0x8000. Other bits are ignored.
    pub flags: u16,
}

// Whether flags say that a slot is available to a side with this wrap counter.
#[inline]
pub(super) fn is_available(flags: u16, wrap: bool) -> bool
    ensures { result ≡ is_available flags wrap }
{
    let avail = flags & VRING_PACKED_DESC_F_AVAIL != 0;
    let used = flags & VRING_PACKED_DESC_F_USED != 0;
    if wrap { avail && !used } else { !avail && used }
}

impl PackedDescriptor {
    // The packed descriptor of the same 16 bytes.
    #[inline]
    pub(super) fn of_split(descriptor: Descriptor) -> PackedDescriptor
        ensures { result ≡ packed_of descriptor }
    {
        PackedDescriptor {
            addr: descriptor.addr,
            len: descriptor.len,
            id: descriptor.flags,
            flags: descriptor.next,
        }
    }

    // The split descriptor of the same 16 bytes.
    pub(super) fn to_split(self) -> Descriptor
        ensures { result ≡ split_of self }
    {
        Descriptor {
            addr: self.addr,
            len: self.len,
            flags: self.id,
            next: self.flags,
        }
    }

    // The split descriptor of the same segment.
    #[inline]
    pub(super) fn plain(&self) -> Descriptor
        ensures { result ≡ plain self.now }
    {
        Descriptor {
            addr: self.addr,
            len: self.len,
            flags: self.flags,
            next: 0,
        }
    }

    /// Whether it is available to a side with this wrap counter: AVAIL is the counter, and USED is not.
    #[inline]
    pub fn is_available(&self, wrap: bool) -> bool
        ensures { result ≡ is_available self.now.flags wrap }
    {
        is_available(self.flags, wrap)
    }

    /// Whether it is used for a side with this wrap counter: AVAIL and USED are the counter.
    #[inline]
    pub fn is_used(&self, wrap: bool) -> bool
        ensures { result ≡ is_used self.now.flags wrap }
    {
        let avail = self.flags & VRING_PACKED_DESC_F_AVAIL != 0;
        let used = self.flags & VRING_PACKED_DESC_F_USED != 0;
        if wrap { avail && used } else { !avail && !used }
    }

    // Whether its chain ends with it: none follows, or it leads to an indirect table.
    #[inline]
    pub(super) fn is_last(&self) -> bool
        ensures { result ≡ is_last self.now }
    {
        let descriptor = self.plain();
        descriptor.refers_to_indirect_table() || !descriptor.has_next()
    }

    // Whether its segment is an indirect table.
    #[inline]
    pub(super) fn is_indirect(&self) -> bool
        ensures { result ≡ is_indirect self.now }
    {
        self.plain().refers_to_indirect_table()
    }

    // Its segment of a chain.
    #[inline]
    pub(super) fn segment(&self) -> Segment
        ensures { result ≡ segment_of self.now }
    {
        self.plain().segment()
    }

    // The same descriptor with the flags that make it available at a wrap counter.
    pub(super) fn made_available(self, wrap: bool) -> PackedDescriptor
        ensures { result ≡ made_available self wrap }
    {
        let mark = if wrap {
            VRING_PACKED_DESC_F_AVAIL
        } else {
            VRING_PACKED_DESC_F_USED
        };
        PackedDescriptor {
            flags: self.flags % VRING_PACKED_DESC_F_AVAIL + mark,
            ..self
        }
    }
}
