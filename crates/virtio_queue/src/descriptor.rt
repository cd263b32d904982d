//! Descriptors: what a driver says of one segment of a chain.
ghost use Rattle.std.specs.Prelude.{◌≡◌, refl};
ghost use Rattle.std.specs.Int.{w16, w32, w64};
ghost use Rattle.vm_memory_base.specs.lemmas.ByteCodes.{wrapped_code, unsigned_code, length-low};
ghost use Rattle.vm_memory_base.specs.lemmas.PairCodes.{pair_code};

use vm_memory_base::{ByteSized, ByteValued, GuestAddress};
use vm_memory_device::Segment;

/// The flag of a descriptor that leads to a next one.
pub const VRING_DESC_F_NEXT: u16 = 1;

/// The flag of a descriptor whose segment the device writes.
pub const VRING_DESC_F_WRITE: u16 = 2;

/// The flag of a descriptor whose segment is an indirect table.
pub const VRING_DESC_F_INDIRECT: u16 = 4;

/// A descriptor, as its 16 bytes lie in guest memory: the crate's README.md, "Descriptors".
#[derive(Clone, Copy, Debug, PartialEq, Eq)]
pub struct Descriptor {
    /// The guest address of its segment.
    pub addr: u64,
    /// How many bytes its segment has.
    pub len: u32,
    /// NEXT 1, WRITE 2, INDIRECT 4. Other bits are ignored.
    pub flags: u16,
    /// The index of the next descriptor, if NEXT says that there is one.
    pub next: u16,
}

// The fields in order, as a nest of pairs. A descriptor has the bytes of these.
type Fields = (u64, (u32, (u16, u16)));

fn descriptor_of(fields: Fields) -> Descriptor
    ensures { result ≡ record { addr = fields.0; len = fields.1.0; flags = fields.1.1.0; next = fields.1.1.1 } }
{
    let (addr, (len, (flags, next))) = fields;
    Descriptor {
        addr,
        len,
        flags,
        next,
    }
}

impl ByteSized for Descriptor {
    ghost width = { 16 };
}

impl ByteValued for Descriptor {
    ghost is_value = { λ d. ⟦<Fields as ByteValued>⟧.is_value (d.addr, (d.len, (d.flags, d.next))) };

    ghost bytes = { λ d. ⟦<Fields as ByteValued>⟧.bytes (d.addr, (d.len, (d.flags, d.next))) };

    ghost value_of = { λ s. let p = ⟦<Fields as ByteValued>⟧.value_of s in
        record { addr = p.0; len = p.1.0; flags = p.1.1.0; next = p.1.1.1 } };

    #[inline]
    fn size() -> usize {
        16
    }

    fn byte(&self, i: usize) -> u8 {
        (self.addr, (self.len, (self.flags, self.next))).byte(i)
    }

    fn set_byte(&mut self, i: usize, b: u8) {
        let mut fields = (self.addr, (self.len, (self.flags, self.next)));
        fields.set_byte(i, b);
        *self = descriptor_of(fields);
    }

    #[inline]
    fn zeroed() -> Descriptor {
        descriptor_of(Fields::zeroed())
    }

    #[inline]
    fn from_slice(data: &[u8]) -> Option<Descriptor> {
        Fields::from_slice(data).map(descriptor_of)
    }

    #[inline]
    fn to_slice(&self, out: &mut [u8]) -> bool {
        (self.addr, (self.len, (self.flags, self.next))).to_slice(out)
    }

    #[inline]
    fn recall_law(&self) {
        (self.addr, (self.len, (self.flags, self.next))).recall_law();
    }

    // A pair's bytes stand for its values as those of both parts do.
    ghost laws = { wrapped_code (λ d. (d.addr, (d.len, (d.flags, d.next))))
        (λ p. record { addr = p.0; len = p.1.0; flags = p.1.1.0; next = p.1.1.1 }) (λ d. refl) (λ p. refl)
        (pair_code (unsigned_code w64) (length-low 0 8)
        (pair_code (unsigned_code w32) (length-low 0 4)
        (pair_code (unsigned_code w16) (length-low 0 2) (unsigned_code w16)))) };
}

impl Descriptor {
    ghost use Rattle.std.specs.Prelude.{◌≡◌};
    ghost use Rattle.virtio_queue.specs.Descriptor.{has_next, is_write_only, is_indirect, segment_of};

    /// Whether it leads to a next descriptor.
    #[inline]
    pub fn has_next(&self) -> bool
        ensures { result ≡ has_next self.now }
    {
        self.flags & VRING_DESC_F_NEXT != 0
    }

    /// Whether the device writes its segment. Else the device reads it.
    #[inline]
    pub fn is_write_only(&self) -> bool
        ensures { result ≡ is_write_only self.now }
    {
        self.flags & VRING_DESC_F_WRITE != 0
    }

    /// Whether its segment is an indirect table.
    #[inline]
    pub fn refers_to_indirect_table(&self) -> bool
        ensures { result ≡ is_indirect self.now }
    {
        self.flags & VRING_DESC_F_INDIRECT != 0
    }

    // Its segment of a chain.
    #[inline]
    pub(crate) fn segment(&self) -> Segment
        ensures { result ≡ segment_of self.now }
    {
        Segment {
            addr: GuestAddress(self.addr),
            len: self.len,
            writable: self.is_write_only(),
        }
    }
}
