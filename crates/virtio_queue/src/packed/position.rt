//! Where a side stands in a packed ring.
ghost use Rattle.std.specs.Prelude.{◌≡◌, ◌+◌, ◌-◌, ◌^◌, ◌<◌, ◌≤◌, IsTrue};
ghost use Rattle.virtio_queue.specs.Packed.{are_positions, beginning, is_same, moved, of_bits, slot_after, slots_out};
ghost use Rattle.virtio_queue.specs.Packed.{to_bits};

/// Where a side of a packed queue stands: a slot of the ring, and the wrap counter of that side, which is true at first
/// and flips each time that the side passes the end of the ring.
#[derive(Clone, Copy, Debug, PartialEq, Eq)]
pub struct RingPosition {
    /// The index of a descriptor of the ring.
    pub slot: u16,
    /// The wrap counter.
    pub wrap: bool,
}

// Whether two wrap counters are the same.
#[inline]
fn is_same(first: bool, second: bool) -> bool
    ensures { result ≡ is_same first second }
{
    if first { second } else { !second }
}

impl RingPosition {
    /// Where both sides begin: at the first slot, with a wrap counter of 1.
    #[inline]
    pub fn beginning() -> RingPosition
        ensures { result ≡ beginning }
    {
        RingPosition {
            slot: 0,
            wrap: true,
        }
    }

    /// The position of these 16 bits: the slot, and the wrap counter in bit 15.
    #[inline]
    pub fn from_bits(bits: u16) -> RingPosition
        ensures position { result ≡ of_bits bits }
        ensures small { result.slot < 2 ^ 15 }
    {
        RingPosition {
            slot: bits % 0x8000,
            wrap: bits >= 0x8000,
        }
    }

    /// As 16 bits: the slot modulo 2^15, and the wrap counter in bit 15.
    #[inline]
    pub fn to_bits(self) -> u16
        ensures { result ≡ to_bits self }
    {
        let slot = self.slot % 0x8000;
        if self.wrap { slot + 0x8000 } else { slot }
    }

    // As 16 bits, the position `count` slots further.
    pub(crate) fn bits_after(self, size: u16, count: u16) -> u16
        ensures { result ≡ to_bits (moved size self count) }
    {
        let slot = u32::from(self.slot) + u32::from(count);
        let size = u32::from(size);
        let (slot, wrap) = if slot < size {
            (slot, self.wrap)
        } else {
            (slot - size, !self.wrap)
        };
        let low = (slot % 0x8000) as u16;
        if wrap { low + 0x8000 } else { low }
    }

    /// The position `count` slots further, at most the size: past the end the wrap counter flips.
    #[inline]
    pub fn moved(self, size: u16, count: u16) -> RingPosition
        requires fits { size ≤ 2 ^ 15 }
        requires slot { self.slot < size }
        requires count { count ≤ size }
        ensures moved { result ≡ moved size self count }
        ensures slot { result.slot < size }
    {
        let slot = self.slot + count;
        if slot < size {
            return RingPosition {
                slot,
                wrap: self.wrap,
            };
        }
        RingPosition {
            slot: slot - size,
            wrap: !self.wrap,
        }
    }
}

// Whether a device can stand so.
#[inline]
pub(super) fn are_positions(size: u16, avail: RingPosition, used: RingPosition) -> bool
    ensures { result ≡ are_positions size avail used }
{
    if avail.slot >= size || used.slot >= size {
        return false;
    }
    if is_same(avail.wrap, used.wrap) {
        used.slot <= avail.slot
    } else {
        avail.slot <= used.slot
    }
}

// How many slots are out: those of chains that were popped and not returned.
#[inline]
pub(super) fn slots_out(size: u16, avail: RingPosition, used: RingPosition) -> u16
    requires fits { size ≤ 2 ^ 15 }
    requires positions { IsTrue (are_positions size avail used) }
    ensures out { result ≡ slots_out size avail used }
    ensures within { result ≤ size }
{
    if is_same(avail.wrap, used.wrap) {
        avail.slot - used.slot
    } else {
        size + avail.slot - used.slot
    }
}

// The slot after one.
#[inline]
pub(super) fn slot_after(size: u16, slot: u16) -> u16
    requires { slot < size }
    ensures after { result ≡ slot_after size slot }
    ensures within { result < size }
{
    if slot + 1 < size { slot + 1 } else { 0 }
}
