//! A struct of fixed fields as a value: the header of a request to a block device.
ghost use Rattle.std.specs.Prelude.{◌≡◌, refl};
ghost use Rattle.std.specs.Int.{w32, w64};
ghost use Rattle.vm_memory_base.specs.lemmas.ByteCodes.{wrapped_code, unsigned_code, length-low};
ghost use Rattle.vm_memory_base.specs.lemmas.PairCodes.{pair_code};

use std::alloc::Global;
use vm_memory::{ByteSized, ByteValued, Bytes, GuestAddress, GuestMemoryMmap, HostMemory};

/// What a request asks for, as it lies in guest memory.
#[derive(Clone, Copy, Debug, PartialEq, Eq)]
pub struct Header {
    pub kind: u32,
    pub reserved: u32,
    pub sector: u64,
}

// The fields in order, as a nest of pairs. The struct has the bytes of these.
type Fields = (u32, (u32, u64));

fn header_of(fields: Fields) -> Header
    ensures { result ≡ record { kind = fields.0; reserved = fields.1.0; sector = fields.1.1 } }
{
    let (kind, (reserved, sector)) = fields;
    Header {
        kind,
        reserved,
        sector,
    }
}

impl ByteSized for Header {
    ghost width = { 16 };
}

impl ByteValued for Header {
    ghost is_value = { λ h. ⟦<Fields as ByteValued>⟧.is_value (h.kind, (h.reserved, h.sector)) };

    ghost bytes = { λ h. ⟦<Fields as ByteValued>⟧.bytes (h.kind, (h.reserved, h.sector)) };

    ghost value_of = { λ s. let p = ⟦<Fields as ByteValued>⟧.value_of s in
        record { kind = p.0; reserved = p.1.0; sector = p.1.1 } };

    fn size() -> usize {
        16
    }

    fn byte(&self, i: usize) -> u8 {
        (self.kind, (self.reserved, self.sector)).byte(i)
    }

    fn set_byte(&mut self, i: usize, b: u8) {
        let mut fields = (self.kind, (self.reserved, self.sector));
        fields.set_byte(i, b);
        *self = header_of(fields);
    }

    fn zeroed() -> Header {
        header_of(Fields::zeroed())
    }

    fn from_slice(data: &[u8]) -> Option<Header> {
        Fields::from_slice(data).map(header_of)
    }

    fn to_slice(&self, out: &mut [u8]) -> bool {
        (self.kind, (self.reserved, self.sector)).to_slice(out)
    }

    fn recall_law(&self) {
        (self.kind, (self.reserved, self.sector)).recall_law();
    }

    // A pair's bytes stand for its values as those of both parts do.
    ghost laws = { wrapped_code (λ h. (h.kind, (h.reserved, h.sector)))
        (λ p. record { kind = p.0; reserved = p.1.0; sector = p.1.1 }) (λ h. refl) (λ p. refl)
        (pair_code (unsigned_code w32) (length-low 0 4)
        (pair_code (unsigned_code w32) (length-low 0 4) (unsigned_code w64))) };
}

/// Writes a header, and reads one of its fields and all of it.
pub fn a_struct_of_ones_own(rt: &impl Print, alloc: Global) -> anyhow::Result<()> {
    let mut host = HostMemory::<()>::new(alloc);
    let ranges = [(GuestAddress(0), 0x1000)];
    let memory = GuestMemoryMmap::from_ranges(alloc, &mut host, &ranges)?;
    let header = Header {
        kind: 1,
        reserved: 0,
        sector: 0x1_0000_0002,
    };
    memory.write_obj(&mut host, header, GuestAddress(0x20))?;
    let sector = memory.read_obj::<u64, _>(&host, GuestAddress(0x28))?;
    let back = memory.read_obj::<Header, _>(&host, GuestAddress(0x20))?;
    println!(rt; "sector {sector:#x}, same {}", back == header)?;
    Ok(())
}
