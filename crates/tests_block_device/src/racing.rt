//! The steps of a request over memory that its driver writes after each access.
ghost use Rattle.std.specs.Prelude.{ℕ};

use std::test::Fail;
use test_text::expect_text;
use virtio_blk::{DeviceLimits, Fetches, Puts, begin_from, finish_from};
use vm_memory_base::GuestAddress;
use vm_memory_device::{Chain, ChainReader, ChainWriter, Segment};
use vm_memory_guest::GuestMemoryResult;

// A look finds eight bytes, of which the first counts the looks before it. So a header has kind 0 and sector 1, and one
// that is looked at again has others.
#[derive(Drop)]
struct Racing {
    looks: u8,
    stores: u8,
    status: u8,
}

impl Fetches for Racing {
    ghost fetches = { λ old es n found new. Unit {0} };

    fn fetch(&mut self, reader: &mut ChainReader<'_>, buf: &mut [u8]) -> GuestMemoryResult<usize> {
        let count = reader.skip(buf.len().min(8));
        buf[0] = self.looks;
        self.looks = self.looks.saturating_add(1);
        Ok(count)
    }
}

impl Puts for Racing {
    ghost puts = { λ old es bytes stored new. Unit {0} };

    fn put(&mut self, writer: &mut ChainWriter<'_>, buf: &[u8]) -> GuestMemoryResult<usize> {
        self.status = buf[0];
        self.stores = self.stores.saturating_add(1);
        Ok(writer.skip(buf.len()))
    }
}

#[test]
fn headers_are_what_the_first_looks_found(rt: HostRuntime) -> Result<(), Fail> {
    let mut segments = Vec::new(rt.alloc());
    for (addr, len, writable) in [(0x1000, 16, false), (0x2000, 513, true)] {
        segments.push(Segment {
            addr: GuestAddress(addr),
            len,
            writable,
        })?;
    }
    let chain = Chain::new(segments)?;
    let limits = DeviceLimits {
        sectors: 2,
        read_only: false,
        acked: 0,
        seg_max: None,
        size_max: None,
    };
    let mut guest = Racing {
        looks: 0,
        stores: 0,
        status: 9,
    };
    let request = begin_from(limits, &mut guest, &chain)?;
    let len = finish_from(&mut guest, &chain, 0, 512)?;
    let told = format!(in rt.alloc();
        "{request:?} {len} {} {} {}",
        guest.looks, guest.stores, guest.status
    )?;
    expect_text(0, told.as_str(), "Read { sector: 1, len: 512 } 513 2 1 0")
}
