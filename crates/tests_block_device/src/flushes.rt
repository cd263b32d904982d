//! Writes that have to be stable when their status is written, on a disk that records its calls.
ghost use Rattle.std.specs.Prelude.{◌≡◌, ℕ, List, Option, Some};

use crate::bench::{Bench, DATA, HEADER, Part, STATUS, Scene, header_of, told_of};
use std::alloc::Global;
use std::test::Fail;
use test_text::expect_text;
use virtio_blk::{Disk, DiskError, MemoryDisk};
use vm_memory_base::Bitmap;
use vm_memory_guest::GuestMemory;

// A disk that records its calls by their first letters, and refuses the call of one number.
#[derive(Drop)]
struct RecordingDisk<D> {
    disk: D,
    calls: Vec<u8>,
    refused: usize,
}

impl<D: Disk> RecordingDisk<D> {
    fn record(&mut self, call: u8) -> Result<(), DiskError>
        ensures { self.new.disk ≡ self.old.disk }
    {
        let number = self.calls.len();
        if self.calls.push(call).is_err() || number == self.refused {
            return Err(DiskError::Refused);
        }
        Ok(())
    }
}

impl<D: Disk> Disk for RecordingDisk<D> {
    ghost bytes = { λ d. D.bytes d.disk };

    ghost sectors = { λ d. D.sectors d.disk };

    ghost calls = { λ d call done later. Unit {0} };

    fn sectors(&self) -> u64 {
        self.disk.sectors()
    }

    fn read(&mut self, sector: u64, buf: &mut [u8]) -> Result<(), DiskError> {
        self.record(b'r')?;
        self.disk.read(sector, buf)
    }

    fn write(&mut self, sector: u64, data: &[u8]) -> Result<(), DiskError> {
        self.record(b'w')?;
        self.disk.write(sector, data)
    }

    fn flush(&mut self) -> Result<(), DiskError> {
        self.record(b'f')?;
        self.disk.flush()
    }

    ghost whole = { λ d all e. D.whole d.disk all e };
}

const VERSION_1: u64 = 0x1_0000_0000;

const FLUSH: u64 = 0x200;

const NEVER: usize = 99;

// The features that the driver accepts, where it accepts some, the kind and the sector of a request, how many bytes it
// moves, the number of the call that the disk refuses, and what is told: the calls, and the status.
type Case = (Option<u64>, u32, u64, u32, usize, &'static str);

// The disk has 512 sectors.
static CASES: [Case; 16] = [
    // A write is followed by a flush, where the driver cannot ask for one.
    (None, 1, 0, 512, NEVER, "wf 0"),
    (Some(VERSION_1), 1, 0, 512, NEVER, "wf 0"),
    (Some(VERSION_1 | FLUSH), 1, 0, 512, NEVER, "w 0"),
    (None, 1, 0, 2 * 65536 + 512, NEVER, "wwwf 0"),
    (
        Some(VERSION_1 | FLUSH),
        1,
        0,
        2 * 65536 + 512,
        NEVER,
        "www 0",
    ),
    // It fails where the flush does.
    (None, 1, 0, 512, 1, "wf 1"),
    (Some(VERSION_1), 1, 0, 65536 + 512, 2, "wwf 1"),
    (Some(VERSION_1 | FLUSH), 1, 0, 512, 1, "w 0"),
    // One that fails needs none, and one of no sector neither.
    (None, 1, 0, 512, 0, "w 1"),
    (None, 1, 0, 65536 + 512, 1, "ww 1"),
    (None, 1, 512, 512, NEVER, " 1"),
    (None, 1, 0, 0, NEVER, " 0"),
    // Other requests.
    (None, 0, 0, 512, NEVER, "r 0"),
    (None, 4, 0, 0, NEVER, "f 0"),
    (Some(VERSION_1 | FLUSH), 4, 0, 0, 0, "f 1"),
    (None, 8, 0, 20, NEVER, " 0"),
];

impl<D: Disk> Scene<RecordingDisk<D>> for Case {
    fn tell<M: GuestMemory, B: Bitmap>(
        &self,
        alloc: Global,
        bench: &mut Bench<M, B, RecordingDisk<D>>,
        told: &mut String,
    ) -> Result<(), Fail> {
        let (features, kind, sector, len, _, _) = *self;
        if let Some(features) = features {
            if !bench.device.ack_features(features) {
                return Err(Fail::new("the features are refused"));
            }
        }
        let data: Part = (DATA, len, kind != 1);
        let parts = [(HEADER, 16, false), data, (STATUS, 1, true)];
        bench.ask(header_of(kind, sector), &parts)?;
        let status = bench.get(alloc, STATUS, 1)?;
        let status = status.first().copied().unwrap_or(99);
        for call in bench.device.disk().calls.iter() {
            told.push(char::from(*call))?;
        }
        write!(told, " {status}")?;
        Ok(())
    }
}

#[test]
fn writes_stay_where_drivers_cannot_flush(rt: HostRuntime) -> Result<(), Fail> {
    for (number, case) in CASES.iter().enumerate() {
        let disk = RecordingDisk {
            disk: MemoryDisk::new(vec![in rt.alloc(); 0u8; 512 * 512]?),
            calls: Vec::new(rt.alloc()),
            refused: case.4,
        };
        let told = told_of(rt.alloc(), number % 2 == 1, disk, false, case)?;
        expect_text(number, told.as_str(), case.5)?;
    }
    Ok(())
}
