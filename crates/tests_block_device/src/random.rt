//! Random requests, compared with a plain model of a disk.

use crate::bench::{Bench, DATA, HEADER, STATUS, Scene, header_of, told_of};
use std::alloc::Global;
use std::test::Fail;
use test_text::next_number;
use virtio_blk::MemoryDisk;
use vm_memory_base::Bitmap;
use vm_memory_guest::GuestMemory;

const SECTORS: u64 = 40;

// What a request is: its kind, its sector, how many bytes its data has, and where that is cut.
#[derive(Drop)]
struct Request {
    kind: u32,
    sector: u64,
    len: u32,
    cut: u32,
}

fn draw(state: &mut u64) -> Request {
    let kind = [0, 0, 0, 1, 1, 1, 4, 8, 9, 11][(next_number(state) % 10) as usize];
    let sector = next_number(state) % (SECTORS + 2);
    let odd = if next_number(state) % 8 == 0 { 1 } else { 0 };
    let len = (next_number(state) % 10 * 512 + odd) as u32;
    let cut = (next_number(state) % (len as u64 + 1)) as u32;
    Request {
        kind,
        sector,
        len,
        cut,
    }
}

// The model: the status of a request, and what becomes of the disk and of the data.
fn serve_plainly(request: &Request, disk: &mut [u8], data: &mut [u8], name: &[u8; 20]) -> u8 {
    let start = request.sector as usize % 1000 * 512;
    let moves = request.kind < 2;
    if moves && (request.len % 512 != 0 || start + data.len() > disk.len()) {
        return 1;
    }
    match request.kind {
        0 => {
            for (i, byte) in data.iter_mut().enumerate() {
                *byte = disk.get(start + i).copied().unwrap_or(0);
            }
            0
        }
        1 => {
            for (i, byte) in data.iter().enumerate() {
                if let Some(place) = disk.get_mut(start + i) {
                    *place = *byte;
                }
            }
            0
        }
        4 => 0,
        8 => {
            for (byte, of_name) in data.iter_mut().zip(name.iter()) {
                *byte = *of_name;
            }
            0
        }
        _ => 2,
    }
}

// Asks the device and the model, and tells whether they agree.
fn agree<M: GuestMemory, B: Bitmap>(
    alloc: Global,
    bench: &mut Bench<M, B, MemoryDisk>,
    disk: &mut [u8],
    state: &mut u64,
) -> Result<bool, Fail> {
    let request = draw(state);
    let len = request.len as usize;
    let mut data = Vec::new(alloc);
    for _ in 0..len {
        data.push((next_number(state) & 0xff) as u8)?;
    }
    bench.put(DATA, data.as_slice())?;
    let writable = request.kind != 1;
    let rest = request.len.saturating_sub(request.cut);
    let parts = [
        (HEADER, 16, false),
        (DATA, request.cut, writable),
        (DATA + request.cut as u64, rest, writable),
        (STATUS, 1, true),
    ];
    bench.ask(header_of(request.kind, request.sector), &parts)?;
    let status = serve_plainly(&request, disk, data.as_mut_slice(), &crate::bench::NAME);
    let told = bench.get(alloc, STATUS, 1)?;
    let now = bench.get(alloc, DATA, len)?;
    Ok(
        told.as_slice() == [status].as_slice()
            && now.as_slice() == data.as_slice()
            && bench.device.disk().bytes() == &*disk,
    )
}

// A thousand requests.
fn all_agree<M: GuestMemory, B: Bitmap>(
    alloc: Global,
    bench: &mut Bench<M, B, MemoryDisk>,
    disk: &mut [u8],
) -> Result<(), Fail> {
    let mut state = 1;
    for number in 0..1000 {
        if !agree(alloc, bench, disk, &mut state)? {
            return Err(Fail::new(format_args!("request {number}")));
        }
    }
    Ok(())
}

#[derive(Clone, Copy)]
struct Random;

impl Scene<MemoryDisk> for Random {
    fn tell<M: GuestMemory, B: Bitmap>(
        &self,
        alloc: Global,
        bench: &mut Bench<M, B, MemoryDisk>,
        _told: &mut String,
    ) -> Result<(), Fail> {
        let mut disk = vec![in alloc; 0u8; SECTORS as usize * 512]?;
        all_agree(alloc, bench, disk.as_mut_slice())
    }
}

#[test]
fn random_requests_as_a_plain_disk(rt: HostRuntime) -> Result<(), Fail> {
    for scattered in [false, true] {
        let disk = MemoryDisk::new(vec![in rt.alloc(); 0u8; SECTORS as usize * 512]?);
        told_of(rt.alloc(), scattered, disk, false, &Random)?;
    }
    Ok(())
}
