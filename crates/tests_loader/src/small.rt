//! The small bzImage of the program that loads images, which tools/make_boot_images.py writes.

use crate::images::{BZ, put};
use linux_loader::{BzImage, ImageBytes, LoaderError};
use std::alloc::{AllocError, Global};
use std::test::Fail;
use test_text::expect_text;
use vm_memory_base::{Bitmap, GuestAddress};
use vm_memory_guest::{Bytes, GuestMemory, GuestMemoryMmap, HostMemory};

const START: u64 = 0x10_0000;

const COUNT: usize = 1000;

// The image: 1024 bytes of zeros with a header, and the kernel.
fn image(alloc: Global) -> Result<Vec<u8>, AllocError> {
    let mut bytes = Vec::new(alloc);
    for _ in 0..1024 {
        bytes.push(0)?;
    }
    for i in 0..COUNT {
        bytes.push(kernel_byte(i))?;
    }
    for edit in BZ {
        put(&mut bytes, edit);
    }
    put(&mut bytes, (0x214, 4, START));
    put(&mut bytes, (0x230, 4, 0x1000));
    put(&mut bytes, (0x234, 1, 1));
    put(&mut bytes, (0x258, 8, START));
    put(&mut bytes, (0x260, 4, 0x1000));
    Ok(bytes)
}

fn kernel_byte(i: usize) -> u8 {
    (i.wrapping_mul(7).wrapping_add(3) % 251) as u8
}

// Loads the image, and tells whether memory has the kernel's bytes then.
fn loads<M: GuestMemory, B: Bitmap>(
    alloc: Global,
    host: &mut HostMemory<B>,
    memory: &M,
) -> Result<Result<bool, LoaderError>, Fail> {
    let bytes = image(alloc)?;
    let mut image = ImageBytes::new(bytes.as_slice());
    if !host.holds(memory) {
        return Err(Fail::new("the host does not hold the memory"));
    }
    if let Err(error) = BzImage::load(alloc, memory, host, None, &mut image, None) {
        return Ok(Err(error));
    }
    let mut kernel = vec![in alloc; 0u8; COUNT]?;
    memory.read_slice(host, kernel.as_mut_slice(), GuestAddress(START))?;
    let mut same = true;
    for (i, byte) in kernel.as_slice().iter().enumerate() {
        same = same && *byte == kernel_byte(i);
    }
    Ok(Ok(same))
}

#[test]
fn the_small_bzimage_of_the_program(rt: HostRuntime) -> Result<(), Fail> {
    let mut host = HostMemory::<()>::new(rt.alloc());
    let ranges = [(GuestAddress(START), 0x1000)];
    let memory = GuestMemoryMmap::from_ranges(rt.alloc(), &mut host, &ranges)?;
    let loaded = loads(rt.alloc(), &mut host, &memory)?;
    let told = format!(in rt.alloc(); "{loaded:?}")?;
    expect_text(0, told.as_str(), "Ok(true)")
}
