//! A driver and a block device that talk through guest memory: it serves the requests on standard input, a line each,
//! and prints what each comes to.
#![tactic(auto)]

mod guest;
mod options;
mod request;

use anyhow::{Context, bail};
use guest::Guest;
use options::{Arguments, Options, read_arguments};
use request::{LineError, request_of};
use std::fs::File;
use std::io::BufRead;
use std::process::ExitCode;
use virtio_blk::{BlockDevice, Disk, FileDisk, MemoryDisk};

// Opens the file of a disk. With a number of sectors it is made, where it is not there, and gets that length.
fn open(rt: &HostRuntime, path: &str, options: &Options) -> anyhow::Result<File> {
    if options.read_only {
        return File::open(rt, path).context(path);
    }
    let makes = options.sectors.is_some();
    let file = File::options()
        .read(true)
        .write(true)
        .create(makes)
        .open(rt, path)
        .context(path)?;
    if let Some(sectors) = options.sectors {
        file.set_len(512 * u64::from(sectors)).context(path)?;
    }
    Ok(file)
}

// Has a line's request served, and prints its answer. It says whether the line is a request: what is wrong with one
// that is none goes to standard error, with its number.
fn answer<D: Disk>(
    rt: &HostRuntime,
    guest: &mut Guest,
    device: &mut BlockDevice<D>,
    number: u64,
    line: &[u8],
) -> anyhow::Result<bool> {
    match request_of(rt.alloc(), line) {
        Ok(request) => {
            let answer = guest.ask(rt.alloc(), device, &request)?;
            println!(rt; "{}", answer.as_str())?;
            Ok(true)
        }
        Err(LineError::Memory) => bail!("out of memory"),
        Err(error) => {
            eprintln!(rt; "line {number}: {error}")?;
            Ok(false)
        }
    }
}

// Serves the requests on standard input, and says whether each line was one.
fn serve<D: Disk>(rt: &HostRuntime, options: &Options, disk: D) -> anyhow::Result<bool> {
    let alloc = rt.alloc();
    let mut device = BlockDevice::new(
        alloc,
        disk,
        options.read_only,
        *b"vmmem_blk disk 0\0\0\0\0",
    )?;
    let mut guest = Guest::new(alloc, options.queue_size, options.iommu)?;
    guest.accept(&mut device)?;
    let mut number = 0u64;
    let mut right = true;
    for line in rt.reader().split(alloc, b'\n') {
        number = number.saturating_add(1);
        let line = line?;
        let line = line.strip_suffix(b"\r").unwrap_or(line.as_slice());
        if !answer(rt, &mut guest, &mut device, number, line)? {
            right = false;
        }
    }
    Ok(right)
}

// Serves the requests with the disk that is asked for.
fn run(rt: &HostRuntime, options: &Options) -> anyhow::Result<bool> {
    if let Some(path) = &options.disk {
        let path = path.as_str();
        let file = open(rt, path, options)?;
        if !file.metadata().context(path)?.is_file() {
            bail!("{path}: not a regular file");
        }
        return serve(rt, options, FileDisk::new(file).context(path)?);
    }
    let len = options.sectors.unwrap_or(64) as usize * 512;
    let disk = MemoryDisk::new(vec![in rt.alloc(); 0u8; len]?);
    serve(rt, options, disk)
}

fn main(rt: HostRuntime) -> anyhow::Result<ExitCode> {
    let right = match read_arguments(&rt)? {
        Arguments::Told(status) => return Ok(ExitCode::from(status)),
        Arguments::Serve(options) => run(&rt, &options)?,
    };
    Ok(if right {
        ExitCode::SUCCESS
    } else {
        ExitCode::FAILURE
    })
}
