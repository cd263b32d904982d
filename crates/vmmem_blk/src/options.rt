//! What the arguments ask for.

use clap::builder::ValueParser;
use clap::{Arg, ArgAction, Command, value_parser};
use std::alloc::Global;
use std::env;

const ABOUT: &str =
    "Serves the requests on standard input by a virtio block device: a driver publishes each in guest \
memory, and notifies the device as the device asks it to";

const LINES: &str = "\
Lines:
  write SECTOR HEX          write bytes from a sector on; zeros fill up the last sector
  read SECTOR COUNT         read so many sectors from one on, at most 2048
  flush                     bring what was written to where it stays
  id                        ask for the name of the device
Each is answered by ok, data and the bytes, error, or unsupported. What is wrong with a line that is no request is
said on standard error, and the status is 1 in the end";

// The sizes of a queue.
const QUEUE_SIZES: &[&str] = &[
    "1", "2", "4", "8", "16", "32", "64", "128", "256", "512", "1024", "2048", "4096", "8192",
    "16384", "32768",
];

/// What is asked for.
#[derive(Drop)]
pub struct Options {
    pub disk: Option<String>,
    pub sectors: Option<u32>,
    pub read_only: bool,
    pub iommu: bool,
    pub queue_size: u16,
}

/// What came of the arguments.
#[derive(Drop)]
pub enum Arguments {
    Serve(Options),
    /// Help was printed, or what is wrong with them. The process ends with this status.
    Told(u8),
}

fn flag<'a>(alloc: Global, name: &'a str, help: &'a str) -> Arg<'a> {
    Arg::new(alloc, name)
        .long(name)
        .action(ArgAction::SetTrue)
        .help(help)
}

// An option with a value.
fn value<'a>(alloc: Global, name: &'a str, value: &'a str, help: &'a str) -> Arg<'a> {
    Arg::new(alloc, name)
        .long(name)
        .value_name(value)
        .help(help)
}

fn command<'a>(alloc: Global) -> anyhow::Result<Command<'a>> {
    let disk = value(
        alloc,
        "disk",
        "FILE",
        "the file that is the disk [default: none, a disk in memory]",
    );
    let sectors = value(
        alloc,
        "sectors",
        "N",
        "how many sectors of 512 bytes the disk has; a file is made if there is none, and gets that length \
        [default: 64, or what the file has]",
    );
    let queue_size = value(
        alloc,
        "queue-size",
        "N",
        "how many descriptors the queue has",
    );
    let command = Command::new(alloc, "vmmem_blk")
        .about(ABOUT)
        .after_help(LINES)
        .arg(disk)?
        .arg(sectors.value_parser(value_parser!(u32)))?
        .arg(flag(
            alloc,
            "read-only",
            "offer a device that only reads [default: one that writes, too]",
        ))?
        .arg(flag(
            alloc,
            "iommu",
            "put the guest's memory behind an I/O table, its pages scattered [default: plain memory]",
        ))?
        .arg(
            queue_size
                .default_value("16")
                .value_parser(ValueParser::Names(QUEUE_SIZES)),
        )?;
    Ok(command)
}

/// Reads the arguments of the process.
pub fn read_arguments(rt: &HostRuntime) -> anyhow::Result<Arguments> {
    let words: Vec<String> = env::args(rt)?.collect(rt.alloc())?;
    let matches = match command(rt.alloc())?.try_get_matches_from(words.as_slice()) {
        Ok(matches) => matches,
        Err(error) => {
            error.print(rt)?;
            return Ok(Arguments::Told(if error.use_stderr() { 2 } else { 0 }));
        }
    };
    let disk = match matches.get_str("disk") {
        Some(path) => Some(String::from_str(rt.alloc(), path)?),
        None => None,
    };
    Ok(Arguments::Serve(Options {
        disk,
        sectors: matches.get_one::<u32>("sectors"),
        read_only: matches.get_flag("read-only"),
        iommu: matches.get_flag("iommu"),
        queue_size: matches.get_one::<u16>("queue-size").unwrap_or(16),
    }))
}
