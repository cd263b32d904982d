//! What the program is asked for.

use clap::builder::ValueParser;
use clap::error::ErrorKind;
use clap::{Arg, Command, Error};
use linux_loader::{Cmdline, CmdlineError};
use std::alloc::{AllocError, Global};

// How much memory there is, in MiB, if none is asked for, and at most: 1 TiB.
const MEMORY: u64 = 128;

const MOST_MEMORY: u64 = 0x10_0000;

// How many bytes a command line has at most, with its terminating zero.
const CMDLINE_CAPACITY: usize = 0x1000;

const OFFSET: &str = "\
Where a bzImage is loaded, or how far an ELF file is moved; 0x begins a hexadecimal number \
[default: as the image says]";

const CMDLINE: &str = "\
The command line of the kernel, at most 4095 characters of printable ASCII, which is written to 0x20000 \
[default: none]";

/// The arguments.
#[derive(Drop)]
pub struct Asked<'a> {
    pub image: &'a str,
    /// How much memory there is, in MiB.
    pub memory: u64,
    pub offset: Option<u64>,
    pub cmdline: Option<Cmdline>,
    pub initrd: Option<&'a str>,
}

fn command<'a>(alloc: Global) -> Result<Command<'a>, AllocError> {
    Command::new(alloc, "vmmem_boot")
        .about("Loads a kernel, ELF or bzImage, to guest memory, and prints what lies where")
        .arg(
            Arg::new(alloc, "image")
                .value_name("IMAGE")
                .required(true)
                .help("The file of the kernel"),
        )?
        .arg(
            Arg::new(alloc, "memory")
                .long("memory")
                .value_name("MIB")
                .value_parser(ValueParser::unsigned(1, MOST_MEMORY))
                .default_value("128")
                .help("How many MiB of memory the guest has, from 1 to 1048576"),
        )?
        .arg(
            Arg::new(alloc, "offset")
                .long("offset")
                .value_name("N")
                .help(OFFSET),
        )?
        .arg(
            Arg::new(alloc, "cmdline")
                .long("cmdline")
                .value_name("TEXT")
                .help(CMDLINE),
        )?
        .arg(
            Arg::new(alloc, "initrd")
                .long("initrd")
                .value_name("FILE")
                .help("The initrd, which is loaded as high as the kernel allows [default: none]"),
        )
}

// A number in decimal digits, or in hexadecimal ones after `0x`.
fn number(text: &str) -> Option<u64> {
    match text.strip_prefix("0x") {
        Some(digits) => u64::from_str_radix(digits, 16).ok(),
        None => text.parse::<u64>().ok(),
    }
}

// The command line of a kernel.
fn line_of(alloc: Global, text: &str) -> Result<Cmdline, CmdlineError> {
    let mut line = Cmdline::new(alloc, CMDLINE_CAPACITY)?;
    line.insert_str(alloc, text)?;
    Ok(line)
}

// The command line of the kernel that is asked for. An error is one of the argument, or of memory.
fn read_line(alloc: Global, command: &mut Command<'_>, text: &str) -> Result<Cmdline, Error> {
    match line_of(alloc, text) {
        Ok(line) => Ok(line),
        Err(CmdlineError::Memory) => Err(Error::from(AllocError)),
        Err(error) => {
            let message = format!(in alloc; "invalid value for '--cmdline <TEXT>': {error}")?;
            Err(command.error(ErrorKind::ValueValidation, message.as_str())?)
        }
    }
}

/// Reads the words of a command line, of which the first is the program's name. An error is one of the arguments, or
/// has the text that was asked for by `--help`.
pub fn read_words<'a>(alloc: Global, words: &'a [String]) -> Result<Asked<'a>, Error> {
    let mut command = command(alloc)?;
    let found = command.try_get_matches_from_mut(words)?;
    let mut offset = None;
    if let Some(text) = found.get_str("offset") {
        offset = number(text);
        if offset.is_none() {
            let message = format!(in alloc;
                "invalid value '{text}' for '--offset <N>': no number"
            )?;
            return Err(command.error(ErrorKind::ValueValidation, message.as_str())?);
        }
    }
    let cmdline = match found.get_str("cmdline") {
        Some(text) => Some(read_line(alloc, &mut command, text)?),
        None => None,
    };
    Ok(Asked {
        image: found.get_str("image").unwrap_or(""),
        memory: found.get_one::<u64>("memory").unwrap_or(MEMORY),
        offset,
        cmdline,
        initrd: found.get_str("initrd"),
    })
}
