//! Runs the script on standard input, and writes its replies to standard output.
#![tactic(auto)]

use clap::error::ErrorKind;
use clap::{Command, Error};
use std::alloc::Global;
use std::env::{Env, FillError};
use std::io;
use std::process::ExitCode;
use vm_memory::{DriveFault, drive};

// The names of the Rust crate 0.18.0, and the number of the port.
const VERSION: &str = "0.1.0";

// What `--help` prints after the usage. docs/SCRIPT.md has the same lines with their replies and refusals.
const LINES: &str = "\
Setup, before the first command:
  block SIZE PAGE           make a block of host memory, with dirty pages of PAGE bytes
  space SIZE PAGE           make a bitmap for SIZE I/O addresses
  table                     make an I/O table
  table LIMIT               make an I/O table that keeps at most LIMIT ranges
  region B A                make a region: block B at guest address A
  translator T              make an IOMMU that translates by table T
Commands:
  layout R ..               make a layout of regions
  insert L R                make a layout with a region more
  remove L A N              make a layout without its region of N bytes at A
  plain L                   make a memory of a layout
  memory L X S on|off       make a memory behind IOMMU X, whose writes mark space S
  replace M L               make a memory like M of another layout
  enable M on|off           turn the IOMMU of a memory on or off
  read M A N                read at most N bytes
  write M A BYTES           write as many bytes as fit
  readx M A N               read exactly N bytes
  writex M A BYTES          write all bytes
  store M W A VALUE         store a value of W bytes in one access
  load M W A                load a value of W bytes in one access
  from M A N SOURCE         receive at most N bytes
  fromx M A N SOURCE        receive exactly N bytes
  to M A N SINK             send at most N bytes
  tox M A N SINK            send exactly N bytes
  check M A N PERM          ask whether N bytes may be accessed
  copy B A N B2 A2 N2       copy bytes of a block to a block
  set T A TARGET N PERM     map N I/O addresses from A to those from TARGET
  invalidate T A N          invalidate the mappings of N I/O addresses
  clear T                   invalidate all mappings
  lookup T A N PERM         ask where N I/O addresses lead
  dirty block|space NUMBER  list the dirty pages
  harvest block|space NUMBER
                            list the dirty pages, and make them clean
Words:
  BYTES is hexadecimal, or - for none; PERM is no, r, w or rw; W is 1, 2, 4 or 8
  SOURCE is - or steps g:BYTES, i:BYTES, f:BYTES: give, be interrupted, fail
  SINK is - or steps t:NUMBER, i, f: take at most, be interrupted, fail
  steps have commas between; numbers are decimal or 0x..; a line # .. is a comment";

// The option that an argument is, if it is one.
fn option_of(word: &[u8]) -> Option<&'static str> {
    match word {
        b"--help" | b"-h" => Some("--help"),
        b"--version" | b"-V" => Some("--version"),
        _ => None,
    }
}

// The first option among the arguments. All other arguments are ignored, also one that is longer than this buffer.
fn option_asked(rt: &HostRuntime) -> Option<&'static str> {
    let mut buf = [0u8; 16];
    for place in 1..usize::MAX {
        let asked = match rt.arg(place, &mut buf) {
            Ok(len) => option_of(&buf[..len]),
            Err(FillError::TooLong) => None,
            Err(FillError::NotPresent) => return None,
        };
        if asked.is_some() {
            return asked;
        }
    }
    None
}

// The text of the help or of the version. It comes as an error, which may also be that memory is wanting.
fn text_of(alloc: Global, option: &str) -> Result<(), Error> {
    let words = ["vmmem", option];
    Command::new(alloc, "vmmem")
        .version(VERSION)
        .about(
            "Runs the script on standard input, and prints a reply for each line. Other arguments are ignored",
        )
        .after_help(LINES)
        .try_get_matches_from(&words)?;
    Ok(())
}

// Prints the help or the version.
fn answer_option(rt: &HostRuntime, option: &str) -> Result<(), DriveFault> {
    match text_of(rt.alloc(), option) {
        Ok(()) => Ok(()),
        Err(error) if error.kind() == ErrorKind::OutOfMemory => Err(DriveFault::Memory),
        Err(error) => error.print(rt).map_err(|_| DriveFault::Write),
    }
}

// Does what the arguments ask for, or else runs the script.
fn run(rt: &HostRuntime) -> Result<(), DriveFault> {
    match option_asked(rt) {
        Some(option) => answer_option(rt, option),
        None => drive(rt.alloc(), &mut rt.reader(), &mut io::writer(rt)),
    }
}

fn main(rt: HostRuntime) -> ExitCode {
    match run(&rt) {
        Ok(()) => ExitCode::SUCCESS,
        Err(fault) => {
            let _ = eprintln!(rt; "{fault}");
            ExitCode::from(fault.status())
        }
    }
}
