//! Runs scripts, each on a machine of its own, and compares the replies with those that are recorded for them; or
//! records the machine's own replies.
#![tactic(auto)]

mod compare;
mod replay;
mod sections;
#[cfg(test)]
mod tests;

use clap::error::ErrorKind;
use clap::{Arg, ArgAction, Command, Error};
use replay::{ReplayFault, Replies, Tally, record};
use sections::{Section, sections_of};
use std::alloc::Global;
use std::io::{self, IsTerminal, Write};
use std::process::ExitCode;
use std::{env, fs};

const ABOUT: &str = "\
Runs scripts, each on a machine of its own, and compares the replies with recorded ones. It prints the first line of \
each script that differs, and ends with status 1 if any does";

// What the program was asked to do.
#[derive(Drop)]
struct Asked<'a> {
    scripts: &'a str,
    // None: record the replies.
    replies: Option<&'a str>,
    // How many scripts that differ are told.
    most: usize,
}

fn read_words<'a>(alloc: Global, words: &'a [String]) -> Result<Asked<'a>, Error> {
    let scripts = Arg::new(alloc, "SCRIPTS")
        .help("A file of scripts, each after a line `# script N`")
        .required(true);
    let replies = Arg::new(alloc, "REPLIES")
        .help("A file of the replies to each, after the same lines; not with --record")
        .required_unless_present("record")?;
    let record = Arg::new(alloc, "record")
        .long("record")
        .help("Print the machine's own replies in the form of REPLIES")
        .action(ArgAction::SetTrue)
        .conflicts_with("REPLIES")?;
    let all = Arg::new(alloc, "all")
        .long("all")
        .help("Show all scripts that differ, and not only the first ten")
        .action(ArgAction::SetTrue);
    let command = Command::new(alloc, "vmmem_replay")
        .about(ABOUT)
        .arg(scripts)?
        .arg(replies)?
        .arg(record)?
        .arg(all)?;
    let matches = command.try_get_matches_from(words)?;
    Ok(Asked {
        scripts: matches.get_str("SCRIPTS").unwrap_or(""),
        replies: matches.get_str("REPLIES"),
        most: if matches.get_flag("all") {
            usize::MAX
        } else {
            10
        },
    })
}

// Why the program ends with another status than 0 or 1.
#[derive(Drop)]
enum Stop {
    // Its arguments are wrong, or its help was asked for.
    Asked(Error),
    // An argument or a file cannot be read, or a file has no script.
    File,
    // There is no memory, or the output failed.
    Replay(ReplayFault),
}

impl From<Error> for Stop {
    fn from(error: Error) -> Stop {
        if error.kind() == ErrorKind::OutOfMemory {
            return Stop::Replay(ReplayFault::Memory);
        }
        Stop::Asked(error)
    }
}

impl From<ReplayFault> for Stop {
    fn from(fault: ReplayFault) -> Stop {
        Stop::Replay(fault)
    }
}

// Why an argument or a file cannot be read: there is no memory, or what it says of the place.
fn stop_at(rt: &HostRuntime, place: &str, error: &io::Error) -> Stop {
    if error.kind() == io::ErrorKind::OutOfMemory {
        return Stop::Replay(ReplayFault::Memory);
    }
    let _ = eprintln!(rt; "{place}: {error}");
    Stop::File
}

fn arguments(rt: &HostRuntime) -> Result<Vec<String>, Stop> {
    let words = env::args(rt).map_err(|error| stop_at(rt, "arguments", &error))?;
    Ok(words.collect(rt.alloc()).map_err(ReplayFault::from)?)
}

// The bytes of a file. If it cannot be read, the program says so.
fn read_file(rt: &HostRuntime, path: &str) -> Result<Vec<u8>, Stop> {
    fs::read(rt, path).map_err(|error| stop_at(rt, path, &error))
}

// The sections of the text of a file. If it has none, the program says so.
fn sections_in<'a>(rt: &HostRuntime, path: &str, text: &'a [u8]) -> Result<Vec<Section<'a>>, Stop> {
    match sections_of(rt.alloc(), text) {
        Ok(Some(sections)) => Ok(sections),
        Ok(None) => {
            let _ = eprintln!(rt; "{path}: does not begin with a line `# script N`");
            Err(Stop::File)
        }
        Err(_) => Err(Stop::Replay(ReplayFault::Memory)),
    }
}

// Tells a person how far it is.
fn tell_progress(rt: &HostRuntime, done: usize, all: usize) {
    if rt.stderr().is_terminal() {
        let _ = eprint!(rt; "\r{done} of {all} scripts ");
    }
}

// Records the replies, and answers whether no script has a bad line.
fn record_all<W: Write>(
    rt: &HostRuntime,
    path: &str,
    scripts: &[Section<'_>],
    out: &mut W,
) -> Result<bool, Stop> {
    let mut good = true;
    for script in scripts {
        if let Some(line) = record(rt.alloc(), script, out)? {
            let _ = eprintln!(rt; "{path}: line {line}: bad line");
            good = false;
        }
    }
    Ok(good)
}

// Compares the replies, and answers whether none differs.
fn replay_all<W: Write>(
    rt: &HostRuntime,
    scripts: &[Section<'_>],
    replies: &[Section<'_>],
    most: usize,
    out: &mut W,
) -> Result<bool, Stop> {
    let mut tally = Tally::new(most);
    let mut recorded = Replies::new(rt.alloc(), replies).map_err(ReplayFault::from)?;
    for (done, script) in scripts.iter().enumerate() {
        tell_progress(rt, done, scripts.len());
        tally.replay(rt.alloc(), script, recorded.take(script.number), out)?;
    }
    tell_progress(rt, scripts.len(), scripts.len());
    recorded.tell_left(&mut tally, out)?;
    tally.tell_sum(out)?;
    Ok(tally.differ == 0)
}

// Does what was asked, and answers whether nothing differs.
fn run<W: Write>(rt: &HostRuntime, words: &[String], out: &mut W) -> Result<bool, Stop> {
    let asked = read_words(rt.alloc(), words)?;
    let text = read_file(rt, asked.scripts)?;
    let scripts = sections_in(rt, asked.scripts, text.as_slice())?;
    let Some(path) = asked.replies else {
        return record_all(rt, asked.scripts, scripts.as_slice(), out);
    };
    let recorded = read_file(rt, path)?;
    let replies = sections_in(rt, path, recorded.as_slice())?;
    replay_all(rt, scripts.as_slice(), replies.as_slice(), asked.most, out)
}

// The status: 0 if nothing differs, 1 if something does, 2 if a file cannot be used or an argument is wrong, 3 if there
// is no memory or the output fails.
fn status_of(rt: &HostRuntime, outcome: Result<bool, Stop>) -> io::Result<u8> {
    match outcome {
        Ok(true) => Ok(0),
        Ok(false) => Ok(1),
        Err(Stop::Asked(error)) => {
            error.print(rt)?;
            Ok(if error.use_stderr() { 2 } else { 0 })
        }
        Err(Stop::File) => Ok(2),
        Err(Stop::Replay(fault)) => {
            eprintln!(rt; "{fault}")?;
            Ok(3)
        }
    }
}

fn main(rt: HostRuntime) -> io::Result<ExitCode> {
    let outcome = match arguments(&rt) {
        Ok(words) => run(&rt, words.as_slice(), &mut io::writer(&rt)),
        Err(stop) => Err(stop),
    };
    Ok(ExitCode::from(status_of(&rt, outcome)?))
}
