//! What the program is asked for.
ghost use Rattle.std.specs.Prelude.{◌≡◌, ◌+◌, ◌<◌, ◌≤◌, ◌⊎◌, ◌↔◌, IsTrue};

use clap::builder::ValueParser;
use clap::error::ErrorKind;
use clap::{Arg, ArgAction, ArgMatches, Command, Error};
use live_migration::{Options, Policy, Stop};
use std::alloc::{AllocError, Global};

/// The guest that is sent.
#[derive(Clone, Copy)]
pub struct Load {
    /// The bytes of its memory.
    pub size: usize,
    /// The bytes of a page.
    pub page_size: usize,
    /// How many threads write it.
    pub threads: u64,
    /// How many pages they write in a second, all together.
    pub rate: u64,
    /// What decides the bytes of its memory and which pages are written.
    pub seed: u64,
    /// How many of each eight pages stay zero.
    pub zeros: u64,
}

/// What is asked of the sending end.
#[derive(Clone, Copy)]
pub struct Sending<'a> {
    pub load: Load,
    pub policy: Policy,
    /// What the stream has.
    pub options: Options,
    /// How many bytes go over the stream in a second at most.
    pub bandwidth: Option<u64>,
    /// Where a picture of the rounds goes.
    pub svg: Option<&'a str>,
    /// Whether both ends compare digests of the blocks.
    pub verify: bool,
    /// Whether times are printed.
    pub times: bool,
}

/// What is asked of the receiving end.
#[derive(Clone, Copy)]
pub struct Receiving {
    /// How many bytes of memory a sender may ask for.
    pub limit: u64,
    /// Whether both ends compare digests of the blocks.
    pub verify: bool,
}

/// The end that runs here, with its address.
#[derive(Clone, Copy)]
pub enum Asked<'a> {
    Receive(&'a str, Receiving),
    Send(&'a str, Sending<'a>),
    Demo(Receiving, Sending<'a>),
}

// Where a receiver listens if it is not told.
const LOOPBACK: &str = "127.0.0.1:7447";

// The most memory: 1 TiB.
const MOST_MEMORY: u64 = 0x100_0000_0000;

// The largest page that a migration may have.
const MOST_PAGE: u64 = 0x10_0000;

// The least bandwidth, in bytes a second: a batch has to come within the time that a receiver gives a frame.
const LEAST_BANDWIDTH: u64 = 0x10_0000;

// The longest downtime, in milliseconds: a day.
const MOST_DOWNTIME: u64 = 86_400_000;

// How many threads write at most.
const MOST_THREADS: u64 = 64;

const ABOUT: &str = "Moves a guest's memory to another process in rounds, while threads write it";

const UNITS: &str = "\
SIZE is a number of bytes, or of KiB, MiB or GiB with K, M or G after it. The stream is neither encrypted nor
authenticated: it belongs in a tunnel.";

// An option with a text.
fn text<'a>(
    alloc: Global,
    name: &'a str,
    value: &'a str,
    default: &'a str,
    help: &'a str,
) -> Arg<'a> {
    Arg::new(alloc, name)
        .long(name)
        .value_name(value)
        .default_value(default)
        .help(help)
}

// An option with a number from `least` to `most`.
fn number<'a>(
    alloc: Global,
    name: &'a str,
    bounds: (u64, u64),
    default: &'a str,
    help: &'a str,
) -> Arg<'a> {
    let (least, most) = bounds;
    text(alloc, name, "N", default, help).value_parser(ValueParser::unsigned(least, most))
}

fn flag<'a>(alloc: Global, name: &'a str, help: &'a str) -> Arg<'a> {
    Arg::new(alloc, name)
        .long(name)
        .action(ArgAction::SetTrue)
        .help(help)
}

fn address<'a>(alloc: Global, help: &'a str) -> Arg<'a> {
    Arg::new(alloc, "address")
        .value_name("ADDR")
        .default_value(LOOPBACK)
        .help(help)
}

fn verify<'a>(alloc: Global) -> Arg<'a> {
    flag(
        alloc,
        "verify",
        "compare SHA-256 of whole blocks after the pause; both ends have to be asked for it [default: off]",
    )
}

fn limit<'a>(alloc: Global) -> Arg<'a> {
    text(
        alloc,
        "limit",
        "SIZE",
        "4G",
        "the most memory that a sender may ask for, its blocks and the states of its devices",
    )
}

// The options of the guest.
fn with_load<'a>(alloc: Global, command: Command<'a>) -> Result<Command<'a>, AllocError> {
    command
        .arg(text(alloc, "size", "SIZE", "64M", "the memory of the guest"))?
        .arg(text(alloc, "page-size", "SIZE", "4K", "the bytes of a page"))?
        .arg(number(
            alloc,
            "threads",
            (1, MOST_THREADS),
            "4",
            "how many threads write the guest, 1 to 64",
        ))?
        .arg(number(
            alloc,
            "rate",
            (0, u64::MAX),
            "10000",
            "how many pages they write in a second, all together",
        ))?
        .arg(number(
            alloc,
            "seed",
            (0, u64::MAX),
            "1",
            "what decides the bytes of the memory and which pages are written",
        ))?
        .arg(number(
            alloc,
            "zeros",
            (0, 7),
            "1",
            "how many of each eight pages stay zero, 0 to 7",
        ))
}

// The options of a sending end.
fn with_sending<'a>(alloc: Global, command: Command<'a>) -> Result<Command<'a>, AllocError> {
    with_load(alloc, command)?
        .arg(number(
            alloc,
            "max-rounds",
            (1, u64::MAX),
            "30",
            "how many rounds there are at most, with the last one, in which the guest stands",
        ))?
        .arg(number(
            alloc,
            "stop-below",
            (0, u64::MAX),
            "100",
            "the guest stops when fewer pages than these are dirty",
        ))?
        .arg(
            Arg::new(alloc, "downtime")
                .long("downtime")
                .value_name("MS")
                .value_parser(ValueParser::unsigned(1, MOST_DOWNTIME))
                .help(
                    "the guest stops when what is left takes fewer milliseconds than these at the rate of the last \
                     rounds, in place of --stop-below [default: off]",
                ),
        )?
        .arg(
            Arg::new(alloc, "bandwidth")
                .long("bandwidth")
                .value_name("SIZE")
                .help(
                    "how many bytes of pages are sent in a second at most, 1M or more [default: no limit]",
                ),
        )?
        .arg(flag(
            alloc,
            "digests",
            "send SHA-256 of all that was sent with each end of a round, which both ends compute [default: off]",
        ))?
        .arg(
            Arg::new(alloc, "svg").long("svg").value_name("FILE").help(
                "draw the rounds as a picture into this file [default: no picture]",
            ),
        )?
        .arg(verify(alloc))
}

fn receive_command<'a>(alloc: Global) -> Result<Command<'a>, AllocError> {
    Command::new(alloc, "receive")
        .about("Waits for a guest, and takes it")
        .after_help(UNITS)
        .arg(address(alloc, "where to listen"))?
        .arg(limit(alloc))?
        .arg(verify(alloc))
}

fn send_command<'a>(alloc: Global) -> Result<Command<'a>, AllocError> {
    let command = Command::new(alloc, "send")
        .about("Makes a guest, lets threads write it by the clock, and sends it")
        .after_help(UNITS)
        .arg(address(alloc, "where the receiver listens"))?;
    with_sending(alloc, command)
}

fn demo_command<'a>(alloc: Global) -> Result<Command<'a>, AllocError> {
    let command = Command::new(alloc, "demo")
        .about(
            "Is both ends, over loopback; the writes are counted, so that it prints the same each time",
        )
        .after_help(UNITS)
        .arg(limit(alloc))?
        .arg(flag(
            alloc,
            "times",
            "print how long each round took, in milliseconds, and its rate [default: off]",
        ))?;
    with_sending(alloc, command)
}

fn command<'a>(alloc: Global) -> Result<Command<'a>, AllocError> {
    Command::new(alloc, "vmmem_migrate")
        .about(ABOUT)
        .subcommand_required(true)
        .subcommand(receive_command(alloc)?)?
        .subcommand(send_command(alloc)?)?
        .subcommand(demo_command(alloc)?)
}

// A number of bytes.
fn bytes_of(text: &str) -> Option<u64> {
    for (suffix, unit) in [("K", 0x400), ("M", 0x10_0000), ("G", 0x4000_0000)] {
        if let Some(digits) = text.strip_suffix(suffix) {
            return digits.parse::<u64>().ok()?.checked_mul(unit);
        }
    }
    text.parse::<u64>().ok()
}

// An option whose value is no size between two.
struct NoSize<'a> {
    name: &'static str,
    value: &'a str,
    bounds: (u64, u64),
}

// The bytes that an option says, if they are between two.
fn bytes_in<'a>(
    found: &ArgMatches<'a>,
    name: &'static str,
    bounds: (u64, u64),
) -> Result<u64, NoSize<'a>> {
    let value = found.get_str(name).unwrap_or("");
    match bytes_of(value) {
        Some(bytes) if bytes >= bounds.0 && bytes <= bounds.1 => Ok(bytes),
        _ => Err(NoSize {
            name,
            value,
            bounds,
        }),
    }
}

// The number that an option says. Each has a default.
fn number_in(found: &ArgMatches<'_>, name: &str) -> u64 {
    found.get_one::<u64>(name).unwrap_or(0)
}

fn load_in<'a>(found: &ArgMatches<'a>) -> Result<Load, NoSize<'a>> {
    Ok(Load {
        size: bytes_in(found, "size", (1, MOST_MEMORY))? as usize,
        page_size: bytes_in(found, "page-size", (1, MOST_PAGE))? as usize,
        threads: number_in(found, "threads"),
        rate: number_in(found, "rate"),
        seed: number_in(found, "seed"),
        zeros: number_in(found, "zeros"),
    })
}

// When the guest stops: within a downtime, if there is one, and else below a number of pages.
fn stop_in(found: &ArgMatches<'_>) -> Stop {
    match found.get_one::<u64>("downtime") {
        Some(millis) => Stop::Within(millis.saturating_mul(1000)),
        None => Stop::Below(number_in(found, "stop-below")),
    }
}

fn bandwidth_in<'a>(found: &ArgMatches<'a>) -> Result<Option<u64>, NoSize<'a>> {
    match found.get_str("bandwidth") {
        Some(_) => Ok(Some(bytes_in(found, "bandwidth", (LEAST_BANDWIDTH, u64::MAX))?)),
        None => Ok(None),
    }
}

fn sending_in<'a>(found: &ArgMatches<'a>, times: bool) -> Result<Sending<'a>, NoSize<'a>> {
    let policy = Policy {
        max_rounds: number_in(found, "max-rounds"),
        stop: stop_in(found),
    };
    let options = Options {
        digests: found.get_flag("digests"),
    };
    Ok(Sending {
        load: load_in(found)?,
        policy,
        options,
        bandwidth: bandwidth_in(found)?,
        svg: found.get_str("svg"),
        verify: found.get_flag("verify"),
        times,
    })
}

fn receiving_in<'a>(found: &ArgMatches<'a>) -> Result<Receiving, NoSize<'a>> {
    Ok(Receiving {
        limit: bytes_in(found, "limit", (1, u64::MAX))?,
        verify: found.get_flag("verify"),
    })
}

fn asked_in<'a>(name: &str, found: &ArgMatches<'a>) -> Result<Asked<'a>, NoSize<'a>> {
    let address = found.get_str("address").unwrap_or(LOOPBACK);
    match name {
        "receive" => Ok(Asked::Receive(address, receiving_in(found)?)),
        "send" => Ok(Asked::Send(address, sending_in(found, true)?)),
        _ => {
            let times = found.get_flag("times");
            Ok(Asked::Demo(receiving_in(found)?, sending_in(found, times)?))
        }
    }
}

/// Reads the words of a command line. If they ask for help, the help is the error.
pub fn read_words<'a>(alloc: Global, words: &'a [String]) -> Result<Asked<'a>, Error> {
    let mut command = command(alloc)?;
    let matches = command.try_get_matches_from_mut(words)?;
    let (name, found) = match matches.subcommand() {
        Some(subcommand) => subcommand,
        None => return Err(command.error(ErrorKind::MissingSubcommand, "no subcommand")?),
    };
    match asked_in(name, found) {
        Ok(asked) => Ok(asked),
        Err(
            NoSize {
                name,
                value,
                bounds: (least, most),
            },
        ) => {
            let text = format!(in alloc;
                "invalid value '{value}' for '--{name} <SIZE>': a size is {least} to {most} bytes"
            )?;
            Err(command.error(ErrorKind::ValueValidation, text.as_str())?)
        }
    }
}
