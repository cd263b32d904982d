//! A front end and a back end of vhost, in two threads that share guest memory under a lock. The front end has a
//! guest's I/O table and its driver. The back end is the state machine of a block device, behind a table of few ranges,
//! which it fills by asking, and an executor of its actions. It prints what they did, and whether each byte that was
//! read is the one that was written.
#![tactic(auto)]

mod back;
mod channel;
mod driver;
mod executor;
mod front;
mod guest;
mod hostile;
mod pages;
mod world;

use anyhow::bail;
use back::BackEnd;
use channel::End;
use clap::{Arg, ArgAction, Command, value_parser};
use driver::Driver;
use executor::{Executor, Store};
use front::{FrontEnd, PROTOCOL, features};
use guest::{Guest, NOTHING, Seen};
use pages::Pages;
use rand_core::SeedableRng;
use rand_xoshiro::Xoshiro256PlusPlus;
use std::alloc::{AllocError, Global};
use std::net::Net;
use std::os::unix::net::UnixStream;
use std::process::ExitCode;
use std::sync::{Mutex, Wait};
use std::thread::Threads;
use std::time::Duration;
use std::{env, thread};
use vhost_backend::{BlockConnection, BlockDisk};
use vhost_calls::VhostOffer;
use vm_memory_base::GuestAddress;
use world::{MOST_MEMORY, QUEUE_SIZE, SECTORS, SLOTS};

// How many bytes the disk has.
const DISK_LEN: usize = SECTORS as usize * 512;

// How many bytes the configuration of the disk has.
const CONFIG_LEN: usize = 60;

// How many bytes of replies may wait.
const UNREAD: u32 = 4096;

// What the arguments ask for.
#[derive(Clone, Copy)]
struct Options {
    limit: u32,
    seed: u64,
    requests: u64,
    hostile: bool,
    events: bool,
    counts: bool,
}

const ABOUT: &str = "\
Runs a vhost front end and a back end in two threads. The front end's driver reads and writes sectors at random, and
moves and unmaps pages meanwhile. The back end serves a block device behind an I/O table of few ranges. It prints what
they did, and whether each byte that was read is the one that was written; else it fails.";

// An argument that is there or not.
fn flag<'a>(alloc: Global, name: &'a str, help: &'a str) -> Arg<'a> {
    Arg::new(alloc, name)
        .long(name)
        .action(ArgAction::SetTrue)
        .help(help)
}

// The arguments that it takes.
fn command<'a>(alloc: Global) -> Result<Command<'a>, AllocError> {
    Command::new(alloc, "vmmem_vhost")
        .about(ABOUT)
        .arg(
            Arg::new(alloc, "limit")
                .long("limit")
                .value_name("RANGES")
                .value_parser(value_parser!(u32).range(1..))
                .help("How many ranges the back end's table keeps at most, 1 or more [default: 8]"),
        )?
        .arg(
            Arg::new(alloc, "seed")
                .long("seed")
                .value_name("NUMBER")
                .value_parser(value_parser!(u64))
                .help("Where the random numbers begin [default: 1]"),
        )?
        .arg(
            Arg::new(alloc, "requests")
                .long("requests")
                .value_name("COUNT")
                .value_parser(value_parser!(u64))
                .help("How many requests the driver makes [default: 1000]"),
        )?
        .arg(flag(
            alloc,
            "hostile",
            "Send malformed messages, too, each of which has to end the connection",
        ))?
        .arg(flag(
            alloc,
            "no-event-idx",
            "Notify by the flags of the rings, and not by event indices",
        ))?
        .arg(flag(
            alloc,
            "counts",
            "Print also how often things happened that depend on how the threads meet",
        ))
}

// The options, or the status to end with where there are none: the help or what is wrong with them is printed.
fn read_options(rt: &HostRuntime) -> anyhow::Result<Result<Options, u8>> {
    let alloc = rt.alloc();
    let words: Vec<String> = env::args(rt)?.collect(alloc)?;
    let matches = match command(alloc)?.try_get_matches_from(words.as_slice()) {
        Ok(matches) => matches,
        Err(error) => {
            error.print(rt)?;
            return Ok(Err(if error.use_stderr() { 2 } else { 0 }));
        }
    };
    Ok(Ok(Options {
        limit: matches.get_one::<u32>("limit").unwrap_or(8),
        seed: matches.get_one::<u64>("seed").unwrap_or(1),
        requests: matches.get_one::<u64>("requests").unwrap_or(1000),
        hostile: matches.get_flag("hostile"),
        events: !matches.get_flag("no-event-idx"),
        counts: matches.get_flag("counts"),
    }))
}

// The back end's sockets give up a read after a while, to look at the other one.
fn channels<R: Net>(rt: &R) -> anyhow::Result<[UnixStream; 4]> {
    let (front, coming) = UnixStream::pair(rt)?;
    let (own, back) = UnixStream::pair(rt)?;
    let wait = Some(Duration::from_millis(1));
    coming.set_read_timeout(wait)?;
    back.set_read_timeout(wait)?;
    Ok([front, coming, own, back])
}

// A guest that has done nothing yet.
fn make_guest(alloc: Global, options: Options) -> anyhow::Result<Guest> {
    Ok(Guest {
        alloc,
        requests: Xoshiro256PlusPlus::seed_from_u64(options.seed),
        chances: Xoshiro256PlusPlus::seed_from_u64(options.seed ^ u64::MAX),
        hostile: options.hostile,
        events: options.events,
        pages: Pages::new(alloc)?,
        driver: Driver {
            next_avail: 0,
            next_used: 0,
        },
        disk: vec![in alloc; 0u8; DISK_LEN]?,
        left: options.requests,
        sent: [None; SLOTS],
        attacks: 0,
        seen: NOTHING,
    })
}

fn make_store(alloc: Global) -> anyhow::Result<Store> {
    Ok(Store {
        disk: vec![in alloc; 0u8; DISK_LEN]?,
        file: vec![in alloc; 0u8; MOST_MEMORY]?,
        served: 0,
    })
}

// A connection of which nothing was negotiated.
fn connect(alloc: Global, options: Options) -> anyhow::Result<BlockConnection> {
    let offer = VhostOffer {
        features: features(true),
        protocol_features: PROTOCOL,
        queues: 1,
        max_queue_size: u32::from(QUEUE_SIZE),
        writable_from: 0,
        writable_len: 0,
    };
    let disk = BlockDisk {
        sectors: SECTORS,
        seg_max: 0,
        size_max: 0,
        read_only: 0,
        unread: UNREAD,
        table_limit: options.limit,
    };
    match vhost_backend::open(alloc, &offer, &[0; CONFIG_LEN], &disk) {
        Ok(connection) => Ok(connection),
        Err(code) => bail!("there is no connection: {code}"),
    }
}

// Runs both ends of one connection at once, each in a thread. What outlives it comes back, and the guest's memory goes
// back to its file.
fn run<R: Net + Sync + Threads + Wait>(
    rt: &R,
    alloc: Global,
    options: Options,
    guest: Guest,
    store: Store,
) -> anyhow::Result<(Guest, Store)> {
    let [front, coming, own, back] = channels(rt)?;
    let lock = Mutex::new(connect(alloc, options)?);
    let front_end = FrontEnd {
        guest,
        front: End { stream: front },
        own: End { stream: own },
        is_over: false,
    };
    let back_end = BackEnd {
        executor: Executor::new(alloc, coming, back, store)?,
    };
    let (guest, store) = thread::join(rt, || front_end.run(rt, &lock), || back_end.run(rt, &lock));
    let mut store = store?;
    let guest = guest?;
    lock.lock(rt)
        .memory()
        .read(store.file.as_mut_slice(), GuestAddress(0))?;
    Ok((guest, store))
}

// Runs one connection after another, until the guest has nothing left to do.
fn run_all<R: Net + Sync + Threads + Wait>(
    rt: &R,
    alloc: Global,
    options: Options,
) -> anyhow::Result<(Seen, Store)> {
    let mut guest = make_guest(alloc, options)?;
    let mut store = make_store(alloc)?;
    for _ in 0..u64::MAX {
        (guest, store) = run(rt, alloc, options, guest, store)?;
        if guest.is_done() {
            return Ok((guest.seen, store));
        }
    }
    bail!("the guest is never done")
}

// What was done. How often some things happened depends on how the threads meet.
fn report<R: Print>(rt: &R, options: Options, seen: &Seen, served: u64) -> anyhow::Result<()> {
    println!(rt; "requests served: {}", seen.requests)?;
    if options.counts {
        println!(rt; "kicks: {}", seen.kicks)?;
        println!(rt; "misses asked: {}", seen.misses)?;
        println!(rt; "evictions: {}", seen.evictions)?;
        println!(rt; "invalidations: {}", seen.invalidations)?;
    }
    println!(rt; "failed accesses: {}", seen.failed)?;
    if options.counts {
        println!(rt; "of these forbidden: {}", seen.forbidden)?;
    }
    println!(rt; "malformed messages refused: {}", seen.refused)?;
    if seen.requests != options.requests || (seen.requests > 0 && seen.misses == 0) {
        bail!("requests are lost, or no mapping was asked for");
    }
    // A request that is under way when a connection ends may be served twice.
    if !options.hostile && served != seen.requests.saturating_sub(seen.failed) {
        bail!("the two ends do not agree on the requests");
    }
    if seen.wrong > 0 {
        bail!("{} bytes are not what was written", seen.wrong);
    }
    println!(rt; "each of {} bytes read was the one written", seen.bytes)?;
    Ok(())
}

fn main(rt: HostRuntime) -> anyhow::Result<ExitCode> {
    let options = match read_options(&rt)? {
        Ok(options) => options,
        Err(status) => return Ok(ExitCode::from(status)),
    };
    let (seen, store) = run_all(&rt, rt.alloc(), options)?;
    report(&rt, options, &seen, store.served)?;
    Ok(ExitCode::SUCCESS)
}
