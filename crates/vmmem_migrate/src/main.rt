//! Moves the memory of a guest to another process in rounds, while threads write it, and prints and draws the rounds.
#![tactic(auto)]

mod connection;
mod digests;
mod guest;
mod options;
mod outlet;
mod picture;
mod receiving;
mod report;
mod sending;
mod writers;

use anyhow::{Context, Result, bail};
use digests::compare;
use guest::{fill, guest_of};
use live_migration::Guest;
use options::{Asked, Load, Receiving, Sending, read_words};
use picture::picture_of;
use receiving::{Received, TwoDigests};
use report::Rounds;
use std::alloc::Global;
use std::fs::OpenOptions;
use std::net::{Net, Shutdown, TcpListener, TcpStream};
use std::process::ExitCode;
use std::rt::Files;
use std::sync::Wait;
use std::thread::{self, Threads};
use std::time::Clock;
use std::{env, fs};
use writers::{Pace, Shared, share};

// A guest with random bytes, which runs.
fn new_guest(alloc: Global, load: Load) -> Result<Shared> {
    let (mut host, layout) = guest_of(alloc, &load)?;
    fill(alloc, &mut host, &layout, &load)?;
    Ok(share(host, layout, load))
}

// Fails if a picture is asked whose file cannot be written. What the file has stays as it is.
fn check_picture<R: Files>(rt: &R, asked: &Sending) -> Result<()> {
    if let Some(path) = asked.svg {
        let file = rt.open_file(OpenOptions::new().write(true).create(true), path);
        file.context(format_args!("{path}"))?;
    }
    Ok(())
}

// Draws the rounds, if that is asked.
fn draw<R: Files>(
    rt: &R,
    alloc: Global,
    asked: &Sending,
    rounds: &Rounds,
    pages: usize,
) -> Result<()> {
    if let Some(path) = asked.svg {
        let text = picture_of(alloc, rounds, pages, asked.times)?;
        fs::write(rt, path, text.as_str()).context(format_args!("{path}"))?;
    }
    Ok(())
}

fn send<R>(rt: &R, alloc: Global, address: &str, asked: Sending) -> Result<()>
where
    R: Clock
        + Files
        + Net<Listener = TcpListener, Stream = TcpStream>
        + Print
        + Sync
        + Threads
        + Wait,
{
    check_picture(rt, &asked)?;
    let shared = new_guest(alloc, asked.load)?;
    let stream = TcpStream::connect(rt, address).context(format_args!("{address}"))?;
    stream.set_nodelay(true)?;
    let rounds = sending::run(rt, alloc, &shared, &stream, (asked, Pace::Clock))?;
    draw(rt, alloc, &asked, &rounds, shared.layout.pages)
}

// Asks a person whether a guest may run for which no leave came.
fn ask<R: Eprint + Input>(rt: &R, alloc: Global) -> Result<()> {
    eprintln!(rt;
        "All of the guest came, and leave to run it did not. Write run if the sender says that it gave the guest up, \
         or if the sender has ended for good; else end this:"
    )?;
    let mut line = String::new(alloc);
    rt.read_line(&mut line)?;
    if line.as_str().trim_end() != "run" {
        bail!("the guest was not given out");
    }
    Ok(())
}

// Tells which blocks and states a guest has.
fn tell_guest(rt: &impl Print, guest: &Guest) -> Result<()> {
    let blocks = guest.entries.len();
    let states = guest.sections.len();
    let mut bytes = 0u64;
    for entry in guest.entries.as_slice() {
        bytes = bytes.saturating_add(entry.len);
    }
    println!(rt; "blocks {blocks}, bytes {bytes}, states {states}")?;
    Ok(())
}

// What is done with a guest that came.
fn take_in<R: Clock + Eprint + Input + Print>(
    rt: &R,
    alloc: Global,
    mut received: Received<'_, R>,
    verify: bool,
) -> Result<()> {
    let rounds = received.rounds;
    let frames = received.frames;
    println!(rt; "{rounds} rounds came in {frames} frames")?;
    match &received.guest {
        Some(guest) => tell_guest(rt, guest)?,
        None => {
            ask(rt, alloc)?;
            println!(rt; "the guest runs here, as a person decided")?;
            return Ok(());
        }
    }
    if verify {
        let TwoDigests { ours, theirs } = received.digests(alloc)?;
        compare(rt, alloc, ours.as_slice(), theirs.as_slice())?;
    }
    println!(rt; "the guest runs here")?;
    Ok(())
}

// Listens, and takes the first guest that comes. A connection that is given up leaves nothing.
fn receive<R>(rt: &R, alloc: Global, address: &str, asked: Receiving) -> Result<()>
where
    R: Clock + Eprint + Input + Net<Listener = TcpListener, Stream = TcpStream> + Print,
{
    let listener = TcpListener::bind(rt, address).context(format_args!("{address}"))?;
    let place = listener.local_addr()?;
    println!(rt; "listening on {place}")?;
    for stream in listener.incoming() {
        let stream = stream?;
        let _ = stream.set_nodelay(true);
        match receiving::receive(rt, alloc, &stream, asked.limit, true) {
            Ok(received) => return take_in(rt, alloc, received, asked.verify),
            Err(error) => eprintln!(rt; "vmmem_migrate: {error:#}")?,
        }
    }
    bail!("no more connections")
}

// The receiving end of a demonstration: it prints nothing, and answers the digests if they are asked.
fn receive_quietly<R: Clock + Print>(
    rt: &R,
    alloc: Global,
    stream: &TcpStream,
    asked: Receiving,
) -> Result<Option<TwoDigests>> {
    let mut received = receiving::receive(rt, alloc, stream, asked.limit, false)?;
    if received.guest.is_none() {
        bail!("leave to run the guest did not come");
    }
    if asked.verify {
        return Ok(Some(received.digests(alloc)?));
    }
    Ok(None)
}

// Ends a connection of which one end has failed, so that the other end does not wait.
fn end_failed<T>(stream: &TcpStream, moved: Result<T>) -> Result<T> {
    if moved.is_err() {
        let _ = stream.shutdown(Shutdown::Both);
    }
    moved
}

// Both ends in one process. The writes are counted, so that what is printed is the same each time.
fn demo<R>(rt: &R, alloc: Global, receiving: Receiving, asked: Sending) -> Result<()>
where
    R: Clock
        + Files
        + Net<Listener = TcpListener, Stream = TcpStream>
        + Print
        + Sync
        + Threads
        + Wait,
{
    check_picture(rt, &asked)?;
    let shared = new_guest(alloc, asked.load)?;
    let listener = TcpListener::bind(rt, "127.0.0.1:0")?;
    let near = TcpStream::connect(rt, listener.local_addr()?)?;
    let (far, _) = listener.accept()?;
    near.set_nodelay(true)?;
    far.set_nodelay(true)?;
    let (came, sent) = thread::join(
        rt,
        || end_failed(&far, receive_quietly(rt, alloc, &far, receiving)),
        || {
            let how = (asked, Pace::Count);
            end_failed(&near, sending::run(rt, alloc, &shared, &near, how))
        },
    );
    let rounds = sent?;
    if let Some(TwoDigests { ours, theirs }) = came? {
        println!(rt; "and at the other end")?;
        compare(rt, alloc, ours.as_slice(), theirs.as_slice())?;
    }
    draw(rt, alloc, &asked, &rounds, shared.layout.pages)
}

fn main(rt: HostRuntime) -> Result<ExitCode> {
    let alloc = rt.alloc();
    let words: Vec<String> = env::args(&rt)?.collect(alloc)?;
    let done = match read_words(alloc, words.as_slice()) {
        Ok(Asked::Receive(address, asked)) => receive(&rt, alloc, address, asked),
        Ok(Asked::Send(address, asked)) => send(&rt, alloc, address, asked),
        Ok(Asked::Demo(receiving, asked)) => demo(&rt, alloc, receiving, asked),
        Err(error) => {
            error.print(&rt)?;
            return Ok(ExitCode::from(if error.use_stderr() { 2 } else { 0 }));
        }
    };
    match done {
        Ok(()) => Ok(ExitCode::SUCCESS),
        Err(error) => {
            eprintln!(rt; "vmmem_migrate: {error:#}")?;
            Ok(ExitCode::FAILURE)
        }
    }
}
