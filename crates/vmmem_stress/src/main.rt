//! Marks and harvests bitmaps, replaces a layout and calls a machine by many threads at once, for a number of
//! seconds: for a person, and for a run at night. It prints a line a second, and its verdict at the end. It fails, with
//! status 1, if a page was lost or invented, a snapshot changed, or a reply is not that of the journal: then it says
//! what went wrong.
#![tactic(auto)]

ghost use Rattle.std.specs.Prelude.{◌<◌};

use clap::{Arg, Command, Error, value_parser};
use rand_core::{Rng, SeedableRng};
use rand_xoshiro::Xoshiro256PlusPlus;
use std::alloc::Global;
use std::env;
use std::process::{ExitCode, Termination};
use std::sync::Wait;
use std::test::Fail;
use std::thread::Threads;
use std::time::{Clock, Instant};
use test_threads::{
    Marks, expect_added, expect_atomic, expect_calls, expect_cleared, expect_layouts,
    expect_readers, expect_shared_words, expect_tracked,
};

const ABOUT: &str = "\
Marks and harvests bitmaps, replaces a layout and calls a machine by many threads at once, and fails if a page is \
lost or invented, a snapshot changes, or a reply is wrong. It prints a line a second and its verdict at the end";

// A number below another.
fn below(rng: &mut Xoshiro256PlusPlus, limit: u64) -> usize
    requires { 0 < limit }
{
    (rng.next_u64() % limit) as usize
}

// Up to 50,000 pages, in lots of fewer than 100, of which threads share some.
fn random_marks(rng: &mut Xoshiro256PlusPlus) -> Marks {
    Marks {
        pages: below(rng, 50_001),
        lot: below(rng, 100),
        width: below(rng, 5).saturating_add(1),
        threads: 4,
    }
}

// Each of the structures once.
fn round<R: Sync + Threads + Wait>(rt: &R, alloc: Global, marks: &Marks) -> Result<(), Fail> {
    let _taken = expect_tracked(rt, alloc, marks)?;
    let _taken = expect_atomic(rt, alloc, marks)?;
    expect_cleared(rt, alloc, marks)?;
    expect_shared_words(rt, alloc, 5)?;
    expect_layouts(rt, alloc)?;
    expect_readers(rt, alloc, 2000)?;
    expect_added(rt, alloc)?;
    expect_calls(rt, alloc)
}

// Rounds for so many seconds, which it counts.
fn rounds<R: Clock + Print + Sync + Threads + Wait>(
    rt: &R,
    alloc: Global,
    options: &Options,
    passed_rounds: &mut u64,
) -> Result<(), Fail> {
    let mut rng = Xoshiro256PlusPlus::seed_from_u64(options.seed);
    let start = Instant::now(rt)?;
    let mut told = 0u64;
    for number in 1..u64::MAX {
        let marks = random_marks(&mut rng);
        round(rt, alloc, &marks)?;
        *passed_rounds = number;
        let passed = start.elapsed(rt)?.as_secs();
        if passed >= options.seconds {
            break;
        }
        if passed > told {
            println!(rt;
                "{passed} s: {number} rounds, the last with {} pages",
                marks.pages
            )?;
            told = passed;
        }
    }
    Ok(())
}

// What the arguments ask for.
#[derive(Drop)]
struct Options {
    seconds: u64,
    seed: u64,
}

fn read_words(alloc: Global, words: &[String]) -> Result<Options, Error> {
    let seconds = Arg::new(alloc, "seconds")
        .long("seconds")
        .value_name("SECONDS")
        .help("How long to go on; with 0 it makes one round")
        .value_parser(value_parser!(u64))
        .default_value("10");
    let seed = Arg::new(alloc, "seed")
        .long("seed")
        .value_name("NUMBER")
        .help("Where the generator of the random bitmaps begins")
        .value_parser(value_parser!(u64))
        .default_value("1");
    let matches = Command::new(alloc, "vmmem_stress")
        .about(ABOUT)
        .arg(seconds)?
        .arg(seed)?
        .try_get_matches_from(words)?;
    Ok(Options {
        seconds: matches.get_one::<u64>("seconds").unwrap_or(10),
        seed: matches.get_one::<u64>("seed").unwrap_or(1),
    })
}

// Prints what went wrong, if anything did, and then the verdict, and answers the status.
fn tell_verdict<R: Print + Eprint>(
    rt: &R,
    outcome: Result<(), Fail>,
    seed: u64,
    rounds: u64,
) -> Result<ExitCode, Fail> {
    match outcome {
        Ok(()) => {
            println!(rt; "passed (rounds: {rounds}, seed: {seed})")?;
            Ok(ExitCode::SUCCESS)
        }
        Err(fail) => {
            let failed: Result<(), Fail> = Err(fail);
            let status = failed.report(rt);
            println!(rt; "failed (rounds before: {rounds}, seed: {seed})")?;
            Ok(status)
        }
    }
}

fn main(rt: HostRuntime) -> Result<ExitCode, Fail> {
    let alloc = rt.alloc();
    let words: Vec<String> = env::args(&rt)?.collect(alloc)?;
    let options = match read_words(alloc, words.as_slice()) {
        Ok(options) => options,
        Err(error) => {
            error.print(&rt)?;
            return Ok(ExitCode::from(if error.use_stderr() { 2 } else { 0 }));
        }
    };
    let mut passed_rounds = 0u64;
    let outcome = rounds(&rt, alloc, &options, &mut passed_rounds);
    tell_verdict(&rt, outcome, options.seed, passed_rounds)
}
