//! Refuses calls their memory, request by request, and fails if a call that was refused changed something, or if
//! a call is refused though there is memory. It takes all memory of its process, and writes to next to none of it.
#![tactic(auto)]

mod behind;
mod bitmaps;
mod calls;
mod famine;
mod machines;
mod memories;
mod scripts;
mod shared;
mod tables;

use behind::Behind;
use bitmaps::Bitmaps;
use calls::{Calls, Refusals, expect_refusals};
use famine::Famine;
use machines::Machines;
use memories::Memories;
use scripts::{expect_lines, expect_script};
use shared::Shared;
use std::alloc::Global;
use std::io;
use std::sync::Wait;
use std::test::Fail;
use tables::Tables;

// Tells of how many calls each request was refused.
fn tell<C: Calls + Drop>(
    rt: &impl Print,
    famine: &mut Famine,
    name: &str,
    ample: C,
    tried: C,
) -> Result<(), Fail> {
    let (mut ample, mut tried) = (ample, tried);
    let Refusals { refused, not_run } = expect_refusals(famine, name, &mut ample, &mut tried)?;
    if refused == 0 {
        return Err(Fail::new("no call was refused"));
    }
    tried.expect_met()?;
    let count = tried.count();
    println!(rt; "{name}: {count} calls, {refused} refused, {not_run} refused before they ran")?;
    Ok(())
}

fn tell_bitmaps(rt: &impl Print, alloc: Global, famine: &mut Famine) -> Result<(), Fail> {
    let ample = Bitmaps::new(alloc)?;
    tell(rt, famine, "bitmaps", ample, Bitmaps::new(alloc)?)
}

fn tell_tables(rt: &impl Print, alloc: Global, famine: &mut Famine) -> Result<(), Fail> {
    let ample = Tables::new(alloc)?;
    tell(rt, famine, "I/O tables", ample, Tables::new(alloc)?)
}

fn tell_memories(rt: &impl Print, alloc: Global, famine: &mut Famine) -> Result<(), Fail> {
    let ample = Memories::new(alloc)?;
    tell(
        rt,
        famine,
        "hosts and layouts",
        ample,
        Memories::new(alloc)?,
    )
}

fn tell_behind(rt: &impl Print, alloc: Global, famine: &mut Famine) -> Result<(), Fail> {
    let ample = Behind::new(alloc)?;
    tell(rt, famine, "behind an IOMMU", ample, Behind::new(alloc)?)
}

fn tell_machines(rt: &impl Print, alloc: Global, famine: &mut Famine) -> Result<(), Fail> {
    let ample = Machines::new(alloc)?;
    tell(rt, famine, "a machine", ample, Machines::new(alloc)?)
}

fn tell_shared<R: Print + Wait>(rt: &R, alloc: Global, famine: &mut Famine) -> Result<(), Fail> {
    let ample = Shared::new(rt, alloc)?;
    tell(
        rt,
        famine,
        "what threads share",
        ample,
        Shared::new(rt, alloc)?,
    )
}

// The scripts on standard input, with a line of four dashes between any two.
fn tell_scripts<R: Input + Print>(rt: &R, alloc: Global, famine: &mut Famine) -> Result<(), Fail> {
    let text = io::read_to_string(alloc, rt.reader())?;
    let (mut scripts, mut lines) = (0usize, 0usize);
    let mut refusals = Refusals::new();
    for script in text.as_str().split("----\n") {
        expect_script(famine, alloc, script)?;
        let tried = expect_lines(famine, alloc, script, &mut refusals)?;
        scripts = scripts.saturating_add(1);
        lines = lines.saturating_add(tried);
    }
    let Refusals { refused, not_run } = refusals;
    println!(rt;
        "{scripts} scripts: {lines} lines, {refused} refused, {not_run} ended their script"
    )?;
    Ok(())
}

fn main(rt: HostRuntime) -> Result<(), Fail> {
    let alloc = rt.alloc();
    let mut famine = Famine::new(alloc)?;
    tell_bitmaps(&rt, alloc, &mut famine)?;
    tell_tables(&rt, alloc, &mut famine)?;
    tell_memories(&rt, alloc, &mut famine)?;
    tell_behind(&rt, alloc, &mut famine)?;
    tell_machines(&rt, alloc, &mut famine)?;
    tell_shared(&rt, alloc, &mut famine)?;
    tell_scripts(&rt, alloc, &mut famine)
}
