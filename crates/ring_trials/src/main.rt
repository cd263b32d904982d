//! Pops chains of split and packed rings that a hostile driver might have written, and compares each answer with a slow
//! reading of the same bytes, which is written apart. It prints how many rings of each kind ended in each way.
#![tactic(auto)]

mod draws;
mod ends;
mod packed;
mod reading;
mod split;

fn main(rt: HostRuntime) -> anyhow::Result<()> {
    split::run(&rt, rt.alloc())?;
    packed::run(&rt, rt.alloc())
}
