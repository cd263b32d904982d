//! The recipes of the guide, each a function of its own, and the program on the page of `live_migration`.
#![tactic(auto)]

mod bitmaps;
mod block_device;
mod files;
mod header;
mod hot_plug;
mod iommu;
mod migration;
mod premise;
mod requests;
mod typed;
mod writers;

fn main(rt: HostRuntime) -> anyhow::Result<()> {
    typed::typed_values(&rt, rt.alloc())?;
    header::a_struct_of_ones_own(&rt, rt.alloc())?;
    files::from_a_file(&rt)?;
    bitmaps::pages_of_a_window(&rt, rt.alloc())?;
    bitmaps::marks_of_threads(&rt, rt.alloc())?;
    iommu::behind_an_iommu(&rt, rt.alloc())?;
    premise::with_a_test(&rt, rt.alloc())?;
    hot_plug::add_while_reading(&rt, rt.alloc())?;
    writers::two_writers(&rt, rt.alloc())?;
    requests::serve_requests(&rt, rt.alloc())?;
    migration::move_a_guest(&rt, rt.alloc())
}
