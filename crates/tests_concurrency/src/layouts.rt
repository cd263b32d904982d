//! A layout that a thread replaces while others read it, and one to which two threads add regions.

use std::test::Fail;
use test_threads::{expect_added, expect_layouts, expect_readers};

#[test]
fn snapshots_have_one_layout_or_the_other(rt: HostRuntime) -> Result<(), Fail> {
    expect_layouts(&rt, rt.alloc())
}

#[test]
fn readers_see_each_replacement_that_was_made_before(rt: HostRuntime) -> Result<(), Fail> {
    expect_readers(&rt, rt.alloc(), 0x1_0000)
}

#[test]
fn threads_add_regions_in_turn(rt: HostRuntime) -> Result<(), Fail> {
    expect_added(&rt, rt.alloc())
}
