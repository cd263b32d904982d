//! What threads do at once: they mark and harvest a bitmap, read a layout that is replaced by snapshots and by readers,
//! add regions to one in turn, and call one machine. Each function fails if a page, a region or a reply is lost,
//! invented or wrong.
#![tactic(auto)]

pub mod atomic;
pub mod calls;
pub mod layouts;
pub mod marks;
pub mod tracked;

pub use atomic::{expect_atomic, expect_cleared, expect_shared_words};
pub use calls::{expect_calls, set_up};
pub use layouts::{expect_added, expect_layouts, expect_readers};
pub use marks::Marks;
pub use tracked::expect_tracked;
