//! Threads at once: markers and harvesters of one bitmap, readers of a layout that is replaced, threads that each add
//! regions to it, and callers of one machine. Most of what they do stands in `test_threads`.
#![tactic(auto)]

#[cfg(test)]
mod bitmaps;
#[cfg(test)]
mod layouts;
#[cfg(test)]
mod locks;
#[cfg(test)]
mod shared;
