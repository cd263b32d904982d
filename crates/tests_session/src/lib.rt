//! Tests of sessions: a call, and that one may go to another thread.
#![tactic(auto)]

#[cfg(test)]
mod calls;
