//! The back end: a connection of a block device, whose actions an executor does.

use crate::executor::{Came, Executor, Fault, Store};
use std::io::{Read, Write};
use std::sync::{Mutex, Wait};
use vhost_backend::BlockConnection;

/// A back end, which serves one connection.
#[derive(Drop)]
pub struct BackEnd<F, O> {
    pub executor: Executor<F, O>,
}

impl<F: Read + Write + Drop, O: Read + Write + Drop> BackEnd<F, O> {
    // Takes the next message, if one may be taken. Without a channel the connection ends. Returns whether one came.
    fn hear<W: Wait>(&mut self, rt: &W, lock: &Mutex<BlockConnection>) -> Result<bool, Fault> {
        if !self.executor.is_free() {
            return Ok(false);
        }
        match self.executor.next_message() {
            Ok(Some(message)) => {
                self.executor.take_message(&mut lock.lock(rt), &message)?;
                Ok(true)
            }
            Ok(None) => Ok(false),
            Err(_) => {
                lock.lock(rt).hang_up();
                Ok(true)
            }
        }
    }

    // Waits a while for a message or a reply, and serves a part of a request if none comes. So parts are under way when
    // messages come.
    fn wait<W: Wait>(&mut self, rt: &W, lock: &Mutex<BlockConnection>) -> Result<(), Fault> {
        if self.hear(rt, lock)? {
            return Ok(());
        }
        match self.executor.next_reply() {
            Came::Nothing => {
                self.executor.serve_next(&mut lock.lock(rt))?;
            }
            came => self.executor.take_reply(&mut lock.lock(rt), came),
        }
        Ok(())
    }

    /// Serves the connection until it is over and nothing of it is under way.
    pub fn run<W: Wait>(mut self, rt: &W, lock: &Mutex<BlockConnection>) -> Result<Store, Fault> {
        for _ in rt.forever() {
            let has_more = self.executor.go_on(&mut lock.lock(rt))?;
            if self.executor.is_over() {
                return Ok(self.executor.into_store());
            }
            if !has_more {
                self.wait(rt, lock)?;
            }
        }
        unreachable!()
    }
}
