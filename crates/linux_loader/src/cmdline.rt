//! The command line of a kernel.

ghost use Rattle.std.specs.Prelude.{◌≡◌, ◌⊎◌, ◌+◌, ◌<◌, ◌≤◌, ◌++◌, ◌==◌, ◌∷◌, [], length, IfOk, IsOk, OnErr, OnOk};
ghost use Rattle.std.specs.Prelude.{MatchResult};
ghost use Rattle.std.specs.List.{list_all, list_any};
ghost use Rattle.vm_memory_guest.specs.Host.{shape_of, Holds};
ghost use Rattle.linux_loader.specs.Cmdline.{Becomes, LoadsLine, check_element, check_place, check_room, check_text};
ghost use Rattle.linux_loader.specs.Cmdline.{is_printable, line_with, separator, text_of, with_pair, with_text};

use crate::error::LoaderError;
use crate::plan::KernelLoaderResult;
use std::alloc::{AllocError, Global};
use std::marker::Model;
use thiserror::Error;
use vm_memory_base::{Bitmap, GuestAddress};
use vm_memory_guest::{Bytes, GuestMemory, HostMemory};

/// Why a command line is as it was.
#[derive(Clone, Copy, Debug, PartialEq, Eq, Error)]
pub enum CmdlineError {
    /// A character is not one of the 95 printable ones of ASCII.
    #[error("character is not printable ASCII")]
    InvalidAscii,
    /// A key or a value has a space.
    #[error("space in a key or a value")]
    HasSpace,
    /// A key or a value has an equals sign.
    #[error("equals sign in a key or a value")]
    HasEquals,
    /// The line would have more bytes than its capacity, with its terminating zero.
    #[error("command line is too long")]
    TooLarge,
    /// A capacity of 0 has no room for the terminating zero.
    #[error("capacity of a command line is 0")]
    InvalidCapacity,
    /// An allocation failed.
    #[error("out of memory")]
    Memory,
}

impl From<AllocError> for CmdlineError {
    ghost use Rattle.std.specs.Prelude.{◌≡◌};
    ghost use Rattle.linux_loader.specs.declared.cmdline.CmdlineError.TheVariants as refusals;

    ghost from_gives = { λ e r. r ≡ refusals.Memory };

    fn from(_error: AllocError) -> CmdlineError {
        CmdlineError::Memory
    }
}

/// A command line with a capacity: how many bytes it has at most, with its terminating zero.
#[derive(Debug, Drop)]
pub struct Cmdline {
    // The line and its terminating zero.
    bytes: Vec<u8>,
    capacity: usize,
}

// Whether each character is printable.
fn is_text(text: &[u8]) -> bool
    ensures { result ≡ list_all is_printable text.now }
{
    text.iter().all(|c| *c >= b' ' && *c <= b'~')
}

// Whether a text has a character.
fn has(text: &[u8], character: u8) -> bool
    ensures { result ≡ list_any (λ c. c == character) text.now }
{
    text.iter().any(|c| *c == character)
}

// Refuses a text with a character that is not printable.
fn check_text(text: &[u8]) -> Result<(), CmdlineError>
    ensures { result ≡ check_text text.now }
{
    if !is_text(text) {
        return Err(CmdlineError::InvalidAscii);
    }
    Ok(())
}

// Refuses a text that may be no key and no value.
fn check_element(text: &[u8]) -> Result<(), CmdlineError>
    ensures { result ≡ check_element text.now }
{
    check_text(text)?;
    if has(text, b' ') {
        return Err(CmdlineError::HasSpace);
    }
    if has(text, b'=') {
        return Err(CmdlineError::HasEquals);
    }
    Ok(())
}

// It is seen as its bytes, with the terminating zero, and its capacity.
impl Model for Cmdline {
    ghost use Rattle.std.specs.Prelude.{◌<◌, ◌≤◌, length};
    ghost use Rattle.linux_loader.specs.Cmdline.{Line};

    ghost Value = { Line };

    ghost view = { λ c. record { bytes = c.bytes.items; capacity = c.capacity } };

    ghost invariant = { λ c. (0 < length c.bytes.items) × (length c.bytes.items ≤ c.capacity) };
}

// A key and its value, as they stand in a line.
fn pair_of(alloc: Global, key: &[u8], value: &[u8]) -> Result<Vec<u8>, AllocError>
    ensures { IfOk result (λ pair. pair.items ≡ key.now ++ 61 ∷ value.now) }
{
    let mut bytes = Vec::new(alloc);
    bytes.extend_from_slice(key)?;
    bytes.push(b'=')?;
    bytes.extend_from_slice(value)?;
    Ok(bytes)
}

// The bytes of a text and more, with a space between them and a zero at the end.
fn line_of(alloc: Global, text: &[u8], more: &[u8]) -> Result<Vec<u8>, AllocError>
    ensures { IfOk result (λ bytes. bytes.items ≡ text.now ++ separator text.now ++ more.now ++ 0 ∷ []) }
{
    let mut bytes = Vec::new(alloc);
    bytes.extend_from_slice(text)?;
    if !text.is_empty() {
        bytes.push(b' ')?;
    }
    bytes.extend_from_slice(more)?;
    bytes.push(0)?;
    Ok(bytes)
}

impl Cmdline {
    /// An empty line that has room for `capacity` bytes, the last of them the terminating zero. `InvalidCapacity`
    /// if that is 0, and `Memory` if the allocation fails.
    ///
    /// Leaves open: `Memory` each time, and from each addition that is allowed and fits. Then the line is as before.
    pub fn new(alloc: Global, capacity: usize) -> Result<Cmdline, CmdlineError>
        ensures { MatchResult result
            (λ line. (line ≡ record { bytes = 0 ∷ []; capacity = capacity }) × (0 < capacity))
            (λ e. (e ≡ CmdlineError.Memory) ⊎ ((e ≡ CmdlineError.InvalidCapacity) × (capacity ≡ 0))) }
    {
        if capacity == 0 {
            return Err(CmdlineError::InvalidCapacity);
        }
        let mut bytes = Vec::new(alloc);
        if bytes.push(0).is_err() {
            return Err(CmdlineError::Memory);
        }
        Ok(Cmdline { bytes, capacity })
    }

    // Refuses `count` bytes more, with the space before them, if they pass the capacity.
    fn check_room(&self, count: usize) -> Result<(), CmdlineError>
        ensures { result ≡ check_room self.now count }
    {
        let separator = if self.text().is_empty() { 0 } else { 1 };
        let room = self.capacity - self.bytes.len();
        if room < separator || room - separator < count {
            return Err(CmdlineError::TooLarge);
        }
        Ok(())
    }

    // Adds bytes that have room.
    fn add(&mut self, alloc: Global, more: &[u8]) -> Result<(), AllocError>
        requires { IsOk (check_room self.old (length more.now)) }
        ensures ok { OnOk result (self.new ≡ record self.old { bytes = line_with self.old more.now }) }
        ensures err { OnErr result (self.new ≡ self.old) }
    {
        self.bytes = line_of(alloc, self.text(), more)?;
        Ok(())
    }

    /// Adds a text, after a space if the line is not empty. An error leaves the line as it was: `InvalidAscii`,
    /// `TooLarge`, or `Memory`, the first that applies.
    pub fn insert_str(&mut self, alloc: Global, text: &str) -> Result<(), CmdlineError>
        ensures { Becomes (with_text self.old text.now) self.old result self.new }
    {
        check_text(text.as_bytes())?;
        self.check_room(text.len())?;
        Ok(self.add(alloc, text.as_bytes())?)
    }

    /// Adds `key=value`, after a space if the line is not empty. An error leaves the line as it was:
    /// `InvalidAscii`, `HasSpace` or `HasEquals` of the key, the same of the value, `TooLarge`, or `Memory`, the first
    /// that applies.
    pub fn insert(&mut self, alloc: Global, key: &str, value: &str) -> Result<(), CmdlineError>
        ensures { Becomes (with_pair self.old key.now value.now) self.old result self.new }
    {
        check_element(key.as_bytes())?;
        check_element(value.as_bytes())?;
        self.check_room(key.len() + 1 + value.len())?;
        let pair = pair_of(alloc, key.as_bytes(), value.as_bytes())?;
        Ok(self.add(alloc, pair.as_slice())?)
    }

    /// The line without its terminating zero.
    pub fn text(&self) -> &[u8]
        ensures { result.now ≡ text_of self.now }
    {
        &self.bytes.as_slice()[..self.bytes.len() - 1]
    }

    /// The line with its terminating zero.
    pub fn as_slice_with_nul(&self) -> &[u8]
        ensures bytes { result.now ≡ self.now.bytes }
        ensures some { 0 < length result.now }
    {
        self.bytes.as_slice()
    }
}

/// Writes a command line for a kernel, with its terminating zero, to an address. `CommandLineOverflow` if it passes the
/// greatest address, or `RuntimeAreaOverlap` if it shares a byte with the kernel's run time area: then nothing changes.
/// Otherwise it is written as far as there is memory, and `GuestMemory` says why it ends there.
///
/// Leaves open: `Memory` for an access as in `KernelPlan::load`. Then nothing changed.
pub fn load_cmdline<M: GuestMemory, B: Bitmap>(
    mem: &M,
    host: &mut HostMemory<B>,
    kernel: &KernelLoaderResult,
    addr: GuestAddress,
    cmdline: &Cmdline,
) -> Result<(), LoaderError>
    requires { Holds (shape_of host.old) (M.names mem.now) }
    ensures loads { LoadsLine B.marks (M.memory mem.now) kernel.now.runtime_area addr.0 cmdline.now.bytes
        host.old result host.new }
    ensures shape { shape_of host.new ≡ shape_of host.old }
{
    let bytes = cmdline.as_slice_with_nul();
    check_place(addr, bytes, kernel)?;
    match Bytes::write_slice(mem, host, bytes, addr) {
        Ok(()) => Ok(()),
        Err(error) => Err(LoaderError::of_access(error)),
    }
}

// Refuses a place of a line that passes the greatest address, or lies over where a kernel runs.
fn check_place(
    addr: GuestAddress,
    bytes: &[u8],
    kernel: &KernelLoaderResult,
) -> Result<(), LoaderError>
    requires { 0 < length bytes.now }
    ensures { result ≡ check_place addr.0 (length bytes.now) kernel.now.runtime_area }
{
    if bytes.len() as u64 - 1 > u64::MAX - addr.0 {
        return Err(LoaderError::CommandLineOverflow);
    }
    kernel.check_outside(addr, bytes.len() as u64)
}
