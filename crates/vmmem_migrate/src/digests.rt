//! Digests of whole blocks, which both ends send each other after the pause.

use crate::report::tell_digest;
use anyhow::{Context, Result, bail};
use std::alloc::Global;
use std::io::{Read, Write};

/// Sends digests.
pub fn send_digests<W: Write>(writer: &mut W, digests: &[[u8; 32]]) -> Result<()> {
    for digest in digests {
        writer
            .write_all(digest.as_slice())
            .context("the other end takes no digests")?;
    }
    Ok(())
}

/// Reads this many digests.
pub fn read_digests<R: Read>(alloc: Global, reader: &mut R, count: usize) -> Result<Vec<[u8; 32]>> {
    let mut digests = Vec::new(alloc);
    for _ in 0..count {
        let mut digest = [0; 32];
        reader
            .read_exact(&mut digest)
            .context("the other end told no digests")?;
        digests.push(digest)?;
    }
    Ok(digests)
}

/// Prints the digests of this end, and fails if the other end's differ.
pub fn compare(
    rt: &impl Print,
    alloc: Global,
    ours: &[[u8; 32]],
    theirs: &[[u8; 32]],
) -> Result<()> {
    let mut equal = 0usize;
    for (k, digest) in ours.iter().enumerate() {
        let is_equal = match theirs.get(k) {
            Some(other) => other.as_slice() == digest.as_slice(),
            None => false,
        };
        tell_digest(rt, alloc, k, digest, is_equal)?;
        equal = equal.saturating_add(usize::from(is_equal));
    }
    if equal != ours.len() || theirs.len() != ours.len() {
        bail!("the blocks of the two ends differ");
    }
    Ok(())
}
