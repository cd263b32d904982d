//! The digest of a stream, which its header may ask for.
ghost use Rattle.std.specs.Prelude.{◌≡◌, ℕ, Bool, List, [], ◌++◌, IfOk};
ghost use Rattle.live_migration.specs.Digests.{HasNoted, HoldsIf, bytes_of, digest_of};

use sha2::{Digest, Sha256};
use std::alloc::AllocError;

/// What a digest is made of, if digests are asked for.
#[derive(Drop)]
pub struct StreamHasher {
    state: Option<Sha256>,
}

impl StreamHasher {
    // Of a stream of which nothing was noted.
    pub(crate) fn new(digests: bool) -> StreamHasher
        ensures { HasNoted digests result [] }
    {
        let state = if digests { Some(Sha256::new()) } else { None };
        StreamHasher { state }
    }

    // Notes what went over the stream.
    pub(crate) fn note(&mut self, bytes: &[u8])
        ensures { (digests : Bool) (sent : List ℕ) → HasNoted digests self.old sent
            → HasNoted digests self.new (sent ++ bytes.now) }
    {
        match &mut self.state {
            Some(state) => state.update(bytes),
            None => {}
        }
    }

    // The digest of all that was noted, if digests are asked for.
    pub(crate) fn digest(&self) -> Result<Option<[u8; 32]>, AllocError>
        ensures { (digests : Bool) (sent : List ℕ) → HasNoted digests self.now sent
            → IfOk result (λ digest. bytes_of digest ≡ digest_of digests sent) }
    {
        match &self.state {
            Some(state) => Ok(Some(state.clone()?.finalize())),
            None => Ok(None),
        }
    }
}

// The bytes of a digest.
pub(crate) fn bytes_of(digest: &Option<[u8; 32]>) -> &[u8]
    ensures { result.now ≡ bytes_of digest.now }
{
    match digest {
        Some(bytes) => bytes.as_slice(),
        None => &[],
    }
}
