//! What sources and sinks do, as lists of numbers.
ghost use Rattle.std.specs.Prelude.{◌≡◌, IfOk, [], false};
ghost use Rattle.vm_session.specs.Words.{sink_at, sinks_in, source_at, sources_in};

use std::alloc::{AllocError, Global};
use std::mem;
use vm_memory_base::{ByteList, Items, SinkStep, SourceStep};

/// The steps of a source that numbers list, if they do, or `AllocError` if their allocation fails.
pub(crate) fn sources_of(
    alloc: Global,
    words: &[usize],
) -> Result<Option<Items<SourceStep>>, AllocError>
    ensures { IfOk result (λ steps. steps ≡ sources_in [] words.now) }
{
    let mut steps = Vec::new(alloc);
    let mut bytes = Vec::new(alloc);
    for word in words {
        if *word < 256 {
            bytes.push(*word as u8)?;
        } else {
            let given = mem::replace(&mut bytes, Vec::new(alloc));
            match source_of(*word, given) {
                Some(step) => steps.push(step)?,
                None => return Ok(None),
            }
        }
    }
    if !bytes.is_empty() {
        return Ok(None);
    }
    Ok(Some(Items::from_vec(steps)))
}

// The step of a source that has this number after its bytes.
fn source_of(word: usize, bytes: Vec<u8>) -> Option<SourceStep>
    ensures { result ≡ source_at word bytes.items }
{
    let bytes = ByteList::from_vec(bytes);
    match word {
        256 => Some(SourceStep::Give(bytes)),
        257 => Some(SourceStep::Interrupted(bytes)),
        258 => Some(SourceStep::Fail(bytes)),
        _ => None,
    }
}

/// The steps of a sink that numbers list, if they do, or `AllocError` if their allocation fails.
pub(crate) fn sinks_of(
    alloc: Global,
    words: &[usize],
) -> Result<Option<Items<SinkStep>>, AllocError>
    ensures { IfOk result (λ steps. steps ≡ sinks_in false words.now) }
{
    let mut steps = Vec::new(alloc);
    let mut taking = false;
    for word in words {
        if taking {
            steps.push(SinkStep::Take(*word))?;
            taking = false;
        } else if *word == 0 {
            taking = true;
        } else {
            match sink_of(*word) {
                Some(step) => steps.push(step)?,
                None => return Ok(None),
            }
        }
    }
    if taking {
        return Ok(None);
    }
    Ok(Some(Items::from_vec(steps)))
}

// The step of a sink that takes nothing, by its number.
fn sink_of(number: usize) -> Option<SinkStep>
    ensures { result ≡ sink_at number }
{
    match number {
        1 => Some(SinkStep::Interrupted),
        2 => Some(SinkStep::Fail),
        _ => None,
    }
}
