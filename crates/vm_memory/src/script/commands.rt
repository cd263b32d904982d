//! Lines that command the machine.
ghost use Rattle.vm_memory.specs.Reading.{Gives};
ghost use Rattle.vm_memory.specs.LineReading.{command_at, access_at, transfer_at, other_at};

use super::words::{LineError, Words};
use crate::machine::command::Command;
use std::alloc::Global;

/// The command that begins with a word.
#[tactic(auto, unfolding(crate::specs::LineReading::command_at))]
pub(super) fn parse(alloc: Global, word: &str, words: &mut Words<'_>) -> Result<Command, LineError>
    ensures { Gives (λ c. c) result words.new (command_at word.now words.old) }
{
    Ok(match word {
        // A layout has none or more regions.
        "layout" => Command::FromRegions(words.indices(alloc)?),
        "insert" => Command::Insert {
            layout: words.index()?,
            region: words.index()?,
        },
        "remove" => Command::Remove {
            layout: words.index()?,
            base: words.address()?,
            size: words.number()?,
        },
        "plain" => Command::Plain(words.index()?),
        "memory" => Command::NewMemory {
            layout: words.index()?,
            translator: words.index()?,
            space: words.index()?,
            on: words.switch()?,
        },
        "replace" => Command::ReplaceBackend {
            memory: words.index()?,
            layout: words.index()?,
        },
        "enable" => Command::Enable {
            memory: words.index()?,
            on: words.switch()?,
        },
        _ => return access(alloc, word, words),
    })
}

// A command that moves bytes of a memory.
#[tactic(auto, unfolding(crate::specs::LineReading::access_at))]
fn access(alloc: Global, word: &str, words: &mut Words<'_>) -> Result<Command, LineError>
    ensures { Gives (λ c. c) result words.new (access_at word.now words.old) }
{
    Ok(match word {
        "read" => Command::Read {
            memory: words.index()?,
            addr: words.address()?,
            count: words.index()?,
        },
        "write" => Command::Write {
            memory: words.index()?,
            addr: words.address()?,
            bytes: words.bytes(alloc)?,
        },
        "readx" => Command::ReadSlice {
            memory: words.index()?,
            addr: words.address()?,
            count: words.index()?,
        },
        "writex" => Command::WriteSlice {
            memory: words.index()?,
            addr: words.address()?,
            bytes: words.bytes(alloc)?,
        },
        "store" => Command::Store {
            memory: words.index()?,
            width: words.width()?,
            addr: words.address()?,
            value: words.number()?,
        },
        "load" => Command::Load {
            memory: words.index()?,
            width: words.width()?,
            addr: words.address()?,
        },
        _ => return transfer(alloc, word, words),
    })
}

// A command that moves bytes between a memory and a source or a sink.
#[tactic(auto, unfolding(crate::specs::LineReading::transfer_at))]
fn transfer(alloc: Global, word: &str, words: &mut Words<'_>) -> Result<Command, LineError>
    ensures { Gives (λ c. c) result words.new (transfer_at word.now words.old) }
{
    Ok(match word {
        "from" => Command::ReadFrom {
            memory: words.index()?,
            addr: words.address()?,
            count: words.index()?,
            source: words.source(alloc)?,
        },
        "fromx" => Command::ReadExactFrom {
            memory: words.index()?,
            addr: words.address()?,
            count: words.index()?,
            source: words.source(alloc)?,
        },
        "to" => Command::WriteTo {
            memory: words.index()?,
            addr: words.address()?,
            count: words.index()?,
            sink: words.sink(alloc)?,
        },
        "tox" => Command::WriteAllTo {
            memory: words.index()?,
            addr: words.address()?,
            count: words.index()?,
            sink: words.sink(alloc)?,
        },
        _ => return other(word, words),
    })
}

// A command on a range, a copy between blocks, or one on a table or a bitmap.
#[tactic(auto, unfolding(crate::specs::LineReading::other_at))]
fn other(word: &str, words: &mut Words<'_>) -> Result<Command, LineError>
    ensures { Gives (λ c. c) result words.new (other_at word.now words.old) }
{
    Ok(match word {
        "check" => Command::CheckRange {
            memory: words.index()?,
            addr: words.address()?,
            count: words.index()?,
            access: words.permissions()?,
        },
        "copy" => Command::Copy {
            from: words.block_range()?,
            to: words.block_range()?,
        },
        "set" => Command::Set {
            table: words.index()?,
            iova: words.address()?,
            map_to: words.address()?,
            length: words.index()?,
            perm: words.permissions()?,
        },
        "invalidate" => Command::Invalidate {
            table: words.index()?,
            iova: words.address()?,
            length: words.index()?,
        },
        "clear" => Command::InvalidateAll(words.index()?),
        "lookup" => Command::Lookup {
            table: words.index()?,
            iova: words.address()?,
            length: words.index()?,
            access: words.permissions()?,
        },
        "dirty" => Command::Dirty(words.bitmap()?),
        "harvest" => Command::Harvest(words.bitmap()?),
        _ => return Err(LineError::Bad),
    })
}
