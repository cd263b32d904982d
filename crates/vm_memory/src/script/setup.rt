//! Lines that may only come before the first command.
ghost use Rattle.std.specs.Option.{option_map};
ghost use Rattle.vm_memory.specs.Reading.{Gives};
ghost use Rattle.vm_memory.specs.Lines.{setup_fields};
ghost use Rattle.vm_memory.specs.LineReading.{setup_at};

use super::words::{LineError, Words};
use crate::machine::setup::Setup;
use vm_memory_guest::{BlockId, TlbId};

/// The setup line that begins with a word, if there is one.
#[tactic(auto, unfolding(crate::specs::LineReading::setup_at))]
pub(super) fn parse(word: &str, words: &mut Words<'_>) -> Result<Option<Setup>, LineError>
    ensures { Gives (option_map setup_fields) result words.new (setup_at word.now words.old) }
{
    Ok(match word {
        "block" => Some(Setup::Block {
            size: words.index()?,
            page_size: words.page_size()?,
        }),
        "space" => Some(Setup::Space {
            size: words.index()?,
            page_size: words.page_size()?,
        }),
        "table" => Some(Setup::Table(words.limit()?)),
        "region" => Some(Setup::Region {
            block: BlockId(words.index()?),
            addr: words.address()?,
        }),
        "translator" => Some(Setup::Translator(TlbId(words.index()?))),
        _ => None,
    })
}
