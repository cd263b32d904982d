//! The words of a line: numbers, addresses and bytes, with one space between any two.
ghost use Rattle.std.specs.Prelude.{◌≡◌, ◌<◌, ◌≤◌, ◌∷◌, [], MatchOption, None, Some};
ghost use Rattle.std.specs.Int.NonZero.{non_zero_usize_get};
ghost use Rattle.std.specs.Option.{option_map};
ghost use Rattle.vm_memory.specs.Words.{parts_of};
ghost use Rattle.vm_memory.specs.Reading.{Gives, IsRead, bytes_of, pairs_of, bytes_at, source_of, source_step_of};
ghost use Rattle.vm_memory.specs.Reading.{source_at, sink_of, sink_step_of, sink_at, numbers_at, number_in, number_of};
ghost use Rattle.vm_memory.specs.Reading.{words_of, word_at, number_at, address_at, page_size_at, limit_at, width_at};
ghost use Rattle.vm_memory.specs.Reading.{permissions_at, switch_at, bitmap_at, block_range_at, end_at};
ghost use Rattle.vm_memory.specs.declared.script.words.LineError.TheVariants as error;

use crate::machine::command::{BlockRange, Width};
use crate::machine::list::{ByteList, NumberList, SinkList, SourceList};
use hex::FromHexError;
use std::alloc::{AllocError, AllocFailed, Global};
use std::marker::Model;
use std::num::NonZeroUsize;
use vm_memory_base::{BitmapId, GuestAddress, Permissions, SinkStep, SourceStep};

/// Why a line cannot be parsed.
#[derive(Clone, Copy)]
pub(super) enum LineError {
    /// It has none of the forms.
    Bad,
    /// Its allocation failed.
    Memory,
}

impl From<AllocError> for LineError {
    ghost from_gives = { λ e r. r ≡ error.Memory };

    fn from(_e: AllocError) -> LineError {
        LineError::Memory
    }
}

impl<T: Drop> From<AllocFailed<T>> for LineError {
    ghost from_gives = { λ e r. r ≡ error.Memory };

    fn from(_e: AllocFailed<T>) -> LineError {
        LineError::from(AllocError)
    }
}

// What is left of a text that a separator cuts into parts.
#[derive(Drop)]
struct Parts<'a> {
    rest: Option<&'a str>,
    separator: char,
}

impl<'a> Model for Parts<'a> {
    ghost use Rattle.std.specs.Prelude.{List, ℕ, ◌<◌};
    ghost use Rattle.vm_memory.specs.Reading.{parts_left};

    ghost Value = { List (List ℕ) };

    ghost view = { λ p. parts_left p.separator p.rest };

    ghost invariant = { λ p. p.separator < 128 };
}

impl<'a> Parts<'a> {
    // The parts of a text.
    fn new(text: &'a str, separator: char) -> Parts<'a>
        requires { separator < 128 }
        ensures { result ≡ parts_of separator text.now }
    {
        Parts {
            rest: Some(text),
            separator,
        }
    }

    // The next part, if there is one.
    fn next(&mut self) -> Option<&'a str>
        ensures { MatchOption result ((self.old ≡ []) × (self.new ≡ [])) (λ part. self.old ≡ part.now ∷ self.new) }
    {
        let text = self.rest?;
        match text.split_once(self.separator) {
            Some((part, rest)) => {
                self.rest = Some(rest);
                Some(part)
            }
            None => {
                self.rest = None;
                Some(text)
            }
        }
    }
}

/// What is left of a line.
#[derive(Drop)]
pub(super) struct Words<'a> {
    words: Parts<'a>,
}

impl<'a> Model for Words<'a> {
    ghost use Rattle.std.specs.Prelude.{List, ℕ};

    ghost Value = { List (List ℕ) };

    ghost view = { λ w. w.words };
}

impl<'a> Words<'a> {
    /// The words of a line.
    pub(super) fn new(line: &'a str) -> Words<'a>
        ensures { result ≡ words_of line.now }
    {
        Words {
            words: Parts::new(line, ' '),
        }
    }

    // The next word, if there is one.
    fn next(&mut self) -> Option<&'a str>
        ensures { MatchOption result ((self.old ≡ []) × (self.new ≡ [])) (λ word. self.old ≡ word.now ∷ self.new) }
    {
        self.words.next()
    }

    /// The next word, if there is one.
    pub(super) fn word(&mut self) -> Result<&'a str, LineError>
        ensures { Gives (λ word. word.now) result self.new (word_at self.old) }
    {
        self.next().ok_or(LineError::Bad)
    }

    /// The next word as a number: in decimal, or in hexadecimal after `0x`.
    #[tactic(auto, unfolding(crate::specs::Reading::number_at))]
    pub(super) fn number(&mut self) -> Result<u64, LineError>
        ensures { Gives (λ n. n) result self.new (number_at self.old) }
    {
        number(self.word()?).ok_or(LineError::Bad)
    }

    /// The next word as an address.
    #[tactic(auto, unfolding(crate::specs::Reading::address_at))]
    pub(super) fn address(&mut self) -> Result<GuestAddress, LineError>
        ensures { Gives (λ a. a) result self.new (address_at self.old) }
    {
        Ok(GuestAddress(self.number()?))
    }

    /// The next word as a number of a pool, or as a length.
    pub(super) fn index(&mut self) -> Result<usize, LineError>
        ensures { Gives (λ n. n) result self.new (number_at self.old) }
    {
        Ok(self.number()? as usize)
    }

    /// The next word as a page size, which is above 0.
    #[tactic(auto, unfolding(crate::specs::Reading::page_size_at, crate::specs::Reading::number_at))]
    pub(super) fn page_size(&mut self) -> Result<NonZeroUsize, LineError>
        ensures { Gives non_zero_usize_get result self.new (page_size_at self.old) }
    {
        NonZeroUsize::new(self.index()?).ok_or(LineError::Bad)
    }

    /// The next word, if there is one, as a limit, which is above 0.
    #[tactic(auto, unfolding(crate::specs::Reading::limit_at, crate::specs::Reading::page_size_at, crate::specs::Reading::number_at))]
    pub(super) fn limit(&mut self) -> Result<Option<NonZeroUsize>, LineError>
        ensures { Gives (option_map non_zero_usize_get) result self.new (limit_at self.old) }
    {
        let Some(word) = self.next() else {
            return Ok(None);
        };
        let limit = number(word).ok_or(LineError::Bad)?;
        match NonZeroUsize::new(limit as usize) {
            Some(limit) => Ok(Some(limit)),
            None => Err(LineError::Bad),
        }
    }

    /// The next two words as the name of a bitmap: that of a block, or a space.
    #[tactic(auto, unfolding(crate::specs::Reading::bitmap_at))]
    pub(super) fn bitmap(&mut self) -> Result<BitmapId, LineError>
        ensures { Gives (λ id. id) result self.new (bitmap_at self.old) }
    {
        match self.word()? {
            "block" => Ok(BitmapId::Block(self.index()?)),
            "space" => Ok(BitmapId::Space(self.index()?)),
            _ => Err(LineError::Bad),
        }
    }

    /// The next three words as a range of a block: its block, its offset and its length.
    #[tactic(auto, unfolding(crate::specs::Reading::block_range_at))]
    pub(super) fn block_range(&mut self) -> Result<BlockRange, LineError>
        ensures { Gives (λ r. r) result self.new (block_range_at self.old) }
    {
        Ok(BlockRange {
            block: self.index()?,
            offset: self.index()?,
            len: self.index()?,
        })
    }

    /// The next word as the width of a value: 1, 2, 4 or 8 bytes.
    #[tactic(auto, unfolding(crate::specs::Reading::width_at))]
    pub(super) fn width(&mut self) -> Result<Width, LineError>
        ensures { Gives (λ w. w) result self.new (width_at self.old) }
    {
        match self.number()? {
            1 => Ok(Width::One),
            2 => Ok(Width::Two),
            4 => Ok(Width::Four),
            8 => Ok(Width::Eight),
            _ => Err(LineError::Bad),
        }
    }

    /// The next word as a set of accesses: `no`, `r`, `w` or `rw`.
    #[tactic(auto, unfolding(crate::specs::Reading::permissions_at))]
    pub(super) fn permissions(&mut self) -> Result<Permissions, LineError>
        ensures { Gives (λ p. p) result self.new (permissions_at self.old) }
    {
        match self.word()? {
            "no" => Ok(Permissions::No),
            "r" => Ok(Permissions::Read),
            "w" => Ok(Permissions::Write),
            "rw" => Ok(Permissions::ReadWrite),
            _ => Err(LineError::Bad),
        }
    }

    /// The next word as a switch: `on` or `off`.
    #[tactic(auto, unfolding(crate::specs::Reading::switch_at))]
    pub(super) fn switch(&mut self) -> Result<bool, LineError>
        ensures { Gives (λ s. s) result self.new (switch_at self.old) }
    {
        match self.word()? {
            "on" => Ok(true),
            "off" => Ok(false),
            _ => Err(LineError::Bad),
        }
    }

    /// The next word as bytes: two hexadecimal digits each, one or more, or a dash for none.
    #[tactic(auto, unfolding(crate::specs::Reading::bytes_at))]
    pub(super) fn bytes(&mut self, alloc: Global) -> Result<ByteList, LineError>
        ensures { Gives (λ b. b) result self.new (bytes_at self.old) }
    {
        bytes(alloc, self.word()?)
    }

    /// The next word as what a source does: steps with one comma between any two, or a dash for none. `g:` gives
    /// bytes, `i:` is interrupted and `f:` fails, each after a scribble of bytes.
    #[tactic(auto, unfolding(crate::specs::Reading::source_at))]
    pub(super) fn source(&mut self, alloc: Global) -> Result<SourceList, LineError>
        ensures { Gives (λ s. s) result self.new (source_at self.old) }
    {
        source(alloc, self.word()?)
    }

    /// The next word as what a sink does: steps with one comma between any two, or a dash for none. `t:` takes at
    /// most a number of bytes, `i` is interrupted and `f` fails.
    #[tactic(auto, unfolding(crate::specs::Reading::sink_at))]
    pub(super) fn sink(&mut self, alloc: Global) -> Result<SinkList, LineError>
        ensures { Gives (λ s. s) result self.new (sink_at self.old) }
    {
        sink(alloc, self.word()?)
    }

    /// All words that are left as numbers of a pool.
    #[tactic(auto, using(crate::proofs::WordLemmas::each_word))]
    pub(super) fn indices(&mut self, alloc: Global) -> Result<NumberList, LineError>
        ensures { Gives (λ n. n) result self.new (numbers_at self.old) }
    {
        let mut indices = Vec::new(alloc);
        while let Some(word) = self.next() {
            let index = number(word).ok_or(LineError::Bad)?;
            indices.push(index as usize)?;
        }
        Ok(NumberList::from_vec(indices))
    }

    /// Returns an error if a word is left.
    pub(super) fn end(&mut self) -> Result<(), LineError>
        ensures { Gives (λ u. u) result self.new (end_at self.old) }
    {
        match self.next() {
            Some(_) => Err(LineError::Bad),
            None => Ok(()),
        }
    }
}

// One or more digits, at most 16 of them in hexadecimal, for a value of at most 2^64 - 1.
#[tactic(auto, unfolding(crate::specs::Reading::number_of))]
fn number(word: &str) -> Option<u64>
    ensures { result ≡ number_of word.now }
{
    match word.strip_prefix("0x") {
        Some(digits) if digits.len() > 16 => None,
        Some(digits) => number_in(digits, 16),
        None => number_in(word, 10),
    }
}

fn number_in(digits: &str, radix: u32) -> Option<u64>
    requires low { 2 ≤ radix }
    requires high { radix ≤ 36 }
    ensures { result ≡ number_in radix digits.now }
{
    // The conversion accepts a plus sign, which is not a digit.
    if digits.starts_with('+') {
        return None;
    }
    u64::from_str_radix(digits, radix).ok()
}

fn bytes(alloc: Global, word: &str) -> Result<ByteList, LineError>
    ensures { IsRead result (bytes_of word.now) }
{
    match word {
        "-" => Ok(ByteList::from_vec(Vec::new(alloc))),
        "" => Err(LineError::Bad),
        _ => digit_pairs(alloc, word),
    }
}

fn digit_pairs(alloc: Global, word: &str) -> Result<ByteList, LineError>
    ensures { IsRead result (pairs_of word.now) }
{
    match hex::decode(alloc, word) {
        Ok(bytes) => Ok(ByteList::from_vec(bytes)),
        Err(FromHexError::OutOfMemory) => Err(LineError::Memory),
        Err(_) => Err(LineError::Bad),
    }
}

#[tactic(auto, using(crate::proofs::WordLemmas::each_word))]
fn source(alloc: Global, word: &str) -> Result<SourceList, LineError>
    ensures { IsRead result (source_of word.now) }
{
    let mut steps = Vec::new(alloc);
    if word == "-" {
        return Ok(SourceList::from_vec(steps));
    }
    let mut parts = Parts::new(word, ',');
    while let Some(part) = parts.next() {
        steps.push(source_step(alloc, part)?)?;
    }
    Ok(SourceList::from_vec(steps))
}

fn source_step(alloc: Global, word: &str) -> Result<SourceStep, LineError>
    ensures { IsRead result (source_step_of word.now) }
{
    if let Some(word) = word.strip_prefix("g:") {
        return Ok(SourceStep::Give(bytes(alloc, word)?));
    }
    if let Some(word) = word.strip_prefix("i:") {
        return Ok(SourceStep::Interrupted(bytes(alloc, word)?));
    }
    if let Some(word) = word.strip_prefix("f:") {
        return Ok(SourceStep::Fail(bytes(alloc, word)?));
    }
    Err(LineError::Bad)
}

#[tactic(auto, using(crate::proofs::WordLemmas::each_word))]
fn sink(alloc: Global, word: &str) -> Result<SinkList, LineError>
    ensures { IsRead result (sink_of word.now) }
{
    let mut steps = Vec::new(alloc);
    if word == "-" {
        return Ok(SinkList::from_vec(steps));
    }
    let mut parts = Parts::new(word, ',');
    while let Some(part) = parts.next() {
        steps.push(sink_step(part)?)?;
    }
    Ok(SinkList::from_vec(steps))
}

fn sink_step(word: &str) -> Result<SinkStep, LineError>
    ensures { IsRead result (sink_step_of word.now) }
{
    if let Some(word) = word.strip_prefix("t:") {
        let most = number(word).ok_or(LineError::Bad)?;
        return Ok(SinkStep::Take(most as usize));
    }
    match word {
        "i" => Ok(SinkStep::Interrupted),
        "f" => Ok(SinkStep::Fail),
        _ => Err(LineError::Bad),
    }
}
