//! Frames of the stream.
ghost use Rattle.std.specs.Prelude.{◌≡◌, ◌+◌, ◌^◌, ◌<◌, ◌≤◌, ℕ, List, [], ◌∷◌, ◌++◌, length, take, IfOk, OnOk, OnErr};
ghost use Rattle.std.specs.Prelude.{Ok};
ghost use Rattle.std.specs.Int.{w32, w64, to_le_bytes};
ghost use Rattle.live_migration.specs.Frame.{Message, IsMessage, head, kind_of, message_of, payload_of, spelling};
ghost use Rattle.live_migration.specs.Reading.{Gives, message_in, pages_in, zero_page_in, round_end_in, section_in};
ghost use Rattle.live_migration.specs.Reading.{empty_in};

use crate::fields::{u32_at, u64_at};
use crate::refusal::Refusal;
use std::alloc::AllocError;

/// The greatest number of bytes of pages, or of a section, in one frame.
pub const MOST_PAGE_BYTES: usize = 0x10_0000;

const PAGES: u32 = 1;

const ZERO_PAGE: u32 = 2;

const ROUND_END: u32 = 3;

const SECTION: u32 = 4;

const DONE: u32 = 5;

pub(crate) const GO: u32 = 6;

// The greatest length of the payload of a frame of this kind, where pages have at most `longest` bytes in one frame.
pub(crate) fn most_bytes(kind: u32, longest: u32) -> Result<u32, Refusal>
    requires { longest ≤ 2 ^ 20 }
    ensures { IfOk result (λ most. most ≤ 2 ^ 20 + 256) }
{
    match kind {
        PAGES => Ok(12 + longest),
        ZERO_PAGE => Ok(12),
        ROUND_END => Ok(36),
        SECTION => Ok(0x10_0100),
        DONE | GO => Ok(0),
        _ => Err(Refusal::FrameKind),
    }
}

/// What a sender sends after its header.
#[derive(Clone, Copy, Debug)]
pub enum Frame<'a> {
    /// The bytes of pages of a block, from the page `first` on.
    Pages {
        block: u32,
        first: u64,
        bytes: &'a [u8],
    },
    /// A page whose bytes are all zero.
    ZeroPage {
        block: u32,
        page: u64,
    },
    /// The end of a round, with the digest of all bytes of the stream before this frame, or no bytes if the header asks
    /// for no digests.
    RoundEnd {
        round: u32,
        digest: &'a [u8],
    },
    /// The state of a device or a queue.
    Section {
        name: &'a [u8],
        bytes: &'a [u8],
    },
    /// Everything was sent.
    Done,
    /// The receiver may run the guest.
    Go,
}

#[tactic(auto, unfolding(crate::specs::Reading::pages_in))]
fn pages_in(payload: &[u8]) -> Result<Frame<'_>, Refusal>
    ensures { Gives message_of result (pages_in payload.now) }
{
    let (block, rest) = u32_at(payload)?;
    let (first, bytes) = u64_at(rest)?;
    if bytes.len() > MOST_PAGE_BYTES {
        return Err(Refusal::FrameLength);
    }
    Ok(Frame::Pages {
        block,
        first,
        bytes,
    })
}

#[tactic(auto, unfolding(crate::specs::Reading::zero_page_in))]
fn zero_page_in(payload: &[u8]) -> Result<Frame<'_>, Refusal>
    ensures { Gives message_of result (zero_page_in payload.now) }
{
    let (block, rest) = u32_at(payload)?;
    let (page, rest) = u64_at(rest)?;
    if rest.len() != 0 {
        return Err(Refusal::FrameLength);
    }
    Ok(Frame::ZeroPage { block, page })
}

#[tactic(auto, unfolding(crate::specs::Reading::round_end_in))]
fn round_end_in(payload: &[u8]) -> Result<Frame<'_>, Refusal>
    ensures { Gives message_of result (round_end_in payload.now) }
{
    let (round, digest) = u32_at(payload)?;
    if digest.len() != 0 && digest.len() != 32 {
        return Err(Refusal::FrameLength);
    }
    Ok(Frame::RoundEnd { round, digest })
}

#[tactic(auto, unfolding(crate::specs::Reading::section_in))]
fn section_in(payload: &[u8]) -> Result<Frame<'_>, Refusal>
    ensures { Gives message_of result (section_in payload.now) }
{
    match payload {
        [] => Err(Refusal::FrameLength),
        [len, rest @ ..] => {
            let len = *len as usize;
            if rest.len() < len {
                return Err(Refusal::FrameLength);
            }
            let (name, bytes) = rest.split_at(len);
            if bytes.len() > MOST_PAGE_BYTES {
                return Err(Refusal::FrameLength);
            }
            Ok(Frame::Section { name, bytes })
        }
    }
}

fn empty_in<'a>(frame: Frame<'a>, payload: &[u8]) -> Result<Frame<'a>, Refusal>
    ensures { Gives message_of result (empty_in (message_of frame.entry) payload.now) }
{
    if payload.len() != 0 {
        return Err(Refusal::FrameLength);
    }
    Ok(frame)
}

#[tactic(auto, unfolding(crate::specs::Reading::message_in))]
fn frame_in(kind: u32, payload: &[u8]) -> Result<Frame<'_>, Refusal>
    ensures { Gives message_of result (message_in kind payload.now) }
{
    match kind {
        PAGES => pages_in(payload),
        ZERO_PAGE => zero_page_in(payload),
        ROUND_END => round_end_in(payload),
        SECTION => section_in(payload),
        DONE => empty_in(Frame::Done, payload),
        GO => empty_in(Frame::Go, payload),
        _ => Err(Refusal::FrameKind),
    }
}

// The head of a frame.
pub(crate) fn head_bytes(kind: u32, len: u32) -> [u8; 8]
    ensures { result ≡ head kind len }
{
    let [a, b, c, d] = kind.to_le_bytes();
    let [e, f, g, h] = len.to_le_bytes();
    [a, b, c, d, e, f, g, h]
}

// The number of a block, and of a page of it.
fn page_bytes(block: u32, page: u64) -> [u8; 12]
    ensures { result ≡ to_le_bytes w32 block ++ to_le_bytes w64 page }
{
    let [a, b, c, d] = block.to_le_bytes();
    let [e, f, g, h, i, j, k, l] = page.to_le_bytes();
    [a, b, c, d, e, f, g, h, i, j, k, l]
}

#[tactic(auto, using(crate::proofs::PutLemmas::put_after))]
fn put_two(out: &mut Vec<u8>, first: &[u8], second: &[u8]) -> Result<(), AllocError>
    ensures ok { OnOk result (out.new.items ≡ out.old.items ++ (first.now ++ second.now)) }
    ensures err { OnErr result (take (length out.old.items) out.new.items ≡ out.old.items) }
{
    out.extend_from_slice(first)?;
    out.extend_from_slice(second)?;
    Ok(())
}

#[tactic(auto, using(crate::proofs::PutLemmas::put_after))]
fn put_section(out: &mut Vec<u8>, name: &[u8], bytes: &[u8]) -> Result<(), AllocError>
    requires { length name.now < 256 }
    ensures ok { OnOk result (out.new.items ≡ out.old.items ++ ((length name.now ∷ name.now) ++ bytes.now)) }
    ensures err { OnErr result (take (length out.old.items) out.new.items ≡ out.old.items) }
{
    out.push(name.len() as u8)?;
    put_two(out, name, bytes)?;
    Ok(())
}

impl<'a> Frame<'a> {
    /// The frame of this kind whose payload these bytes are: no other frame has it. `FrameKind` if no kind has this
    /// number, and `FrameLength` if the payload is longer or shorter than the kind lets it be.
    pub fn decode(kind: u32, payload: &'a [u8]) -> Result<Frame<'a>, Refusal>
        // What is read is spelled so.
        ensures found { IfOk result (λ f. IsMessage (message_of f) × (kind ≡ kind_of (message_of f))
            × (payload.now ≡ payload_of (message_of f))) }
        // What is spelled so is read.
        ensures only { (m : Message) → IsMessage m → kind ≡ kind_of m → payload.now ≡ payload_of m
            → Gives message_of result (Ok m) }
        // Which fault it is.
        ensures exact { Gives message_of result (message_in kind payload.now) }
    {
        frame_in(kind, payload)
    }

    // The kind, and the number of bytes of the payload.
    fn head(&self) -> (u32, u32)
        requires { IsMessage (message_of self.now) }
        ensures kind { result.0 ≡ kind_of (message_of self.now) }
        ensures len { result.1 ≡ length (payload_of (message_of self.now)) }
    {
        match *self {
            Frame::Pages { bytes, .. } => (PAGES, 12 + bytes.len() as u32),
            Frame::ZeroPage { .. } => (ZERO_PAGE, 12),
            Frame::RoundEnd { digest, .. } => (ROUND_END, 4 + digest.len() as u32),
            Frame::Section { name, bytes } => {
                (SECTION, 1 + name.len() as u32 + bytes.len() as u32)
            }
            Frame::Done => (DONE, 0),
            Frame::Go => (GO, 0),
        }
    }

    // Puts the payload after other bytes.
    fn put_payload(&self, out: &mut Vec<u8>) -> Result<(), AllocError>
        requires { IsMessage (message_of self.now) }
        ensures ok { OnOk result (out.new.items ≡ out.old.items ++ payload_of (message_of self.now)) }
        ensures err { OnErr result (take (length out.old.items) out.new.items ≡ out.old.items) }
    {
        match *self {
            Frame::Pages {
                block,
                first,
                bytes,
            } => put_two(out, &page_bytes(block, first), bytes),
            Frame::ZeroPage { block, page } => put_two(out, &page_bytes(block, page), &[]),
            Frame::RoundEnd { round, digest } => put_two(out, &round.to_le_bytes(), digest),
            Frame::Section { name, bytes } => put_section(out, name, bytes),
            Frame::Done | Frame::Go => Ok(()),
        }
    }

    #[tactic(auto, using(crate::proofs::PutLemmas::put_after), unfolding(crate::specs::Frame::spelling))]
    fn put(&self, out: &mut Vec<u8>) -> Result<(), AllocError>
        requires { IsMessage (message_of self.now) }
        ensures ok { OnOk result (out.new.items ≡ out.old.items ++ spelling (message_of self.now)) }
        ensures err { OnErr result (take (length out.old.items) out.new.items ≡ out.old.items) }
    {
        let (kind, len) = self.head();
        out.extend_from_slice(&head_bytes(kind, len))?;
        self.put_payload(out)?;
        Ok(())
    }

    /// Appends the frame to other bytes, as it goes over the stream. `AllocError` if its allocation fails, and
    /// then nothing changes. Its fields have to fit: at most 2^20 bytes, a digest of 32 or none, and a name of at most
    /// 255.
    pub fn encode(&self, out: &mut Vec<u8>) -> Result<(), AllocError>
        requires { IsMessage (message_of self.now) }
        ensures ok { OnOk result (out.new.items ≡ out.old.items ++ spelling (message_of self.now)) }
        ensures err { OnErr result (out.new.items ≡ out.old.items) }
    {
        let start = out.len();
        let put = self.put(out);
        if put.is_err() {
            out.truncate(start);
        }
        put
    }
}
