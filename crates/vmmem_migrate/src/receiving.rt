//! The receiving end.

use crate::connection::{Connection, PATIENCE, VERIFY_PATIENCE};
use crate::digests::{read_digests, send_digests};
use crate::guest::{Host, digests_of};
use crate::report::{Came, micros_since, tell_came, tell_left};
use anyhow::{Result, anyhow, bail};
use live_migration::{Destination, Guest, Refusal, Reply, Stage};
use std::alloc::Global;
use std::io::{BufReader, Write};
use std::net::TcpStream;
use std::time::{Clock, Instant};
use vm_memory_base::ExclusiveBitmap;

// How many bytes are read ahead.
const AHEAD: usize = 0x1_0000;

/// A guest that came, or none if all of it came but leave to run it, and the connection on which it came.
#[derive(Drop)]
pub struct Received<'a, R> {
    pub guest: Option<Guest>,
    pub rounds: u64,
    pub frames: u64,
    host: Host,
    reader: BufReader<Connection<'a, R>>,
    writer: Connection<'a, R>,
}

/// The digests of this end, and those that the other end sent.
#[derive(Drop)]
pub struct TwoDigests {
    pub ours: Vec<[u8; 32]>,
    pub theirs: Vec<[u8; 32]>,
}

// The receiving end of a migration, which prints its rounds as they end if it is to.
#[derive(Drop)]
struct ReceivingEnd<'a, R> {
    rt: &'a R,
    tells: bool,
    reader: BufReader<Connection<'a, R>>,
    writer: Connection<'a, R>,
    destination: Destination<ExclusiveBitmap>,
    rounds: u64,
    frames: u64,
    round: Round,
}

// The round that comes: when it began, how many frames and bytes had come then, when its last line was printed, and how
// many bytes had come when the clock was last looked at.
#[derive(Clone, Copy)]
struct Round {
    start: Instant,
    frames: u64,
    bytes: u64,
    told: Instant,
    seen: u64,
}

// How many microseconds lie between two lines of a round.
const TELLING: u64 = 1_000_000;

// Sends back why something is refused, if that can be, and tells it.
fn refuse<R: Clock>(
    reader: &BufReader<Connection<'_, R>>,
    writer: &mut Connection<'_, R>,
    refusal: Refusal,
) -> anyhow::Error {
    let is_late = reader.get_ref().is_late();
    if writer.allow(PATIENCE).is_ok() {
        let _ = writer.write_all(&Reply::Refused(refusal).encode());
    }
    if is_late {
        return anyhow!("given up: nothing whole came in {PATIENCE} seconds");
    }
    anyhow!("refused: {refusal}")
}

// Reads the header, and says that frames may come.
fn begin<'a, R: Clock>(
    rt: &'a R,
    alloc: Global,
    stream: &'a TcpStream,
    limit: u64,
    tells: bool,
) -> Result<ReceivingEnd<'a, R>> {
    let connection = Connection::new(rt, stream, PATIENCE)?;
    let mut reader = BufReader::with_capacity(alloc, AHEAD, connection)?;
    let mut writer = Connection::new(rt, stream, PATIENCE)?;
    let destination = match Destination::begin(alloc, &mut reader, Host::new(alloc), limit) {
        Ok(destination) => destination,
        Err((refusal, _)) => return Err(refuse(&reader, &mut writer, refusal)),
    };
    writer.allow(PATIENCE)?;
    writer.write_all(&Reply::Ready.encode())?;
    let now = Instant::now(rt)?;
    let bytes = reader.get_ref().received();
    Ok(ReceivingEnd {
        rt,
        tells,
        reader,
        writer,
        destination,
        rounds: 0,
        frames: 0,
        round: Round {
            start: now,
            frames: 0,
            bytes,
            told: now,
            seen: bytes,
        },
    })
}

impl<'a, R: Clock + Print> ReceivingEnd<'a, R> {
    // Takes the next frame, which has its time as a whole.
    fn take(&mut self) -> Result<Stage, Refusal> {
        self.reader.get_mut().allow_once_awaited(PATIENCE);
        self.destination.take(&mut self.reader)
    }

    // What came of this round.
    fn came(&self) -> Result<Came> {
        let received = self.reader.get_ref().received();
        Ok(Came {
            round: self.rounds,
            frames: self.frames.saturating_sub(self.round.frames),
            bytes: received.saturating_sub(self.round.bytes),
            micros: micros_since(self.rt, self.round.start)?,
        })
    }

    // Tells each second what came of this round, and how much of the first is left. The clock is looked at if bytes
    // came.
    fn tell_progress(&mut self) -> Result<()> {
        let received = self.reader.get_ref().received();
        if !self.tells || received == self.round.seen {
            return Ok(());
        }
        self.round.seen = received;
        if micros_since(self.rt, self.round.told)? >= TELLING {
            self.round.told = Instant::now(self.rt)?;
            let came = self.came()?;
            tell_came(self.rt, came, false)?;
            if self.rounds == 0 {
                tell_left(
                    self.rt,
                    self.destination
                        .receiver()
                        .memory()
                        .saturating_sub(came.bytes),
                )?;
            }
        }
        Ok(())
    }

    // Counts a round, and tells what came of it.
    fn end_round(&mut self) -> Result<()> {
        if self.tells {
            tell_came(self.rt, self.came()?, true)?;
        }
        let now = Instant::now(self.rt)?;
        let bytes = self.reader.get_ref().received();
        self.round = Round {
            start: now,
            frames: self.frames,
            bytes,
            told: now,
            seen: bytes,
        };
        self.rounds = self.rounds.saturating_add(1);
        Ok(())
    }

    // Takes all frames up to done. Where one is refused, that goes back.
    fn take_guest(&mut self) -> Result<()> {
        for _ in 0..u64::MAX {
            self.frames = self.frames.saturating_add(1);
            match self.take() {
                Ok(Stage::Done) => return Ok(()),
                Ok(Stage::RoundEnded) => self.end_round()?,
                Ok(Stage::Round) => self.tell_progress()?,
                Ok(Stage::Gone) | Ok(Stage::Failed) => bail!("frame out of order"),
                Err(refusal) => return Err(refuse(&self.reader, &mut self.writer, refusal)),
            }
        }
        bail!("there were too many frames")
    }

    // Says that all came, and waits for leave to run it. From the first on the sender may have given its guest up, so
    // that nothing here fails any more.
    fn await_leave(&mut self) {
        if self.writer.allow(PATIENCE).is_ok() {
            let _ = self.writer.write_all(&Reply::Accepted.encode());
        }
        let _ = self.take();
    }

    // The guest, if there is leave to run it.
    fn hand_out(self) -> Received<'a, R> {
        let ReceivingEnd {
            reader,
            writer,
            destination,
            rounds,
            frames,
            ..
        } = self;
        let (receiver, host) = destination.into_parts();
        Received {
            guest: receiver.into_guest().ok(),
            rounds,
            frames,
            host,
            reader,
            writer,
        }
    }
}

impl<'a, R: Clock> Received<'a, R> {
    /// The digests of the guest's blocks at both ends.
    pub fn digests(&mut self, alloc: Global) -> Result<TwoDigests> {
        let Some(guest) = &self.guest else {
            bail!("there is no guest");
        };
        let blocks = guest.entries.len();
        let ours = digests_of(alloc, &self.host, guest.base, blocks)?;
        self.writer.allow(VERIFY_PATIENCE)?;
        send_digests(&mut self.writer, ours.as_slice())?;
        let connection = self.reader.get_mut();
        connection.allow(VERIFY_PATIENCE)?;
        let theirs = read_digests(alloc, &mut self.reader, blocks)?;
        Ok(TwoDigests { ours, theirs })
    }
}

/// Takes a guest from a connection, and prints its rounds as they end if `tells`. What fails, fails before the sender
/// may have given its guest up.
pub fn receive<'a, R: Clock + Print>(
    rt: &'a R,
    alloc: Global,
    stream: &'a TcpStream,
    limit: u64,
    tells: bool,
) -> Result<Received<'a, R>> {
    let mut end = begin(rt, alloc, stream, limit, tells)?;
    end.take_guest()?;
    end.await_leave();
    Ok(end.hand_out())
}
