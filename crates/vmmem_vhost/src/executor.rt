//! What is done for a connection: bytes go to the two channels, a file becomes guest memory, and the bytes of requests
//! move between guest memory and a disk. The connection decides all of that.
ghost use Rattle.std.specs.Prelude.{◌≤◌, IfOk, IfSome, length};

use crate::world::{CALL, DISK_NAME, MOST_MEMORY};
use std::alloc::{AllocError, Global};
use std::io::{Read, Write};
use thiserror::Error;
use vhost_backend::rows::{ActionRow, EndRow, PieceRow, kind, way};
use vhost_backend::{BlockConnection, ConnectionMemory};
use vhost_calls::{access_fail, miss};
use vhost_message::{
    ChannelError, FrontendReq, HEADER_LEN, Header, Incoming, Message, Receive, VERSION,
};
use vm_memory_base::GuestAddress;
use vm_memory_guest::BlockBytes;

// How many turns rings have in a run, and for how many actions, pieces and bytes of replies it has room. There is room
// for few pieces, so that parts go on in later runs.
const TURNS: u32 = 1;

const ACTIONS: usize = 8;

const PIECES: usize = 3;

const OUTPUT: usize = 280;

// How many bytes a reply on the back end's own channel has, and a message there at most.
const REPLY_LEN: usize = 20;

const ASKED_LEN: usize = 64;

// The use of a descriptor that is the back end's own channel.
const KEPT_CHANNEL: u32 = 4;

/// Why nothing more can be done for a connection.
#[derive(Clone, Copy, Debug, PartialEq, Eq, Error)]
pub enum Fault {
    /// Bytes cannot be sent to the front end.
    #[error("the front end's channel: {0}")]
    Channel(ChannelError),
    /// An allocation failed.
    #[error("out of memory")]
    Memory,
    /// A message was not taken, although none was under way.
    #[error("a message was not taken")]
    Busy,
    /// A ring broke.
    #[error("ring {0} broke")]
    Ring(u32),
}

/// What outlives a connection: the disk, the file that is mapped as guest memory, and how many requests were served.
#[derive(Drop)]
pub struct Store {
    pub disk: Vec<u8>,
    pub file: Vec<u8>,
    pub served: u64,
}

/// What came on the back end's own channel.
#[derive(Clone, Copy, Debug, PartialEq, Eq)]
pub enum Came {
    /// Nothing, or a part of a reply.
    Nothing,
    /// A whole reply.
    Reply,
    /// The front end closed it.
    Gone,
}

// A part of a request that waits to be served, or as much of it as there was room for.
#[derive(Drop)]
struct Part {
    row: ActionRow,
    pieces: Vec<PieceRow>,
}

// A part of a request of which some pieces were served: how many bytes were moved, and whether one could not be.
#[derive(Clone, Copy)]
struct Open {
    bytes: u64,
    failed: bool,
}

const NOTHING_MOVED: Open = Open {
    bytes: 0,
    failed: false,
};

// What a run gives goes here.
#[derive(Drop)]
struct Room {
    actions: Vec<ActionRow>,
    pieces: Vec<PieceRow>,
    output: Vec<u8>,
}

const NO_ACTION: ActionRow = ActionRow {
    kind: 0,
    ring: 0,
    id: 0,
    way: 0,
    count: 0,
    more: 0,
    left: 0,
    place: 0,
    len: 0,
    guest: 0,
    user: 0,
};

const NO_PIECE: PieceRow = PieceRow {
    region: 0,
    offset: 0,
    len: 0,
};

// How far it has come with what a run gave: the first pieces and the first bytes of replies were used, and the
// connection may have been told something.
#[derive(Clone, Copy)]
struct Used {
    pieces: usize,
    bytes: usize,
    has_told: bool,
}

/// Does what a connection asks for, over two channels.
#[derive(Drop)]
pub struct Executor<F, O> {
    alloc: Global,
    // The front end's channel, and what has come of its next message.
    front: F,
    incoming: Incoming,
    // The back end's own channel, whether it is kept, and what has come of the next reply.
    own: O,
    has_channel: bool,
    reply: [u8; REPLY_LEN],
    came: usize,
    store: Store,
    // Where the regions of guest memory begin.
    bases: Vec<u64>,
    room: Room,
    // The parts that wait, in order, and how far the first one is served.
    parts: Vec<Part>,
    open: Open,
    // The ends of parts that the next run takes.
    ends: Vec<EndRow>,
    state: u32,
}

impl<F: Read + Write + Drop, O: Read + Write + Drop> Executor<F, O> {
    /// Nothing is mapped, and no message has come. `AllocError` if there is no memory for what runs give.
    pub fn new(
        alloc: Global,
        front: F,
        own: O,
        store: Store,
    ) -> Result<Executor<F, O>, AllocError> {
        Ok(Executor {
            alloc,
            front,
            incoming: Incoming::new(),
            own,
            has_channel: false,
            reply: [0; REPLY_LEN],
            came: 0,
            store,
            bases: Vec::new(alloc),
            room: Room {
                actions: vec![in alloc; NO_ACTION; ACTIONS]?,
                pieces: vec![in alloc; NO_PIECE; PIECES]?,
                output: vec![in alloc; 0u8; OUTPUT]?,
            },
            parts: Vec::new(alloc),
            open: NOTHING_MOVED,
            ends: Vec::new(alloc),
            state: 0,
        })
    }

    /// What outlives the connection.
    pub fn into_store(self) -> Store {
        let Executor { store, .. } = self;
        store
    }

    /// Whether a message may be taken now.
    pub fn is_free(&self) -> bool {
        self.state == 0
    }

    /// Whether the connection is over, and nothing is under way.
    pub fn is_over(&self) -> bool {
        self.state == 3
    }

    // ---- what comes

    /// The next message of the front end, if all of it has come.
    pub fn next_message(&mut self) -> Result<Option<Message>, ChannelError>
        ensures { IfOk result (λ o. IfSome o (λ message. 12 ≤ length message)) }
    {
        self.incoming.look(&mut self.front)
    }

    /// Gives a message to the connection. No descriptor crosses the channel: each request has those that belong to it.
    /// A SET_VRING_KICK that says that none came is a kick of its ring.
    pub fn take_message(
        &mut self,
        connection: &mut BlockConnection,
        message: &Message,
    ) -> Result<(), Fault>
        requires { 12 ≤ length message.now }
    {
        let bytes = message.as_slice();
        let descriptors = match FrontendReq::decode(&message.header(), &bytes[HEADER_LEN..]) {
            Ok(
                FrontendReq::SetVringKick {
                    index,
                    descriptor: false,
                },
            ) => {
                connection.kick(index as usize);
                return Ok(());
            }
            Ok(request) => request.descriptors(),
            Err(_) => 0,
        };
        if connection.take_message(bytes, descriptors) {
            Ok(())
        } else {
            Err(Fault::Busy)
        }
    }

    /// Looks for a reply on the back end's own channel.
    pub fn next_reply(&mut self) -> Came {
        if !self.has_channel || self.came >= REPLY_LEN {
            return Came::Nothing;
        }
        match self.own.receive(&mut self.reply[self.came..]) {
            Ok(count) => {
                self.came = self.came.saturating_add(count);
                if self.came < REPLY_LEN {
                    Came::Nothing
                } else {
                    Came::Reply
                }
            }
            Err(_) => Came::Gone,
        }
    }

    /// Gives what came on the own channel to the connection.
    pub fn take_reply(&mut self, connection: &mut BlockConnection, came: Came) {
        match came {
            Came::Nothing => {}
            Came::Reply => {
                connection.answered(&self.reply);
                self.came = 0;
            }
            Came::Gone => {
                connection.channel_lost();
                self.has_channel = false;
            }
        }
    }

    // ---- what is to be done

    // Sends bytes of replies.
    fn send(
        &mut self,
        connection: &mut BlockConnection,
        from: usize,
        len: usize,
    ) -> Result<(), Fault> {
        let Some(bytes) = self
            .room
            .output
            .as_slice()
            .get(from..from.saturating_add(len))
        else {
            return Err(Fault::Memory);
        };
        if self.front.write_all(bytes).is_err() {
            return Err(Fault::Channel(ChannelError::Failed));
        }
        connection.sent(len);
        Ok(())
    }

    // Says something on the back end's own channel, which is lost if that fails.
    fn say(&mut self, connection: &mut BlockConnection, bytes: &[u8]) {
        if self.has_channel && self.own.write_all(bytes).is_err() {
            connection.channel_lost();
            self.has_channel = false;
        }
    }

    // Calls the driver.
    fn call(&mut self, connection: &mut BlockConnection) {
        let header = Header {
            request: CALL,
            flags: VERSION,
            size: 0,
        };
        self.say(connection, &header.encode());
    }

    // Asks the front end for a mapping, or tells it that one forbids an access.
    fn ask(&mut self, connection: &mut BlockConnection, row: ActionRow) {
        let mut bytes = [0; ASKED_LEN];
        let count = if row.count == 0 {
            miss(row.place, row.way, &mut bytes)
        } else {
            access_fail(row.place, row.way, &mut bytes)
        };
        if let Some(bytes) = bytes.get(..count) {
            self.say(connection, bytes);
        }
    }

    // The bytes of a region, if the file has them.
    fn region(&self, row: ActionRow) -> Result<Option<Vec<u8>>, AllocError> {
        let from = row.place as usize;
        let to = from.saturating_add(row.len as usize);
        let Some(bytes) = self.store.file.as_slice().get(from..to) else {
            return Ok(None);
        };
        let mut copy = vec![in self.alloc; 0u8; bytes.len()]?;
        copy.as_mut_slice().copy_from_slice(bytes);
        Ok(Some(copy))
    }

    // Maps a region of the file.
    fn map(&mut self, connection: &mut BlockConnection, row: ActionRow) -> Result<(), AllocError> {
        match self.region(row)? {
            Some(bytes) if !bytes.is_empty() && bytes.len() <= MOST_MEMORY => {
                self.bases.push(row.guest)?;
                connection.mapped(BlockBytes::Owned(bytes));
            }
            _ => connection.failed(),
        }
        Ok(())
    }

    // Moves the bytes of a piece between guest memory and a place on the disk.
    fn move_piece(
        &mut self,
        memory: &mut ConnectionMemory,
        row: ActionRow,
        place: u64,
        piece: PieceRow,
    ) -> Option<()> {
        let base = self.bases.get(piece.region as usize).copied()?;
        let address = GuestAddress(base.checked_add(piece.offset)?);
        let from = place as usize;
        let to = from.checked_add(piece.len as usize)?;
        let done = match row.way {
            way::READ => memory.write(self.store.disk.as_slice().get(from..to)?, address),
            way::WRITE => memory.read(self.store.disk.as_mut_slice().get_mut(from..to)?, address),
            way::NAME => memory.write(DISK_NAME.get(from..to)?, address),
            _ => return None,
        };
        done.ok()
    }

    // Has a part wait, whose pieces are those from one of the room on.
    fn take_part(&mut self, row: ActionRow, from: usize) -> Result<(), AllocError> {
        let to = from.saturating_add(row.count as usize);
        let mut pieces = Vec::new(self.alloc);
        if let Some(given) = self.room.pieces.as_slice().get(from..to) {
            pieces.extend_from_slice(given)?;
        }
        self.parts.push(Part { row, pieces })?;
        Ok(())
    }

    /// Serves the part that waits for longest. Returns whether one waited.
    pub fn serve_next(&mut self, connection: &mut BlockConnection) -> Result<bool, Fault> {
        if self.parts.is_empty() {
            return Ok(false);
        }
        let Part { row, pieces } = self.parts.remove(0);
        let mut place = row.place;
        for piece in pieces.as_slice() {
            let moved = self.move_piece(connection.memory(), row, place, *piece);
            self.open.failed = self.open.failed || moved.is_none();
            self.open.bytes = self.open.bytes.saturating_add(piece.len);
            place = place.saturating_add(piece.len);
        }
        if row.more == 0 {
            self.end(row).map_err(|_| Fault::Memory)?;
        }
        Ok(true)
    }

    // The part is served.
    fn end(&mut self, row: ActionRow) -> Result<(), AllocError> {
        let Open { bytes, failed } = self.open;
        self.open = NOTHING_MOVED;
        if row.left == 0 && !failed {
            self.store.served = self.store.served.saturating_add(1);
        }
        self.ends.push(EndRow {
            ring: row.ring,
            id: row.id,
            failed: u32::from(failed),
            bytes: if failed {
                0
            } else {
                u32::try_from(bytes).unwrap_or(0)
            },
        })?;
        Ok(())
    }

    // Keeps what came with a message, of which only the own channel is of use here.
    fn keep(&mut self, connection: &mut BlockConnection, row: ActionRow) {
        if row.way == KEPT_CHANNEL {
            self.has_channel = row.count == 1;
            self.came = 0;
        }
        connection.done();
    }

    // Does an action.
    fn act(
        &mut self,
        connection: &mut BlockConnection,
        row: ActionRow,
        used: &mut Used,
    ) -> Result<(), Fault> {
        match row.kind {
            kind::SEND => {
                let len = row.len as usize;
                self.send(connection, used.bytes, len)?;
                used.bytes = used.bytes.saturating_add(len);
            }
            kind::UNMAP_ALL => self.bases.clear(),
            kind::MAP => {
                used.has_told = true;
                self.map(connection, row).map_err(|_| Fault::Memory)?;
            }
            kind::LOG | kind::KEEP => {
                used.has_told = true;
                self.keep(connection, row);
            }
            kind::SERVE => {
                self.take_part(row, used.pieces).map_err(|_| Fault::Memory)?;
                used.pieces = used.pieces.saturating_add(row.count as usize);
            }
            kind::INTERRUPT => self.call(connection),
            kind::ASK => self.ask(connection, row),
            kind::ERROR => return Err(Fault::Ring(row.ring)),
            _ => {}
        }
        Ok(())
    }

    /// Has the connection run, and does what it asks for, in order. Returns whether it may ask for more at once.
    pub fn go_on(&mut self, connection: &mut BlockConnection) -> Result<bool, Fault> {
        let counts = connection.run(
            self.ends.as_slice(),
            TURNS,
            self.room.actions.as_mut_slice(),
            self.room.pieces.as_mut_slice(),
            self.room.output.as_mut_slice(),
        );
        self.state = counts.state;
        self.ends.drain(..counts.ends.min(self.ends.len()));
        let mut used = Used {
            pieces: 0,
            bytes: 0,
            has_told: false,
        };
        for index in 0..counts.actions {
            if let Some(row) = self.room.actions.get(index).copied() {
                self.act(connection, row, &mut used)?;
            }
        }
        Ok(counts.more == 1 || used.has_told || !self.ends.is_empty())
    }
}
