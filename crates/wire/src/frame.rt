//! A frame as a value.

ghost use Rattle.std.specs.Prelude.{◌≡◌};

use crate::bytes::Bytes;
use crate::entries::Entries;
use crate::standing::DeskStatus;
use crate::values::{ClientRefusal, CommandState, Version};
use acceptor::ballot::Ballot;
use acceptor::entry::Entry;
use acceptor::message::Report;
use formats::{Event, SheetStyle};

/// What is sent over a connection: from desk to desk of a hall, from a client to a desk, or back to
/// the client.
#[derive(PartialEq, Eq, Debug, Drop)]
pub struct Frame {
    /// The version in which it is spelled.
    pub version: Version,
    /// The number of the hall.
    pub hall: u32,
    /// The desk that sends it, 1 to 5, or 0 for a client.
    pub from: u8,
    /// The desk that it is for, 1 to 5, or 0 for a client.
    pub to: u8,
    /// Its kind, with the fields of that kind.
    pub what: FrameBody,
}

/// The kinds of frames, with their fields.
///
/// A frame has a spelling where each field is in its range. A ballot has a round of at least 1 and
/// a desk of 1 to 5; a position is at most 65,535; an id is 1 to 2^63 - 1; an entry has an id and a
/// text of at most 600 bytes. A Decided has one entry in version 1 and 1 to 16 in the later ones,
/// for consecutive positions, and a Sheet an event of 1 to 16 or 1 to 17. Status, Log, Standing and
/// Entries are kinds of the versions from 3 on, and Await is one of version 5. Prepare to Decided
/// go from a desk to a desk; Submit, Ask, Sheet, Tick, Stop, Status, Log and Await from a client
/// (0) to a desk; the others from a desk to a client.
#[derive(PartialEq, Eq, Debug, Drop)]
pub enum FrameBody {
    /// A desk asks for promises.
    Prepare {
        ballot: Ballot,
        pos: u32,
    },
    /// A promise, with the vote given at that position, if any.
    Promise {
        ballot: Ballot,
        pos: u32,
        vote: Option<Report>,
    },
    /// A desk asks for votes.
    Accept {
        ballot: Ballot,
        pos: u32,
        entry: Entry,
    },
    /// A vote.
    Accepted {
        ballot: Ballot,
        pos: u32,
    },
    /// A higher ballot was promised.
    Nack {
        ballot: Ballot,
        pos: u32,
        promised: Ballot,
    },
    /// The number of entries in the sender's log, at most 65,536.
    Behind {
        len: u32,
    },
    /// What is in the log from a position on.
    Decided {
        pos: u32,
        entries: Entries,
    },
    /// A client enters a command.
    Submit {
        entry: Entry,
    },
    /// A client asks what became of the command with this id.
    Ask {
        id: u64,
    },
    /// A client asks for a round's sheet, of the first `position` entries of the log. Any round and
    /// any position.
    Sheet {
        event: Event,
        round: u8,
        position: u32,
        style: SheetStyle,
    },
    /// A client gives the desk a tick.
    Tick,
    /// A client asks the desk to end.
    Stop,
    /// The command with this id waits in the desk's queue.
    Taken {
        id: u64,
    },
    /// What became of the command with this id.
    Told {
        id: u64,
        state: CommandState,
    },
    /// The bytes of a sheet, at most 299,992.
    SheetText {
        text: Bytes,
    },
    /// The desk refuses.
    Refused {
        refusal: ClientRefusal,
    },
    /// The desk did it.
    Fine,
    /// A client asks how the desk is.
    Status,
    /// A client asks for entries of the desk's log, from this position on, at most 65,536.
    Log {
        position: u32,
    },
    /// A client asks what became of the command with this id, once it is in the log, or after this
    /// many seconds.
    Await {
        id: u64,
        seconds: u8,
    },
    /// How the desk is.
    Standing {
        standing: DeskStatus,
    },
    /// Entries of the desk's log from `position` on, which has `length` entries; both are at most
    /// 65,536. There are at most 400 entries. They end within the log, so there is none where the
    /// log ends at the position or before it.
    Entries {
        position: u32,
        length: u32,
        entries: Entries,
    },
}

impl FrameBody {
    ghost use Rattle.wire.specs.Spelling.{kind_of};

    /// The number of the kind: 1 to 7 between desks, 16 to 23 from a client, 32 to 38 to a client.
    pub fn kind(&self) -> u8
        ensures { result ≡ kind_of self.now }
    {
        match self {
            FrameBody::Prepare { .. } => 1,
            FrameBody::Promise { .. } => 2,
            FrameBody::Accept { .. } => 3,
            FrameBody::Accepted { .. } => 4,
            FrameBody::Nack { .. } => 5,
            FrameBody::Behind { .. } => 6,
            FrameBody::Decided { .. } => 7,
            FrameBody::Submit { .. } => 16,
            FrameBody::Ask { .. } => 17,
            FrameBody::Sheet { .. } => 18,
            FrameBody::Tick => 19,
            FrameBody::Stop => 20,
            FrameBody::Taken { .. } => 32,
            FrameBody::Told { .. } => 33,
            FrameBody::SheetText { .. } => 34,
            FrameBody::Refused { .. } => 35,
            FrameBody::Fine => 36,
            FrameBody::Status => 21,
            FrameBody::Log { .. } => 22,
            FrameBody::Await { .. } => 23,
            FrameBody::Standing { .. } => 37,
            FrameBody::Entries { .. } => 38,
        }
    }
}
