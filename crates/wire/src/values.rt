//! The values that only frames have: their versions, what became of a command, refusals, what a
//! desk does for a ballot.

ghost use Rattle.std.specs.Prelude.{◌≡◌};
ghost use Rattle.wire.specs.Fields.{numbered};
ghost use Rattle.wire.specs.Numbers.{answer_number, style_number, styles};

use formats::{Event, SheetStyle};
use texts::{Answer, Code};

/// The last event whose sheets can be asked for in version 1.
const LAST_OF_ONE: Event = Event::Blind5;

/// The last event whose sheets can be asked for in the versions from 2 on.
const LAST_OF_TWO: Event = Event::MultiBlind;

/// The version of the wire in which a frame is spelled.
#[derive(Clone, Copy, Debug, PartialEq, Eq)]
pub enum Version {
    /// A Decided has one entry, sheets are those of the events 1 to 16, and a Told has the codes 1
    /// to 22.
    One,
    /// A Decided has 1 to 16 entries, sheets are those of the events 1 to 17, and a Told has the
    /// codes 1 to 22.
    Two,
    /// Version 2, four kinds more (Status, Log, Standing and Entries), and the codes 23 and 24.
    Three,
    /// Version 3, and the code 25.
    Four,
    /// Version 4, the kind Await, the refusal 10, and in a Standing how another desk differs.
    Five,
}

/// What became of a command at a desk.
#[derive(Clone, Copy, Debug, PartialEq, Eq)]
pub enum CommandState {
    /// It is neither in the log nor in the queue.
    Unknown,
    /// It waits in the queue.
    Pending,
    /// It is in the log at this position, 0 to 65,535, and was answered so.
    Done { pos: u32, answer: Answer },
}

/// The number of an answer in a frame: 0, or that of the code.
pub(crate) fn number_of(answer: Answer) -> u8
    ensures { result ≡ answer_number answer }
{
    match answer {
        Answer::Done => 0,
        Answer::Refused(code) => code.number(),
    }
}

/// All styles of a sheet.
const STYLES: [SheetStyle; 2] = [SheetStyle::Text, SheetStyle::Table];

/// The number of a style in a frame.
pub(crate) fn style_number(style: SheetStyle) -> u8
    ensures { result ≡ style_number style }
{
    match style {
        SheetStyle::Text => 0,
        SheetStyle::Table => 1,
    }
}

/// The style that has a number, if one has it.
pub(crate) fn style_numbered(number: u8) -> Option<SheetStyle>
    ensures { result ≡ numbered style_number styles number }
{
    STYLES
        .iter()
        .copied()
        .find(|style| style_number(*style) == number)
}

impl CommandState {
    ghost use Rattle.wire.specs.Numbers.{state_in};

    /// What a version tells of what became of a command.
    pub fn in_version(self, version: Version) -> CommandState
        ensures { result ≡ state_in version self }
    {
        match self {
            CommandState::Done { pos, answer } => CommandState::Done {
                pos,
                answer: version.answer(answer),
            },
            CommandState::Pending => CommandState::Pending,
            CommandState::Unknown => CommandState::Unknown,
        }
    }
}

/// Why a desk refuses a client.
#[derive(Clone, Copy, Debug, PartialEq, Eq)]
pub enum ClientRefusal {
    /// The desk's queue is full.
    Busy,
    /// The log has 65,536 entries.
    LogFull,
    /// The desk has no further round for a ballot of its own.
    BallotsSpent,
    /// The desk's memory was refused.
    NoMemory,
    /// The desk's store failed, and the desk takes part no more.
    Down,
    /// The log has fewer entries.
    NotThere,
    /// The round was not opened in the entries up to the position.
    NoSuchRound,
    /// The frame was for another hall, or for another desk.
    Foreign,
    /// The connection may not ask for that: it is under no key, or under another than the hall's.
    NotAllowed,
    /// Another desk of the hall has said something that differs from what is in this desk's log, or
    /// from what it said before. This desk takes no more commands until it is started again.
    HallDiffers,
}

/// What a desk does for a ballot of its own.
#[derive(Clone, Copy, Debug, PartialEq, Eq)]
pub enum DeskRole {
    /// Nothing. 0 in a frame.
    Idle,
    /// It gathers promises. 1 in a frame.
    Gathering,
    /// It asks for votes at a position. 2 in a frame.
    Proposing,
    /// It leads: its ballot is promised for the positions to come. 3 in a frame.
    Leading,
}

impl Version {
    ghost use Rattle.wire.specs.Fields.{numbered};
    ghost use Rattle.wire.specs.Numbers.{versions, version_number, last_event, last_code};
    ghost use Rattle.wire.specs.Numbers.{answer_in, last_refusal, refusal_in};

    /// All versions.
    pub const ALL: [Version; 5] = [
        Version::One,
        Version::Two,
        Version::Three,
        Version::Four,
        Version::Five,
    ];

    /// The version's number, with which what is after a frame's length begins.
    pub fn number(self) -> u8
        ensures { result ≡ version_number self }
    {
        match self {
            Version::One => 1,
            Version::Two => 2,
            Version::Three => 3,
            Version::Four => 4,
            Version::Five => 5,
        }
    }

    /// The version that has a number, if one has it.
    pub fn from_number(number: u8) -> Option<Version>
        ensures { result ≡ numbered version_number versions number }
    {
        Version::ALL
            .iter()
            .copied()
            .find(|version| version.number() == number)
    }

    /// The number of the last event whose sheets can be asked for in this version.
    pub fn last_event(self) -> u8
        ensures { result ≡ last_event self }
    {
        match self {
            Version::One => LAST_OF_ONE.number(),
            Version::Two | Version::Three | Version::Four | Version::Five => LAST_OF_TWO.number(),
        }
    }

    /// The number of the last code that this version tells: versions 1 and 2 were there before the
    /// codes of edition 3, and version 3 before that of edition 4.
    pub fn last_code(self) -> u8
        ensures { result ≡ last_code self }
    {
        match self {
            Version::One | Version::Two => Code::Unfinished.number(),
            Version::Three => Code::NotClosed.number(),
            Version::Four | Version::Five => Code::Changed.number(),
        }
    }

    /// The number of the last refusal that this version tells.
    pub fn last_refusal(self) -> u8
        ensures { result ≡ last_refusal self }
    {
        match self {
            Version::One | Version::Two | Version::Three | Version::Four => {
                ClientRefusal::NotAllowed.number()
            }
            Version::Five => ClientRefusal::HallDiffers.number(),
        }
    }

    /// What this version tells of a refusal. One that it does not have is sent as `Down`: the desk
    /// accepts no command any more, and another one may.
    pub fn refusal(self, refusal: ClientRefusal) -> ClientRefusal
        ensures { result ≡ refusal_in self refusal }
    {
        if refusal.number() <= self.last_refusal() {
            refusal
        } else {
            ClientRefusal::Down
        }
    }

    /// What this version tells of an answer. A code that it does not have is sent as `Unread`,
    /// which a client without that edition takes for what it is: a command that it does not know.
    pub fn answer(self, answer: Answer) -> Answer
        ensures { result ≡ answer_in self answer }
    {
        if number_of(answer) <= self.last_code() {
            answer
        } else {
            Answer::Refused(Code::Unread)
        }
    }
}

impl ClientRefusal {
    ghost use Rattle.wire.specs.Fields.{numbered};
    ghost use Rattle.wire.specs.Numbers.{refusals, refusal_number};

    /// All refusals, in the order of their numbers.
    pub const ALL: [ClientRefusal; 10] = [
        ClientRefusal::Busy,
        ClientRefusal::LogFull,
        ClientRefusal::BallotsSpent,
        ClientRefusal::NoMemory,
        ClientRefusal::Down,
        ClientRefusal::NotThere,
        ClientRefusal::NoSuchRound,
        ClientRefusal::Foreign,
        ClientRefusal::NotAllowed,
        ClientRefusal::HallDiffers,
    ];

    /// The refusal's number in a frame.
    pub fn number(self) -> u8
        ensures { result ≡ refusal_number self }
    {
        match self {
            ClientRefusal::Busy => 1,
            ClientRefusal::LogFull => 2,
            ClientRefusal::BallotsSpent => 3,
            ClientRefusal::NoMemory => 4,
            ClientRefusal::Down => 5,
            ClientRefusal::NotThere => 6,
            ClientRefusal::NoSuchRound => 7,
            ClientRefusal::Foreign => 8,
            ClientRefusal::NotAllowed => 9,
            ClientRefusal::HallDiffers => 10,
        }
    }

    /// The refusal that has a number, if one has it.
    pub fn from_number(number: u8) -> Option<ClientRefusal>
        ensures { result ≡ numbered refusal_number refusals number }
    {
        ClientRefusal::ALL
            .iter()
            .copied()
            .find(|refusal| refusal.number() == number)
    }
}

impl DeskRole {
    ghost use Rattle.wire.specs.Fields.{numbered};
    ghost use Rattle.wire.specs.Numbers.{roles, role_number};

    /// All roles, in the order of their numbers.
    pub const ALL: [DeskRole; 4] = [
        DeskRole::Idle,
        DeskRole::Gathering,
        DeskRole::Proposing,
        DeskRole::Leading,
    ];

    /// The role's number in a frame.
    pub fn number(self) -> u8
        ensures { result ≡ role_number self }
    {
        match self {
            DeskRole::Idle => 0,
            DeskRole::Gathering => 1,
            DeskRole::Proposing => 2,
            DeskRole::Leading => 3,
        }
    }

    /// The role that has a number, if one has it.
    pub fn from_number(number: u8) -> Option<DeskRole>
        ensures { result ≡ numbered role_number roles number }
    {
        DeskRole::ALL
            .iter()
            .copied()
            .find(|role| role.number() == number)
    }
}
