//! What a frame asks of a desk.

ghost use Rattle.std.specs.Prelude.{◌≡◌};
ghost use Rattle.wire.specs.Ranges.{IsFrame, IsBody, IsDifference};
ghost use Rattle.wire.specs.declared.values.Version.{Version};
ghost use Rattle.serving.specs.Asking.{AsksInRange, IsAskedIn, ending, ours, request, strange};
ghost use Rattle.serving.specs.Differing.{withheld};
ghost use Rattle.serving.specs.Permissions.{enters, permitted, reads, turned_away};

use crate::permission::Permission;
use acceptor::entry::Entry;
use acceptor::message::{Body, Message};
use formats::Event;
use store::home::Home;
use wire::{Difference, Entries, Frame, FrameBody, SheetStyle, Version};

/// What a desk says was decided, from a position on.
#[derive(Debug, Drop)]
pub struct DecidedRun {
    /// The desk that says it.
    pub from: u8,
    /// The desk to which it is said.
    pub to: u8,
    /// The position of the first entry.
    pub pos: u32,
    pub entries: Entries,
}

/// What a frame asks of this desk.
#[derive(Debug, Drop)]
pub enum Request {
    /// A desk says something.
    Heard {
        message: Message,
    },
    /// A desk says how long its log is.
    Lagging {
        message: Message,
    },
    /// A desk says what was decided from a position on.
    Learned {
        run: DecidedRun,
    },
    /// A client enters a command.
    Entered {
        entry: Entry,
    },
    /// A client asks what became of a command: now, or once that is known, which the code that
    /// gives the turns sees to.
    Asked {
        id: u64,
    },
    /// A client asks for a sheet.
    Printed {
        event: Event,
        round: u8,
        position: u32,
        style: SheetStyle,
    },
    /// A client asks how the desk is, and how another desk differs, if that was heard.
    Inspected {
        differs: Option<Difference>,
    },
    /// A client asks for entries of the desk's log, from a position on.
    Copied {
        position: u32,
    },
    /// A client gives the desk a tick.
    Ticked,
    /// A client asks the desk to end.
    Stopped,
    /// A client's frame for another desk or another hall.
    Strange,
    /// Any other frame that is not for this desk, or a frame for a client.
    Ignored,
    /// A client asks for what its connection may not.
    Denied,
    /// A client enters a command at a desk that takes none, since another desk differs.
    Withheld,
}

/// How a frame ends the connection of itself.
#[derive(Clone, Copy, PartialEq, Eq, Debug)]
pub enum FrameEndRule {
    /// It does not.
    Never,
    /// Where the desk is down after it.
    IfDown,
    /// It is a Stop.
    AtStop,
}

impl Request {
    /// How the request ends the connection of itself.
    pub fn ending(&self) -> FrameEndRule
        ensures { result ≡ ending self.now }
    {
        match self {
            Request::Heard { .. }
            | Request::Lagging { .. }
            | Request::Learned { .. }
            | Request::Entered { .. }
            | Request::Ticked => FrameEndRule::IfDown,
            Request::Stopped => FrameEndRule::AtStop,
            Request::Asked { .. }
            | Request::Printed { .. }
            | Request::Inspected { .. }
            | Request::Copied { .. }
            | Request::Strange
            | Request::Ignored
            | Request::Denied
            | Request::Withheld => FrameEndRule::Never,
        }
    }

    /// Whether it changes nothing of the desk: it is asked what its log says or how it is, or
    /// nothing.
    pub fn reads(&self) -> bool
        ensures { result ≡ reads self.now }
    {
        match self {
            Request::Asked { .. }
            | Request::Printed { .. }
            | Request::Inspected { .. }
            | Request::Copied { .. }
            | Request::Strange
            | Request::Ignored
            | Request::Denied
            | Request::Withheld => true,
            Request::Heard { .. }
            | Request::Lagging { .. }
            | Request::Learned { .. }
            | Request::Entered { .. }
            | Request::Ticked
            | Request::Stopped => false,
        }
    }

    /// Whether a client enters a command, or gives a Tick.
    pub fn enters(&self) -> bool
        ensures { result ≡ enters self.now }
    {
        match self {
            Request::Entered { .. } | Request::Ticked => true,
            Request::Asked { .. }
            | Request::Printed { .. }
            | Request::Inspected { .. }
            | Request::Copied { .. }
            | Request::Strange
            | Request::Ignored
            | Request::Denied
            | Request::Withheld
            | Request::Heard { .. }
            | Request::Lagging { .. }
            | Request::Learned { .. }
            | Request::Stopped => false,
        }
    }

    /// What becomes of a request that its connection may not make: what a desk says is dropped, and
    /// a client is answered.
    fn turned_away(&self) -> Request
        ensures turned_away { result ≡ turned_away self.now }
        ensures in_range { AsksInRange result }
        ensures asked { (version : Version) → IsAskedIn version result }
    {
        match self {
            Request::Heard { .. } | Request::Lagging { .. } | Request::Learned { .. } => {
                Request::Ignored
            }
            Request::Entered { .. }
            | Request::Asked { .. }
            | Request::Printed { .. }
            | Request::Inspected { .. }
            | Request::Copied { .. }
            | Request::Ticked
            | Request::Stopped
            | Request::Strange
            | Request::Ignored
            | Request::Denied
            | Request::Withheld => Request::Denied,
        }
    }

    /// What is served of the request on a connection that may ask so much.
    pub fn permitted(self, may: Permission) -> Request
        requires { AsksInRange self }
        ensures permitted { result ≡ permitted may self }
        ensures in_range { AsksInRange result }
        ensures asked { (version : Version) → IsAskedIn version self → IsAskedIn version result }
    {
        if may.admits(&self) {
            self
        } else {
            self.turned_away()
        }
    }

    /// What is served of the request where another desk of the hall differs so, or none does: a
    /// command is not accepted where one does, and the answer to a Status says it.
    pub fn withheld(self, differs: Option<Difference>) -> Request
        requires asks { AsksInRange self }
        requires differs { IsDifference differs }
        ensures withheld { result ≡ withheld differs self }
        ensures in_range { AsksInRange result }
        ensures asked { (version : Version) → IsAskedIn version self → IsAskedIn version result }
    {
        let Some(difference) = differs else {
            return self;
        };
        match self {
            Request::Entered { .. } => Request::Withheld,
            Request::Inspected { .. } => Request::Inspected {
                differs: Some(difference),
            },
            other => other,
        }
    }
}

/// What a frame for another desk, or for another hall, asks.
fn strange(what: FrameBody) -> Request
    ensures strange { result ≡ strange what }
    ensures in_range { AsksInRange result }
    ensures asked { (version : Version) → IsAskedIn version result }
{
    match what {
        FrameBody::Submit { .. }
        | FrameBody::Ask { .. }
        | FrameBody::Sheet { .. }
        | FrameBody::Tick
        | FrameBody::Stop
        | FrameBody::Status
        | FrameBody::Log { .. }
        | FrameBody::Await { .. } => Request::Strange,
        FrameBody::Prepare { .. }
        | FrameBody::Promise { .. }
        | FrameBody::Accept { .. }
        | FrameBody::Accepted { .. }
        | FrameBody::Nack { .. }
        | FrameBody::Behind { .. }
        | FrameBody::Decided { .. }
        | FrameBody::Taken { .. }
        | FrameBody::Told { .. }
        | FrameBody::SheetText { .. }
        | FrameBody::Refused { .. }
        | FrameBody::Fine
        | FrameBody::Standing { .. }
        | FrameBody::Entries { .. } => Request::Ignored,
    }
}

/// A message from a desk to this one.
fn heard(from: u8, to: u8, body: Body) -> Request
    ensures { result ≡ Request.Heard (record { from = from; to = to; body = body }) }
{
    Request::Heard {
        message: Message { from, to, body },
    }
}

/// What a frame for this desk asks.
fn ours(version: Version, from: u8, to: u8, what: FrameBody) -> Request
    requires { IsBody version what }
    ensures ours { result ≡ ours from to what }
    ensures in_range { AsksInRange result }
    ensures asked { IsAskedIn version result }
{
    match what {
        FrameBody::Submit { entry } => Request::Entered { entry },
        FrameBody::Ask { id } | FrameBody::Await { id, .. } => Request::Asked { id },
        FrameBody::Sheet {
            event,
            round,
            position,
            style,
        } => Request::Printed {
            event,
            round,
            position,
            style,
        },
        FrameBody::Tick => Request::Ticked,
        FrameBody::Stop => Request::Stopped,
        FrameBody::Status => Request::Inspected { differs: None },
        FrameBody::Log { position } => Request::Copied { position },
        FrameBody::Prepare { ballot, pos } => heard(from, to, Body::Prepare { ballot, pos }),
        FrameBody::Promise { ballot, pos, vote } => heard(
            from,
            to,
            Body::Promise { ballot, pos, vote },
        ),
        FrameBody::Accept { ballot, pos, entry } => heard(
            from,
            to,
            Body::Accept { ballot, pos, entry },
        ),
        FrameBody::Accepted { ballot, pos } => heard(from, to, Body::Accepted { ballot, pos }),
        FrameBody::Nack {
            ballot,
            pos,
            promised,
        } => heard(
            from,
            to,
            Body::Nack {
                ballot,
                pos,
                promised,
            },
        ),
        FrameBody::Behind { len } => Request::Lagging {
            message: Message {
                from,
                to,
                body: Body::Behind { len },
            },
        },
        FrameBody::Decided { pos, entries } => Request::Learned {
            run: DecidedRun {
                from,
                to,
                pos,
                entries,
            },
        },
        FrameBody::Taken { .. }
        | FrameBody::Told { .. }
        | FrameBody::SheetText { .. }
        | FrameBody::Refused { .. }
        | FrameBody::Fine
        | FrameBody::Standing { .. }
        | FrameBody::Entries { .. } => Request::Ignored,
    }
}

/// What a frame asks of the desk at home here.
pub fn request_of(home: Home, frame: Frame) -> Request
    requires { IsFrame frame }
    ensures request { result ≡ request home frame }
    ensures in_range { AsksInRange result }
    ensures asked { IsAskedIn frame.version result }
{
    let Frame {
        version,
        hall,
        from,
        to,
        what,
    } = frame;
    if hall == home.hall && to == home.desk {
        ours(version, from, to, what)
    } else {
        strange(what)
    }
}
