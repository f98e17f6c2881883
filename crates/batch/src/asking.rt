//! Requests to a desk.

ghost use Rattle.std.specs.Prelude.{◌≡◌};
ghost use Rattle.batch.specs.Asking.{ask_of, request_to, version_for};
ghost use Rattle.wire.specs.Ranges.{IsDesk, IsFrame, IsId};

use client::await_request;
use wire::{Frame, FrameBody, Version};

/// A desk that commands are entered at.
#[derive(Clone, Copy, Debug)]
pub struct Receiver {
    /// The number of its hall.
    pub hall: u32,
    /// Its number, 1 to 5.
    pub desk: u8,
    /// Whether its program knows version 5 of the wire: it answers an Await once that is known.
    pub awaits: bool,
}

/// The version of the wire in which a request is made: 4 for what became of a command, since it
/// tells each code; 5 for entering one, where the desk knows it, since it tells each refusal; and
/// else 1.
fn version_for(receiver: Receiver, what: &FrameBody) -> Version
    ensures { result ≡ version_for receiver what.now }
{
    match what {
        FrameBody::Ask { .. } => Version::Four,
        FrameBody::Submit { .. } => {
            if receiver.awaits {
                Version::Five
            } else {
                Version::One
            }
        }
        _ => Version::One,
    }
}

/// The request of a client, which is 0, to a desk.
pub(crate) fn request_to(receiver: Receiver, what: FrameBody) -> Frame
    ensures { result ≡ request_to receiver what }
{
    Frame {
        version: version_for(receiver, &what),
        hall: receiver.hall,
        from: 0,
        to: receiver.desk,
        what,
    }
}

/// How many seconds a desk waits with its answer to what became of a command.
const SECONDS: u8 = 1;

/// The request for what became of the command with an id: an Await where the desk knows it, and
/// else an Ask.
pub(crate) fn question_of(receiver: Receiver, id: u64) -> Frame
    ensures question { result ≡ ask_of receiver id }
    ensures spelled { IsDesk receiver.desk → IsId id → IsFrame result }
{
    if receiver.awaits {
        await_request(receiver.hall, receiver.desk, id, SECONDS)
    } else {
        request_to(receiver, FrameBody::Ask { id })
    }
}
