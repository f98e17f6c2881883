//! The requests for how a desk is, for its log, and for what becomes of a command.

ghost use Rattle.std.specs.Prelude.{◌≡◌, ◌≤◌};
ghost use Rattle.wire.specs.Ranges.{IsDesk, IsFrame, IsId};
ghost use Rattle.client.specs.Standings.{AnswersFromThree, await_request, log_request};
ghost use Rattle.client.specs.Standings.{status_request, status_request_in_five};

use wire::{Frame, FrameBody, Version};

/// The request that asks a desk, 1 to 5, how it is: a Status of a client, which is 0, in version 3
/// of the wire.
pub fn status_request(hall: u32, desk: u8) -> Frame
    ensures request { result ≡ status_request hall desk }
    ensures spelled { IsDesk desk → IsFrame result }
{
    Frame {
        version: Version::Three,
        hall,
        from: 0,
        to: desk,
        what: FrameBody::Status,
    }
}

/// The same in version 5 of the wire, in which a desk tells besides how another one differs. A desk
/// of an earlier program ends the connection at it.
pub fn status_request_in_five(hall: u32, desk: u8) -> Frame
    ensures request { result ≡ status_request_in_five hall desk }
    ensures spelled { IsDesk desk → IsFrame result }
{
    Frame {
        version: Version::Five,
        hall,
        from: 0,
        to: desk,
        what: FrameBody::Status,
    }
}

/// The request of a client, which is 0, for what becomes of the command with an id: a desk, 1 to 5,
/// answers it once the command is in its log, or after this many seconds. It is of version 5 of the
/// wire; a desk of an earlier program ends the connection at it.
pub fn await_request(hall: u32, desk: u8, id: u64, seconds: u8) -> Frame
    ensures request { result ≡ await_request hall desk id seconds }
    ensures spelled { IsDesk desk → IsId id → IsFrame result }
{
    Frame {
        version: Version::Five,
        hall,
        from: 0,
        to: desk,
        what: FrameBody::Await { id, seconds },
    }
}

/// The request for what is in the log of a desk, 1 to 5, from a position on, at most 65,536: a Log
/// of a client, which is 0, in version 3 of the wire.
pub fn log_request(hall: u32, desk: u8, position: u32) -> Frame
    ensures request { result ≡ log_request hall desk position }
    ensures spelled { IsDesk desk → position ≤ 65536 → IsFrame result }
{
    Frame {
        version: Version::Three,
        hall,
        from: 0,
        to: desk,
        what: FrameBody::Log { position },
    }
}

/// Each frame that is the answer to a Status or a Log is in a version from 3 on, as the request is.
#[tactic(auto, using(crate::proofs::InVersion::from_three))]
pub fn answers_from_three()
    ensures { AnswersFromThree }
{}
