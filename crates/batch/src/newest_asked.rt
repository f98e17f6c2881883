//! The newest sheet of a round: asked for at the length that the desk says its log has.

ghost use Rattle.std.specs.Prelude.{◌≡◌, IfErr, IfOk};
ghost use Rattle.wire.specs.Ranges.{IsDesk, IsFrame};
ghost use Rattle.batch.specs.{Asking.IsOfAsking, Logs.AddsSo, model.Keeping.way_of};
ghost use Rattle.batch.specs.Dialing.{AsksBy, told};
ghost use Rattle.batch.specs.Newest.{FailsNewest, GivesNewest, sheet_at, standing_said};

use crate::asking::Receiver;
use crate::dialing::{Contact, Dial};
use crate::fault::BatchFault;
use crate::keeping::{ask, let_go};
use client::{ClientFault, sheet_version, status_request};
use formats::Event;
use wire::{DeskStatus, Frame, FrameBody, SheetStyle};

/// A round's sheet, at whichever position.
#[derive(Clone, Copy, Debug)]
pub struct RoundSheet {
    /// The event.
    pub event: Event,
    /// The number of the round.
    pub round: u8,
    /// How the sheet is printed.
    pub style: SheetStyle,
}

/// The request for a sheet at a position: of a client, which is 0, in the first version of the wire
/// that has it.
fn sheet_request(receiver: Receiver, sheet: RoundSheet, position: u32) -> Frame
    ensures request { result ≡ sheet_at receiver sheet position }
    ensures spelled { IsDesk receiver.desk → IsFrame result }
{
    Frame {
        version: sheet_version(sheet.event),
        hall: receiver.hall,
        from: 0,
        to: receiver.desk,
        what: FrameBody::Sheet {
            event: sheet.event,
            round: sheet.round,
            position,
            style: sheet.style,
        },
    }
}

/// How a desk is, as an answer says.
fn standing_said(answer: FrameBody) -> Option<DeskStatus>
    ensures { result ≡ standing_said answer }
{
    match answer {
        FrameBody::Standing { standing } => Some(standing),
        _ => None,
    }
}

/// As [`ask_newest`], with the connection that is kept, or none.
fn ask_newest_over<D: Dial>(
    dial: &mut D,
    made: &mut u32,
    contact: Contact<'_>,
    receiver: Receiver,
    sheet: RoundSheet,
) -> Result<FrameBody, BatchFault>
    requires { IsDesk receiver.desk }
    ensures ok { IfOk result (λ answer. AsksBy
        (way_of D.dialed contact.entry dial.old dial.new made.old made.new)
        (GivesNewest receiver sheet answer)) }
    ensures err { IfErr result (λ f. AsksBy
        (way_of D.dialed contact.entry dial.old dial.new made.old made.new)
        (FailsNewest f receiver sheet)) }
    ensures fails { IfErr result IsOfAsking }
{
    let asked = status_request(receiver.hall, receiver.desk);
    let answer = ask(dial, made, contact, &asked)?;
    let Some(standing) = standing_said(answer) else {
        // no other frame is the answer to a Status
        return Err(BatchFault::Asking(ClientFault::NoAnswer));
    };
    let request = sheet_request(receiver, sheet, standing.length);
    ask(dial, made, contact, &request)
}

/// Asks a desk how it is, and then for the sheet of a round at the length that it says its log has.
/// The answer to the second request is given: it is the text of the newest sheet.
///
/// Both requests are made over one connection, and over a new one as those of
/// [`enter_lines`](crate::enter_lines).
///
/// # Errors
///
/// Those of [`ask_over`](crate::ask_over), of either request. Where the first one fails, the second
/// one is not made.
pub fn ask_newest<D: Dial>(
    dial: &mut D,
    contact: Contact<'_>,
    receiver: Receiver,
    sheet: RoundSheet,
) -> Result<FrameBody, BatchFault>
    requires { IsDesk receiver.desk }
    ensures ok { IfOk result (λ answer. AddsSo (told contact.entry D.dialed dial.old dial.new)
        (GivesNewest receiver sheet answer)) }
    ensures err { IfErr result (λ f. AddsSo (told contact.entry D.dialed dial.old dial.new)
        (FailsNewest f receiver sheet)) }
    ensures fails { IfErr result IsOfAsking }
{
    let mut made = 0;
    let answer = ask_newest_over(dial, &mut made, contact, receiver, sheet);
    let_go(dial, made);
    answer
}
