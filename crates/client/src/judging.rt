//! Which frame answers a client's.

ghost use Rattle.std.specs.Prelude.{◌≡◌};
ghost use Rattle.client.specs.Answers.{answers, fits, is_entries, is_fine, is_sheet_text};
ghost use Rattle.client.specs.Answers.{is_standing, is_taken, is_told, judged};

use crate::fault::ClientFault;
use wire::{Frame, FrameBody};

fn is_taken(wanted: u64, given: &FrameBody) -> bool
    ensures { result ≡ is_taken wanted given.now }
{
    match given {
        FrameBody::Taken { id } => *id == wanted,
        _ => false,
    }
}

fn is_told(wanted: u64, given: &FrameBody) -> bool
    ensures { result ≡ is_told wanted given.now }
{
    match given {
        FrameBody::Told { id, .. } => *id == wanted,
        _ => false,
    }
}

fn is_sheet_text(given: &FrameBody) -> bool
    ensures { result ≡ is_sheet_text given.now }
{
    match given {
        FrameBody::SheetText { .. } => true,
        _ => false,
    }
}

fn is_fine(given: &FrameBody) -> bool
    ensures { result ≡ is_fine given.now }
{
    match given {
        FrameBody::Fine => true,
        _ => false,
    }
}

fn is_standing(given: &FrameBody) -> bool
    ensures { result ≡ is_standing given.now }
{
    match given {
        FrameBody::Standing { .. } => true,
        _ => false,
    }
}

fn is_entries(wanted: u32, given: &FrameBody) -> bool
    ensures { result ≡ is_entries wanted given.now }
{
    match given {
        FrameBody::Entries { position, .. } => *position == wanted,
        _ => false,
    }
}

/// Whether a kind with its fields answers another.
fn fits(asked: &FrameBody, given: &FrameBody) -> bool
    ensures { result ≡ fits asked.now given.now }
{
    match asked {
        FrameBody::Submit { entry } => is_taken(entry.id(), given),
        FrameBody::Ask { id } | FrameBody::Await { id, .. } => is_told(*id, given),
        FrameBody::Sheet { .. } => is_sheet_text(given),
        FrameBody::Tick | FrameBody::Stop => is_fine(given),
        FrameBody::Status => is_standing(given),
        FrameBody::Log { position } => is_entries(*position, given),
        _ => false,
    }
}

/// Whether a frame is the answer to what was asked: it is of the hall that was meant, from the desk
/// that was asked, and Taken of the id of a Submit, Told of the id of an Ask or an Await, the text
/// of a sheet to a Sheet, Fine to a Tick or a Stop, Standing to a Status, or Entries from the
/// position of a Log on.
pub fn answers(asked: &Frame, given: &Frame) -> bool
    ensures { result ≡ answers asked.now given.now }
{
    given.hall == asked.hall && given.from == asked.to && fits(&asked.what, &given.what)
}

/// What a client makes of a frame: the answer, or why the frame is not the answer.
///
/// # Errors
///
/// - `Refused` where the frame is a refusal, from whichever hall and desk: a desk that was not
///   meant refuses under its own hall and number.
/// - `NoAnswer` where it is neither that nor the answer.
pub fn judged(asked: &Frame, given: Frame) -> Result<FrameBody, ClientFault>
    ensures { result ≡ judged asked.now given }
{
    let own = answers(asked, &given);
    let Frame { what, .. } = given;
    match what {
        FrameBody::Refused { refusal } => Err(ClientFault::Refused { refusal }),
        other => {
            if own {
                Ok(other)
            } else {
                Err(ClientFault::NoAnswer)
            }
        }
    }
}
