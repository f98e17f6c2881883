//! The desks of a hall asked one after the other, until one answers.

ghost use Rattle.std.specs.Prelude.{◌≡◌, ◌≢◌, ◌⊎◌, ◌≤◌, false, vec_len, IsTrue};
ghost use Rattle.desk_choice.specs.Seeking.{Seeks, no_memory, seeking, why_not};

use batch::{BatchFault, Contact, Dial, ask_over};
use client::status_request;
use desk_requests::DeskFault;
use hall_file::HallFile;
use lines::RunFault;
use wire::FrameBody;

/// Why the answer to a Status says nothing, or none where it says how the desk is.
fn why_not(answer: Result<FrameBody, BatchFault>) -> Option<DeskFault>
    ensures { result ≡ why_not answer }
{
    match answer {
        Ok(FrameBody::Standing { .. }) => None,
        Ok(_) => Some(DeskFault::NoAnswer),
        Err(fault) => Some(DeskFault::from(fault)),
    }
}

/// Whether no further desk is asked after this one, of which this is the fault.
fn is_last(desk: u8, fault: DeskFault) -> bool
    ensures yes { IsTrue result → (desk ≡ 1) ⊎ (fault ≡ no_memory) }
    ensures no { result ≡ false → (desk ≢ 1) × (fault ≢ no_memory) }
{
    match fault {
        DeskFault::Run(RunFault::NoMemory) => true,
        _ => desk == 1,
    }
}

/// Asks the desk of this number for its status under this key, or without one, and where it says
/// nothing those of lower numbers, each over a connection of its own; gives the number of the first
/// that answers.
///
/// # Errors
///
/// The fault of the last one that was asked; `Run` with `NoMemory` as soon as memory runs out.
pub(crate) fn seek<D: Dial>(
    dial: &mut D,
    hall: &HallFile,
    patience: u32,
    key: Option<[u8; 32]>,
    desk: u8,
) -> Result<u8, DeskFault>
    requires some { 1 ≤ desk }
    requires there { desk ≤ vec_len hall.now.desks }
    ensures { Seeks (seeking hall.now patience key) desk (D.dialed dial.old) (D.dialed dial.new)
        result }
{
    let Some(address) = hall.address_of(desk) else {
        // each number up to the count of desks has an address
        return Err(DeskFault::BadDesk);
    };
    let contact = Contact {
        address,
        patience,
        key,
    };
    let request = status_request(hall.hall, desk);
    let answer = ask_over(dial, contact, &request);
    match why_not(answer) {
        None => Ok(desk),
        Some(fault) => {
            if is_last(desk, fault) {
                return Err(fault);
            }
            seek(dial, hall, patience, key, desk - 1)
        }
    }
}
