//! The newest sheet of a round, printed.

ghost use Rattle.std.specs.Prelude.{OnOk, IfErr};
ghost use Rattle.batch.specs.Dialing.{told};
ghost use Rattle.desk_requests.specs.Newest.{FailsToPrint, PrintsNewest};

use crate::fault::DeskFault;
use batch::{Contact, Dial, Receiver, RoundSheet, ask_newest};
use client::reply_text;
use lines::{RunFault, write_text};
use std::alloc::Global;
use std::io::Write;

/// Asks a desk how long its log is, and then for the sheet of a round at that position, over one
/// connection, and prints the sheet: it says its position.
///
/// # Errors
///
/// `BadDesk` where the desk's number is not 1 to 5: nothing is opened. Those of [`ask_newest`]
/// where the sheet does not come: nothing is printed. `Run` with `Write` or `NoMemory` where it
/// cannot be printed: a front part of it is.
pub fn print_newest<D: Dial, W: Write>(
    alloc: Global,
    dial: &mut D,
    contact: Contact<'_>,
    receiver: Receiver,
    sheet: RoundSheet,
    writer: &mut W,
) -> Result<(), DeskFault>
    ensures ok { OnOk result (PrintsNewest receiver sheet
        (told contact.entry D.dialed dial.old dial.new)
        (W.contents writer.old) (W.contents writer.new)) }
    ensures err { IfErr result (λ f. FailsToPrint f receiver sheet
        (told contact.entry D.dialed dial.old dial.new)
        (W.contents writer.old) (W.contents writer.new)) }
{
    if receiver.desk == 0 || receiver.desk > 5 {
        return Err(DeskFault::BadDesk);
    }
    let answer = match ask_newest(dial, contact, receiver, sheet) {
        Ok(answer) => answer,
        Err(fault) => return Err(DeskFault::from(fault)),
    };
    let Ok(text) = reply_text(alloc, answer) else {
        return Err(DeskFault::Run(RunFault::NoMemory));
    };
    match write_text(writer, &text) {
        Ok(()) => Ok(()),
        Err(_) => Err(DeskFault::Run(RunFault::Write)),
    }
}
