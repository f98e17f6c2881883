//! The log of a desk that runs, printed.

ghost use Rattle.std.specs.Prelude.{◌≡◌, ◌⊎◌, OnOk, OnErr, IfErr};
ghost use Rattle.std.specs.Io.KnownBytes.{Appends};
ghost use Rattle.batch.specs.Dialing.{told};
ghost use Rattle.lines.specs.Bytes.{AppendsPart};
ghost use Rattle.lines.specs.declared.fault.RunFault.TheVariants as run_fault;
ghost use Rattle.desk_requests.specs.Logs.{FailsTold, IsReplayedAs, PrintsTold, printed_log};

use crate::fault::DeskFault;
use archive::write_log_from;
use batch::{Contact, Dial, Receiver, ask_log};
use learner::log::Log;
use lines::RunFault;
use log_rows::{ShownEntries, write_rows};
use std::alloc::Global;
use std::io::Write;

/// How a log is printed.
#[derive(Clone, Copy)]
pub enum LogForm {
    /// As the lines that a replay reads.
    Lines,
    /// As rows that people read.
    Rows(ShownEntries),
}

/// Writes a log from a position on.
fn write_form<W: Write>(
    alloc: Global,
    log: &Log,
    form: LogForm,
    from: u32,
    writer: &mut W,
) -> Result<(), RunFault>
    ensures ok { OnOk result (Appends (W.contents writer.old) (W.contents writer.new)
        (printed_log form from log.now.entries)) }
    ensures replayed { OnOk result (IsReplayedAs form log.now.entries) }
    ensures err { OnErr result (AppendsPart (W.contents writer.old) (W.contents writer.new)
        (printed_log form from log.now.entries)) }
    ensures fault { IfErr result (λ e. (e ≡ run_fault.Write) ⊎ (e ≡ run_fault.NoMemory)) }
{
    match form {
        LogForm::Lines => write_log_from(alloc, log, from, writer),
        LogForm::Rows(shown) => write_rows(alloc, log, from, shown, writer),
    }
}

/// Asks a desk for its log and prints it from a position on: the lines of its archive, as
/// [`write_log_from`] writes them, or rows, as [`write_rows`] does. Nothing is printed before the
/// whole log has come.
///
/// # Errors
///
/// `BadDesk` where the desk's number is not 1 to 5: nothing is opened. Those of [`ask_log`] where
/// the log does not come: nothing is printed. `Run` with `Write` or `NoMemory` where it cannot be
/// written: a front part of it is.
pub fn print_log<D: Dial, W: Write>(
    alloc: Global,
    dial: &mut D,
    contact: Contact<'_>,
    receiver: Receiver,
    form: LogForm,
    from: u32,
    writer: &mut W,
) -> Result<(), DeskFault>
    ensures ok { OnOk result (PrintsTold receiver form from
        (told contact.entry D.dialed dial.old dial.new)
        (W.contents writer.old) (W.contents writer.new)) }
    ensures err { IfErr result (λ f. FailsTold f receiver form from
        (told contact.entry D.dialed dial.old dial.new)
        (W.contents writer.old) (W.contents writer.new)) }
{
    if receiver.desk == 0 || receiver.desk > 5 {
        return Err(DeskFault::BadDesk);
    }
    let log = match ask_log(alloc, dial, contact, receiver) {
        Ok(log) => log,
        Err(fault) => return Err(DeskFault::from(fault)),
    };
    match write_form(alloc, &log, form, from, writer) {
        Ok(()) => Ok(()),
        Err(fault) => Err(DeskFault::Run(fault)),
    }
}
