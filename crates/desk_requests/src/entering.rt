//! Commands entered at a desk: those of an input, or one.

ghost use Rattle.std.specs.Prelude.{◌≡◌, ◌≤◌, None, IfErr, IfOk, OnErr, OnOk, length};
ghost use Rattle.std.specs.Io.KnownBytes.{Appends};
ghost use Rattle.batch.specs.{Dialing.told, Watching.unheard};
ghost use Rattle.batch.specs.Entering.{AsksAll, AsksSome, texts_of, told_answer};
ghost use Rattle.desk_requests.specs.Entering.{EntersInput, EntersOne, FailsInput, IsEnterable};
ghost use Rattle.desk_requests.specs.Entering.{FailsOne, IsFirstId, IsUngood, meant, one_text};
ghost use Rattle.desk_requests.specs.Entering.{IsGood, IsOfPrinting, IsUnenterable, answer_status};
ghost use Rattle.lines.specs.Bytes.{AppendsPart, sides};
ghost use Rattle.wire.specs.Ranges.{IsDesk};
ghost use Rattle.desk_requests.specs.declared.fault.DeskFault.TheVariants as desk_fault;
ghost use Rattle.lines.specs.declared.fault.RunFault.TheVariants as run_fault;

use crate::drawing::drawn_id;
use crate::fault::DeskFault;
use crate::reasons::Reasons;
use crate::report::{ProgressReport, ProgressStyle};
use arguments::EnterOptions;
use batch::{Batch, BatchFault, Contact, Dial, Receiver, enter_command, enter_lines, told_answer};
use client::{ClientFault, reply_text};
use lines::command_file::{InputCommand, first_fault, read_commands};
use lines::{RunFault, write_text};
use std::alloc::{AllocError, Global};
use std::io::{Read, Write};
use std::random::RandomSource;
use std::time::Clock;
use texts::Answer;
use texts::meanings::meaning_of;
use wire::{ClientRefusal, FrameBody};

/// What is before what is wrong with the first line.
const LINE_1: &[u8] = b"line 1: ";

/// The id of the first of this many commands: the one that is given, or one that is drawn.
fn first_id<T: RandomSource>(source: &T, given: Option<u64>, count: u32) -> Result<u64, DeskFault>
    ensures id { IfOk result (IsFirstId given count) }
    ensures err { IfErr result (λ f. (f ≡ desk_fault.Run run_fault.Read) × (given ≡ None)) }
{
    match given {
        Some(id) => Ok(id),
        None => drawn_id(source, count),
    }
}

/// Says which ids were drawn, so that the same can be entered again with them.
fn tell_ids<F: Write>(faults: &mut F, first: u64, count: u32) {
    if count > 0 {
        let last = first.saturating_add(u64::from(count) - 1);
        let _ = writeln!(
            faults,
            "ids {first} to {last}, again with --first-id {first}"
        );
    }
}

/// Reads the commands of an input, and says what is wrong with the first that is no command.
fn good_commands<R: Read, F: Write>(
    alloc: Global,
    lines: EnterOptions,
    reader: &mut R,
    faults: &mut F,
) -> Result<Vec<InputCommand>, DeskFault>
    ensures good { IfOk result (λ commands. IsGood lines commands.items
        (R.remaining reader.old) (R.remaining reader.new)) }
    ensures few { IfOk result (λ commands. length commands.items ≤ 65536) }
    ensures err { IfErr result
        (λ f. IsUngood f lines (R.remaining reader.old) (R.remaining reader.new)) }
{
    let commands = match read_commands(alloc, reader) {
        Ok(commands) => commands,
        Err(fault) => return Err(DeskFault::Run(fault)),
    };
    let Ok(found) = first_fault(alloc, &commands) else {
        return Err(DeskFault::Run(RunFault::NoMemory));
    };
    if let Some(said) = found {
        let _ = write_text(faults, &said);
        let _ = write_text(faults, b"\n");
        if !lines.sends_all {
            return Err(DeskFault::NoCommand);
        }
    }
    Ok(commands)
}

/// Enters commands, and reports the progress.
fn enter_good<T: Clock, D: Dial, W: Write, F: Write, H: Reasons>(
    clock: &T,
    alloc: Global,
    dial: &mut D,
    contact: Contact<'_>,
    batch: Batch,
    progress: ProgressStyle,
    commands: &[InputCommand],
    writer: &mut W,
    reasons: &mut H,
    faults: &mut F,
) -> Result<(), BatchFault>
    requires desk { IsDesk batch.receiver.desk }
    requires few { length commands.now ≤ 65536 }
    ensures ok { OnOk result (AsksAll batch (texts_of commands.now)
        (told contact.entry D.dialed dial.old dial.new) unheard
        (W.contents writer.old) (W.contents writer.new)) }
    ensures err { IfErr result (λ f. AsksSome f batch (texts_of commands.now)
        (told contact.entry D.dialed dial.old dial.new) unheard
        (W.contents writer.old) (W.contents writer.new)) }
{
    let count = commands.len() as u32;
    let mut report = ProgressReport::new(
        clock,
        alloc,
        faults,
        reasons,
        progress,
        batch.waits,
        count,
    );
    let ended = enter_lines(alloc, dial, contact, batch, commands, writer, &mut report);
    report.tell_end();
    ended
}

/// How progress is shown, where it is wanted or not, on a terminal or not.
fn progress_of(is_wanted: bool, is_terminal: bool) -> ProgressStyle {
    if !is_wanted {
        ProgressStyle::Hidden
    } else if is_terminal {
        ProgressStyle::OverItself
    } else {
        ProgressStyle::LineByLine
    }
}

/// Reads the commands of an input, enters them at a desk, and prints what it answers.
///
/// The commands are those of [`read_commands`]. Before anything is sent, `faults` gets what is
/// wrong with the first that is no command in any edition. Without a first id one is drawn, with
/// room for all, and `faults` gets it. While they are entered, `faults` gets the progress, where
/// that is wanted, on a terminal as one line over itself, and what is waited for after two seconds
/// without a decision; and at the end, where commands are waited for, how many were accepted and
/// which lines were refused.
///
/// # Errors
///
/// - `BadDesk` where the desk's number is not 1 to 5: nothing is opened, read or written.
/// - `Run` where the input can't be read: those of [`read_commands`]; `NoCommand` where a command
///   is no command in any edition and not all are wanted to be sent; `Run` with `Read` where the
///   source of random bytes fails. Nothing is opened or written.
/// - Else those of [`enter_lines`].
pub fn enter_all<T: Clock + RandomSource, D: Dial, R: Read, W: Write, F: Write, H: Reasons>(
    rt: &T,
    alloc: Global,
    dial: &mut D,
    contact: Contact<'_>,
    receiver: Receiver,
    lines: EnterOptions,
    is_terminal: bool,
    reader: &mut R,
    writer: &mut W,
    reasons: &mut H,
    faults: &mut F,
) -> Result<(), DeskFault>
    ensures desk { OnOk result (IsDesk receiver.desk) }
    ensures ok { OnOk result (EntersInput receiver lines
        (sides R.remaining W.contents reader.old reader.new writer.old writer.new)
        (told contact.entry D.dialed dial.old dial.new)) }
    ensures err { IfErr result (λ f. FailsInput f receiver lines
        (sides R.remaining W.contents reader.old reader.new writer.old writer.new)
        (told contact.entry D.dialed dial.old dial.new)) }
{
    if receiver.desk == 0 || receiver.desk > 5 {
        return Err(DeskFault::BadDesk);
    }
    let commands = good_commands(alloc, lines, reader, faults)?;
    let count = commands.len() as u32;
    let first = first_id(rt, lines.first_id, count)?;
    if lines.first_id.is_none() {
        tell_ids(faults, first, count);
    }
    let batch = Batch {
        receiver,
        first_id: first,
        waits: lines.waits,
        stops_at_refusal: lines.stops_at_refusal,
    };
    let progress = progress_of(lines.progress, is_terminal);
    let ended = enter_good(
        rt, alloc, dial, contact, batch, progress, &commands, writer, reasons, faults,
    );
    match ended {
        Ok(()) => Ok(()),
        Err(fault) => Err(DeskFault::from(fault)),
    }
}

/// Adds to the line of an answer what a refusal means.
fn push_meaning(text: &mut Vec<u8>, answer: Option<Answer>) -> Result<(), AllocError>
    ensures { OnOk result (text.new.items ≡ meant text.old.items answer) }
{
    if let Some(Answer::Refused(code)) = answer {
        let end = text.len().saturating_sub(1);
        text.truncate(end);
        text.extend_from_slice(b": ")?;
        text.extend_from_slice(meaning_of(code).as_bytes())?;
        text.extend_from_slice(b"\n")?;
    }
    Ok(())
}

/// The exit status after a command that was answered so: 1 where it was refused.
fn answer_status(answer: Option<Answer>) -> u8
    ensures { result ≡ answer_status answer }
{
    match answer {
        Some(Answer::Refused(_)) => 1,
        Some(Answer::Done) | None => 0,
    }
}

/// Prints the last answer to one command, and gives the exit status.
fn print_one<W: Write>(alloc: Global, writer: &mut W, last: FrameBody) -> Result<u8, DeskFault>
    ensures ok { OnOk result
        (Appends (W.contents writer.old) (W.contents writer.new) (one_text last)) }
    ensures status { IfOk result (λ status. status ≡ answer_status (told_answer last)) }
    ensures err { OnErr result
        (AppendsPart (W.contents writer.old) (W.contents writer.new) (one_text last)) }
    ensures fault { IfErr result IsOfPrinting }
{
    let answer = told_answer(&last);
    let Ok(mut text) = reply_text(alloc, last) else {
        return Err(DeskFault::Run(RunFault::NoMemory));
    };
    if push_meaning(&mut text, answer).is_err() {
        return Err(DeskFault::Run(RunFault::NoMemory));
    }
    match write_text(writer, &text) {
        Ok(()) => Ok(answer_status(answer)),
        Err(_) => Err(DeskFault::Run(RunFault::Write)),
    }
}

/// Whether a text may be entered: it is a command in some edition, or too long for one, which no
/// desk is asked to enter either. Of any other text `faults` gets what is wrong with it.
///
/// # Errors
///
/// `NoCommand` where it is no command, and `Run` with `NoMemory`.
pub fn may_enter<F: Write>(alloc: Global, text: &[u8], faults: &mut F) -> Result<(), DeskFault>
    ensures ok { OnOk result (IsEnterable text.now) }
    ensures err { IfErr result (λ f. IsUnenterable f text.now) }
{
    if text.len() > 600 {
        return Ok(());
    }
    let Ok(copy) = Vec::from_slice(alloc, text) else {
        return Err(DeskFault::Run(RunFault::NoMemory));
    };
    let Ok(found) = first_fault(alloc, &[InputCommand::new(1, copy)]) else {
        return Err(DeskFault::Run(RunFault::NoMemory));
    };
    let Some(said) = found else {
        return Ok(());
    };
    // what is said of a line has its number in front, which an argument has not
    let front = said.len().min(LINE_1.len());
    let _ = write_text(faults, &said[front..]);
    let _ = write_text(faults, b"\n");
    Err(DeskFault::NoCommand)
}

/// Whether the desk refused a command for want of a key: entered with one, it needs no old id.
fn lacks_key(fault: &BatchFault) -> bool {
    matches!(
        fault,
        BatchFault::Asking(ClientFault::Refused {
            refusal: ClientRefusal::NotAllowed
        })
    )
}

/// Enters one text at a desk, with the id that is given or one that is drawn, and prints what it
/// answers: `taken <id>`, or, where it is waited for, `done <id> <pos> Done`, and after a refusal
/// its code and what it means, as `done 17 40 OutOfOrder: the attempt is not the next one`. The
/// exit status that it gives is 1 after a refusal, else 0. After two seconds without a decision
/// `faults` gets what is waited for, and where the command wasn't entered, or it isn't known, the
/// id that was drawn, unless it was refused for want of a key.
///
/// # Errors
///
/// - `BadDesk` where the desk's number is not 1 to 5, `Run` with `Read` where the source of random
///   bytes fails: nothing is opened or written.
/// - Else those of [`enter_command`], and `Run` where the answer can't be printed.
pub fn enter_one<T: Clock + RandomSource, D: Dial, W: Write, F: Write, H: Reasons>(
    rt: &T,
    alloc: Global,
    dial: &mut D,
    contact: Contact<'_>,
    receiver: Receiver,
    id: Option<u64>,
    text: &str,
    waits: bool,
    writer: &mut W,
    reasons: &mut H,
    faults: &mut F,
) -> Result<u8, DeskFault>
    ensures ok { IfOk result (λ status. EntersOne status receiver id waits text.now
        (told contact.entry D.dialed dial.old dial.new)
        (W.contents writer.old) (W.contents writer.new)) }
    ensures err { IfErr result (λ f. FailsOne f receiver id waits text.now
        (told contact.entry D.dialed dial.old dial.new)
        (W.contents writer.old) (W.contents writer.new)) }
{
    if receiver.desk == 0 || receiver.desk > 5 {
        return Err(DeskFault::BadDesk);
    }
    let is_drawn = id.is_none();
    let id = first_id(rt, id, 1)?;
    let mut report = ProgressReport::new(
        rt,
        alloc,
        faults,
        reasons,
        ProgressStyle::Hidden,
        waits,
        1,
    );
    report.begin_one(id);
    let text = text.as_bytes();
    match enter_command(alloc, dial, contact, receiver, waits, id, text, &mut report) {
        Ok(last) => print_one(alloc, writer, last),
        Err(fault) => {
            if is_drawn && !lacks_key(&fault) {
                report.tell_drawn();
            }
            Err(DeskFault::from(fault))
        }
    }
}
