//! Commands that are entered one after the other, each with an id of its own.

ghost use Rattle.std.specs.Prelude.{◌≡◌, IfErr, OnOk, OnErr};
ghost use Rattle.wire.specs.Ranges.{IsDesk};
ghost use Rattle.std.specs.Io.KnownBytes.{Appends};
ghost use Rattle.lines.specs.Bytes.{AppendsPart};
ghost use Rattle.client.specs.Printing.{reply_text};
ghost use Rattle.batch.specs.{Dialing.told, Watching.watched, model.Keeping.InCall};
ghost use Rattle.batch.specs.Entering.{AsksAll, AsksSome, EntersBy, EntersOne, FailsOne};
ghost use Rattle.batch.specs.Entering.{IsOfPrinting, ends_after, is_refused, texts_of, told_answer};

use crate::asking::Receiver;
use crate::dialing::{Contact, Dial};
use crate::entering::entered;
use crate::fault::BatchFault;
use crate::keeping::let_go;
use crate::watching::Watch;
use client::reply_text;
use lines::command_file::InputCommand;
use lines::write_text;
use std::alloc::Global;
use std::io::Write;
use texts::Answer;
use wire::{CommandState, FrameBody};

/// How commands are entered.
#[derive(Clone, Copy, Debug)]
pub struct Batch {
    /// The desk that they are entered at.
    pub receiver: Receiver,
    /// The id of the first command, at least 1. Each further one has the next one.
    pub first_id: u64,
    /// Whether each command is waited for until it is decided.
    pub waits: bool,
    /// Whether the run ends after the first command that was refused. Where commands are not waited
    /// for, nothing is known of that.
    pub stops_at_refusal: bool,
}

/// How a command was answered, where an answer tells that.
pub fn told_answer(answer: &FrameBody) -> Option<Answer>
    ensures { result ≡ told_answer answer.now }
{
    match answer {
        FrameBody::Told {
            state: CommandState::Done { answer, .. },
            ..
        } => Some(*answer),
        _ => None,
    }
}

/// Whether it was refused.
fn is_refused(answer: Option<Answer>) -> bool
    ensures { result ≡ is_refused answer }
{
    match answer {
        Some(Answer::Refused(_)) => true,
        _ => false,
    }
}

/// Whether the run ends after a command that was answered so.
fn ends_after(batch: Batch, answer: Option<Answer>) -> bool
    ensures { result ≡ ends_after batch answer }
{
    batch.stops_at_refusal && is_refused(answer)
}

/// Prints an answer.
fn print_answer<W: Write>(
    alloc: Global,
    writer: &mut W,
    answer: FrameBody,
) -> Result<(), BatchFault>
    ensures ok { OnOk result
        (Appends (W.contents writer.old) (W.contents writer.new) (reply_text answer)) }
    ensures err { OnErr result
        (AppendsPart (W.contents writer.old) (W.contents writer.new) (reply_text answer)) }
    ensures fault { IfErr result IsOfPrinting }
{
    let Ok(text) = reply_text(alloc, answer) else {
        return Err(BatchFault::NoMemory);
    };
    match write_text(writer, &text) {
        Ok(()) => Ok(()),
        Err(_) => Err(BatchFault::Write),
    }
}

/// Enters line `n`, counted from 0, and prints the answer.
fn enter_line<D: Dial, W: Write, V: Watch>(
    alloc: Global,
    dial: &mut D,
    made: &mut u32,
    contact: Contact<'_>,
    batch: Batch,
    n: usize,
    line: &InputCommand,
    out: &mut W,
    watch: &mut V,
) -> Result<(), BatchFault>
    requires { IsDesk batch.receiver.desk }
    ensures ok { OnOk result (InCall D.dialed V.heard contact.entry
        dial.old dial.new made.old made.new watch.old watch.new
        (EntersOne batch n line.now W.contents out.old out.new)) }
    ensures err { IfErr result (λ f. InCall D.dialed V.heard contact.entry
        dial.old dial.new made.old made.new watch.old watch.new
        (FailsOne f batch n line.now W.contents out.old out.new)) }
{
    let Some(id) = batch.first_id.checked_add(n as u64) else {
        return Err(BatchFault::NoMoreIds);
    };
    watch.begins(line, id);
    let answer = entered(
        alloc,
        dial,
        made,
        contact,
        batch.receiver,
        batch.waits,
        id,
        line.text(),
        watch,
    )?;
    let said = told_answer(&answer);
    let ends = ends_after(batch, said);
    print_answer(alloc, out, answer)?;
    watch.entered(said);
    if ends {
        return Err(BatchFault::AtRefusal);
    }
    Ok(())
}

/// As [`enter_lines`], with the connection that is kept, or none.
fn enter_lines_over<D: Dial, W: Write, V: Watch>(
    alloc: Global,
    dial: &mut D,
    made: &mut u32,
    contact: Contact<'_>,
    batch: Batch,
    commands: &[InputCommand],
    writer: &mut W,
    watch: &mut V,
) -> Result<(), BatchFault>
    requires { IsDesk batch.receiver.desk }
    ensures { InCall D.dialed V.heard contact.entry
        dial.old dial.new made.old made.new watch.old watch.new
        (EntersBy result batch commands.now W.contents writer.old writer.new) }
{
    for (number, command) in commands.iter().enumerate() {
        enter_line(
            alloc, dial, made, contact, batch, number, command, writer, watch,
        )?;
    }
    Ok(())
}

/// Enters commands at a desk, one after the other, and writes what the desk answers.
///
/// Command `n`, counted from 1, has the id `first_id + n - 1`. It is entered again where the desk's
/// queue is full. For each command one line is written: `taken <id>`, or, where it is waited for,
/// `done <id> <pos> <Done or Code>`. A desk that doesn't decide is ticked now and then. Where a
/// command is reported to be in the log, the entry there is asked for, and it is called done only
/// where that is this id and this text: another client may have entered another text with the id.
///
/// Requests are made over one connection, until 64 were made over it or one was not answered; the
/// next one is made over a new one. Where the desk has ended a connection that was kept, and does
/// not answer a request, that request is made once more, over a new one. At the end the connection
/// that is kept is ended.
///
/// The observer hears of each command that it begins, of each try after which it is tried again,
/// and, once its line is written, how it was answered.
///
/// # Errors
///
/// At a fault the commands in front were entered and their answers written, and none after it was
/// sent. The command itself may have been taken: enter it again with its id, the one after the last
/// that was written, and nothing is entered twice. `Lost` comes at the first answer that the desk
/// knows nothing of a command that it took, `AnotherCommand` where its id is another command's, of
/// which the observer hears, and `AtRefusal` after a command that was refused, whose line is
/// written, where the run is to end at that.
pub fn enter_lines<D: Dial, W: Write, V: Watch>(
    alloc: Global,
    dial: &mut D,
    contact: Contact<'_>,
    batch: Batch,
    commands: &[InputCommand],
    writer: &mut W,
    watch: &mut V,
) -> Result<(), BatchFault>
    requires { IsDesk batch.receiver.desk }
    ensures ok { OnOk result (AsksAll batch (texts_of commands.now)
        (told contact.entry D.dialed dial.old dial.new) (watched V.heard watch.old watch.new)
        (W.contents writer.old) (W.contents writer.new)) }
    ensures err { IfErr result (λ f. AsksSome f batch (texts_of commands.now)
        (told contact.entry D.dialed dial.old dial.new) (watched V.heard watch.old watch.new)
        (W.contents writer.old) (W.contents writer.new)) }
{
    let mut made = 0;
    let ended = enter_lines_over(
        alloc, dial, &mut made, contact, batch, commands, writer, watch,
    );
    let_go(dial, made);
    ended
}
