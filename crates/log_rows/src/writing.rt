//! The rows of a log, written.

ghost use Rattle.std.specs.Prelude.{◌≡◌, ◌⊎◌, ◌+◌, ◌++◌, ◌<◌, Some, IfOk, IfErr, OnOk, OnErr};
ghost use Rattle.std.specs.Prelude.{if◌then◌else◌, [], length, take};
ghost use Rattle.std.specs.Io.KnownBytes.{Appends};
ghost use Rattle.lines.specs.Bytes.{AppendsPart};
ghost use Rattle.last_change.specs.Changes.{reads_change};
ghost use Rattle.texts.specs.{Fields.round_id, Reading.command_of};
ghost use Rattle.answers.specs.Transcripts.{IsTranscript};
ghost use Rattle.log_rows.specs.Rows.{AddsRow, is_shown_so, row, row_from, rows};
ghost use Rattle.lines.specs.declared.fault.RunFault.TheVariants as run_fault;

use crate::rows::push_row;
use acceptor::NoMemory;
use acceptor::entry::Entry;
use answers::Transcript;
use formats::Event;
use last_change::reads_change;
use learner::log::Log;
use lines::{RunFault, write_text};
use std::alloc::Global;
use std::io::Write;
use texts::{Answer, RoundId};

/// What is above the columns.
const HEADING: &[u8] =
    b"result  id                   answer             remark                    command\n";

/// Whose result: of the competitor with this number in this round.
#[derive(Clone, Copy)]
pub struct ResultOwner {
    pub event: Event,
    /// 1 to 4.
    pub round: u8,
    /// 1 to 9999.
    pub number: u16,
}

/// Which entries of a log are shown.
#[derive(Clone, Copy)]
pub enum ShownEntries {
    /// All of them.
    All,
    /// Those that were accepted and entered, corrected or struck an attempt of the result, or were
    /// a card of it.
    ChangesOf(ResultOwner),
}

/// Whether a text spells a command that changes a result, where it is accepted.
fn changes_result(alloc: Global, whose: ResultOwner, text: &[u8]) -> Result<bool, NoMemory>
    ensures { IfOk result (λ is. is
        ≡ reads_change (round_id whose.event whose.round) whose.number (command_of text.now)) }
{
    let id = RoundId {
        event: whose.event,
        round: whose.round,
    };
    reads_change(alloc, id, whose.number, text)
}

/// Whether an entry is shown that was answered so.
fn is_shown(
    alloc: Global,
    shown: ShownEntries,
    answer: Answer,
    text: &[u8],
) -> Result<bool, NoMemory>
    ensures { IfOk result (λ is. is ≡ is_shown_so shown answer text.now) }
{
    match (shown, answer) {
        (ShownEntries::All, _) => Ok(true),
        (ShownEntries::ChangesOf(whose), Answer::Done) => changes_result(alloc, whose, text),
        (ShownEntries::ChangesOf(_), Answer::Refused(_)) => Ok(false),
    }
}

/// Adds the row of the entry at a position, or nothing.
fn push_if(
    out: &mut Vec<u8>,
    shows: bool,
    position: u32,
    entry: &Entry,
    answer: Answer,
) -> Result<(), NoMemory>
    requires { position < 65536 }
    ensures { OnOk result
        (out.new.items ≡ out.old.items ++ (if shows then row position entry.now answer else [])) }
{
    if shows {
        push_row(out, position, entry, answer)
    } else {
        Ok(())
    }
}

/// Adds the row of the entry at a position, where the position is not in front of `from` and the
/// entry is shown.
fn push_shown(
    out: &mut Vec<u8>,
    from: u32,
    shown: ShownEntries,
    position: u32,
    entry: &Entry,
    answer: Answer,
) -> Result<(), NoMemory>
    requires { position < 65536 }
    ensures { OnOk result
        (AddsRow from shown position entry.now answer out.old.items out.new.items) }
{
    let shows = is_shown(*out.allocator(), shown, answer, entry.text())?;
    push_if(out, from <= position && shows, position, entry, answer)?;
    Ok(())
}

/// Takes the entry at a position into the transcript of those in front of it, and adds its row,
/// where it is shown.
fn take_row(
    out: &mut Vec<u8>,
    transcript: &mut Transcript,
    log: &Log,
    from: u32,
    shown: ShownEntries,
    position: u32,
) -> Result<(), NoMemory>
    requires few { position < 65536 }
    requires there { position < length log.now.entries }
    ensures { OnOk result (IsTranscript transcript.old (take position log.now.entries)
        → IsTranscript transcript.new (take (position + 1) log.now.entries)
        × (out.new.items ≡ out.old.items ++ row_from from shown log.now.entries position)) }
{
    let Some(entry) = log.entry(position) else {
        unreachable!();
    };
    let answer = transcript.take(entry)?;
    push_shown(out, from, shown, position, entry, answer)?;
    Ok(())
}

/// The heading and the rows of a log.
fn rows(alloc: Global, log: &Log, from: u32, shown: ShownEntries) -> Result<Vec<u8>, NoMemory>
    ensures { IfOk result (λ text. text.items ≡ rows from shown log.now.entries) }
{
    let mut out = Vec::from_slice(alloc, HEADING)?;
    let mut transcript = Transcript::new(alloc)?;
    for position in 0..log.len() {
        take_row(&mut out, &mut transcript, log, from, shown, position)?;
    }
    Ok(out)
}

/// Writes a heading, and a row for each entry of a log that is shown, from position `from` on, 0 to
/// 65,536: how many entries the log has up to and with this one, its id, what it was answered, its
/// remark, and its text without the remark. A byte of the text that is below 32, or 127, is a
/// question mark. A line feed ends each row.
///
/// # Errors
///
/// `NoMemory` where memory runs out: nothing is written. `Write` where a write fails: a front part
/// of the rows is written.
pub fn write_rows<W: Write>(
    alloc: Global,
    log: &Log,
    from: u32,
    shown: ShownEntries,
    writer: &mut W,
) -> Result<(), RunFault>
    ensures ok { OnOk result (Appends (W.contents writer.old) (W.contents writer.new)
        (rows from shown log.now.entries)) }
    ensures err { OnErr result (AppendsPart (W.contents writer.old) (W.contents writer.new)
        (rows from shown log.now.entries)) }
    ensures fault { IfErr result (λ e. (e ≡ run_fault.Write) ⊎ (e ≡ run_fault.NoMemory)) }
{
    let Ok(text) = rows(alloc, log, from, shown) else {
        return Err(RunFault::NoMemory);
    };
    match write_text(writer, &text) {
        Ok(()) => Ok(()),
        Err(_) => Err(RunFault::Write),
    }
}
