//! A log, written as the lines that a replay reads.

ghost use Rattle.std.specs.Prelude.{◌≡◌, ◌⊎◌, Some, OnOk, OnErr, IfErr, slice_get, take};
ghost use Rattle.std.specs.Io.KnownBytes.{Appends};
ghost use Rattle.acceptor.specs.Entries.{IsText};
ghost use Rattle.lines.specs.{Bytes.AppendsPart, Lines.is_line};
ghost use Rattle.learner.specs.Logs.{position_of};
ghost use Rattle.archive.specs.Archive.{archive_from, archive_text, is_copied, line_of};
ghost use Rattle.archive.specs.Replayed.{IsReplayed};
ghost use Rattle.archive.specs.model.Firsts.{is_at, AddsFrom, AddsLine};
ghost use Rattle.lines.specs.declared.fault.RunFault.TheVariants as run_fault;

use crate::laws::archives_are_replayed;
use acceptor::NoMemory;
use acceptor::entry::Entry;
use learner::log::Log;
use lines::{RunFault, write_long, write_out};
use std::alloc::Global;
use std::io::Write;

/// Whether no byte of a text is a line feed.
fn is_line(text: &[u8]) -> bool
    ensures { result ≡ is_line text.now }
{
    !text.contains(&b'\n')
}

/// Whether an id is at a position, and nowhere in front of it.
fn is_first(log: &Log, pos: u32, id: u64) -> bool
    ensures { result ≡ is_at pos (position_of log.now.entries id) }
{
    match log.position_of(id) {
        Some(first) => first == pos,
        None => false,
    }
}

/// Whether the line of the entry at a position is its text.
fn has_line(log: &Log, pos: u32, entry: &Entry) -> bool
    ensures { slice_get log.now.entries pos ≡ Some entry.now
        → result ≡ is_copied (take pos log.now.entries) entry.now }
{
    is_first(log, pos, entry.id()) && is_line(entry.text())
}

/// The line of the entry at a position.
fn line_of<'a>(log: &Log, pos: u32, entry: &'a Entry) -> &'a [u8]
    ensures { slice_get log.now.entries pos ≡ Some entry.now
        → result.now ≡ line_of (take pos log.now.entries) entry.now }
{
    if has_line(log, pos, entry) {
        return entry.text();
    }
    &[]
}

/// Adds the line of the entry at a position, and a line feed.
fn push_line(out: &mut Vec<u8>, log: &Log, pos: u32, entry: &Entry) -> Result<(), NoMemory>
    ensures line { OnOk result
        (AddsLine log.now.entries pos entry.now out.old.items out.new.items) }
    ensures short { IsText entry.now.text }
{
    // That the text is short is said by the contract of this call.
    let _ = entry.text();
    out.extend_from_slice(line_of(log, pos, entry))?;
    out.extend_from_slice(b"\n")
}

/// Adds the line of the entry at a position, and a line feed, where the position is not in front of
/// `from`.
fn push_from(
    out: &mut Vec<u8>,
    log: &Log,
    from: u32,
    pos: u32,
    entry: &Entry,
) -> Result<(), NoMemory>
    ensures line { OnOk result
        (AddsFrom from log.now.entries pos entry.now out.old.items out.new.items) }
    ensures short { IsText entry.now.text }
{
    // That the text is short is said by the contract of this call.
    let _ = entry.text();
    if from <= pos {
        push_line(out, log, pos, entry)
    } else {
        Ok(())
    }
}

/// Writes a line for each position of a log from `from` on: the text of the entry there, where its
/// id is there for the first time in the whole log and the text has no line feed, else an empty
/// one. A line feed ends each. Where the log ends at `from` or before, nothing is written.
///
/// After the lines of the positions in front of `from` these are the lines of [`write_log`].
///
/// # Errors
///
/// `Write` where a write fails, and `NoMemory` where memory runs out: a front part of the lines is
/// written.
pub fn write_log_from<W: Write>(
    alloc: Global,
    log: &Log,
    from: u32,
    writer: &mut W,
) -> Result<(), RunFault>
    ensures ok { OnOk result (Appends (W.contents writer.old) (W.contents writer.new)
        (archive_from from log.now.entries)) }
    ensures replayed { OnOk result (IsReplayed log.now.entries) }
    ensures err { OnErr result (AppendsPart (W.contents writer.old) (W.contents writer.new)
        (archive_from from log.now.entries)) }
    ensures fault { IfErr result (λ e. (e ≡ run_fault.Write) ⊎ (e ≡ run_fault.NoMemory)) }
{
    archives_are_replayed();
    let mut out = Vec::new(alloc);
    for pos in 0..log.len() {
        let Some(entry) = log.entry(pos) else {
            continue;
        };
        push_from(&mut out, log, from, pos, entry)?;
        write_long(writer, &mut out)?;
    }
    write_out(writer, &mut out)
}

/// Writes a line for each position of a log: the text of the entry there, where its id is there for
/// the first time and the text has no line feed, else an empty one. A line feed ends each.
///
/// So `replay` of what was written gives each sheet of the log at its length. A plain copy of the
/// texts would not: a repeated entry is refused in the log, and would be done again in a replay,
/// whose ids are the numbers of the lines.
///
/// # Errors
///
/// `Write` where a write fails, and `NoMemory` where memory runs out: a front part of the lines is
/// written.
pub fn write_log<W: Write>(alloc: Global, log: &Log, writer: &mut W) -> Result<(), RunFault>
    ensures ok { OnOk result (Appends (W.contents writer.old) (W.contents writer.new)
        (archive_text log.now.entries)) }
    ensures replayed { OnOk result (IsReplayed log.now.entries) }
    ensures err { OnErr result (AppendsPart (W.contents writer.old) (W.contents writer.new)
        (archive_text log.now.entries)) }
    ensures fault { IfErr result (λ e. (e ≡ run_fault.Write) ⊎ (e ≡ run_fault.NoMemory)) }
{
    write_log_from(alloc, log, 0, writer)
}
