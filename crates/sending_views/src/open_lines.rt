//! What is open, line by line, each with what to do.

ghost use Rattle.std.specs.Prelude.{◌≡◌, ◌++◌, OnOk, flat_map};
ghost use Rattle.table_views.specs.Forms.{round_numbered};
ghost use Rattle.sending_views.specs.Lines.{called, fault_cells, fault_line, fault_round};
ghost use Rattle.sending_views.specs.Lines.{has_result, holds_beside, note_cells, note_line};
ghost use Rattle.sending_views.specs.Lines.{note_round, round_cell};

use acceptor::NoMemory;
use commands::Meet;
use formats::Event;
use markup::Piece::{Html, Number, Text};
use markup::fill;
use round_counts::round_opened;
use round_words::{push_round_name, push_round_words};
use texts::RoundId;
use wcif_results::{ExportNote, MeetFault};

/// The round of an event.
fn at(event: Event, round: u8) -> RoundId
    ensures { result ≡ round_numbered event round }
{
    RoundId { event, round }
}

/// Adds a round in words; its name, where it was not opened.
fn push_called(out: &mut Vec<u8>, meet: &Meet, id: RoundId) -> Result<(), NoMemory>
    ensures { OnOk result (out.new.items ≡ out.old.items ++ called meet.now.accepted id) }
{
    match round_opened(meet, id) {
        Some(round) => push_round_words(out, id, round.settings.advance),
        None => push_round_name(out, id),
    }
}

/// Adds the first cell of a line: a round, with a link to its forms.
fn push_round(out: &mut Vec<u8>, meet: &Meet, id: RoundId) -> Result<(), NoMemory>
    ensures { OnOk result (out.new.items ≡ out.old.items ++ round_cell meet.now.accepted id) }
{
    out.extend_from_slice(b"<tr><th scope=\"row\"><a href=\"/rounds?round=")?;
    push_round_name(out, id)?;
    out.extend_from_slice(b"\">")?;
    push_called(out, meet, id)?;
    out.extend_from_slice(b"</a></th>")
}

const NO_ROUND: &[u8] = b"\
<td>the file has no such round</td>\
<td>Add the round on the site that the file is from, and fetch the file again.</td></tr>
";

const NO_PERSON: &[u8] = b"\
<td>number $ is \"<bdi>$</bdi>\", and nobody in the file</td>\
<td>Add the person on the site that the file is from, and fetch the file again.</td></tr>
";

const NOT_ACCEPTED: &[u8] = b"\
<td>number $ is \"<bdi>$</bdi>\", and in the file \"<bdi>$</bdi>\", not accepted</td>\
<td>Accept the registration on the site that the file is from, and fetch the file again.</td></tr>
";

const OTHER_NAME: &[u8] = b"\
<td>number $ is \"<bdi>$</bdi>\", and in the file \"<bdi>$</bdi>\"</td>\
<td>If they are one person, <a href=\"/person/$\">give the number the name of the file</a>. Else \
the results are under a wrong number: they need the file's number, in a new list.</td></tr>
";

/// The round of a fault.
fn fault_round(fault: &MeetFault) -> RoundId
    ensures { result ≡ fault_round fault.now }
{
    match fault {
        MeetFault::NoRound { event, round } => at(*event, *round),
        MeetFault::NoPerson { event, round, .. } => at(*event, *round),
        MeetFault::NotAccepted { event, round, .. } => at(*event, *round),
        MeetFault::OtherName { event, round, .. } => at(*event, *round),
    }
}

/// Adds the other cells of the line of a fault: what it is, and what to do.
fn push_fault_cells(out: &mut Vec<u8>, fault: &MeetFault) -> Result<(), NoMemory>
    ensures { OnOk result (out.new.items ≡ out.old.items ++ fault_cells fault.now) }
{
    match fault {
        MeetFault::NoRound { .. } => out.extend_from_slice(NO_ROUND),
        MeetFault::NoPerson { number, name, .. } => fill(
            out,
            NO_PERSON,
            &[Number(*number as u64), Text(name.as_bytes())],
        ),
        MeetFault::NotAccepted {
            number,
            name,
            other,
            ..
        } => fill(
            out,
            NOT_ACCEPTED,
            &[
                Number(*number as u64),
                Text(name.as_bytes()),
                Text(other.as_bytes()),
            ],
        ),
        MeetFault::OtherName {
            number,
            name,
            other,
            ..
        } => fill(
            out,
            OTHER_NAME,
            &[
                Number(*number as u64),
                Text(name.as_bytes()),
                Text(other.as_bytes()),
                Number(*number as u64),
            ],
        ),
    }
}

/// Adds a line for each of these faults.
pub(crate) fn push_faults(
    out: &mut Vec<u8>,
    meet: &Meet,
    faults: &[MeetFault],
) -> Result<(), NoMemory>
    ensures { OnOk result (out.new.items
        ≡ out.old.items ++ flat_map (fault_line meet.now.accepted) faults.now) }
{
    for fault in faults {
        push_round(out, meet, fault_round(fault))?;
        push_fault_cells(out, fault)?;
    }
    Ok(())
}

const RUNNING: &[u8] = b"\
<td>the round still runs</td>\
<td>Enter what is missing, and close the round.</td></tr>
";

const LEFT_OUT: &[u8] = b"\
<td>left out: it has no result, and the file has no such round</td>\
<td>Nothing, if the round was not held. Else enter its results.</td></tr>
";

const OTHER_FORMAT: &[u8] = b"\
<td>the format is $, and in the file \"<bdi>$</bdi>\"</td>\
<td>Correct the one that is wrong: in the file a is ao5, m is mo3, and 1, 2 and 3 are bo1, bo2 and \
bo3.</td></tr>
";

/// The round of a note.
fn note_round(note: &ExportNote) -> RoundId
    ensures { result ≡ note_round note.now }
{
    match note {
        ExportNote::Running { event, round } => at(*event, *round),
        ExportNote::LeftOut { event, round } => at(*event, *round),
        ExportNote::OtherFormat { event, round, .. } => at(*event, *round),
    }
}

/// Adds the other cells of the line of a note: what it is, and what to do.
fn push_note_cells(out: &mut Vec<u8>, note: &ExportNote) -> Result<(), NoMemory>
    ensures { OnOk result (out.new.items ≡ out.old.items ++ note_cells note.now) }
{
    match note {
        ExportNote::Running { .. } => out.extend_from_slice(RUNNING),
        ExportNote::LeftOut { .. } => out.extend_from_slice(LEFT_OUT),
        ExportNote::OtherFormat { format, other, .. } => fill(
            out,
            OTHER_FORMAT,
            &[Html(format.name().as_bytes()), Text(other.as_bytes())],
        ),
    }
}

/// Whether a round was opened, and has a result.
fn has_result(meet: &Meet, id: RoundId) -> bool
    ensures { result ≡ has_result meet.now.accepted id }
{
    match round_opened(meet, id) {
        Some(round) => round.table.is_attempted(1),
        None => false,
    }
}

/// Whether a note holds beside the faults. An export has no note where it has a fault; here both
/// are said, and a round that has a result is not left out.
fn holds_beside(meet: &Meet, note: &ExportNote) -> bool
    ensures { result ≡ holds_beside meet.now.accepted note.now }
{
    match note {
        ExportNote::LeftOut { event, round } => !has_result(meet, at(*event, *round)),
        ExportNote::Running { .. } => true,
        ExportNote::OtherFormat { .. } => true,
    }
}

/// Adds the line of a note, where it holds beside the faults.
fn push_note(out: &mut Vec<u8>, meet: &Meet, note: &ExportNote) -> Result<(), NoMemory>
    ensures { OnOk result (out.new.items
        ≡ out.old.items ++ note_line meet.now.accepted note.now) }
{
    if !holds_beside(meet, note) {
        return Ok(());
    }
    push_round(out, meet, note_round(note))?;
    push_note_cells(out, note)
}

/// Adds a line for each of these notes.
pub(crate) fn push_notes(
    out: &mut Vec<u8>,
    meet: &Meet,
    notes: &[ExportNote],
) -> Result<(), NoMemory>
    ensures { OnOk result (out.new.items
        ≡ out.old.items ++ flat_map (note_line meet.now.accepted) notes.now) }
{
    for note in notes {
        push_note(out, meet, note)?;
    }
    Ok(())
}
