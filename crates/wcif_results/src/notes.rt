//! What is said of the file with the results of a meet.

ghost use Rattle.std.specs.Prelude.{◌≡◌, ◌++◌, map, IfOk, OnOk, option_map};
ghost use Rattle.json.specs.Value.{value_view};
ghost use Rattle.wcif_results.specs.Notes.{format_notes, format_text, notes_of, placed_notes};
ghost use Rattle.wcif_results.specs.Notes.{running_notes};
ghost use Rattle.wcif_results.specs.model.Opened.{held_view, round_view};

use crate::meet_rounds::MeetRound;
use crate::note::ExportNote;
use crate::reading::{HeldRound, held_rounds, round_with_id};
use attempts::NoMemory;
use formats::Format;
use json::Value;
use std::alloc::Global;
use wcif::Quoted;

/// A format as a file has it.
fn format_text(format: Format) -> &'static str
    ensures { result.now ≡ format_text format }
{
    match format {
        Format::Ao5 => "a",
        Format::Mo3 => "m",
        Format::Bo1 => "1",
        Format::Bo2 => "2",
        Format::Bo3 => "3",
    }
}

/// Adds that a round still runs, where it does.
fn push_running(notes: &mut Vec<ExportNote>, round: &MeetRound<'_>) -> Result<(), NoMemory>
    ensures { OnOk result (notes.new.items
        ≡ notes.old.items ++ running_notes (round_view round.now)) }
{
    if !round.table.is_closed() {
        notes.push(ExportNote::Running {
            event: round.event,
            round: round.number,
        })?;
    }
    Ok(())
}

/// Adds that the format is not that of the file, where it is not.
fn push_format(
    alloc: Global,
    notes: &mut Vec<ExportNote>,
    round: &MeetRound<'_>,
    text: &[u8],
) -> Result<(), NoMemory>
    ensures { OnOk result (notes.new.items
        ≡ notes.old.items ++ format_notes (round_view round.now) text.now) }
{
    if text != format_text(round.format).as_bytes() {
        notes.push(ExportNote::OtherFormat {
            event: round.event,
            round: round.number,
            format: round.format,
            other: Quoted::of(alloc, text)?,
        })?;
    }
    Ok(())
}

/// Adds what is said of a round, given the file's round with its id.
fn push_round(
    alloc: Global,
    notes: &mut Vec<ExportNote>,
    round: &MeetRound<'_>,
    held: Option<&HeldRound<'_>>,
) -> Result<(), NoMemory>
    ensures { OnOk result (notes.new.items ≡ notes.old.items
        ++ placed_notes (round_view round.now) (option_map (λ r. held_view r.now) held.entry)) }
{
    let Some(held) = held else {
        notes.push(ExportNote::LeftOut {
            event: round.event,
            round: round.number,
        })?;
        return Ok(());
    };
    push_running(notes, round)?;
    push_format(alloc, notes, round, held.format.as_bytes())
}

/// All that is said of the file with the results of these rounds, by rounds.
#[tactic(auto, unfolding(crate::specs::Notes::notes_of))]
pub(crate) fn notes_of(
    alloc: Global,
    rounds: &[MeetRound<'_>],
    file: &Value<'_>,
) -> Result<Vec<ExportNote>, NoMemory>
    ensures { IfOk result (λ notes. notes.items
        ≡ notes_of (map round_view rounds.now) (value_view file.now)) }
{
    let held = held_rounds(alloc, file)?;
    let mut notes = Vec::new(alloc);
    for round in rounds {
        push_round(alloc, &mut notes, round, round_with_id(&held, &round.id))?;
    }
    Ok(notes)
}
