//! The round beside the card.

ghost use Rattle.std.specs.Prelude.{◌≡◌, ◌++◌, IfOk, OnOk, Some, flat_map};
ghost use Rattle.commands.specs.Accepted.{round_by, seen_of};
ghost use Rattle.rounds.specs.{Rows.IsRow, Tables.Entrant, Tables.standings};
ghost use Rattle.sheets.specs.{Going.Tells, Sheet.attempt_text};
ghost use Rattle.table_entry_views.specs.Beside.{attempt_cells, class_of, count_line, is_through};
ghost use Rattle.table_entry_views.specs.Beside.{line, line_end, line_start, person_cells};
ghost use Rattle.table_entry_views.specs.Beside.{section, section_head, table_start};

use acceptor::NoMemory;
use attempts::{Unit, Value, print_value};
use board_rounds::{push_attempt_headings, push_cell, push_number, push_results};
use commands::Meet;
use formats::{Format, attempts_of, unit_of};
use markup::Piece::Number;
use markup::fill;
use round_counts::{Counts, OpenedRound, Progress, counts_of, progress_of};
use round_words::{push_round_name, push_round_words};
use rounds::{EntrantRow, RoundTable};
use sheets::AdvancingEntrants;
use std::alloc::Global;
use table_views::push_name;
use texts::{RoundId, push_was};

const SECTION_START: &[u8] = b"\
<div id=\"beside\"><p hidden><label>Filter by name \
<input id=\"filter\" type=\"search\"></label></p>
<section id=\"round\"><h2>";

/// The class of the style for how far an entrant has come.
fn class_of(progress: Progress) -> &'static [u8]
    ensures { result.now ≡ class_of progress }
{
    match progress {
        Progress::Absent => b"absent",
        Progress::Begun => b"begun",
        Progress::Done => b"done",
    }
}

/// Adds the beginning of a line, which says what counts as `CARD` spells it.
fn push_line_start(out: &mut Vec<u8>, progress: Progress, values: &[Value]) -> Result<(), NoMemory>
    ensures { OnOk result (out.new.items ≡ out.old.items ++ line_start progress values.now) }
{
    out.extend_from_slice(b"<tr class=\"")?;
    out.extend_from_slice(class_of(progress))?;
    out.extend_from_slice(b"\" data-was=\"")?;
    push_was(out, values)?;
    out.extend_from_slice(b"\">")?;
    Ok(())
}

const NUMBER_LINK: &[u8] = b"?number=$\">$</a></td><td>";

/// Adds the place, the number, with a link to the entrant's card, and the name of an entrant.
fn push_person(
    out: &mut Vec<u8>,
    meet: &Meet,
    id: RoundId,
    place: u16,
    number: u16,
) -> Result<(), NoMemory>
    ensures { OnOk result (out.new.items
        ≡ out.old.items ++ person_cells meet.now.accepted id place number) }
{
    push_number(out, place)?;
    out.extend_from_slice(b"<td><a href=\"/card/")?;
    push_round_name(out, id)?;
    fill(
        out,
        NUMBER_LINK,
        &[Number(number as u64), Number(number as u64)],
    )?;
    push_name(out, meet, number)?;
    out.extend_from_slice(b"</td>")?;
    Ok(())
}

/// The attempt at a place, counted from 0, or `-` where it is not there.
fn attempt_text(
    alloc: Global,
    values: &[Value],
    place: usize,
    unit: Unit,
) -> Result<Vec<u8>, NoMemory>
    ensures { IfOk result (λ text. text.items ≡ attempt_text unit values.now place) }
{
    match values.get(place) {
        Some(value) => print_value(alloc, *value, unit),
        None => Vec::from_slice(alloc, b"-"),
    }
}

/// Adds a cell for each attempt of the format.
fn push_attempts(out: &mut Vec<u8>, values: &[Value], count: u8, unit: Unit) -> Result<(), NoMemory>
    ensures { OnOk result (out.new.items
        ≡ out.old.items ++ attempt_cells unit values.now count) }
{
    for place in 0..count {
        let text = attempt_text(*out.allocator(), values, place as usize, unit)?;
        push_cell(out, &text)?;
    }
    Ok(())
}

/// Adds whether an entrant advances, and ends the line.
fn push_line_end(out: &mut Vec<u8>, through: bool) -> Result<(), NoMemory>
    ensures { OnOk result (out.new.items ≡ out.old.items ++ line_end through) }
{
    if through {
        out.extend_from_slice(b"<td>yes</td></tr>\n")
    } else {
        out.extend_from_slice(b"<td>no</td></tr>\n")
    }
}

/// Whether the entrant of a row advances: who does is said once the round is closed.
fn is_through(
    table: &RoundTable,
    going_on: &AdvancingEntrants,
    number: u16,
    row: EntrantRow<'_>,
) -> bool
    ensures { (e : Entrant) → IsRow table.now number e row.entry
        → result ≡ is_through table.now going_on.now number }
{
    table.is_closed() && going_on.includes(number, row)
}

/// Adds the line of the entrant with a number, with the texts of the sheet.
fn push_line(
    out: &mut Vec<u8>,
    meet: &Meet,
    id: RoundId,
    round: OpenedRound<'_>,
    going_on: &AdvancingEntrants,
    number: u16,
) -> Result<(), NoMemory>
    requires { Tells going_on.now round.table.now (seen_of meet.now.accepted id.event id.round) }
    ensures { OnOk result (out.new.items ≡ out.old.items
        ++ line meet.now.accepted id (round.entry.settings, round.entry.table.now) number) }
{
    let Some(row) = round.table.row(number) else {
        return Ok(());
    };
    let unit = unit_of(id.event);
    let count = attempts_of(round.settings.format);
    let progress = progress_of(round.table, round.settings.format, number);
    let through = is_through(round.table, going_on, number, row);
    push_line_start(out, progress, row.values)?;
    push_person(out, meet, id, row.place, number)?;
    push_results(out, row.average, row.best, row.values, unit)?;
    push_attempts(out, row.values, count, unit)?;
    push_line_end(out, through)?;
    Ok(())
}

fn push_lines(
    out: &mut Vec<u8>,
    meet: &Meet,
    id: RoundId,
    round: OpenedRound<'_>,
    going_on: &AdvancingEntrants,
    numbers: &[u16],
) -> Result<(), NoMemory>
    requires { Tells going_on.now round.table.now (seen_of meet.now.accepted id.event id.round) }
    ensures { OnOk result (out.new.items ≡ out.old.items ++ flat_map
        (line meet.now.accepted id (round.entry.settings, round.entry.table.now)) numbers.now) }
{
    for number in numbers {
        push_line(out, meet, id, round, going_on, *number)?;
    }
    Ok(())
}

/// Adds the line of each entrant, in order of place.
fn push_entrants(
    out: &mut Vec<u8>,
    meet: &Meet,
    id: RoundId,
    round: OpenedRound<'_>,
) -> Result<(), NoMemory>
    requires { round_by meet.now.accepted id ≡ Some (round.settings, round.table.now) }
    ensures { OnOk result (out.new.items ≡ out.old.items ++ flat_map
        (line meet.now.accepted id (round.entry.settings, round.entry.table.now))
        (standings round.entry.table.now)) }
{
    let numbers = round.table.standings()?;
    let going_on = AdvancingEntrants::from_round(*out.allocator(), meet, id.event, id.round)?;
    push_lines(out, meet, id, round, &going_on, &numbers)
}

const COUNTS: &[u8] = b"\
<p class=\"count\">$ of $ done, $ in the middle, $ without an attempt</p>
";

fn push_counts(out: &mut Vec<u8>, counts: Counts) -> Result<(), NoMemory>
    ensures { OnOk result (out.new.items ≡ out.old.items ++ count_line counts) }
{
    fill(
        out,
        COUNTS,
        &[
            Number(counts.done as u64),
            Number(counts.entrants as u64),
            Number(counts.begun as u64),
            Number(counts.absent as u64),
        ],
    )
}

const TABLE_START: &[u8] = b"\
<table><caption>Entrants of this round by place, with attempts</caption><thead><tr>\
<th scope=\"col\">place</th><th scope=\"col\">number</th><th scope=\"col\">name</th>\
<th scope=\"col\">average</th><th scope=\"col\">best</th>";

/// Adds the columns' names and the beginning of the lines.
fn push_table_start(out: &mut Vec<u8>, format: Format) -> Result<(), NoMemory>
    ensures { OnOk result (out.new.items ≡ out.old.items ++ table_start format) }
{
    out.extend_from_slice(TABLE_START)?;
    push_attempt_headings(out, attempts_of(format))?;
    out.extend_from_slice(b"<th scope=\"col\">advances</th></tr></thead><tbody>\n")?;
    Ok(())
}

/// Adds what is before the table: the round, and how far the entrants have come.
fn push_section_start(
    out: &mut Vec<u8>,
    id: RoundId,
    round: OpenedRound<'_>,
) -> Result<(), NoMemory>
    ensures { OnOk result (out.new.items ≡ out.old.items
        ++ section_head id round.entry.settings round.entry.table.now) }
{
    let counts = counts_of(round.table, round.settings.format)?;
    out.extend_from_slice(SECTION_START)?;
    push_round_words(out, id, round.settings.advance)?;
    out.extend_from_slice(b"</h2>\n")?;
    push_counts(out, counts)?;
    Ok(())
}

/// Adds the section of a round that was opened: how far the entrants have come, and the texts of
/// its sheet, a line for each entrant.
pub(crate) fn push_round(
    out: &mut Vec<u8>,
    meet: &Meet,
    id: RoundId,
    round: OpenedRound<'_>,
) -> Result<(), NoMemory>
    requires { round_by meet.now.accepted id ≡ Some (round.settings, round.table.now) }
    ensures { OnOk result (out.new.items ≡ out.old.items
        ++ section meet.now.accepted id (round.entry.settings, round.entry.table.now)) }
{
    push_section_start(out, id, round)?;
    push_table_start(out, round.settings.format)?;
    push_entrants(out, meet, id, round)?;
    out.extend_from_slice(b"</tbody></table>\n</section></div>\n")?;
    Ok(())
}
