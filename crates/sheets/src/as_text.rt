//! The sheet as text.

ghost use Rattle.std.specs.Prelude.{◌≡◌, ◌++◌, IfOk, OnOk, IfErr, flat_map, codes, Some};
ghost use Rattle.formats.specs.Results.{best_of};
ghost use Rattle.sheets.specs.Sheet.{right, columns, mark, state_text, title, standing, first_line};
ghost use Rattle.sheets.specs.Sheet.{second_line, results, attempts, person, text_sheet};
ghost use Rattle.sheets.specs.Faults.{NoSheet};
ghost use Rattle.sheets.specs.model.Shown.{IsOpened, TellsShown, line_shown, text_shown};

use crate::shown::{
    SheetRound, attempt_text, best_text, decimal_text, is_marked, name_text, shown_round,
};
use crate::{AdvancingEntrants, SheetFault};
use attempts::{NoMemory, Unit, Value, push_decimal};
use commands::{Meet, Settings, print_advance, print_cutoff, print_limit};
use formats::{Event, Format, attempts_of, print_average, unit_of};
use rounds::EntrantRow;
use std::alloc::Global;

/// Adds a text on the right of this many columns.
fn push_right(out: &mut Vec<u8>, width: usize, text: &[u8]) -> Result<(), NoMemory>
    ensures { OnOk result (out.new.items ≡ out.old.items ++ right width text.now) }
{
    let spaces = width.saturating_sub(text.len());
    for _ in 0..spaces {
        out.push(b' ')?;
    }
    out.extend_from_slice(text)
}

fn push_state(out: &mut Vec<u8>, closed: bool) -> Result<(), NoMemory>
    ensures { OnOk result (out.new.items ≡ out.old.items ++ state_text closed) }
{
    if closed {
        out.extend_from_slice(b"closed")
    } else {
        out.extend_from_slice(b"open")
    }
}

fn push_title(out: &mut Vec<u8>, event: Event, round: u8, format: Format) -> Result<(), NoMemory>
    ensures { OnOk result (out.new.items ≡ out.old.items ++ title event round format) }
{
    out.extend_from_slice(event.name().as_bytes())?;
    out.extend_from_slice(b" round ")?;
    push_decimal(out, u32::from(round))?;
    out.extend_from_slice(b" ")?;
    out.extend_from_slice(format.name().as_bytes())
}

fn push_standing(out: &mut Vec<u8>, closed: bool, position: u32) -> Result<(), NoMemory>
    ensures { OnOk result (out.new.items ≡ out.old.items ++ standing closed position) }
{
    out.extend_from_slice(b" ")?;
    push_state(out, closed)?;
    out.extend_from_slice(b" position ")?;
    push_decimal(out, position)?;
    out.extend_from_slice(b"\n")
}

/// Adds the first line: event, round, format, state and position.
fn push_first_line(
    out: &mut Vec<u8>,
    event: Event,
    round: u8,
    settings: Settings,
    closed: bool,
    position: u32,
) -> Result<(), NoMemory>
    ensures { OnOk result (out.new.items ≡ out.old.items
        ++ first_line event round settings closed position) }
{
    push_title(out, event, round, settings.format)?;
    push_standing(out, closed, position)
}

/// Adds the second line: cutoff, limit and advance.
fn push_second_line(out: &mut Vec<u8>, alloc: Global, settings: Settings) -> Result<(), NoMemory>
    ensures { OnOk result (out.new.items ≡ out.old.items ++ second_line settings) }
{
    let cutoff = print_cutoff(alloc, settings.cutoff)?;
    let limit = print_limit(alloc, settings.limit)?;
    let advance = print_advance(alloc, settings.advance)?;
    out.extend_from_slice(b"cutoff ")?;
    out.extend_from_slice(&cutoff)?;
    out.extend_from_slice(b" limit ")?;
    out.extend_from_slice(&limit)?;
    out.extend_from_slice(b" advance ")?;
    out.extend_from_slice(&advance)?;
    out.extend_from_slice(b"\n")
}

/// How wide the columns of results are: a result of multi-blind takes eleven, as `11/13 58:20`.
fn columns(unit: Unit) -> usize
    ensures { result ≡ columns unit }
{
    match unit {
        Unit::Time | Unit::Moves => 9,
        Unit::Multi => 11,
    }
}

/// Adds the place, the average and the best of an entrant.
fn push_results(
    out: &mut Vec<u8>,
    alloc: Global,
    row: EntrantRow<'_>,
    unit: Unit,
) -> Result<(), NoMemory>
    requires { row.best ≡ best_of row.values.now }
    ensures { OnOk result (out.new.items ≡ out.old.items
        ++ results unit row.entry.place row.entry.average row.entry.values.now) }
{
    let place = decimal_text(alloc, u32::from(row.place))?;
    let average = print_average(alloc, row.average, unit)?;
    let best = best_text(alloc, row.values, row.best, unit)?;
    push_right(out, 3, &place)?;
    out.extend_from_slice(b" ")?;
    push_right(out, columns(unit), &average)?;
    out.extend_from_slice(b" ")?;
    push_right(out, columns(unit), &best)
}

fn push_attempt(out: &mut Vec<u8>, unit: Unit, text: &[u8]) -> Result<(), NoMemory>
    ensures { OnOk result (out.new.items
        ≡ out.old.items ++ (codes " " ++ right (columns unit) text.now)) }
{
    out.extend_from_slice(b" ")?;
    push_right(out, columns(unit), text)
}

/// Adds a column for each attempt of the format.
fn push_attempts(
    out: &mut Vec<u8>,
    alloc: Global,
    values: &[Value],
    count: u8,
    unit: Unit,
) -> Result<(), NoMemory>
    ensures { OnOk result (out.new.items ≡ out.old.items ++ attempts unit count values.now) }
{
    for place in 0..count {
        let text = attempt_text(alloc, values, place as usize, unit)?;
        push_attempt(out, unit, &text)?;
    }
    Ok(())
}

fn push_mark(out: &mut Vec<u8>, marked: bool) -> Result<(), NoMemory>
    ensures { OnOk result (out.new.items ≡ out.old.items ++ mark marked) }
{
    if marked {
        out.extend_from_slice(b"Q")
    } else {
        out.extend_from_slice(b"-")
    }
}

/// Adds the number, the mark and the name of an entrant, and ends the line.
fn push_person(
    out: &mut Vec<u8>,
    alloc: Global,
    number: u16,
    marked: bool,
    name: &[u8],
) -> Result<(), NoMemory>
    ensures { OnOk result (out.new.items ≡ out.old.items ++ person number marked name.now) }
{
    let digits = decimal_text(alloc, u32::from(number))?;
    out.extend_from_slice(b" ")?;
    push_right(out, 4, &digits)?;
    out.extend_from_slice(b" ")?;
    push_mark(out, marked)?;
    out.extend_from_slice(b" ")?;
    out.extend_from_slice(name)?;
    out.extend_from_slice(b"\n")
}

/// Adds the line of the entrant with a number.
fn push_line(
    out: &mut Vec<u8>,
    alloc: Global,
    shown: SheetRound<'_>,
    going_on: &AdvancingEntrants,
    number: u16,
) -> Result<(), NoMemory>
    requires { TellsShown shown going_on.now }
    ensures { OnOk result (out.new.items ≡ out.old.items ++ line_shown shown.entry number) }
{
    let Some(row) = shown.table.row(number) else {
        return Ok(());
    };
    let unit = unit_of(shown.event);
    push_results(out, alloc, row, unit)?;
    push_attempts(
        out,
        alloc,
        row.values,
        attempts_of(shown.settings.format),
        unit,
    )?;
    let marked = is_marked(shown, going_on, number, row);
    push_person(out, alloc, number, marked, name_text(shown.meet, number))?;
    Ok(())
}

/// Adds a line for each of these numbers.
fn push_lines(
    out: &mut Vec<u8>,
    alloc: Global,
    shown: SheetRound<'_>,
    going_on: &AdvancingEntrants,
    numbers: &[u16],
) -> Result<(), NoMemory>
    requires { TellsShown shown going_on.now }
    ensures { OnOk result
        (out.new.items ≡ out.old.items ++ flat_map (line_shown shown.entry) numbers.now) }
{
    for number in numbers {
        push_line(out, alloc, shown, going_on, *number)?;
    }
    Ok(())
}

/// The sheet of a round.
fn text_of(alloc: Global, shown: SheetRound<'_>, position: u32) -> Result<Vec<u8>, NoMemory>
    requires { IsOpened shown }
    ensures { IfOk result (λ text. text.items ≡ text_shown shown.entry position) }
{
    let numbers = shown.table.standings()?;
    let going_on = AdvancingEntrants::from_round(alloc, shown.meet, shown.event, shown.round)?;
    let mut out = Vec::new(alloc);
    let closed = shown.table.is_closed();
    push_first_line(
        &mut out,
        shown.event,
        shown.round,
        shown.settings,
        closed,
        position,
    )?;
    push_second_line(&mut out, alloc, shown.settings)?;
    push_lines(&mut out, alloc, shown, &going_on, &numbers)?;
    Ok(out)
}

/// The result sheet of a round as text, in lines that each end with a line feed.
///
/// The first line has the event, the round, the format, whether the round is open or closed, and
/// the position, which is printed as given. The second has the cutoff, the limit (hundredths of a
/// second) and the advance. Then each entrant has a line, in order of place, and at one place in
/// order of entry: place, average, best, each attempt of the format, number, mark and name. A value
/// that is not there is `-`. Results are on the right of nine columns, and of eleven in
/// multi-blind. The mark is `Q` once the round is closed and the competitor advances; where the
/// next round is opened, that is as it was then.
///
/// # Errors
///
/// - `NoSuchRound` where no accepted command opened the round.
/// - `NoMemory` where memory ran out.
pub fn text(
    alloc: Global,
    meet: &Meet,
    event: Event,
    round: u8,
    position: u32,
) -> Result<Vec<u8>, SheetFault>
    ensures sheet { IfOk result (λ text. text_sheet meet.now.accepted event round position
        ≡ Some text.items) }
    ensures none { IfErr result (λ e.
        NoSheet e (text_sheet meet.now.accepted event round position)) }
{
    let Some(shown) = shown_round(meet, event, round) else {
        return Err(SheetFault::NoSuchRound);
    };
    match text_of(alloc, shown, position) {
        Ok(text) => Ok(text),
        Err(NoMemory) => Err(SheetFault::NoMemory),
    }
}
