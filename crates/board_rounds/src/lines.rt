//! The lines of a round.

ghost use Rattle.std.specs.Prelude.{◌≡◌, ◌++◌, OnOk, flat_map};
ghost use Rattle.board_rounds.specs.Rows.{is_high, is_on_podium};
ghost use Rattle.rounds.specs.Tables.{standings};
ghost use Rattle.board_rounds.specs.model.Shown.{IsOpened, TellsShown, line_shown, listed_shown};

use crate::cells::{push_attempts, push_line_start, push_mark, push_person_cells, push_results};
use crate::shown::{BoardRound, name_text};
use attempts::{NoMemory, Value};
use formats::{attempts_of, unit_of};
use rounds::RoundTable;
use sheets::AdvancingEntrants;

/// Adds the line of the entrant with a number.
fn push_line(
    out: &mut Vec<u8>,
    shown: BoardRound<'_>,
    going_on: &AdvancingEntrants,
    number: u16,
) -> Result<(), NoMemory>
    requires { TellsShown shown going_on.now }
    ensures { OnOk result (out.new.items ≡ out.old.items ++ line_shown shown.entry number) }
{
    let Some(row) = shown.table.row(number) else {
        return Ok(());
    };
    let unit = unit_of(shown.id.event);
    let closed = shown.table.is_closed();
    let through = going_on.includes(number, row);
    let count = attempts_of(shown.settings.format);
    push_line_start(out, through, closed)?;
    push_person_cells(
        out,
        row.place,
        number,
        name_text(shown.meet, number),
        row.values,
    )?;
    push_results(out, row.average, row.best, row.values, unit)?;
    push_attempts(out, shown.settings.format, row.values, count, unit)?;
    push_mark(out, through, shown.settings.advance, closed)?;
    Ok(())
}

/// Whether this place with this best attempt is on the podium.
fn is_high(place: u16, best: Value) -> bool
    ensures { result ≡ is_high place best }
{
    match best {
        Value::Number(_) => place <= 3,
        Value::Dnf | Value::Dns => false,
    }
}

/// Whether the entrant with a number is on the podium.
fn is_on_podium(table: &RoundTable, number: u16) -> bool
    ensures { result ≡ is_on_podium table.now number }
{
    match table.row(number) {
        Some(row) => is_high(row.place, row.best),
        None => false,
    }
}

/// Adds the line of the entrant with a number, where it is one to be shown.
fn push_listed(
    out: &mut Vec<u8>,
    shown: BoardRound<'_>,
    podium: bool,
    going_on: &AdvancingEntrants,
    number: u16,
) -> Result<(), NoMemory>
    requires { TellsShown shown going_on.now }
    ensures { OnOk result
        (out.new.items ≡ out.old.items ++ listed_shown podium shown.entry number) }
{
    if podium && !is_on_podium(shown.table, number) {
        return Ok(());
    }
    push_line(out, shown, going_on, number)
}

/// Adds a line for each of these numbers that is one to be shown.
fn push_lines(
    out: &mut Vec<u8>,
    shown: BoardRound<'_>,
    podium: bool,
    going_on: &AdvancingEntrants,
    numbers: &[u16],
) -> Result<(), NoMemory>
    requires { TellsShown shown going_on.now }
    ensures { OnOk result (out.new.items
        ≡ out.old.items ++ flat_map (listed_shown podium shown.entry) numbers.now) }
{
    for number in numbers {
        push_listed(out, shown, podium, going_on, *number)?;
    }
    Ok(())
}

/// Adds a line for each entrant, or for those on the podium alone, in order of standings.
pub(crate) fn push_entrants(
    out: &mut Vec<u8>,
    shown: BoardRound<'_>,
    podium: bool,
) -> Result<(), NoMemory>
    requires { IsOpened shown }
    ensures { OnOk result (out.new.items ≡ out.old.items
        ++ flat_map (listed_shown podium shown.entry) (standings shown.entry.table.now)) }
{
    let numbers = shown.table.standings()?;
    let alloc = *out.allocator();
    let going_on = AdvancingEntrants::from_round(
        alloc,
        shown.meet,
        shown.id.event,
        shown.id.round,
    )?;
    push_lines(out, shown, podium, &going_on, &numbers)
}
