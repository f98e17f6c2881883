//! What is written of a round's entrants.

ghost use Rattle.std.specs.Prelude.{◌≡◌, flat_map, OnOk};
ghost use Rattle.json.specs.Tree.{json_tokens};
ghost use Rattle.formats.specs.Results.{best_of};
ghost use Rattle.rounds.specs.{Rows.IsRow, Tables.Entrant, Tables.standings};
ghost use Rattle.wcif_results.specs.model.Marks.{IsOpened, TellsOpened, entrant_in, marks_of};
ghost use Rattle.wcif_results.specs.results_json.Entrants.{entrant_list, entrants_json};
ghost use Rattle.wcif_results.specs.Written.{Adds};

use crate::results::{write_number, write_ranking};
use crate::results_json::rounds_written::ExportedRound;
use crate::results_json::values::{write_average, write_best, write_name, write_values};
use attempts::NoMemory;
use json::Writer;
use rounds::EntrantRow;
use sheets::AdvancingEntrants;

/// Whether the sheet marks the entrant of a row as one who advances.
fn is_marked(
    round: ExportedRound<'_>,
    going_on: &AdvancingEntrants,
    number: u16,
    row: EntrantRow<'_>,
) -> bool
    requires { TellsOpened round going_on.now }
    ensures { (e : Entrant) → IsRow round.entry.table.now number e row.entry
        → result ≡ marks_of round.entry number }
{
    round.table.is_closed() && going_on.includes(number, row)
}

/// Writes what the sheet has of an entrant, given its row.
fn write_row(
    out: &mut Writer,
    round: ExportedRound<'_>,
    going_on: &AdvancingEntrants,
    number: u16,
    row: EntrantRow<'_>,
) -> Result<(), NoMemory>
    requires best { row.best ≡ best_of row.values.now }
    requires who { TellsOpened round going_on.now }
    ensures { OnOk result ((e : Entrant) → IsRow round.entry.table.now number e row.entry
        → Adds out.old out.new (json_tokens (entrant_in round.entry number e))) }
{
    out.begin_object()?;
    out.key("number")?;
    write_number(out, number)?;
    out.key("name")?;
    write_name(out, round.meet.name(number))?;
    out.key("place")?;
    write_ranking(out, row.values, row.place)?;
    out.key("attempts")?;
    write_values(out, row.values)?;
    out.key("best")?;
    write_best(out, row.values, row.best)?;
    out.key("average")?;
    write_average(out, row.average)?;
    out.key("advances")?;
    out.boolean(is_marked(round, going_on, number, row))?;
    out.end_object()
}

/// Writes what the sheet has of the entrant with a number.
fn write_entrant(
    out: &mut Writer,
    round: ExportedRound<'_>,
    going_on: &AdvancingEntrants,
    number: u16,
) -> Result<(), NoMemory>
    requires { TellsOpened round going_on.now }
    ensures { OnOk result (Adds out.old out.new (flat_map json_tokens (entrant_list
        round.entry.meet.now.accepted round.entry.settings round.entry.table.now
        (marks_of round.entry) number))) }
{
    match round.table.row(number) {
        Some(row) => write_row(out, round, going_on, number, row),
        None => Ok(()),
    }
}

/// Writes the list of a round's entrants, given their order and who goes on.
fn write_list(
    out: &mut Writer,
    round: ExportedRound<'_>,
    going_on: &AdvancingEntrants,
    numbers: &[u16],
) -> Result<(), NoMemory>
    requires who { TellsOpened round going_on.now }
    requires order { numbers.now ≡ standings round.table.now }
    ensures { OnOk result (Adds out.old out.new (json_tokens (entrants_json
        round.entry.meet.now.accepted round.entry.settings round.entry.table.now
        (marks_of round.entry)))) }
{
    out.begin_array()?;
    for number in numbers {
        write_entrant(out, round, going_on, *number)?;
    }
    out.end_array()
}

/// Writes the list of a round's entrants, by place, and at one place in the order of entry.
pub(crate) fn write_entrants(out: &mut Writer, round: ExportedRound<'_>) -> Result<(), NoMemory>
    requires { IsOpened round }
    ensures { OnOk result (Adds out.old out.new (json_tokens (entrants_json
        round.entry.meet.now.accepted round.entry.settings round.entry.table.now
        (marks_of round.entry)))) }
{
    let numbers = round.table.standings()?;
    let alloc = *numbers.allocator();
    let going_on = AdvancingEntrants::from_round(alloc, round.meet, round.event, round.number)?;
    write_list(out, round, &going_on, &numbers)
}
