//! The results of a round as JSON.

ghost use Rattle.std.specs.Prelude.{◌≡◌, decimal, flat_map, OnOk};
ghost use Rattle.json.specs.{Json.number as number_json, Tree.json_tokens};
ghost use Rattle.formats.specs.Results.{best_of};
ghost use Rattle.rounds.specs.{Rows.IsRow, Tables.Entrant, Tables.Table};
ghost use Rattle.wcif_results.specs.Encoding.{attempt_result, best_result, average_result};
ghost use Rattle.wcif_results.specs.Results.{attempt_json, attempts_json, ranking_json};
ghost use Rattle.wcif_results.specs.Results.{result_json, integer, result_of, results_json};
ghost use Rattle.wcif_results.specs.Written.{Adds};

use crate::encoding::{attempt_result, average_result, best_result};
use attempts::{NoMemory, Value};
use formats::Averaged;
use json::Writer;
use rounds::{EntrantRow, RoundTable};

/// Writes a number.
pub(crate) fn write_number(out: &mut Writer, number: u16) -> Result<(), NoMemory>
    ensures { OnOk result (Adds out.old out.new (json_tokens (number_json (decimal number)))) }
{
    out.u64(u64::from(number))
}

/// Writes what an attempt counts as.
pub(crate) fn write_value(out: &mut Writer, value: Value) -> Result<(), NoMemory>
    ensures { OnOk result (Adds out.old out.new (json_tokens (integer (attempt_result value)))) }
{
    out.i64(attempt_result(value))
}

/// Writes the best of the attempts.
fn write_best(out: &mut Writer, values: &[Value], best: Value) -> Result<(), NoMemory>
    requires { best ≡ best_of values.now }
    ensures { OnOk result (Adds out.old out.new (json_tokens (integer (best_result values.now)))) }
{
    out.i64(best_result(values, best))
}

/// Writes the average.
fn write_average(out: &mut Writer, average: Averaged) -> Result<(), NoMemory>
    ensures { OnOk result (Adds out.old out.new (json_tokens (integer (average_result average)))) }
{
    out.i64(average_result(average))
}

/// Writes an attempt.
fn write_attempt(out: &mut Writer, value: Value) -> Result<(), NoMemory>
    ensures { OnOk result (Adds out.old out.new (json_tokens (attempt_json value))) }
{
    out.begin_object()?;
    out.key("result")?;
    write_value(out, value)?;
    out.key("reconstruction")?;
    out.null()?;
    out.end_object()
}

/// Writes the attempts that are done.
fn write_attempts(out: &mut Writer, values: &[Value]) -> Result<(), NoMemory>
    ensures { OnOk result (Adds out.old out.new (json_tokens (attempts_json values.now))) }
{
    out.begin_array()?;
    for value in values {
        write_attempt(out, *value)?;
    }
    out.end_array()
}

/// Writes the place, or null where there is no attempt.
pub(crate) fn write_ranking(out: &mut Writer, values: &[Value], place: u16) -> Result<(), NoMemory>
    ensures { OnOk result (Adds out.old out.new (json_tokens (ranking_json values.now place))) }
{
    if values.is_empty() {
        out.null()
    } else {
        write_number(out, place)
    }
}

/// Writes the result of an entrant, given its row.
fn write_result(out: &mut Writer, number: u16, row: EntrantRow<'_>) -> Result<(), NoMemory>
    requires { row.best ≡ best_of row.values.now }
    ensures { OnOk result ((t : Table) (e : Entrant) → IsRow t number e row.entry
        → Adds out.old out.new (json_tokens (result_json t e))) }
{
    out.begin_object()?;
    out.key("personId")?;
    write_number(out, number)?;
    out.key("ranking")?;
    write_ranking(out, row.values, row.place)?;
    out.key("attempts")?;
    write_attempts(out, row.values)?;
    out.key("best")?;
    write_best(out, row.values, row.best)?;
    out.key("average")?;
    write_average(out, row.average)?;
    out.end_object()
}

/// Writes the result of the entrant with a number.
fn write_entrant(out: &mut Writer, table: &RoundTable, number: u16) -> Result<(), NoMemory>
    ensures { OnOk result
        (Adds out.old out.new (flat_map json_tokens (result_of table.now number))) }
{
    match table.row(number) {
        Some(row) => write_result(out, number, row),
        None => Ok(()),
    }
}

/// Writes the `results` of a round: one for each entrant, by place, and at one place in the order
/// of entry. An entrant without an attempt has a null ranking, no attempts, and 0 for best and
/// average.
///
/// # Errors
///
/// `NoMemory` where memory ran out: some of it may be written.
pub fn write_results(out: &mut Writer, table: &RoundTable) -> Result<(), NoMemory>
    ensures { OnOk result (Adds out.old out.new (json_tokens (results_json table.now))) }
{
    let numbers = table.standings()?;
    out.begin_array()?;
    for number in &numbers {
        write_entrant(out, table, *number)?;
    }
    out.end_array()
}
