//! Who is absent from a final.

ghost use Rattle.std.specs.Prelude.{◌≡◌, ◌++◌, OnOk, flat_map};
ghost use Rattle.std.specs.List.{list_any};
ghost use Rattle.rounds.specs.Tables.{is_started_attempt};
ghost use Rattle.board_rounds.specs.Absent.{absent, absent_in, absent_line, is_absent};

use crate::shown::name_text;
use attempts::{NoMemory, Value};
use commands::Meet;
use markup::Piece::Text;
use markup::fill;
use rounds::RoundTable;

const ABSENT: &[u8] = b"<p class=\"absent\"><bdi>$</bdi> is absent</p>\n";

/// Whether one of these attempts is not DNS.
fn has_started(values: &[Value]) -> bool
    ensures { result ≡ list_any is_started_attempt values.now }
{
    values.iter().any(|value| match value {
        Value::Number(_) | Value::Dnf => true,
        Value::Dns => false,
    })
}

/// Whether some attempts are entered, and each of them is DNS.
fn is_absent(values: &[Value]) -> bool
    ensures { result ≡ is_absent values.now }
{
    if values.is_empty() {
        return false;
    }
    !has_started(values)
}

/// Adds that the competitor of this name is absent.
#[tactic(auto, unfolding(crate::specs::Absent::absent_line))]
fn push_absent_line(out: &mut Vec<u8>, name: &[u8]) -> Result<(), NoMemory>
    ensures { OnOk result (out.new.items ≡ out.old.items ++ absent_line name.now) }
{
    fill(out, ABSENT, &[Text(name)])
}

/// Adds that the entrant with a number is absent, where it is so.
fn push_absent_in(
    out: &mut Vec<u8>,
    meet: &Meet,
    table: &RoundTable,
    number: u16,
) -> Result<(), NoMemory>
    ensures { OnOk result (out.new.items
        ≡ out.old.items ++ absent_in meet.now.accepted table.now number) }
{
    match table.row(number) {
        Some(row) if is_absent(row.values) => push_absent_line(out, name_text(meet, number)),
        Some(_) | None => Ok(()),
    }
}

/// Adds who of these entrants is absent.
fn push_absent_of(
    out: &mut Vec<u8>,
    meet: &Meet,
    table: &RoundTable,
    numbers: &[u16],
) -> Result<(), NoMemory>
    ensures { OnOk result (out.new.items ≡ out.old.items
        ++ flat_map (absent_in meet.now.accepted table.now) numbers.now) }
{
    for number in numbers {
        push_absent_in(out, meet, table, *number)?;
    }
    Ok(())
}

/// Adds who is absent from a round, a line each, in order of standings.
pub(crate) fn push_absent(
    out: &mut Vec<u8>,
    meet: &Meet,
    table: &RoundTable,
) -> Result<(), NoMemory>
    ensures { OnOk result (out.new.items
        ≡ out.old.items ++ absent meet.now.accepted table.now) }
{
    let numbers = table.standings()?;
    push_absent_of(out, meet, table, &numbers)
}
