//! A competition's file written with the results of a meet.

ghost use Rattle.std.specs.Prelude.{◌≡◌, ◌∷◌, [], map, OnOk, codes, bytes_eq, if◌then◌else◌};
ghost use Rattle.json.specs.{Token.key, Tree.json_tokens, Tree.HasNumbers, Value.value_view};
ghost use Rattle.wcif_results.specs.Filled.{each, filled_round, filled_event, filled_file, having};
ghost use Rattle.wcif_results.specs.{Filled.value_with, Results.results_json, Written.Adds};
ghost use Rattle.wcif_results.specs.model.Opened.{round_view};

use crate::meet_rounds::{MeetRound, round_named};
use crate::reading::id_of;
use crate::results::write_results;
use attempts::NoMemory;
use json::{Value, Writer};
use rounds::RoundTable;

/// Whether a member is a round's results.
fn is_results(name: &str) -> bool
    ensures { result ≡ bytes_eq name.now (codes "results") }
{
    name.as_bytes() == b"results".as_slice()
}

/// Writes a member of a round: its results are those of a table.
fn write_round_member(
    out: &mut Writer,
    table: &RoundTable,
    name: &str,
    value: &Value<'_>,
) -> Result<(), NoMemory>
    requires { HasNumbers (value_view value.now) }
    ensures { OnOk result (Adds out.old out.new (key name.now ∷ json_tokens (if bytes_eq name.now
        (codes "results") then results_json table.now else value_view value.now))) }
{
    out.key(name)?;
    if is_results(name) {
        write_results(out, table)
    } else {
        out.value(value)
    }
}

/// Writes the results of a round where it had none.
fn write_missing(out: &mut Writer, table: &RoundTable, there: bool) -> Result<(), NoMemory>
    ensures { OnOk result (Adds out.old out.new
        (if there then [] else key (codes "results") ∷ json_tokens (results_json table.now))) }
{
    if there {
        return Ok(());
    }
    out.key("results")?;
    write_results(out, table)
}

/// Writes a round with the results of a table.
fn write_with_results(
    out: &mut Writer,
    table: &RoundTable,
    round: &Value<'_>,
) -> Result<(), NoMemory>
    requires { HasNumbers (value_view round.now) }
    ensures { OnOk result (Adds out.old out.new
        (json_tokens (having (codes "results") (results_json table.now) (value_view round.now)))) }
{
    let Value::Object(members) = round else {
        return out.value(round);
    };
    let mut there = false;
    out.begin_object()?;
    for member in members {
        write_round_member(out, table, member.0, &member.1)?;
        there = there || is_results(member.0);
    }
    write_missing(out, table, there)?;
    out.end_object()
}

/// Writes a round, with its results where it is one of these rounds.
#[tactic(auto, unfolding(crate::specs::Filled::filled_round))]
fn write_round(
    out: &mut Writer,
    rounds: &[MeetRound<'_>],
    round: &Value<'_>,
) -> Result<(), NoMemory>
    requires { HasNumbers (value_view round.now) }
    ensures { OnOk result (Adds out.old out.new
        (json_tokens (filled_round (map round_view rounds.now) (value_view round.now)))) }
{
    match round_named(rounds, id_of(round).as_bytes()) {
        Some(found) => write_with_results(out, found.table, round),
        None => out.value(round),
    }
}

/// Writes the rounds of an event.
fn write_rounds(
    out: &mut Writer,
    rounds: &[MeetRound<'_>],
    list: &Value<'_>,
) -> Result<(), NoMemory>
    requires { HasNumbers (value_view list.now) }
    ensures { OnOk result (Adds out.old out.new
        (json_tokens (each (filled_round (map round_view rounds.now)) (value_view list.now)))) }
{
    let Value::Array(items) = list else {
        return out.value(list);
    };
    out.begin_array()?;
    for item in items {
        write_round(out, rounds, item)?;
    }
    out.end_array()
}

/// Writes a member of an event: its rounds with their results.
fn write_event_member(
    out: &mut Writer,
    rounds: &[MeetRound<'_>],
    name: &str,
    value: &Value<'_>,
) -> Result<(), NoMemory>
    requires { HasNumbers (value_view value.now) }
    ensures { OnOk result (Adds out.old out.new (key name.now ∷ json_tokens
        (value_with (codes "rounds") (each (filled_round (map round_view rounds.now)))
        name.now (value_view value.now)))) }
{
    out.key(name)?;
    if name.as_bytes() == b"rounds".as_slice() {
        write_rounds(out, rounds, value)
    } else {
        out.value(value)
    }
}

/// Writes an event, with the results of its rounds.
#[tactic(auto, unfolding(crate::specs::Filled::filled_event))]
fn write_event(
    out: &mut Writer,
    rounds: &[MeetRound<'_>],
    event: &Value<'_>,
) -> Result<(), NoMemory>
    requires { HasNumbers (value_view event.now) }
    ensures { OnOk result (Adds out.old out.new
        (json_tokens (filled_event (map round_view rounds.now) (value_view event.now)))) }
{
    let Value::Object(members) = event else {
        return out.value(event);
    };
    out.begin_object()?;
    for member in members {
        write_event_member(out, rounds, member.0, &member.1)?;
    }
    out.end_object()
}

/// Writes the events of a file.
fn write_events(
    out: &mut Writer,
    rounds: &[MeetRound<'_>],
    list: &Value<'_>,
) -> Result<(), NoMemory>
    requires { HasNumbers (value_view list.now) }
    ensures { OnOk result (Adds out.old out.new
        (json_tokens (each (filled_event (map round_view rounds.now)) (value_view list.now)))) }
{
    let Value::Array(items) = list else {
        return out.value(list);
    };
    out.begin_array()?;
    for item in items {
        write_event(out, rounds, item)?;
    }
    out.end_array()
}

/// Writes a member of a file: its events with their results.
fn write_file_member(
    out: &mut Writer,
    rounds: &[MeetRound<'_>],
    name: &str,
    value: &Value<'_>,
) -> Result<(), NoMemory>
    requires { HasNumbers (value_view value.now) }
    ensures { OnOk result (Adds out.old out.new (key name.now ∷ json_tokens
        (value_with (codes "events") (each (filled_event (map round_view rounds.now)))
        name.now (value_view value.now)))) }
{
    out.key(name)?;
    if name.as_bytes() == b"events".as_slice() {
        write_events(out, rounds, value)
    } else {
        out.value(value)
    }
}

/// Writes a file, with the results of these rounds.
#[tactic(auto, unfolding(crate::specs::Filled::filled_file))]
pub(crate) fn write_file(
    out: &mut Writer,
    rounds: &[MeetRound<'_>],
    file: &Value<'_>,
) -> Result<(), NoMemory>
    requires { HasNumbers (value_view file.now) }
    ensures { OnOk result (Adds out.old out.new
        (json_tokens (filled_file (map round_view rounds.now) (value_view file.now)))) }
{
    let Value::Object(members) = file else {
        return out.value(file);
    };
    out.begin_object()?;
    for member in members {
        write_file_member(out, rounds, member.0, &member.1)?;
    }
    out.end_object()
}
