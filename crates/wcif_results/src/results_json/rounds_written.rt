//! What is written of a round.

ghost use Rattle.std.specs.Prelude.{◌≡◌, flat_map, option_map, IfSome, OnOk};
ghost use Rattle.json.specs.Tree.{json_tokens, members_tokens};
ghost use Rattle.commands.specs.Accepted.{round_of};
ghost use Rattle.wcif_results.specs.model.Marks.{IsOpened, marks_of};
ghost use Rattle.wcif_results.specs.results_json.Rounds.{later_members, round_json, round_list};
ghost use Rattle.wcif_results.specs.{results_json.Rounds.unit_name, Written.Adds};

use crate::results_json::entrants::write_entrants;
use crate::results_json::values::{write_advance, write_byte, write_cutoff, write_limit};
use attempts::{NoMemory, Unit};
use commands::{Meet, Settings};
use formats::Event;
use json::Writer;
use rounds::RoundTable;

/// A round that was opened, and the meet that it belongs to.
#[derive(Clone, Copy)]
pub(crate) struct ExportedRound<'m> {
    pub(crate) meet: &'m Meet,
    pub(crate) event: Event,
    pub(crate) number: u8,
    pub(crate) settings: Settings,
    pub(crate) table: &'m RoundTable,
}

/// The round of an event with a number, where it was opened.
fn opened_round(meet: &Meet, event: Event, number: u8) -> Option<ExportedRound<'_>>
    ensures meet { IfSome result (λ round. round.meet.now ≡ meet.now) }
    ensures event { IfSome result (λ round. round.event ≡ event) }
    ensures number { IfSome result (λ round. round.number ≡ number) }
    ensures round { option_map (λ round. (round.settings, round.table.now)) result
        ≡ round_of meet.now.accepted event number }
    ensures opened { IfSome result IsOpened }
{
    let (Some(table), Some(settings)) = (meet.round(event, number), meet.settings(event, number))
    else {
        return None;
    };
    Some(ExportedRound {
        meet,
        event,
        number,
        settings,
        table,
    })
}

/// What the numbers of a round count, by its name.
fn unit_name(unit: Unit) -> &'static str
    ensures { result.now ≡ unit_name unit }
{
    match unit {
        Unit::Time => "hundredths",
        Unit::Moves => "moves",
        Unit::Multi => "multi-blind",
    }
}

/// Writes the members of a round after its event and its number, and the end of its object.
fn write_members(out: &mut Writer, round: ExportedRound<'_>) -> Result<(), NoMemory>
    requires { IsOpened round }
    ensures { OnOk result (Adds out.old out.new (members_tokens (later_members
        round.entry.meet.now.accepted (marks_of round.entry)
        (round.entry.settings, round.entry.table.now)))) }
{
    out.key("format")?;
    out.string(round.settings.format.name())?;
    out.key("unit")?;
    out.string(unit_name(round.table.unit()))?;
    out.key("closed")?;
    out.boolean(round.table.is_closed())?;
    out.key("cutoff")?;
    write_cutoff(out, round.settings.cutoff)?;
    out.key("limit")?;
    write_limit(out, round.settings.limit)?;
    out.key("advance")?;
    write_advance(out, round.settings.advance)?;
    out.key("results")?;
    write_entrants(out, round)?;
    out.end_object()
}

/// Writes a round.
fn write_round(out: &mut Writer, round: ExportedRound<'_>) -> Result<(), NoMemory>
    requires { IsOpened round }
    ensures { OnOk result (Adds out.old out.new (json_tokens (round_json
        round.entry.meet.now.accepted round.entry.event round.entry.number
        (round.entry.settings, round.entry.table.now)))) }
{
    out.begin_object()?;
    out.key("event")?;
    out.string(round.event.name())?;
    out.key("round")?;
    write_byte(out, round.number)?;
    write_members(out, round)
}

/// Writes the round of an event with a number, where it was opened.
pub(crate) fn write_opened(
    out: &mut Writer,
    meet: &Meet,
    event: Event,
    number: u8,
) -> Result<(), NoMemory>
    ensures { OnOk result (Adds out.old out.new
        (flat_map json_tokens (round_list meet.now.accepted event number))) }
{
    match opened_round(meet, event, number) {
        Some(round) => write_round(out, round),
        None => Ok(()),
    }
}
