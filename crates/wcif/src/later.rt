//! What an import says of rounds that it does not open.

ghost use Rattle.std.specs.Prelude.{◌≡◌, ◌++◌, map, flat_map, slice_get, IfOk, OnOk};
ghost use Rattle.std.specs.Option.{option_and_then};
ghost use Rattle.serde_json.specs.View.{view};
ghost use Rattle.wcif.specs.Later.{final_later, is_final, later_at, later_held, later_line};
ghost use Rattle.wcif.specs.Later.{later_lines, later_of, opening_later};
ghost use Rattle.wcif.specs.Rounds.{settings_in};

use crate::events::{event_named, rounds_of};
use crate::options::CumulativeLimits;
use crate::settings::{round_id, settings_in};
use attempts::NoMemory;
use formats::{Advance, Event};
use serde_json::Value;
use std::alloc::Global;
use texts::{Command, RoundId, Settings, print};

/// The numbers of rounds.
const ROUND_NUMBERS: [u8; 4] = [1, 2, 3, 4];

/// What an import says of a round.
#[derive(Clone, Copy)]
pub enum RoundImport {
    /// A later round: how the file has it.
    Opening { id: RoundId, settings: Settings },
    /// The file has a next round, and nobody advances to it.
    Final { id: RoundId },
}

/// Whether nobody advances.
fn is_final(advance: Advance) -> bool
    ensures { result ≡ is_final advance }
{
    matches!(advance, Advance::Final)
}

/// Adds a later round, how the file has it.
fn push_opening(
    later: &mut Vec<RoundImport>,
    id: RoundId,
    settings: Settings,
) -> Result<(), NoMemory>
    ensures { OnOk result (later.new.items ≡ later.old.items ++ opening_later id settings) }
{
    if id.round <= 1 {
        return Ok(());
    }
    later.push(RoundImport::Opening { id, settings })?;
    Ok(())
}

/// Adds that nobody advances from a round, where the file has a next one.
fn push_final(
    later: &mut Vec<RoundImport>,
    count: usize,
    id: RoundId,
    settings: Settings,
) -> Result<(), NoMemory>
    ensures { OnOk result (later.new.items ≡ later.old.items ++ final_later count id settings) }
{
    let ends = is_final(settings.advance);
    let has_next = usize::from(id.round) < count;
    if ends && has_next {
        later.push(RoundImport::Final { id })?;
    }
    Ok(())
}

/// The settings of the round at a place, where there is one and a desk holds all of them.
#[tactic(auto, using(crate::proofs::Listed::viewed_at))]
fn settings_at(
    how: CumulativeLimits,
    event: Event,
    rounds: &[Value],
    place: usize,
) -> Option<Settings>
    ensures { result ≡ option_and_then (settings_in how event)
        (slice_get (map view rounds.now) place) }
{
    match rounds.get(place) {
        Some(round) => settings_in(how, event, round),
        None => None,
    }
}

/// Adds what is said of a round with these settings, of an event with this many rounds.
fn push_held(
    later: &mut Vec<RoundImport>,
    count: usize,
    id: RoundId,
    settings: Option<Settings>,
) -> Result<(), NoMemory>
    ensures { OnOk result (later.new.items ≡ later.old.items ++ later_held count id settings) }
{
    let Some(settings) = settings else {
        return Ok(());
    };
    push_opening(later, id, settings)?;
    push_final(later, count, id, settings)
}

/// Adds what is said of the round of an event with this number.
fn push_at(
    how: CumulativeLimits,
    later: &mut Vec<RoundImport>,
    event: Event,
    rounds: &[Value],
    number: u8,
) -> Result<(), NoMemory>
    ensures { OnOk result (later.new.items
        ≡ later.old.items ++ later_at how event (map view rounds.now) number) }
{
    let settings = settings_at(how, event, rounds, usize::from(number.saturating_sub(1)));
    let id = RoundId {
        event,
        round: number,
    };
    push_held(later, rounds.len(), id, settings)
}

/// Adds what is said of the rounds of an event.
#[tactic(auto, unfolding(crate::specs::Later::later_of))]
fn push_event(
    how: CumulativeLimits,
    later: &mut Vec<RoundImport>,
    event: &Value,
) -> Result<(), NoMemory>
    ensures { OnOk result (later.new.items ≡ later.old.items ++ later_of how (view event.now)) }
{
    let Some(named) = event_named(event) else {
        return Ok(());
    };
    let rounds = rounds_of(event);
    for number in &ROUND_NUMBERS {
        push_at(how, later, named, rounds, *number)?;
    }
    Ok(())
}

/// What is said of the rounds of all events.
pub fn later_rounds(
    alloc: Global,
    how: CumulativeLimits,
    events: &[Value],
) -> Result<Vec<RoundImport>, NoMemory>
    ensures { IfOk result (λ later. later.items ≡ flat_map (later_of how) (map view events.now)) }
{
    let mut later = Vec::new(alloc);
    for event in events {
        push_event(how, &mut later, event)?;
    }
    Ok(later)
}

/// Adds the line of what is said of a round.
fn push_line(alloc: Global, out: &mut Vec<u8>, later: RoundImport) -> Result<(), NoMemory>
    ensures { OnOk result (out.new.items ≡ out.old.items ++ later_line later) }
{
    out.extend_from_slice(b"# ")?;
    match later {
        RoundImport::Opening { id, settings } => {
            let text = print(alloc, &Command::Open { id, settings })?;
            out.extend_from_slice(&text)?;
            out.extend_from_slice(b"\n")
        }
        RoundImport::Final { id } => {
            out.extend_from_slice(&round_id(alloc, id.event, id.round)?)?;
            out.extend_from_slice(b": nobody advances, and the file has a next round\n")
        }
    }
}

/// What is said of rounds as lines, each a comment with a line feed at its end.
pub fn print_later(alloc: Global, later: &[RoundImport]) -> Result<Vec<u8>, NoMemory>
    ensures { IfOk result (λ text. text.items ≡ later_lines later.now) }
{
    let mut out = Vec::new(alloc);
    for one in later {
        push_line(alloc, &mut out, *one)?;
    }
    Ok(out)
}
