//! The events of a competition.

ghost use Rattle.std.specs.Prelude.{◌≡◌, ◌++◌, ◌+◌, ◌≤◌, map, length, OnOk, count_by};
ghost use Rattle.serde_json.specs.View.{view};
ghost use Rattle.wcif.specs.Events.{event_named, rounds_of, enters, repeated_faults};
ghost use Rattle.wcif.specs.Events.{entrants_faults, each_round, rounds_faults, event_faults};
ghost use Rattle.wcif.specs.declared.fault.CompetitionFault.TheVariants.{Round as RoundOf};
ghost use Rattle.wcif.specs.Told.{told};

use crate::entries::{has_id, holds_id};
use crate::fault::{CompetitionFault, EventFault, RoundFault};
use crate::members::list_at;
use crate::options::CumulativeLimits;
use crate::persons::{event_ids, is_accepted, text_under};
use crate::settings::round_faults;
use attempts::NoMemory;
use formats::{Event, LAST_ROUND, MOST_ENTRANTS};
use serde_json::Value;
use std::alloc::Global;

/// The event of a desk with the id.
#[tactic(auto, unfolding(crate::specs::Events::event_named))]
pub(crate) fn event_named(event: &Value) -> Option<Event>
    ensures { result ≡ event_named (view event.now) }
{
    Event::from_name(text_under(event, "id").as_bytes())
}

/// The rounds; none where there is no list of them.
#[tactic(auto, unfolding(crate::specs::Events::rounds_of))]
pub(crate) fn rounds_of(event: &Value) -> &[Value]
    ensures { map view result.now ≡ rounds_of (view event.now) }
{
    match list_at(event, "rounds") {
        Some(rounds) => rounds,
        None => &[],
    }
}

/// Whether an accepted person is registered for the event.
#[tactic(auto, unfolding(crate::specs::Events::enters))]
pub fn enters(event: Event, person: &Value) -> bool
    ensures { result ≡ enters event (view person.now) }
{
    match event_ids(person) {
        Some(ids) => is_accepted(person) && holds_id(ids, event.name()),
        None => false,
    }
}

/// How many accepted persons are registered for the event.
fn entrants(event: Event, persons: &[Value]) -> usize
    ensures value { result ≡ count_by (enters event) (map view persons.now) }
    ensures few { result ≤ length persons.now }
{
    let mut count: usize = 0;
    for person in persons {
        if enters(event, person) {
            count += 1;
        }
    }
    count
}

/// Adds what a desk cannot hold of a round.
fn push_round(
    faults: &mut Vec<CompetitionFault>,
    event: Event,
    round: u8,
    found: &[RoundFault],
) -> Result<(), NoMemory>
    ensures { OnOk result (faults.new.items ≡ faults.old.items ++ map (RoundOf event round)
        found.now) }
{
    for fault in found {
        faults.push(CompetitionFault::Round {
            event,
            round,
            fault: *fault,
        })?;
    }
    Ok(())
}

/// Adds what a desk cannot hold of the rounds of an event, of which there are four at most.
fn push_each_round(
    alloc: Global,
    how: CumulativeLimits,
    faults: &mut Vec<CompetitionFault>,
    event: Event,
    rounds: &[Value],
) -> Result<(), NoMemory>
    requires { length rounds.now ≤ 4 }
    ensures { OnOk result
        (faults.new.items ≡ faults.old.items ++ told (each_round how event) (map view rounds.now)) }
{
    for index in 0..rounds.len() {
        let number = index as u8 + 1;
        let found = round_faults(alloc, how, event, number, &rounds[index])?;
        push_round(faults, event, number, &found)?;
    }
    Ok(())
}

/// Adds what a desk cannot hold of the rounds of the event at a place.
fn push_rounds(
    alloc: Global,
    how: CumulativeLimits,
    faults: &mut Vec<CompetitionFault>,
    event: Event,
    place: usize,
    rounds: &[Value],
) -> Result<(), NoMemory>
    ensures { OnOk result (faults.new.items
        ≡ faults.old.items ++ rounds_faults how event place (map view rounds.now)) }
{
    if rounds.is_empty() {
        faults.push(CompetitionFault::Event {
            place,
            fault: EventFault::NoRounds,
        })?;
        return Ok(());
    }
    if rounds.len() > LAST_ROUND as usize {
        faults.push(CompetitionFault::Event {
            place,
            fault: EventFault::TooManyRounds,
        })?;
        return Ok(());
    }
    push_each_round(alloc, how, faults, event, rounds)
}

/// Adds that an event is in front too.
fn push_repeated(
    faults: &mut Vec<CompetitionFault>,
    event: Event,
    earlier: &[Value],
) -> Result<(), NoMemory>
    ensures { OnOk result
        (faults.new.items ≡ faults.old.items ++ repeated_faults event (map view earlier.now)) }
{
    if has_id(earlier, event.name()) {
        faults.push(CompetitionFault::Event {
            place: earlier.len() + 1,
            fault: EventFault::Repeated,
        })?;
    }
    Ok(())
}

/// Adds that an event has too many entrants.
fn push_entrants(
    faults: &mut Vec<CompetitionFault>,
    event: Event,
    place: usize,
    persons: &[Value],
) -> Result<(), NoMemory>
    ensures { OnOk result (faults.new.items ≡ faults.old.items ++ entrants_faults event place
        (map view persons.now)) }
{
    if entrants(event, persons) > MOST_ENTRANTS as usize {
        faults.push(CompetitionFault::Event {
            place,
            fault: EventFault::TooManyEntrants,
        })?;
    }
    Ok(())
}

/// Adds what a desk cannot hold of an event, given those in front.
#[tactic(auto, unfolding(crate::specs::Events::event_faults))]
fn push_event(
    alloc: Global,
    how: CumulativeLimits,
    faults: &mut Vec<CompetitionFault>,
    persons: &[Value],
    earlier: &[Value],
    event: &Value,
) -> Result<(), NoMemory>
    ensures { OnOk result (faults.new.items ≡ faults.old.items
        ++ event_faults how (map view persons.now) (map view earlier.now) (view event.now)) }
{
    let place = earlier.len() + 1;
    let Some(named) = event_named(event) else {
        faults.push(CompetitionFault::Event {
            place,
            fault: EventFault::Unknown,
        })?;
        return Ok(());
    };
    push_repeated(faults, named, earlier)?;
    push_entrants(faults, named, place, persons)?;
    push_rounds(alloc, how, faults, named, place, rounds_of(event))
}

/// Adds what a desk cannot hold of the events.
pub(crate) fn push_events(
    alloc: Global,
    how: CumulativeLimits,
    faults: &mut Vec<CompetitionFault>,
    persons: &[Value],
    events: &[Value],
) -> Result<(), NoMemory>
    ensures { OnOk result (faults.new.items ≡ faults.old.items
        ++ told (event_faults how (map view persons.now)) (map view events.now)) }
{
    for index in 0..events.len() {
        push_event(
            alloc,
            how,
            faults,
            persons,
            &events[..index],
            &events[index],
        )?;
    }
    Ok(())
}
