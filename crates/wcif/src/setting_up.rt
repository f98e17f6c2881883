//! The commands that set a competition up.

ghost use Rattle.std.specs.Prelude.{◌≡◌, ◌++◌, ◌≤◌, List, map, flat_map, IfOk, OnOk, option_map};
ghost use Rattle.std.specs.Prelude.{option_to_list};
ghost use Rattle.serde_json.specs.{Data.Data, View.view};
ghost use Rattle.formats.specs.Events.{event_of_name};
ghost use Rattle.wcif.specs.Persons.{text_of, last_number};
ghost use Rattle.wcif.specs.Commands.{numbered, registered, entering, entered, opened, beginning};
ghost use Rattle.wcif.specs.Commands.{entering_all, registering, opening, commands_of, numbers};
ghost use Rattle.wcif.specs.{declared.options.SameNames.SameNames as Named, model.Kept.AreKept};

use crate::events::{event_named, rounds_of};
use crate::options::{CumulativeLimits, Edition, Options, SameNames};
use crate::people::{LAST_NUMBER, People};
use crate::persons::{event_ids, text_of};
use crate::settings::settings_in;
use attempts::NoMemory;
use formats::Event;
use serde_json::Value;
use std::alloc::Global;
use texts::{Command, Name, RoundId};

/// The command that sets an edition.
fn beginning(edition: Edition) -> Command
    ensures { result ≡ beginning edition }
{
    match edition {
        Edition::Three => Command::SetEdition { edition: 3 },
        Edition::Four => Command::SetEdition { edition: 4 },
    }
}

/// The event of an id in a registration.
fn event_of(id: &Value) -> Option<Event>
    ensures { result ≡ event_of_name (text_of (view id.now)) }
{
    Event::from_name(text_of(id).as_bytes())
}

/// Adds the entries of a number.
fn push_entries(commands: &mut Vec<Command>, number: u16, ids: &[Value]) -> Result<(), NoMemory>
    ensures { OnOk result (commands.new.items
        ≡ commands.old.items ++ flat_map (entering number) (map view ids.now)) }
{
    for id in ids {
        if let Some(event) = event_of(id) {
            commands.push(Command::Enter { event, number })?;
        }
    }
    Ok(())
}

/// Adds the entries of the person with a number.
fn push_person_entries(
    commands: &mut Vec<Command>,
    number: u16,
    person: &Value,
) -> Result<(), NoMemory>
    ensures { OnOk result (commands.new.items
        ≡ commands.old.items ++ entering_all number (view person.now)) }
{
    match event_ids(person) {
        Some(ids) => push_entries(commands, number, ids),
        None => Ok(()),
    }
}

/// Adds the entries of the accepted person with a number.
#[tactic(auto, unfolding(crate::specs::Commands::entered))]
fn push_entered(
    commands: &mut Vec<Command>,
    people: &People<'_>,
    number: u16,
) -> Result<(), NoMemory>
    ensures { OnOk result ((how : Named) (persons : List Data)
        → AreKept how persons persons people.now → 1 ≤ number → number ≤ last_number
        → commands.new.items ≡ commands.old.items ++ entered persons number) }
{
    match people.numbers.get(number) {
        Some(person) => push_person_entries(commands, number, person),
        None => Ok(()),
    }
}

/// Adds the entries of all accepted persons, in the order of their numbers.
fn push_all_entries(commands: &mut Vec<Command>, people: &People<'_>) -> Result<(), NoMemory>
    ensures { OnOk result ((how : Named) (persons : List Data)
        → AreKept how persons persons people.now
        → commands.new.items ≡ commands.old.items ++ flat_map (entered persons) numbers) }
{
    for index in 0..LAST_NUMBER {
        push_entered(commands, people, index + 1)?;
    }
    Ok(())
}

/// Adds the registration of the accepted person with a number.
#[tactic(auto, unfolding(crate::specs::Commands::registered))]
fn push_registered(
    alloc: Global,
    how: SameNames,
    commands: &mut Vec<Command>,
    people: &People<'_>,
    number: u16,
) -> Result<(), NoMemory>
    ensures { OnOk result ((persons : List Data)
        → AreKept how persons persons people.now → 1 ≤ number → number ≤ last_number
        → commands.new.items ≡ commands.old.items ++ registered how persons number) }
{
    let Some(person) = people.numbers.get(number) else {
        return Ok(());
    };
    let name = people.counts.name_as(alloc, how, person)?;
    commands.push(Command::Register {
        number,
        name: Name::new(name.into_bytes()),
    })?;
    Ok(())
}

/// Adds the registrations of all accepted persons, in the order of their numbers.
fn push_registrations(
    alloc: Global,
    how: SameNames,
    commands: &mut Vec<Command>,
    people: &People<'_>,
) -> Result<(), NoMemory>
    ensures { OnOk result ((persons : List Data) → AreKept how persons persons people.now
        → commands.new.items ≡ commands.old.items ++ flat_map (registered how persons) numbers) }
{
    for index in 0..LAST_NUMBER {
        push_registered(alloc, how, commands, people, index + 1)?;
    }
    Ok(())
}

/// The command that opens the first round of an event.
#[tactic(auto, unfolding(crate::specs::Commands::opened))]
fn opening(how: CumulativeLimits, event: &Value) -> Option<Command>
    ensures { option_to_list result ≡ opened how (view event.now) }
{
    let named = event_named(event)?;
    let settings = settings_in(how, named, rounds_of(event).first()?)?;
    let id = RoundId {
        event: named,
        round: 1,
    };
    Some(Command::Open { id, settings })
}

/// Adds the openings of the first rounds of all events.
fn push_openings(
    how: CumulativeLimits,
    commands: &mut Vec<Command>,
    events: &[Value],
) -> Result<(), NoMemory>
    ensures { OnOk result (commands.new.items
        ≡ commands.old.items ++ flat_map (opened how) (map view events.now)) }
{
    for event in events {
        if let Some(command) = opening(how, event) {
            commands.push(command)?;
        }
    }
    Ok(())
}

/// The commands of a competition of which a desk can hold all.
#[tactic(auto, unfolding(crate::specs::Commands::commands_of))]
pub(crate) fn commands_of(
    alloc: Global,
    options: Options,
    people: &People<'_>,
    events: &[Value],
) -> Result<Vec<Command>, NoMemory>
    ensures { IfOk result (λ commands. (persons : List Data)
        → AreKept options.names persons persons people.now
        → commands.items ≡ commands_of options persons (map view events.now)) }
{
    let mut commands = Vec::new(alloc);
    commands.push(beginning(options.edition))?;
    push_registrations(alloc, options.names, &mut commands, people)?;
    push_openings(options.limits, &mut commands, events)?;
    push_all_entries(&mut commands, people)?;
    Ok(commands)
}
