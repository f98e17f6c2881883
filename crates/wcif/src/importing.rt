//! A competition as commands, or all that a desk cannot hold of it.

ghost use Rattle.std.specs.Prelude.{◌≡◌, ◌∷◌, [], Some, map, flat_map, option_to_list, IfOk, IfErr};
ghost use Rattle.serde_json.specs.View.{view};
ghost use Rattle.wcif.specs.{Commands.commands, Commands.commands_of, Faults.faults_in};
ghost use Rattle.wcif.specs.{Faults.faults, Imports.Refuses, Later.later_of, Later.later_rounds};
ghost use Rattle.wcif.specs.declared.importing.ImportFault.TheVariants.{NoMemory as OutOfMemory};

use crate::checking::push_persons;
use crate::entries::MOST_EVENTS;
use crate::events::push_events;
use crate::fault::CompetitionFault;
use crate::later::{RoundImport, later_rounds};
use crate::members::list_at;
use crate::options::Options;
use crate::setting_up::commands_of;
use attempts::NoMemory;
use serde_json::Value;
use std::alloc::{AllocError, Global};
use texts::Command;

/// A competition as a desk holds it.
#[derive(Drop)]
pub struct ImportedCompetition {
    /// The commands that set it up.
    pub commands: Vec<Command>,
    /// What is to be known of rounds that they do not open.
    pub later: Vec<RoundImport>,
}

/// Why a competition is not imported.
#[derive(Drop)]
pub enum ImportFault {
    /// A desk cannot hold this of it: one fault at least.
    Refused(Vec<CompetitionFault>),
    /// Memory ran out.
    NoMemory,
}

impl From<AllocError> for ImportFault {
    ghost from_gives = { λ _ fault. fault ≡ OutOfMemory };

    fn from(_: AllocError) -> ImportFault {
        ImportFault::NoMemory
    }
}

/// A fault, and another one where there is one.
fn fault_list(
    alloc: Global,
    first: CompetitionFault,
    second: Option<CompetitionFault>,
) -> Result<Vec<CompetitionFault>, NoMemory>
    ensures { IfOk result (λ faults. faults.items ≡ first ∷ option_to_list second) }
{
    let mut faults = Vec::new(alloc);
    faults.push(first)?;
    let Some(second) = second else {
        return Ok(faults);
    };
    faults.push(second)?;
    Ok(faults)
}

/// These faults, as the reason of a refusal.
fn refused(alloc: Global, first: CompetitionFault, second: Option<CompetitionFault>) -> ImportFault
    ensures { Refuses (first ∷ option_to_list second) result }
{
    match fault_list(alloc, first, second) {
        Ok(faults) => ImportFault::Refused(faults),
        Err(_) => ImportFault::NoMemory,
    }
}

/// The commands that set up a competition with these persons and events.
fn import_commands(
    alloc: Global,
    options: Options,
    persons: &[Value],
    events: &[Value],
) -> Result<Vec<Command>, ImportFault>
    ensures ok { IfOk result (λ made.
        (faults_in options (Some (map view persons.now)) (Some (map view events.now)) ≡ [])
        × (made.items ≡ commands_of options (map view persons.now) (map view events.now))) }
    ensures err { IfErr result
        (Refuses (faults_in options (Some (map view persons.now)) (Some (map view events.now)))) }
{
    if events.len() > MOST_EVENTS {
        return Err(refused(alloc, CompetitionFault::TooManyEvents, None));
    }
    let mut faults = Vec::new(alloc);
    let people = push_persons(alloc, options.names, &mut faults, persons, events)?;
    push_events(alloc, options.limits, &mut faults, persons, events)?;
    if faults.as_slice().is_empty() {
        Ok(commands_of(alloc, options, &people, events)?)
    } else {
        Err(ImportFault::Refused(faults))
    }
}

/// Imports a competition with these persons and events.
fn import_lists(
    alloc: Global,
    options: Options,
    persons: &[Value],
    events: &[Value],
) -> Result<ImportedCompetition, ImportFault>
    ensures ok { IfOk result (λ made.
        (faults_in options (Some (map view persons.now)) (Some (map view events.now)) ≡ [])
        × (made.commands.items
        ≡ commands_of options (map view persons.now) (map view events.now))) }
    ensures later { IfOk result (λ made. made.later.items
        ≡ flat_map (later_of options.limits) (map view events.now)) }
    ensures err { IfErr result
        (Refuses (faults_in options (Some (map view persons.now)) (Some (map view events.now)))) }
{
    let commands = import_commands(alloc, options, persons, events)?;
    let later = later_rounds(alloc, options.limits, events)?;
    Ok(ImportedCompetition { commands, later })
}

/// The commands that set up the competition of a file in the WCA Competition Interchange Format,
/// given as its JSON value.
///
/// They are: `EDITION` with the edition of the options; a `REG` for each accepted person, in the
/// order of the numbers; an `OPEN` of the first round of each event, in the order of the file; and
/// an `ENT` for each event of each registration, in the order of the numbers and then of the
/// registration. Of later rounds it is said how the file has them, and of rounds from which nobody
/// advances that the file has a next one, where it has one.
///
/// # Errors
///
/// - `Refused` where a desk cannot hold all of the competition: every fault, those of the persons
///   first and then those of the events, each in the order of the file.
/// - `NoMemory` where memory ran out.
#[tactic(auto, unfolding(crate::specs::Faults::faults, crate::specs::Commands::commands, crate::specs::Later::later_rounds))]
pub fn import(
    alloc: Global,
    value: &Value,
    options: Options,
) -> Result<ImportedCompetition, ImportFault>
    ensures ok { IfOk result (λ made. (faults options (view value.now) ≡ [])
        × (made.commands.items ≡ commands options (view value.now))) }
    ensures later { IfOk result (λ made. made.later.items ≡ later_rounds options (view value.now)) }
    ensures err { IfErr result (Refuses (faults options (view value.now))) }
{
    match (list_at(value, "persons"), list_at(value, "events")) {
        (Some(persons), Some(events)) => import_lists(alloc, options, persons, events),
        (Some(_), None) => Err(refused(alloc, CompetitionFault::NoEvents, None)),
        (None, Some(_)) => Err(refused(alloc, CompetitionFault::NoPersons, None)),
        (None, None) => Err(refused(
            alloc,
            CompetitionFault::NoPersons,
            Some(CompetitionFault::NoEvents),
        )),
    }
}
