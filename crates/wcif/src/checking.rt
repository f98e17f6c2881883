//! What a desk cannot hold of a competition.

ghost use Rattle.std.specs.Prelude.{◌≡◌, ◌++◌, ◌∷◌, [], ◌+◌, List, map, length, IfOk, OnOk};
ghost use Rattle.serde_json.specs.{Data.Data, View.view};
ghost use Rattle.wcif.specs.declared.fault.CompetitionFault.TheVariants.{Person as PersonOf};
ghost use Rattle.wcif.specs.{Faults.front_within, Faults.person_faults, Faults.who, Told.told};
ghost use Rattle.wcif.specs.model.Kept.{AreKept, AddsFaults, KeepsPerson};

use crate::fault::{CompetitionFault, FilePerson, PersonFault};
use crate::options::SameNames;
use crate::people::People;
use crate::persons::{given_name, is_accepted, number_of};
use crate::quoted::Quoted;
use attempts::NoMemory;
use serde_json::Value;
use std::alloc::Global;

/// The most bytes of a name that are told.
const MOST_TOLD: usize = 160;

/// The first bytes of a text, at most this many.
fn front_within(text: &[u8], most: usize) -> &[u8]
    ensures { result.now ≡ front_within most text.now }
{
    if text.len() > most {
        return &text[..most];
    }
    text
}

/// The name and the number of a person.
fn who(alloc: Global, person: &Value) -> Result<FilePerson, NoMemory>
    ensures { IfOk result (λ found. found ≡ who (view person.now)) }
{
    let name = front_within(given_name(person).as_bytes(), MOST_TOLD);
    Ok(FilePerson {
        name: Quoted::of(alloc, name)?,
        number: number_of(person),
    })
}

/// Adds what a desk cannot hold of the person at a place.
fn push_found(
    alloc: Global,
    faults: &mut Vec<CompetitionFault>,
    place: usize,
    person: &Value,
    found: &[PersonFault],
) -> Result<(), NoMemory>
    ensures { OnOk result (faults.new.items
        ≡ faults.old.items ++ map (PersonOf place (who (view person.now))) found.now) }
{
    for fault in found {
        faults.push(CompetitionFault::Person {
            place,
            who: who(alloc, person)?,
            fault: *fault,
        })?;
    }
    Ok(())
}

/// Notes the person at a place, where he is accepted, and adds what a desk cannot hold of him.
#[tactic(auto, unfolding(crate::specs::Faults::person_faults))]
fn push_person<'v>(
    alloc: Global,
    how: SameNames,
    faults: &mut Vec<CompetitionFault>,
    people: &mut People<'v>,
    events: &[Value],
    place: usize,
    person: &'v Value,
) -> Result<(), NoMemory>
    ensures faults { OnOk result (AddsFaults how (map view events.now) place (view person.now)
        people.old faults.old.items faults.new.items) }
    ensures kept { OnOk result (KeepsPerson how (view person.now) people.old people.new) }
{
    if !is_accepted(person) {
        return Ok(());
    }
    let found = people.add(alloc, how, events, person)?;
    push_found(alloc, faults, place, person, &found)
}

/// Notes all accepted persons, and adds what a desk cannot hold of them.
pub(crate) fn push_persons<'v>(
    alloc: Global,
    how: SameNames,
    faults: &mut Vec<CompetitionFault>,
    persons: &'v [Value],
    events: &[Value],
) -> Result<People<'v>, NoMemory>
    ensures faults { OnOk result (faults.new.items ≡ faults.old.items ++ told
        (person_faults how (map view events.now) (map view persons.now)) (map view persons.now)) }
    ensures kept { IfOk result
        (λ people. AreKept how (map view persons.now) (map view persons.now) people) }
{
    let mut people = People::new(alloc, persons)?;
    for index in 0..persons.len() {
        let place = index + 1;
        push_person(
            alloc,
            how,
            faults,
            &mut people,
            events,
            place,
            &persons[index],
        )?;
    }
    Ok(people)
}
