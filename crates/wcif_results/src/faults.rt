//! What of a meet a competition's file has no place for.

ghost use Rattle.std.specs.Prelude.{◌≡◌, ◌++◌, ◌∷◌, [], map, flat_map, decimal, IfOk, OnOk, codes};
ghost use Rattle.std.specs.Prelude.{option_map, option_to_list, None, Some};
ghost use Rattle.json.specs.Value.{value_view};
ghost use Rattle.wcif_results.specs.Faults.{entrant_faults, entrants_faults, faults_of, name_here};
ghost use Rattle.wcif_results.specs.Faults.{person_faults, placed_faults, round_faults};
ghost use Rattle.wcif_results.specs.Filled.{text_under};
ghost use Rattle.wcif_results.specs.Names.{gives, is_called, name_with_id, was_given};
ghost use Rattle.wcif_results.specs.model.Opened.{held_view, round_view};

use crate::fault::MeetFault;
use crate::meet_rounds::MeetRound;
use crate::named_meet::{GivenName, NamedMeet};
use crate::reading::{HeldRound, held_rounds, list_under, person_with, round_with_id, text_under};
use attempts::{NoMemory, push_decimal};
use json::Value;
use std::alloc::Global;
use wcif::Quoted;

/// A number in decimal.
fn decimal_text(alloc: Global, number: u16) -> Result<Vec<u8>, NoMemory>
    ensures { IfOk result (λ text. text.items ≡ decimal number) }
{
    let mut text = Vec::new(alloc);
    push_decimal(&mut text, u32::from(number))?;
    Ok(text)
}

/// The name of a person, a space and the WCA ID.
fn name_with_id(alloc: Global, person: &Value<'_>) -> Result<Vec<u8>, NoMemory>
    ensures { IfOk result (λ name. name.items ≡ name_with_id (value_view person.now)) }
{
    let mut name = Vec::new(alloc);
    name.extend_from_slice(text_under(person, "name").as_bytes())?;
    name.extend_from_slice(b" ")?;
    name.extend_from_slice(text_under(person, "wcaId").as_bytes())?;
    Ok(name)
}

/// Whether this is one of two names of a number.
fn gives(one: &GivenName, number: u16, name: &[u8], with_id: &[u8]) -> bool
    ensures { result ≡ gives number name.now with_id.now one.now }
{
    let found = one.name.as_bytes();
    one.number == number && (found == name || found == with_id)
}

/// Whether a number was given one of two names.
#[tactic(auto, unfolding(crate::specs::Names::was_given))]
fn was_given(given: &[GivenName], number: u16, name: &[u8], with_id: &[u8]) -> bool
    ensures { result ≡ was_given number name.now with_id.now given.now }
{
    given.iter().any(|one| gives(one, number, name, with_id))
}

/// Whether a number was given the name of a person.
fn is_called(
    alloc: Global,
    given: &[GivenName],
    number: u16,
    person: &Value<'_>,
) -> Result<bool, NoMemory>
    ensures { IfOk result (λ is. is ≡ is_called given.now number (value_view person.now)) }
{
    let with_id = name_with_id(alloc, person)?;
    let name = text_under(person, "name");
    Ok(was_given(given, number, name.as_bytes(), &with_id))
}

/// The last name that a number was given.
fn name_here(alloc: Global, meet: &NamedMeet, number: u16) -> Result<Quoted, NoMemory>
    ensures { IfOk result (λ name. name ≡ name_here meet.now.accepted number) }
{
    Quoted::of(alloc, meet.meet().name(number).unwrap_or(b""))
}

/// The name of a person of the file.
fn name_there(alloc: Global, person: &Value<'_>) -> Result<Quoted, NoMemory>
    ensures { IfOk result (λ name. name ≡ text_under (codes "name") (value_view person.now)) }
{
    Quoted::of(alloc, text_under(person, "name").as_bytes())
}

/// What is wrong with an entrant who is no accepted person, given any person with his number.
fn stranger(
    alloc: Global,
    meet: &NamedMeet,
    round: &MeetRound<'_>,
    number: u16,
    other: Option<&Value<'_>>,
) -> Result<MeetFault, NoMemory>
    ensures { IfOk result (λ fault. fault ∷ [] ≡ person_faults meet.now.accepted
        (round_view round.now) number None (option_map (λ v. value_view v.now) other.entry)) }
{
    let name = name_here(alloc, meet, number)?;
    let (event, round) = (round.event, round.number);
    match other {
        Some(person) => Ok(MeetFault::NotAccepted {
            event,
            round,
            number,
            name,
            other: name_there(alloc, person)?,
        }),
        None => Ok(MeetFault::NoPerson {
            event,
            round,
            number,
            name,
        }),
    }
}

/// What is wrong with an entrant, given the accepted person with his number.
fn named_fault(
    alloc: Global,
    meet: &NamedMeet,
    round: &MeetRound<'_>,
    number: u16,
    person: &Value<'_>,
) -> Result<Option<MeetFault>, NoMemory>
    ensures { IfOk result (λ fault. option_to_list fault ≡ person_faults meet.now.accepted
        (round_view round.now) number (Some (value_view person.now)) None) }
{
    if is_called(alloc, meet.given(), number, person)? {
        return Ok(None);
    }
    Ok(Some(MeetFault::OtherName {
        event: round.event,
        round: round.number,
        number,
        name: name_here(alloc, meet, number)?,
        other: name_there(alloc, person)?,
    }))
}

/// Adds what is wrong with an entrant.
fn push_entrant(
    alloc: Global,
    faults: &mut Vec<MeetFault>,
    meet: &NamedMeet,
    persons: &[Value<'_>],
    round: &MeetRound<'_>,
    number: u16,
) -> Result<(), NoMemory>
    ensures { OnOk result (faults.new.items ≡ faults.old.items ++ entrant_faults meet.now.accepted
        (map value_view persons.now) (round_view round.now) number) }
{
    let text = decimal_text(alloc, number)?;
    let Some(person) = person_with(persons, &text, false) else {
        let other = person_with(persons, &text, true);
        faults.push(stranger(alloc, meet, round, number, other)?)?;
        return Ok(());
    };
    if let Some(fault) = named_fault(alloc, meet, round, number, person)? {
        faults.push(fault)?;
    }
    Ok(())
}

/// Adds what is wrong with the entrants of a round.
fn push_entrants(
    alloc: Global,
    faults: &mut Vec<MeetFault>,
    meet: &NamedMeet,
    persons: &[Value<'_>],
    round: &MeetRound<'_>,
) -> Result<(), NoMemory>
    ensures { OnOk result (faults.new.items ≡ faults.old.items ++ entrants_faults meet.now.accepted
        (map value_view persons.now) (round_view round.now)) }
{
    let entrants = round.table.standings()?;
    for number in &entrants {
        push_entrant(alloc, faults, meet, persons, round, *number)?;
    }
    Ok(())
}

/// Adds what the file has no place for of a round, given the file's round with its id.
fn push_round(
    alloc: Global,
    faults: &mut Vec<MeetFault>,
    meet: &NamedMeet,
    persons: &[Value<'_>],
    round: &MeetRound<'_>,
    there: bool,
) -> Result<(), NoMemory>
    ensures { OnOk result (faults.new.items ≡ faults.old.items ++ placed_faults meet.now.accepted
        (map value_view persons.now) (round_view round.now) there) }
{
    if there {
        return push_entrants(alloc, faults, meet, persons, round);
    }
    if !round.table.is_attempted(1) {
        return Ok(());
    }
    faults.push(MeetFault::NoRound {
        event: round.event,
        round: round.number,
    })?;
    push_entrants(alloc, faults, meet, persons, round)
}

/// What the file has no place for of rounds, given the file's rounds and persons.
fn faults_among(
    alloc: Global,
    meet: &NamedMeet,
    held: &[HeldRound<'_>],
    persons: &[Value<'_>],
    rounds: &[MeetRound<'_>],
) -> Result<Vec<MeetFault>, NoMemory>
    ensures { IfOk result (λ faults. faults.items
        ≡ flat_map (round_faults meet.now.accepted (map held_view held.now)
        (map value_view persons.now)) (map round_view rounds.now)) }
{
    let mut faults = Vec::new(alloc);
    for round in rounds {
        let there = round_with_id(held, &round.id).is_some();
        push_round(alloc, &mut faults, meet, persons, round, there)?;
    }
    Ok(faults)
}

/// All that a file has no place for of these rounds, by rounds.
#[tactic(auto, unfolding(crate::specs::Faults::faults_of))]
pub(crate) fn faults_of(
    alloc: Global,
    meet: &NamedMeet,
    rounds: &[MeetRound<'_>],
    file: &Value<'_>,
) -> Result<Vec<MeetFault>, NoMemory>
    ensures { IfOk result (λ faults. faults.items
        ≡ faults_of meet.now.accepted (map round_view rounds.now) (value_view file.now)) }
{
    let held = held_rounds(alloc, file)?;
    match list_under(file, "persons") {
        Some(persons) => faults_among(alloc, meet, &held, persons, rounds),
        None => faults_among(alloc, meet, &held, &[], rounds),
    }
}
