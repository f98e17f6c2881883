//! The numbers of persons.

ghost use Rattle.std.specs.Prelude.{◌≡◌, map, nat_eq, option_map, slice_get, IfOk, OnOk};
ghost use Rattle.std.specs.{HashMap.get, Option.option_and_then};
ghost use Rattle.serde_json.specs.View.{view};
ghost use Rattle.competition_file.specs.Numbers.{AreFirsts, NotesFirst, list_number, own_number};

use attempts::NoMemory;
use serde_json::Value;
use std::alloc::Global;
use std::collections::HashMap;
use wcif::{is_accepted, number_of};

/// The greatest number that a list can have.
const LAST_NUMBER: u64 = 9_999;

/// The number of an accepted person in the file; None for others.
#[tactic(auto, unfolding(crate::specs::Numbers::own_number))]
fn own_number(person: &Value) -> Option<u64>
    ensures { result ≡ own_number (view person.now) }
{
    if is_accepted(person) {
        number_of(person)
    } else {
        None
    }
}

/// The number of an accepted person, where a list can have it, 1 to 9999; None for others.
#[tactic(auto, unfolding(crate::specs::Numbers::list_number))]
pub fn list_number(person: &Value) -> Option<u16>
    ensures { result ≡ list_number (view person.now) }
{
    let number = own_number(person)?;
    if 1 <= number && number <= LAST_NUMBER {
        Some(number as u16)
    } else {
        None
    }
}

/// Notes a number at a place, unless it is noted already.
fn note(places: &mut HashMap<u64, usize>, number: Option<u64>, place: usize) -> Result<(), NoMemory>
    ensures { OnOk result (NotesFirst number place places.old places.new) }
{
    let Some(number) = number else {
        return Ok(());
    };
    if !places.contains_key(&number) {
        places.insert(number, place)?;
    }
    Ok(())
}

/// Where the first accepted one of these persons with each number is.
pub(crate) fn first_places(
    alloc: Global,
    persons: &[Value],
) -> Result<HashMap<u64, usize>, NoMemory>
    ensures { IfOk result (λ places. AreFirsts places (map view persons.now)) }
{
    let mut places = HashMap::new(alloc);
    for place in 0..persons.len() {
        note(&mut places, own_number(&persons[place]), place)?;
    }
    Ok(places)
}

/// The place that is noted of a number.
pub(crate) fn place_noted(places: &HashMap<u64, usize>, number: u16) -> Option<usize>
    ensures { result ≡ get nat_eq places.now number }
{
    places.get(&u64::from(number)).copied()
}

/// The person at a place.
pub(crate) fn person_at(persons: &[Value], place: Option<usize>) -> Option<&Value>
    ensures { option_map (λ person. view person.now) result
        ≡ option_and_then (λ i. option_map view (slice_get persons.now i)) place }
{
    persons.get(place?)
}
