//! What is kept of the persons of a file, so that it is read once.

ghost use Rattle.std.specs.Prelude.{◌≡◌, IfOk, List, find, map, option_map, slice_get};
ghost use Rattle.std.specs.Option.{option_and_then};
ghost use Rattle.serde_json.specs.{Data.Data, View.view};
ghost use Rattle.wcif.specs.Persons.{has_number, text_under as text_in};
ghost use Rattle.competition_file.specs.Duties.{helpers};
ghost use Rattle.competition_file.specs.Kept.{IsKept, kept_of, seen};

use crate::duties::{Duty, Names, all_names, names_at};
use crate::groups::{ActivitySeat, seats_of};
use crate::numbers::{first_places, place_noted};
use attempts::NoMemory;
use serde_json::Value;
use std::alloc::Global;
use std::collections::HashMap;
use wcif::text_under;

/// In what activities a person competes, the WCA ID and the letters of the country.
#[derive(Drop)]
pub(crate) struct KeptPerson {
    pub(crate) seats: Vec<ActivitySeat>,
    pub(crate) wca_id: Vec<u8>,
    pub(crate) country: Vec<u8>,
}

/// A copy of a text of a person; the empty text where there is none.
fn text_of(alloc: Global, person: &Value, name: &str) -> Result<Vec<u8>, NoMemory>
    ensures { IfOk result (λ text. text.items ≡ text_in name.now (view person.now)) }
{
    let text = Vec::from_slice(alloc, text_under(person, name).as_bytes())?;
    Ok(text)
}

impl KeptPerson {
    fn read(alloc: Global, person: &Value) -> Result<KeptPerson, NoMemory>
        ensures { IfOk result (λ one. seen one ≡ kept_of (view person.now)) }
    {
        Ok(KeptPerson {
            seats: seats_of(alloc, person)?,
            wca_id: text_of(alloc, person, "wcaId")?,
            country: text_of(alloc, person, "countryIso2")?,
        })
    }
}

fn all_people(alloc: Global, persons: &[Value]) -> Result<Vec<KeptPerson>, NoMemory>
    ensures { IfOk result (λ all. map seen all.items ≡ map kept_of (map view persons.now)) }
{
    let mut all = Vec::new(alloc);
    for person in persons {
        all.push(KeptPerson::read(alloc, person)?)?;
    }
    Ok(all)
}

/// What is kept of the person at a place.
fn kept_at(people: &[KeptPerson], place: Option<usize>) -> Option<&KeptPerson>
    ensures { option_map (λ one. seen one.now) result
        ≡ option_and_then (λ i. option_map seen (slice_get people.now i)) place }
{
    people.get(place?)
}

/// Where the first accepted person with each number is, what is kept of each person, and the names
/// of those who have each duty.
#[derive(Drop)]
pub(crate) struct KeptPersons {
    pub(crate) places: HashMap<u64, usize>,
    pub(crate) people: Vec<KeptPerson>,
    pub(crate) scramblers: Names,
    pub(crate) runners: Names,
    pub(crate) judges: Names,
}

impl KeptPersons {
    pub(crate) fn read(alloc: Global, persons: &[Value]) -> Result<KeptPersons, NoMemory>
        ensures { IfOk result (IsKept (map view persons.now)) }
    {
        Ok(KeptPersons {
            places: first_places(alloc, persons)?,
            people: all_people(alloc, persons)?,
            scramblers: all_names(alloc, Duty::Scrambler, persons)?,
            runners: all_names(alloc, Duty::Runner, persons)?,
            judges: all_names(alloc, Duty::Judge, persons)?,
        })
    }

    /// What is kept of the first accepted person with a number.
    pub(crate) fn person(&self, number: u16) -> Option<&KeptPerson>
        ensures { (ps : List Data) → IsKept ps self.now
            → option_map (λ one. seen one.now) result
            ≡ option_map kept_of (find (has_number number) ps) }
    {
        kept_at(&self.people, place_noted(&self.places, number))
    }

    /// The names of those who have a duty in the group of an activity.
    pub(crate) fn helpers(&self, duty: Duty, activity: u64) -> &[Vec<u8>]
        ensures { (ps : List Data) → IsKept ps self.now
            → map (λ name. name.items) result.now ≡ helpers duty activity ps }
    {
        match duty {
            Duty::Scrambler => names_at(&self.scramblers, activity),
            Duty::Runner => names_at(&self.runners, activity),
            Duty::Judge => names_at(&self.judges, activity),
        }
    }
}
