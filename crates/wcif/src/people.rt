//! What is kept of the accepted persons while a competition is read.

ghost use Rattle.std.specs.Prelude.{◌≡◌, ◌++◌, ◌∷◌, [], ◌+◌, ◌^◌, ◌<◌, true, List, ℕ, map, length};
ghost use Rattle.std.specs.Prelude.{IfOk, OnOk, option_map, option_to_list, string_bytes, ◌≤◌};
ghost use Rattle.std.specs.Prelude.{◌||◌, bytes_eq, Some, find};
ghost use Rattle.std.specs.{HashSet.contains_text, List.list_any};
ghost use Rattle.serde_json.specs.{Data.Data, View.view};
ghost use Rattle.texts.specs.Numerals.{within};
ghost use Rattle.wcif.specs.Persons.{is_accepted, is_shared, id_as, with_id, name_as, number_of};
ghost use Rattle.wcif.specs.Persons.{number_faults, name_faults, has_name, has_number, has_given};
ghost use Rattle.wcif.specs.Persons.{accepted_faults, bad_name, has_quote, last_number};
ghost use Rattle.wcif.specs.model.Kept.{CountsNames, AreNumbers, AreNames, AreKept};
ghost use Rattle.wcif.specs.declared.options.SameNames.{SameNames as Named};

use crate::entries::{push_events_faults, push_some};
use crate::fault::PersonFault;
use crate::options::SameNames;
use crate::persons::{event_ids, given_name, is_accepted, number_of, wca_id};
use attempts::NoMemory;
use serde_json::Value;
use std::alloc::Global;
use std::collections::{HashMap, HashSet};
use texts::is_clear_name;

/// The most bytes of a name.
const MOST_NAME: usize = 160;

/// The greatest number of a competitor.
pub(crate) const LAST_NUMBER: u16 = 9999;

/// How many accepted persons have each name.
#[derive(Drop)]
pub(crate) struct NameCounts {
    counts: HashMap<String, usize>,
}

impl NameCounts {
    /// Counts the name of one more person, where he is accepted.
    fn add(&mut self, alloc: Global, person: &Value) -> Result<(), NoMemory>
        ensures { OnOk result ((persons : List Data) → length persons + 1 < 2 ^ 64
            → CountsNames persons self.old → CountsNames (persons ++ view person.now ∷ [])
            self.new) }
    {
        if !is_accepted(person) {
            return Ok(());
        }
        let name = given_name(person);
        let before = self.counts.get(name).copied().unwrap_or(0);
        self.counts
            .insert(String::from_str(alloc, name)?, before.saturating_add(1))?;
        Ok(())
    }

    /// Counts the names of all accepted persons.
    pub(crate) fn of(alloc: Global, persons: &[Value]) -> Result<Self, NoMemory>
        ensures { IfOk result (λ kept. CountsNames (map view persons.now) kept) }
    {
        let mut kept = NameCounts {
            counts: HashMap::new(alloc),
        };
        for person in persons {
            kept.add(alloc, person)?;
        }
        Ok(kept)
    }

    /// Whether several accepted persons have this name.
    fn is_shared(&self, name: &str) -> bool
        ensures { (everyone : List Data) → CountsNames everyone self.now
            → result ≡ is_shared everyone name.now }
    {
        self.counts.get(name).copied().unwrap_or(0) > 1
    }

    /// The WCA ID, where it is to tell apart those who share the name.
    #[tactic(auto, unfolding(crate::specs::Persons::id_as))]
    fn id_as<'v>(&self, how: SameNames, person: &'v Value) -> Option<&'v str>
        ensures { (everyone : List Data) → CountsNames everyone self.now
            → option_map (λ id. id.now) result ≡ id_as how everyone (view person.now) }
    {
        match how {
            SameNames::WithId if self.is_shared(given_name(person)) => wca_id(person),
            _ => None,
        }
    }

    /// The name that a desk gets: that of the file, and the ID where there is to be one.
    pub(crate) fn name_as(
        &self,
        alloc: Global,
        how: SameNames,
        person: &Value,
    ) -> Result<String, NoMemory>
        ensures { IfOk result (λ name. (everyone : List Data) → CountsNames everyone self.now
            → string_bytes name ≡ name_as how everyone (view person.now)) }
    {
        let name = String::from_str(alloc, given_name(person))?;
        match self.id_as(how, person) {
            Some(id) => with_id(name, id),
            None => Ok(name),
        }
    }
}

/// A name, a space and an ID.
fn with_id(name: String, id: &str) -> Result<String, NoMemory>
    ensures { IfOk result (λ both. string_bytes both ≡ with_id (string_bytes name) (Some id.now)) }
{
    let mut both = name;
    both.push_str(" ")?;
    both.push_str(id)?;
    Ok(both)
}

/// The number, where a desk has it.
fn desk_number(number: u64) -> Option<u16>
    ensures { result ≡ within 1 last_number number }
{
    if 1 <= number && number <= u64::from(LAST_NUMBER) {
        Some(number as u16)
    } else {
        None
    }
}

/// The accepted persons by their numbers.
#[derive(Drop)]
pub(crate) struct Numbers<'v> {
    persons: HashMap<u16, &'v Value>,
}

impl<'v> Numbers<'v> {
    /// Nobody has a number.
    fn new(alloc: Global) -> Self
        ensures { AreNumbers [] result }
    {
        Numbers {
            persons: HashMap::new(alloc),
        }
    }

    /// Notes the number of an accepted person, or says what is wrong with it.
    fn add(&mut self, person: &'v Value) -> Result<Option<PersonFault>, NoMemory>
        ensures fault { IfOk result (λ fault. (persons : List Data) → AreNumbers persons self.old
            → option_to_list fault ≡ number_faults persons (number_of (view person.now))) }
        ensures kept { OnOk result ((persons : List Data) → AreNumbers persons self.old
            → is_accepted (view person.now) ≡ true
            → AreNumbers (persons ++ view person.now ∷ []) self.new) }
    {
        let Some(number) = number_of(person) else {
            return Ok(Some(PersonFault::NoNumber));
        };
        let Some(number) = desk_number(number) else {
            return Ok(Some(PersonFault::NumberOutOfRange));
        };
        if self.persons.contains_key(&number) {
            return Ok(Some(PersonFault::NumberTaken));
        }
        self.persons.insert(number, person)?;
        Ok(None)
    }

    /// The accepted person with a number.
    pub(crate) fn get(&self, number: u16) -> Option<&'v Value>
        ensures { (persons : List Data) → AreNumbers persons self.now → 1 ≤ number
            → number ≤ last_number
            → option_map (λ v. view v.now) result ≡ find (has_number number) persons }
    {
        self.persons.get(&number).copied()
    }
}

/// Whether a name has a double quote.
fn has_quote(name: &[u8]) -> bool
    ensures { result ≡ has_quote name.now }
{
    name.iter().any(|byte| *byte == b'"')
}

/// What is wrong with a name that a desk refuses.
fn bad_name(name: &[u8]) -> PersonFault
    ensures { result ≡ bad_name name.now }
{
    if name.is_empty() {
        PersonFault::NoName
    } else if name.len() > MOST_NAME {
        PersonFault::LongName
    } else if has_quote(name) {
        PersonFault::QuoteInName
    } else {
        PersonFault::BadName
    }
}

/// The names that accepted persons have at a desk.
#[derive(Drop)]
pub(crate) struct Names {
    names: HashSet<String>,
}

impl Names {
    /// Nobody has a name.
    fn new(alloc: Global) -> Self
        ensures { (how : Named) (everyone : List Data) → AreNames how everyone [] result }
    {
        Names {
            names: HashSet::new(alloc),
        }
    }

    /// Notes a name, or says what is wrong with it.
    fn add(&mut self, name: String) -> Result<Option<PersonFault>, NoMemory>
        ensures fault { IfOk result (λ fault. option_to_list fault
            ≡ name_faults (contains_text self.old.names (string_bytes name)) (string_bytes name)) }
        ensures kept { OnOk result ((other : List ℕ) → contains_text self.new.names other
            ≡ (bytes_eq other (string_bytes name) || contains_text self.old.names other)) }
    {
        let is_clear = is_clear_name(name.as_bytes());
        let bad = bad_name(name.as_bytes());
        let is_new = self.names.insert(name)?;
        if !is_clear {
            Ok(Some(bad))
        } else if !is_new {
            Ok(Some(PersonFault::NameTaken))
        } else {
            Ok(None)
        }
    }
}

/// What is kept of the accepted persons while they are read.
#[derive(Drop)]
pub(crate) struct People<'v> {
    pub(crate) counts: NameCounts,
    pub(crate) numbers: Numbers<'v>,
    names: Names,
}

impl<'v> People<'v> {
    /// Before the first of these persons.
    pub(crate) fn new(alloc: Global, persons: &[Value]) -> Result<Self, NoMemory>
        ensures { IfOk result (λ people. (how : Named) → AreKept how (map view persons.now) []
            people) }
    {
        Ok(People {
            counts: NameCounts::of(alloc, persons)?,
            numbers: Numbers::new(alloc),
            names: Names::new(alloc),
        })
    }

    /// Notes one more accepted person, and says what a desk cannot hold of him.
    pub(crate) fn add(
        &mut self,
        alloc: Global,
        how: SameNames,
        events: &[Value],
        person: &'v Value,
    ) -> Result<Vec<PersonFault>, NoMemory>
        ensures faults { IfOk result (λ faults. (everyone earlier : List Data)
            → AreKept how everyone earlier self.old
            → faults.items
            ≡ accepted_faults how (map view events.now) everyone earlier (view person.now)) }
        ensures kept { OnOk result ((everyone earlier : List Data)
            → AreKept how everyone earlier self.old → is_accepted (view person.now) ≡ true
            → AreKept how everyone (earlier ++ view person.now ∷ []) self.new) }
    {
        let mut faults = Vec::new(alloc);
        push_some(&mut faults, self.numbers.add(person)?)?;
        let name = self.counts.name_as(alloc, how, person)?;
        push_some(&mut faults, self.names.add(name)?)?;
        push_events_faults(&mut faults, events, event_ids(person))?;
        Ok(faults)
    }
}
