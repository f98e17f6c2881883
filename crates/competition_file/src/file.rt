//! A competition's file.

ghost use Rattle.std.specs.Prelude.{◌≡◌, codes, find, map, option_map, true};
ghost use Rattle.std.specs.Option.{option_and_then};
ghost use Rattle.std.specs.Prelude.{IfErr, IfOk, OnErr, OnOk};
ghost use Rattle.serde_json.specs.View.{view};
ghost use Rattle.wcif.specs.Files.{Holds, ReadFails};
ghost use Rattle.wcif.specs.Persons.{has_number, text_under as text_in};
ghost use Rattle.competition_file.specs.{Duties.helpers, Groups.seat_of, Numbers.text_of};
ghost use Rattle.competition_file.specs.Files.{RenewFails, data_of, is_same, persons, proposals};
ghost use Rattle.competition_file.specs.{Files.venues, Kept.kept_of, Kept.seen};

use crate::duties::Duty;
use crate::groups::{RoundGroup, Seat, seat_among};
use crate::items::{items_of, items_under};
use crate::kept::{KeptPerson, KeptPersons};
use crate::numbers::{person_at, place_noted};
use attempts::NoMemory;
use serde_json::Value;
use std::alloc::Global;
use std::marker::Model;
use wcif::{
    CumulativeLimits, FileFault, later_rounds, member_at, print_later, read_file, text_under,
};

/// A competition's file. A contract sees its bytes.
#[derive(Drop)]
pub struct CompetitionFile {
    bytes: Vec<u8>,
    value: Value,
    kept: KeptPersons,
}

impl Model for CompetitionFile {
    ghost use Rattle.std.specs.Prelude.{◌≡◌, List, ℕ};
    ghost use Rattle.serde_json.specs.View.{view as seen};
    ghost use Rattle.competition_file.specs.Files.{data_of as held, persons as people};
    ghost use Rattle.competition_file.specs.Kept.{IsKept};

    ghost Value = { List ℕ };

    ghost view = { λ file. file.bytes.items };

    ghost invariant = { λ file. (held file.bytes.items ≡ seen file.value)
        × IsKept (people (seen file.value)) file.kept };
}

/// Why a newer file does not take the place of one.
#[derive(Drop)]
pub enum RenewFault {
    /// It is not read.
    Unread(FileFault),
    /// It is of another competition, or one of the two has no id.
    OtherCompetition,
}

impl CompetitionFile {
    /// The file of these bytes.
    ///
    /// # Errors
    ///
    /// Those of [`wcif::read_file`].
    #[tactic(auto, unfolding(crate::specs::Files::data_of))]
    pub fn read(alloc: Global, bytes: Vec<u8>) -> Result<CompetitionFile, FileFault>
        ensures same { IfOk result (λ file. file ≡ bytes.items) }
        ensures ok { IfOk result (λ file. Holds file (data_of file)) }
        ensures err { IfErr result (ReadFails bytes.items) }
    {
        let value = read_file(alloc, &bytes)?;
        let Ok(kept) = KeptPersons::read(alloc, items_under(&value, "persons")) else {
            return Err(FileFault::NoMemory);
        };
        Ok(CompetitionFile { bytes, value, kept })
    }

    /// The bytes of the file.
    pub fn bytes(&self) -> &[u8]
        ensures { result.now ≡ self.now }
    {
        &self.bytes
    }

    /// The id of the competition; the empty text where there is none.
    pub fn id(&self) -> &str
        ensures { result.now ≡ text_in (codes "id") (data_of self.now) }
    {
        text_under(&self.value, "id")
    }

    /// Whether another file is of the same competition: both have an id, and it is the same.
    fn is_same(&self, other: &CompetitionFile) -> bool
        ensures { result ≡ is_same (data_of self.now) (data_of other.now) }
    {
        let id = self.id().as_bytes();
        !id.is_empty() && id == other.id().as_bytes()
    }

    /// Takes a newer file of the same competition in place of this one. At a fault this one stays.
    ///
    /// # Errors
    ///
    /// - `Unread` where [`CompetitionFile::read`] refuses the bytes.
    /// - `OtherCompetition` where this one or the newer one has no id, or they differ.
    pub fn renew(&mut self, alloc: Global, bytes: Vec<u8>) -> Result<(), RenewFault>
        ensures ok { OnOk result (self.new ≡ bytes.items) }
        ensures holds { OnOk result (Holds self.new (data_of self.new)) }
        ensures same { OnOk result (is_same (data_of self.old) (data_of self.new) ≡ true) }
        ensures err { IfErr result (RenewFails bytes.items self.old) }
        ensures stays { OnErr result (self.new ≡ self.old) }
    {
        let newer = match CompetitionFile::read(alloc, bytes) {
            Ok(newer) => newer,
            Err(fault) => return Err(RenewFault::Unread(fault)),
        };
        if !self.is_same(&newer) {
            return Err(RenewFault::OtherCompetition);
        }
        *self = newer;
        Ok(())
    }

    /// All persons; none where there is no list of them.
    pub fn persons(&self) -> &[Value]
        ensures { map view result.now ≡ persons (data_of self.now) }
    {
        items_under(&self.value, "persons")
    }

    /// The first accepted person with a number.
    pub fn person(&self, number: u16) -> Option<&Value>
        ensures { option_map (λ person. view person.now) result
            ≡ find (has_number number) (persons (data_of self.now)) }
    {
        person_at(self.persons(), place_noted(&self.kept.places, number))
    }

    /// What is kept of the first accepted person with a number.
    fn kept_person(&self, number: u16) -> Option<&KeptPerson>
        ensures { option_map (λ one. seen one.now) result
            ≡ option_map kept_of (find (has_number number) (persons (data_of self.now))) }
    {
        self.kept.person(number)
    }

    /// Where the first accepted person with a number competes, in one of these groups.
    pub fn seat(&self, groups: &[RoundGroup], number: u16) -> Option<Seat>
        ensures { result ≡ option_and_then (seat_of groups.now)
            (find (has_number number) (persons (data_of self.now))) }
    {
        match self.kept_person(number) {
            Some(person) => seat_among(groups, &person.seats),
            None => None,
        }
    }

    /// The WCA ID of the first accepted person with a number; the empty text where there is none.
    pub fn wca_id(&self, number: u16) -> &[u8]
        ensures { result.now ≡ text_of (codes "wcaId")
            (find (has_number number) (persons (data_of self.now))) }
    {
        match self.kept_person(number) {
            Some(person) => &person.wca_id,
            None => b"",
        }
    }

    /// The letters of that person's country; the empty text where there are none.
    pub fn country(&self, number: u16) -> &[u8]
        ensures { result.now ≡ text_of (codes "countryIso2")
            (find (has_number number) (persons (data_of self.now))) }
    {
        match self.kept_person(number) {
            Some(person) => &person.country,
            None => b"",
        }
    }

    /// The names of those who have a duty in the group whose activity has this id, in the order of
    /// the file, each person once.
    pub fn helpers(&self, duty: Duty, activity: u64) -> &[Vec<u8>]
        ensures { map (λ name. name.items) result.now
            ≡ helpers duty activity (persons (data_of self.now)) }
    {
        self.kept.helpers(duty, activity)
    }

    /// The venues of the schedule; none where there is no list of them. The `rooms` of each have
    /// `activities`.
    #[tactic(auto, unfolding(crate::specs::Files::venues))]
    pub fn venues(&self) -> &[Value]
        ensures { map view result.now ≡ venues (data_of self.now) }
    {
        items_of(member_at(&self.value, "schedule"), "venues")
    }

    /// How the file has later rounds, as `desk import` says it: a comment a line. A limit that is
    /// for several attempts together is that of each.
    pub fn proposals(&self, alloc: Global) -> Result<Vec<u8>, NoMemory>
        ensures { IfOk result (λ text. text.items ≡ proposals (data_of self.now)) }
    {
        let events = items_under(&self.value, "events");
        let later = later_rounds(alloc, CumulativeLimits::AsSingle, events)?;
        print_later(alloc, &later)
    }

    /// The value itself.
    pub(crate) fn value(&self) -> &Value
        ensures { view result.now ≡ data_of self.now }
    {
        &self.value
    }
}
