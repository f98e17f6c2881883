//! The desks of a hall.

ghost use Rattle.std.specs.Prelude.{◌≡◌, IfOk, OnErr, OnOk, string_bytes};
ghost use Rattle.hall_survey.specs.Halls.{IsKept, IsStatus, adds, ages_text, away_in, desks_wait};
ghost use Rattle.hall_survey.specs.Halls.{Differs, first_other as other_of, no_desks};
ghost use Rattle.hall_survey.specs.Halls.{one_speaks_five};
ghost use Rattle.wire.specs.Ranges.{IsDesk};

use crate::asked::{AskedDesk, ages_of, all_told, away_of, first_other, one_speaks_five, soonest};
use desk_sockets::DeskStream;
use desk_survey::Survey;
use standings::{difference, json_line};
use std::alloc::{AllocError, Global};
use std::marker::Model;
use std::net::Net;
use std::random::RandomSource;
use wire::Difference;

/// The most desks that a hall has.
const MOST_DESKS: usize = 5;

/// The desks of a hall, at most five, each asked how it is four times a second.
///
/// A contract sees the number of the hall, and of each desk its number, its address and its survey.
#[derive(Drop)]
pub struct HallDesks {
    alloc: Global,
    hall: u32,
    asked: Vec<AskedDesk>,
}

impl Model for HallDesks {
    ghost use Rattle.std.specs.Prelude.{◌≤◌, length};
    ghost use Rattle.hall_survey.specs.Halls.{HallDesksOf, hall_desks};

    ghost Value = { HallDesksOf };

    ghost view = { λ h. hall_desks h.hall h.asked.items };

    ghost invariant = { λ h. length h.asked.items ≤ 5 };
}

impl HallDesks {
    /// No desk of the hall with this number.
    pub fn new(alloc: Global, hall: u32) -> HallDesks
        ensures { result ≡ no_desks hall }
    {
        HallDesks {
            alloc,
            hall,
            asked: Vec::new(alloc),
        }
    }

    /// Adds the desk with this number, 1 to 5, after the others. It was not asked yet. The address
    /// is what is said of it. A sixth one is left out.
    pub fn add(&mut self, desk: u8, address: String) -> Result<(), AllocError>
        requires { IsDesk desk }
        ensures ok { OnOk result (self.new ≡ adds self.old desk address) }
        ensures err { OnErr result (self.new ≡ self.old) }
    {
        if self.asked.len() >= MOST_DESKS {
            return Ok(());
        }
        let survey = Survey::new(self.alloc, self.hall, desk);
        self.asked.push(AskedDesk {
            desk,
            address,
            survey,
        })?;
        Ok(())
    }

    /// Does all for the survey of a desk that can be done now over a connection to it, as
    /// `DeskStream::keep` does it. The place is that of the desk in the order in which they were
    /// added, from 0; nothing is done where there is none.
    pub fn keep<R: Net + RandomSource>(
        &mut self,
        place: usize,
        stream: &mut DeskStream<'_, R>,
        now: u64,
    )
        ensures { IsKept place self.old self.new }
    {
        if let Some(asked) = self.asked.get_mut(place) {
            let _kept = stream.keep(&mut asked.survey, now);
        }
    }

    /// In how many milliseconds something is to be done, if nothing comes: as soon as it is for any
    /// of the desks, and at most 1,000.
    pub fn wait(&self, now: u64) -> u64
        ensures { result ≡ desks_wait self.now now }
    {
        soonest(&self.asked, now)
    }

    /// How many entries the log of each desk has, by what it said last, in the order in which they
    /// were added.
    pub fn lengths(&self, alloc: Global) -> Result<Vec<Option<u32>>, AllocError> {
        let mut lengths = Vec::with_capacity(alloc, self.asked.len())?;
        for asked in &self.asked {
            lengths.push(asked.survey.told().map(|told| told.standing.length))?;
        }
        Ok(lengths)
    }

    /// The numbers of the desks that do not say how they are, in the order in which they were
    /// added, at this many milliseconds of the clock of [`HallDesks::keep`]: those that are not
    /// reached, that refuse, or that said so last a second ago or longer.
    pub fn away(&self, alloc: Global, now: u64) -> Result<Vec<u8>, AllocError>
        ensures { IfOk result (λ away. away.items ≡ away_in now self.now) }
    {
        away_of(alloc, &self.asked, now)
    }

    /// How many milliseconds ago, at this many milliseconds of the clock of [`HallDesks::keep`],
    /// each desk said last how it is: a line for each in the order in which they were added, `-`
    /// for one that has not said so yet.
    pub fn ages(&self, alloc: Global, now: u64) -> Result<Vec<u8>, AllocError>
        ensures { IfOk result (λ ages. ages.items ≡ ages_text now self.now) }
    {
        ages_of(alloc, &self.asked, now)
    }

    /// The number of the first desk, in the order in which they were added, that says that it is of
    /// another hall; none where none does.
    pub fn of_other_hall(&self) -> Option<u8>
        ensures { result ≡ other_of self.now.asked }
    {
        first_other(&self.asked)
    }

    /// Whether the desk with this number answers now in version 5 of the wire.
    pub fn speaks_five(&self, desk: u8) -> bool
        ensures { result ≡ one_speaks_five desk self.now.asked }
    {
        one_speaks_five(desk, &self.asked)
    }

    /// How a desk differs from others, if one has said so when it was asked last.
    pub fn differs(&self, alloc: Global) -> Result<Option<Difference>, AllocError>
        ensures { IfOk result (λ differs. Differs self.now differs) }
    {
        let told = all_told(alloc, &self.asked)?;
        Ok(difference(&told))
    }

    /// How the desks are, as a JSON object on a line, by what each answered when it was asked last.
    /// One that did not answer then, or was not asked yet, has no answer in time.
    pub fn status(&self, alloc: Global) -> Result<Vec<u8>, AllocError>
        ensures { IfOk result (λ text. IsStatus self.now text.items) }
    {
        let told = all_told(alloc, &self.asked)?;
        json_line(alloc, self.hall, &told)
    }
}
