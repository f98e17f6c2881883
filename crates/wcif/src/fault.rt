//! What a desk cannot hold of a competition.

use crate::quoted::Quoted;
use formats::Event;
use std::fmt;
use thiserror::Error;

/// What a desk cannot hold of a round.
#[derive(Clone, Copy, Debug, PartialEq, Eq, Error)]
pub enum RoundFault {
    /// The id is not the event's, `-r` and the number of the round.
    #[error("the id is not that of this round")]
    Id,
    /// The format is not one that the event has at a desk.
    #[error("the desk has no such format for the event")]
    Format,
    /// The cutoff is not 1 to 4 attempts, fewer than the format has, and a result of 1 to 360,000;
    /// or multi-blind has one.
    #[error("the desk cannot hold the cutoff")]
    Cutoff,
    /// The time limit is not 1 to 360,000 hundredths of a second; or a timed event has none, or
    /// another event has one.
    #[error("the desk cannot hold the time limit")]
    Limit,
    /// The time limit is for several attempts together.
    #[error("cumulative limit: enter the limit that holds for one attempt")]
    CumulativeLimit,
    /// Those advance who have some result.
    #[error("advancement by a result: enter a ranking or a percentage")]
    AdvanceByResult,
    /// Who advances is not a ranking of 1 to 999 or 1 to 75 percent.
    #[error("advancement is by a ranking of 1 to 999 or by 1 to 75 percent")]
    Advance,
}

/// What a desk cannot hold of an accepted person.
#[derive(Clone, Copy, Debug, PartialEq, Eq, Error)]
pub enum PersonFault {
    /// The number is missing, or is no whole number.
    #[error("the registrantId is missing")]
    NoNumber,
    /// The number is not 1 to 9,999.
    #[error("the registrantId is not 1 to 9999")]
    NumberOutOfRange,
    /// An accepted person in front has the number.
    #[error("another accepted person has this registrantId")]
    NumberTaken,
    /// The name is missing, or empty.
    #[error("the name is missing")]
    NoName,
    /// The name has more than 160 bytes.
    #[error("the name has more than 160 bytes")]
    LongName,
    /// The name has a double quote.
    #[error("the name has a double quote")]
    QuoteInName,
    /// The name has a space at an end, two in a row, or a character that is not seen.
    #[error("the name has a space too many, or a character that is not seen")]
    BadName,
    /// An accepted person in front has the name.
    #[error("another accepted person has this name")]
    NameTaken,
    /// The registration has no list of events.
    #[error("no list of events in the registration")]
    NoEvents,
    /// The list of events has more than 100 items.
    #[error("more than 100 events in the registration")]
    TooManyEvents,
    /// The item of the list at this place, from 1, is no event of the file.
    #[error("event {item} of the registration is not held")]
    NotHeld { item: usize },
    /// The item of the list at this place, from 1, is in front of it too.
    #[error("event {item} of the registration stands there twice")]
    EnteredTwice { item: usize },
}

/// What a desk cannot hold of an event.
#[derive(Clone, Copy, Debug, PartialEq, Eq, Error)]
pub enum EventFault {
    /// It is no event of a desk.
    #[error("the desk has no such event")]
    Unknown,
    /// It is in the list more than once.
    #[error("the event stands there twice")]
    Repeated,
    /// More than 999 accepted persons are registered for it.
    #[error("more than 999 accepted persons")]
    TooManyEntrants,
    /// It has no round.
    #[error("no rounds")]
    NoRounds,
    /// It has more than four rounds.
    #[error("more than 4 rounds")]
    TooManyRounds,
}

/// A person of the file: the first 160 bytes of the name, and the number where there is one.
#[derive(Debug, Drop)]
pub struct FilePerson {
    pub name: Quoted,
    pub number: Option<u64>,
}

impl fmt::Display for FilePerson {
    fn fmt<W: fmt::Write>(&self, f: &mut fmt::Formatter<W>) -> fmt::Result {
        self.name.fmt(f)?;
        match self.number {
            Some(number) => write!(f, " ({number})"),
            None => Ok(()),
        }
    }
}

/// What a desk cannot hold of a competition.
#[derive(Debug, Drop, Error)]
pub enum CompetitionFault {
    /// There is no list of persons.
    #[error("no list of persons")]
    NoPersons,
    /// There is no list of events.
    #[error("no list of events")]
    NoEvents,
    /// There are more than 100 events.
    #[error("more than 100 events")]
    TooManyEvents,
    /// Of the person at this place in the list, from 1.
    #[error("person {place}, {who}: {fault}")]
    Person {
        place: usize,
        who: FilePerson,
        fault: PersonFault,
    },
    /// Of the event at this place in the list, from 1.
    #[error("event {place}: {fault}")]
    Event {
        place: usize,
        fault: EventFault,
    },
    /// Of the round of an event with this number.
    #[error("{}-r{round}: {fault}", .event.name(), round = .round, fault = .fault)]
    Round {
        event: Event,
        round: u8,
        fault: RoundFault,
    },
}
