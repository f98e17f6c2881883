//! What of a meet a competition's file has no place for.

use formats::Event;
use std::fmt;
use wcif::Quoted;

/// What of a meet a competition's file has no place for. `name` is the last that the number was
/// given, and `other` that of the file's person.
#[derive(Drop)]
pub enum MeetFault {
    /// The file has no round with the id, and the round has a result.
    NoRound {
        event: Event,
        round: u8,
    },
    /// No person of the file has the number of an entrant as the `registrantId`.
    NoPerson {
        event: Event,
        round: u8,
        number: u16,
        name: Quoted,
    },
    /// The registration of the file's person with the number is not accepted.
    NotAccepted {
        event: Event,
        round: u8,
        number: u16,
        name: Quoted,
        other: Quoted,
    },
    /// The number was never given the name of the file's person.
    OtherName {
        event: Event,
        round: u8,
        number: u16,
        name: Quoted,
        other: Quoted,
    },
}

impl fmt::Display for MeetFault {
    fn fmt<W: fmt::Write>(&self, f: &mut fmt::Formatter<W>) -> fmt::Result {
        match self {
            MeetFault::NoRound { event, round } => {
                write!(f, "{}-r{round}: the file has no such round", event.name())
            }
            MeetFault::NoPerson {
                event,
                round,
                number,
                name,
            } => write!(
                f,
                "{}-r{round}: number {number} is {name}, and nobody in the file",
                event.name()
            ),
            MeetFault::NotAccepted {
                event,
                round,
                number,
                name,
                other,
            } => write!(
                f,
                "{}-r{round}: number {number} is {name}, and in the file {other}, not accepted",
                event.name()
            ),
            MeetFault::OtherName {
                event,
                round,
                number,
                name,
                other,
            } => write!(
                f,
                "{}-r{round}: number {number} is {name}, and in the file {other}",
                event.name()
            ),
        }
    }
}
