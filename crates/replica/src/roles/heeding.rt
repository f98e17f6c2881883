//! Which messages a desk takes at all: those of a desk of its hall, in their ranges.

ghost use Rattle.std.specs.Prelude.{◌≡◌};
ghost use Rattle.learner.specs.Steps.{is_desk, is_real, is_in_range, is_heeded};

use acceptor::MOST_ENTRIES;
use acceptor::ballot::Ballot;
use acceptor::message::{Body, Message};

/// Whether a hall of this many desks has a desk of this number: 1 to `desks`.
pub fn is_desk(desks: u8, desk: u8) -> bool
    ensures { result ≡ is_desk desks desk }
{
    1 <= desk && desk <= desks
}

/// Whether a desk of the hall can have made the ballot.
fn is_real(desks: u8, ballot: Ballot) -> bool
    ensures { result ≡ is_real desks ballot }
{
    1 <= ballot.number && is_desk(desks, ballot.desk)
}

/// Whether the fields are in their ranges: ballots are real, positions below 65,536, lengths no
/// greater.
fn is_in_range(desks: u8, body: &Body) -> bool
    ensures { result ≡ is_in_range desks body.now }
{
    match body {
        Body::Prepare { ballot, pos } => is_real(desks, *ballot) && *pos < MOST_ENTRIES,
        Body::Promise { ballot, pos, vote } => match vote {
            None => is_real(desks, *ballot) && *pos < MOST_ENTRIES,
            Some(report) => {
                is_real(desks, *ballot) && *pos < MOST_ENTRIES && is_real(desks, report.ballot)
            }
        },
        Body::Accept { ballot, pos, .. } => is_real(desks, *ballot) && *pos < MOST_ENTRIES,
        Body::Accepted { ballot, pos } => is_real(desks, *ballot) && *pos < MOST_ENTRIES,
        Body::Nack {
            ballot,
            pos,
            promised,
        } => is_real(desks, *ballot) && *pos < MOST_ENTRIES && is_real(desks, *promised),
        Body::Behind { len } => *len <= MOST_ENTRIES,
        Body::Decided { pos, .. } => *pos < MOST_ENTRIES,
    }
}

/// Whether a desk heeds a message: it is to this desk, from a desk of the hall, and its fields are
/// in their ranges.
pub fn is_heeded(desks: u8, desk: u8, message: &Message) -> bool
    ensures { result ≡ is_heeded desks desk message.now }
{
    message.to == desk && is_desk(desks, message.from) && is_in_range(desks, &message.body)
}
