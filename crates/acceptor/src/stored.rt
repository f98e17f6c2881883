//! What a desk keeps in stable storage, beside its log.

use crate::ballot::Ballot;
use crate::entry::Entry;

/// The last vote of a desk: for this entry, at this position, at the request of this ballot.
#[derive(PartialEq, Eq, Debug, Drop)]
pub struct Vote {
    /// The position in the log, 0 to 65,535.
    pub pos: u32,
    pub ballot: Ballot,
    pub entry: Entry,
}

/// What a desk stores beside its log, and finds again after a restart.
#[derive(PartialEq, Eq, Debug, Drop)]
pub struct Stored {
    /// The highest ballot that the desk has promised, first (0, 0).
    pub promised: Ballot,
    pub vote: Option<Vote>,
    /// The number of the last ballot that the desk has made, first 0.
    pub tried: u32,
}

impl Stored {
    ghost use Rattle.std.specs.Prelude.{◌≡◌};
    ghost use Rattle.acceptor.specs.Storing.{first_stored};

    /// What a desk has stored before its first event.
    pub fn new() -> Stored
        ensures { result ≡ first_stored }
    {
        Stored {
            promised: Ballot::none(),
            vote: None,
            tried: 0,
        }
    }
}

/// The one change that a step stores, before any of its messages is sent.
#[derive(PartialEq, Eq, Debug, Drop)]
pub enum Change {
    /// This ballot is promised.
    Promised(Ballot),
    /// This is the vote, and its ballot is promised.
    Voted(Vote),
    /// This is the number of the last ballot.
    Tried(u32),
    /// The log grows by this entry.
    Appended(Entry),
}
