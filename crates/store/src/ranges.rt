//! Whether a state is in its ranges.

ghost use Rattle.std.specs.Prelude.{◌↔◌, IsTrue};
ghost use Rattle.store.specs.Ranges.{StoredIsFit, VoteIsFit};
ghost use Rattle.learner.specs.Ranges.{IsReal};

use acceptor::MOST_ENTRIES;
use acceptor::ballot::Ballot;
use acceptor::stored::{Stored, Vote};

fn is_real(desks: u8, ballot: Ballot) -> bool
    ensures { IsTrue result ↔ IsReal desks ballot }
{
    ballot.number >= 1 && ballot.desk >= 1 && ballot.desk <= desks
}

fn vote_is_fit(desks: u8, promised: Ballot, vote: &Option<Vote>) -> bool
    ensures { IsTrue result ↔ VoteIsFit desks promised vote.now }
{
    match vote {
        None => true,
        Some(vote) => {
            vote.pos < MOST_ENTRIES
                && is_real(desks, vote.ballot)
                && !promised.is_below(vote.ballot)
        }
    }
}

/// Whether the promised ballot and the vote are in their ranges.
pub fn is_fit(desks: u8, stored: &Stored) -> bool
    ensures { IsTrue result ↔ StoredIsFit desks stored.now }
{
    let promised = stored.promised;
    (promised == Ballot::none() || is_real(desks, promised))
        && vote_is_fit(desks, promised, &stored.vote)
}
