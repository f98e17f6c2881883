//! Equal copies of a vote, a state and a log.

ghost use Rattle.std.specs.Prelude.{◌≡◌, ◌≤◌, IfOk, length};
ghost use Rattle.store.specs.Ranges.{most_entries};

use crate::NoMemory;
use acceptor::stored::{Change, Stored, Vote};
use learner::log::{Log, ReserveFault};
use std::alloc::Global;

/// An equal vote.
pub fn copy_vote(alloc: Global, vote: &Vote) -> Result<Vote, NoMemory>
    ensures { IfOk result (λ v. v ≡ vote.now) }
{
    let entry = vote.entry.copy_in(alloc)?;
    Ok(Vote {
        pos: vote.pos,
        ballot: vote.ballot,
        entry,
    })
}

/// An equal state.
pub fn copy_stored(alloc: Global, stored: &Stored) -> Result<Stored, NoMemory>
    ensures { IfOk result (λ s. s ≡ stored.now) }
{
    let vote = match &stored.vote {
        None => None,
        Some(vote) => Some(copy_vote(alloc, vote)?),
    };
    Ok(Stored {
        promised: stored.promised,
        vote,
        tried: stored.tried,
    })
}

/// An equal change.
pub fn copy_change(alloc: Global, change: &Change) -> Result<Change, NoMemory>
    ensures { IfOk result (λ c. c ≡ change.now) }
{
    Ok(match change {
        Change::Promised(ballot) => Change::Promised(*ballot),
        Change::Voted(vote) => Change::Voted(copy_vote(alloc, vote)?),
        Change::Tried(number) => Change::Tried(*number),
        Change::Appended(entry) => Change::Appended(entry.copy_in(alloc)?),
    })
}

/// A log with equal entries.
pub fn copy_log(alloc: Global, log: &Log) -> Result<Log, NoMemory>
    ensures copy { IfOk result (λ copy. copy.entries ≡ log.now.entries) }
    ensures long { length log.now.entries ≤ most_entries }
{
    let len = log.len();
    let mut copy = Log::new(alloc)?;
    for pos in 0..len {
        let Some(entry) = log.entry(pos) else {
            break;
        };
        let entry = entry.copy_in(alloc)?;
        match copy.reserve() {
            Ok(()) => copy.append(entry),
            // The copy is not full, since the log that is copied has more entries.
            Err(ReserveFault::LogFull | ReserveFault::NoMemory) => return Err(NoMemory),
        }
    }
    Ok(copy)
}
