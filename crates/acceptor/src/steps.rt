//! What a desk stores and answers when it is asked for a promise or for a vote.

ghost use Rattle.std.specs.Prelude.{◌≡◌, IfOk};
ghost use Rattle.acceptor.specs.Answers.{reported, elsewhere, entry_there, promise_reply};
ghost use Rattle.acceptor.specs.Answers.{vote_reply};

use crate::NoMemory;
use crate::ballot::Ballot;
use crate::entry::Entry;
use crate::message::{Body, Report};
use crate::stored::{Change, Stored, Vote};
use std::alloc::Global;

/// A desk's log, as far as one step needs it: its length, 0 to 65,536, and the entry at the asked
/// position, where there is one.
#[derive(Clone, Copy, Debug)]
pub struct LogView<'a> {
    pub len: u32,
    pub entry: Option<&'a Entry>,
}

/// What a desk stores and answers when it is asked for a promise, by a Prepare of this ballot at
/// this position ('Paxos Made Simple', section 2.2, phase 1b).
///
/// At its log's length it promises a ballot above the one that it has promised, and reports its
/// vote where that was given at this very position; any other ballot is answered by a Nack. At a
/// position of its log it answers with the decided entry, and past its log's end with the log's
/// length. Where memory is refused, the answer is NoMemory.
pub fn on_prepare(
    alloc: Global,
    stored: &Stored,
    here: LogView,
    ballot: Ballot,
    pos: u32,
) -> Result<(Option<Change>, Body), NoMemory>
    ensures change { IfOk result
        (λ r. r.0 ≡ (promise_reply stored.now here.entry ballot pos).change) }
    ensures body { IfOk result
        (λ r. r.1 ≡ (promise_reply stored.now here.entry ballot pos).body) }
{
    if pos != here.len {
        return Ok((None, told(alloc, here, pos)?));
    }
    let promised = stored.promised;
    if !promised.is_below(ballot) {
        return Ok((
            None,
            Body::Nack {
                ballot,
                pos,
                promised,
            },
        ));
    }
    let vote = report(alloc, &stored.vote, pos)?;
    Ok((
        Some(Change::Promised(ballot)),
        Body::Promise { ballot, pos, vote },
    ))
}

/// What a desk stores and answers when it is asked for its vote, by an Accept of this ballot at
/// this position for this entry ('Paxos Made Simple', section 2.2, phase 2b).
///
/// At its log's length it votes, unless it has promised a higher ballot: then it answers with a
/// Nack. At any other position it answers as to a Prepare. Where memory is refused, the answer is
/// NoMemory.
pub fn on_accept(
    alloc: Global,
    stored: &Stored,
    here: LogView,
    ballot: Ballot,
    pos: u32,
    entry: &Entry,
) -> Result<(Option<Change>, Body), NoMemory>
    ensures change { IfOk result
        (λ r. r.0 ≡ (vote_reply stored.now here.entry ballot pos entry.now).change) }
    ensures body { IfOk result
        (λ r. r.1 ≡ (vote_reply stored.now here.entry ballot pos entry.now).body) }
{
    if pos != here.len {
        return Ok((None, told(alloc, here, pos)?));
    }
    let promised = stored.promised;
    if ballot.is_below(promised) {
        return Ok((
            None,
            Body::Nack {
                ballot,
                pos,
                promised,
            },
        ));
    }
    let vote = Vote {
        pos,
        ballot,
        entry: entry.copy_in(alloc)?,
    };
    Ok((Some(Change::Voted(vote)), Body::Accepted { ballot, pos }))
}

/// The vote as a Promise reports it, where it was given at this position.
fn report(alloc: Global, vote: &Option<Vote>, pos: u32) -> Result<Option<Report>, NoMemory>
    ensures { IfOk result (λ r. r ≡ reported vote.now pos) }
{
    match vote {
        Some(vote) if vote.pos == pos => Ok(Some(Report {
            ballot: vote.ballot,
            entry: vote.entry.copy_in(alloc)?,
        })),
        _ => Ok(None),
    }
}

/// What is answered at a position that is not the log's length.
fn told(alloc: Global, here: LogView, pos: u32) -> Result<Body, NoMemory>
    ensures { IfOk result
        (λ b. b ≡ (elsewhere (entry_there here.entry) here.entry.len pos).body) }
{
    match here.entry {
        Some(there) => Ok(Body::Decided {
            pos,
            entry: there.copy_in(alloc)?,
        }),
        None => Ok(Body::Behind { len: here.len }),
    }
}
