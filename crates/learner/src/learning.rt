//! How a desk learns what is decided, and catches up.

ghost use Rattle.std.specs.Prelude.{◌≡◌, ◌≤◌, IfOk, IsOk, take, drop};
ghost use Rattle.learner.specs.Learning.{decided_plan, behind_plan, told, longest_run};
ghost use Rattle.proposer.specs.Plans.{IsNothing};

use crate::log::Log;
use acceptor::message::{Body, Message, Messages};
use acceptor::sending::to_one;
use acceptor::{MOST_ENTRIES, NoMemory};
use proposer::plan::Plan;
use proposer::proposer::Proposer;
use proposer::role::Role;
use std::alloc::Global;

/// The most entries that a desk is sent at once.
const LONGEST_RUN: u32 = 16;

/// What the desk plans at a Decided. Another message plans nothing here.
///
/// An entry for the next position is appended, the desk is idle, and the answer is the new length.
/// An entry for a later position is answered by the log's length, so that the sender tells what is
/// missing. One for an earlier position changes and sends nothing, and takes no memory. Where
/// memory is refused, the answer is NoMemory.
pub fn on_decided(
    alloc: Global,
    log: &Log,
    proposer: &Proposer,
    message: &Message,
) -> Result<Plan, NoMemory>
    ensures plan { let step = decided_plan log.now.entries proposer.now message.now in
        IfOk result (λ plan. plan ≡ step) }
    ensures quiet { let step = decided_plan log.now.entries proposer.now message.now in
        IsNothing step → IsOk result }
{
    if let Body::Decided { pos, entry } = &message.body {
        let len = log.len();
        if *pos == len {
            let entry = entry.copy_in(alloc)?;
            let answer = Body::Behind { len: len + 1 };
            let messages = to_one(alloc, proposer.desk(), message.from, answer)?;
            let role = Role::Idle;
            return Ok(proposer.append(entry, role, messages));
        }
        if *pos > len {
            let answer = Body::Behind { len };
            let messages = to_one(alloc, proposer.desk(), message.from, answer)?;
            return Ok(proposer.only_say(messages));
        }
    }
    Ok(proposer.nothing())
}

/// What a desk is sent whose log ends at position `first`: the entries from there on, at most 16,
/// in order of position, each by a message of its own.
fn tell(alloc: Global, log: &Log, from: u8, to: u8, first: u32) -> Result<Messages, NoMemory>
    requires { first ≤ MOST_ENTRIES }
    ensures { let run = take longest_run (drop first log.now.entries) in
        IfOk result (λ ms. ms ≡ told from to first run) }
{
    let mut messages = Vec::new(alloc);
    for pos in first..first + LONGEST_RUN {
        if let Some(entry) = log.entry(pos) {
            let entry = entry.copy_in(alloc)?;
            let body = Body::Decided { pos, entry };
            messages.push(Message { from, to, body })?;
        }
    }
    Ok(Messages::from_vec(messages))
}

/// What the desk plans at a Behind. Another message plans nothing here.
///
/// A desk whose log is shorter is sent the entries from its length on, at most 16 and up to the end
/// of this log, each by a message of its own, in order of position. One whose log is longer is
/// answered by this log's length, so that it tells what is missing here. At equal lengths nothing
/// is sent, and no memory is taken. Where memory is refused, the answer is NoMemory.
#[tactic(auto, using(crate::proofs::Told::told_nothing))]
pub fn on_behind(
    alloc: Global,
    log: &Log,
    proposer: &Proposer,
    message: &Message,
) -> Result<Plan, NoMemory>
    ensures plan { let step = behind_plan log.now.entries proposer.now message.now in
        IfOk result (λ plan. plan ≡ step) }
    ensures quiet { let step = behind_plan log.now.entries proposer.now message.now in
        IsNothing step → IsOk result }
{
    if let Body::Behind { len: theirs } = &message.body {
        let len = log.len();
        if *theirs > len {
            let answer = Body::Behind { len };
            let messages = to_one(alloc, proposer.desk(), message.from, answer)?;
            return Ok(proposer.only_say(messages));
        }
        if *theirs < len {
            let messages = tell(alloc, log, proposer.desk(), message.from, *theirs)?;
            return Ok(proposer.only_say(messages));
        }
    }
    Ok(proposer.nothing())
}
