//! What a desk plans at each event that its role answers.

use crate::fault::StepFault;
use crate::plan::Plan;
use crate::proposer::Proposer;
use crate::role::Role;
use acceptor::NoMemory;
use acceptor::message::{Body, Message};
use acceptor::stored::Stored;

impl Proposer {
    ghost use Rattle.std.specs.Prelude.{◌≡◌, IfOk, IsOk, Ok, IsOkAnd};
    ghost use Rattle.proposer.specs.Plans.{IsNothing};
    ghost use Rattle.proposer.specs.Refusals.{PlansAs, RefusesAs};
    ghost use Rattle.proposer.specs.Sides.{start_plan, tick_plan, promise_plan};
    ghost use Rattle.proposer.specs.Sides.{accepted_plan, nack_plan};

    /// What the desk plans at a Start, where this is stored and the log is `len` long.
    ///
    /// An idle desk makes a new ballot. One that leads proposes the first of its queue by its own
    /// ballot, or does nothing where the queue is empty; but where it has promised a higher ballot,
    /// it makes a new one. Any other does nothing.
    ///
    /// A desk that is idle or leads, with 65,536 entries in the log, is LogFull. Else, where a new
    /// ballot is due and the greatest number that the desk knows of is 2^32 - 1, the answer is
    /// BallotsSpent. Else, where memory is refused, it is NoMemory; a desk that does nothing takes
    /// none.
    pub fn start(&self, stored: &Stored, len: u32) -> Result<Plan, StepFault>
        ensures plan { PlansAs result (start_plan self.now stored.now len) }
        ensures refused { RefusesAs result (start_plan self.now stored.now len) }
        ensures quiet { IsOkAnd (start_plan self.now stored.now len) IsNothing → IsOk result }
    {
        match self.role() {
            Role::Idle => self.start_idle(stored, len),
            Role::Gathering { .. } | Role::Proposing { .. } => Ok(self.nothing()),
            Role::Leading { ballot } => self.start_leading(stored, len, *ballot),
        }
    }

    /// What the desk plans from time to time, where this is stored and the log is `len` long.
    ///
    /// An idle desk makes a new ballot where an entry waits and the log has room, else it tells the
    /// others how long its log is. One that leads does likewise, but proposes by its own ballot
    /// unless it has promised a higher one. A desk that gathers promises makes a new ballot. One
    /// that proposes asks again those that it has not heard. Where a new ballot is due and the
    /// greatest number that the desk knows of is 2^32 - 1, the answer is BallotsSpent. Else, where
    /// memory is refused, it is NoMemory.
    pub fn tick(&self, stored: &Stored, len: u32) -> Result<Plan, StepFault>
        ensures plan { PlansAs result (tick_plan self.now stored.now len) }
        ensures refused { RefusesAs result (tick_plan self.now stored.now len) }
    {
        match self.role() {
            Role::Idle => self.tick_idle(stored, len),
            Role::Gathering { .. } => self.new_ballot(stored, len),
            Role::Proposing {
                ballot,
                pos,
                entry,
                heard,
            } => Ok(self.ask_again(*ballot, *pos, entry, heard)?),
            Role::Leading { ballot } => self.tick_leading(stored, len, *ballot),
        }
    }

    /// What the desk plans at a Promise. Another message plans nothing here.
    ///
    /// A Promise of the ballot and position that the desk gathers for, from a desk not yet heard,
    /// is recorded. At a majority the desk proposes the entry of the highest vote that was
    /// reported, else the first of the queue, and with neither becomes idle. A message that plans
    /// nothing takes no memory. Where memory is refused, the answer is NoMemory.
    pub fn on_promise(&self, message: &Message) -> Result<Plan, NoMemory>
        ensures plan { IfOk result (λ plan. plan ≡ promise_plan self.now message.now) }
        ensures quiet { IsNothing (promise_plan self.now message.now) → IsOk result }
    {
        if let Body::Promise { ballot, pos, vote } = &message.body {
            if let Role::Gathering {
                ballot: own,
                pos: at,
                heard,
            } = self.role()
            {
                let has_promised = heard.has(message.from);
                if *own == *ballot && *at == *pos && !has_promised {
                    let heard = heard.with(message.from, vote)?;
                    return self.promises_heard(*own, *at, heard);
                }
            }
        }
        Ok(self.nothing())
    }

    /// What the desk plans at an Accepted. Another message plans nothing here.
    ///
    /// An Accepted of the ballot and position that the desk proposes for, from a desk not yet
    /// heard, is recorded. At a majority the log grows by the entry, all other desks are sent it,
    /// and the desk leads by its ballot. A message that plans nothing takes no memory. Where memory
    /// is refused, the answer is NoMemory.
    pub fn on_accepted(&self, message: &Message) -> Result<Plan, NoMemory>
        ensures plan { IfOk result (λ plan. plan ≡ accepted_plan self.now message.now) }
        ensures quiet { IsNothing (accepted_plan self.now message.now) → IsOk result }
    {
        if let Body::Accepted { ballot, pos } = &message.body {
            if let Role::Proposing {
                ballot: own,
                pos: at,
                entry,
                heard,
            } = self.role()
            {
                let has_voted = heard.has(message.from);
                if *own == *ballot && *at == *pos && !has_voted {
                    let heard = heard.with(message.from)?;
                    return self.votes_heard(*own, *at, entry, heard);
                }
            }
        }
        Ok(self.nothing())
    }

    /// What the desk plans at a Nack. Another message plans nothing here.
    ///
    /// Where the Nack is of the role's ballot and shows a higher one, the desk gives its ballot up,
    /// and its next one will be above the one shown. It takes no memory: the answer is always Ok.
    pub fn on_nack(&self, message: &Message) -> Result<Plan, NoMemory>
        ensures { result ≡ Ok (nack_plan self.now message.now) }
    {
        if let Body::Nack {
            ballot,
            promised,
            ..
        } = &message.body
        {
            if self.role().has_ballot(*ballot) && ballot.is_below(*promised) {
                return Ok(self.give_way(promised.number));
            }
        }
        Ok(self.nothing())
    }
}
