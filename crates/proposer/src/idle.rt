//! An idle desk: how it makes a ballot, and tells its length.

use crate::fault::{Refusal, StepFault};
use crate::plan::Plan;
use crate::proposer::Proposer;
use crate::role::{Promises, Role};
use acceptor::ballot::Ballot;
use acceptor::message::Body;
use acceptor::sending::{to_all, to_others};
use acceptor::stored::{Change, Stored};
use acceptor::{MOST_ENTRIES, NoMemory};

impl Proposer {
    ghost use Rattle.std.specs.Prelude.{◌≡◌, IfOk};
    ghost use Rattle.proposer.specs.Refusals.{PlansAs, RefusesAs};
    ghost use Rattle.proposer.specs.Proposing.{start_idle, tick_idle, new_ballot};
    ghost use Rattle.proposer.specs.Proposing.{tell_length, wants_ballot};

    /// The plan of an idle desk at a Start.
    pub(crate) fn start_idle(&self, stored: &Stored, len: u32) -> Result<Plan, StepFault>
        ensures plan { let p = self.now in
            PlansAs result (start_idle p.desks p.desk stored.now len p.passing) }
        ensures refused { let p = self.now in
            RefusesAs result (start_idle p.desks p.desk stored.now len p.passing) }
    {
        if len >= MOST_ENTRIES {
            return Err(StepFault::Refused(Refusal::LogFull));
        }
        self.new_ballot(stored, len)
    }

    /// The plan of an idle desk, from time to time.
    pub(crate) fn tick_idle(&self, stored: &Stored, len: u32) -> Result<Plan, StepFault>
        ensures plan { let p = self.now in
            PlansAs result (tick_idle p.desks p.desk stored.now len p.passing) }
        ensures refused { let p = self.now in
            RefusesAs result (tick_idle p.desks p.desk stored.now len p.passing) }
    {
        if self.wants_ballot(len) {
            return self.new_ballot(stored, len);
        }
        Ok(self.tell_length(len)?)
    }

    /// Whether an entry waits, and the log has room for it.
    pub(crate) fn wants_ballot(&self, len: u32) -> bool
        ensures { result ≡ wants_ballot self.now.passing.queue len }
    {
        !self.queue().is_empty() && len < MOST_ENTRIES
    }

    /// The plan that tells the other desks how long the log is.
    pub(crate) fn tell_length(&self, len: u32) -> Result<Plan, NoMemory>
        ensures { let p = self.now in
            IfOk result (λ plan. plan ≡ tell_length p.desks p.desk len p.passing) }
    {
        let body = Body::Behind { len };
        let messages = to_others(self.allocator(), self.desks(), self.desk(), &body)?;
        Ok(self.only_say(messages))
    }

    /// The plan of a new ballot, with a number above all that the desk knows of.
    pub(crate) fn new_ballot(&self, stored: &Stored, len: u32) -> Result<Plan, StepFault>
        ensures plan { let p = self.now in
            PlansAs result (new_ballot p.desks p.desk stored.now len p.passing) }
        ensures refused { let p = self.now in
            RefusesAs result (new_ballot p.desks p.desk stored.now len p.passing) }
    {
        let last = stored.tried.max(stored.promised.number).max(self.seen());
        if last == u32::MAX {
            return Err(StepFault::Refused(Refusal::BallotsSpent));
        }
        let number = last + 1;
        let desk = self.desk();
        let ballot = Ballot { number, desk };
        let question = Body::Prepare { ballot, pos: len };
        let messages = to_all(self.allocator(), self.desks(), desk, &question)?;
        Ok(Plan {
            role: Some(Role::Gathering {
                ballot,
                pos: len,
                heard: Promises::new(self.allocator()),
            }),
            seen: self.seen(),
            drop_first: false,
            change: Some(Change::Tried(number)),
            messages,
        })
    }
}
