//! A desk that leads: a majority has promised its ballot, which serves all later positions until a
//! higher one is promised.

use crate::fault::{Refusal, StepFault};
use crate::plan::Plan;
use crate::proposer::Proposer;
use acceptor::ballot::Ballot;
use acceptor::stored::Stored;
use acceptor::{MOST_ENTRIES, NoMemory};

impl Proposer {
    ghost use Rattle.std.specs.Prelude.{◌≡◌, [], IfOk, IsOk, IsOkAnd};
    ghost use Rattle.proposer.specs.Plans.{IsNothing};
    ghost use Rattle.proposer.specs.Refusals.{PlansAs, RefusesAs};
    ghost use Rattle.proposer.specs.Proposing.{start_leading, tick_leading, ask_next};

    /// The plan of a desk that leads by this ballot, at a Start.
    pub(crate) fn start_leading(
        &self,
        stored: &Stored,
        len: u32,
        own: Ballot,
    ) -> Result<Plan, StepFault>
        ensures plan { let p = self.now in
            PlansAs result (start_leading p.desks p.desk stored.now len p.passing own) }
        ensures refused { let p = self.now in
            RefusesAs result (start_leading p.desks p.desk stored.now len p.passing own) }
        ensures quiet { let p = self.now in
            IsOkAnd (start_leading p.desks p.desk stored.now len p.passing own) IsNothing
            → IsOk result }
    {
        if len >= MOST_ENTRIES {
            return Err(StepFault::Refused(Refusal::LogFull));
        }
        if own.is_below(stored.promised) {
            return self.new_ballot(stored, len);
        }
        Ok(self.ask_next(len, own)?)
    }

    /// The plan of a desk that leads by this ballot, from time to time.
    pub(crate) fn tick_leading(
        &self,
        stored: &Stored,
        len: u32,
        own: Ballot,
    ) -> Result<Plan, StepFault>
        ensures plan { let p = self.now in
            PlansAs result (tick_leading p.desks p.desk stored.now len p.passing own) }
        ensures refused { let p = self.now in
            RefusesAs result (tick_leading p.desks p.desk stored.now len p.passing own) }
    {
        if own.is_below(stored.promised) {
            return self.tick_idle(stored, len);
        }
        if self.wants_ballot(len) {
            return Ok(self.ask_next(len, own)?);
        }
        Ok(self.tell_length(len)?)
    }

    /// The plan to ask for votes for the first of the queue, by a ballot that was promised already.
    fn ask_next(&self, len: u32, own: Ballot) -> Result<Plan, NoMemory>
        ensures plan { let p = self.now in
            IfOk result (λ plan. plan ≡ ask_next p.desks p.desk len p.passing own p.passing.queue) }
        ensures quiet { self.now.passing.queue ≡ [] → IsOk result }
    {
        match self.queue().first() {
            None => Ok(self.nothing()),
            Some(entry) => self.ask(own, len, entry.copy()?),
        }
    }
}
