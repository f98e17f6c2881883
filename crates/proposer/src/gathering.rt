//! A desk that gathers promises: what it does once it has heard them.

use crate::plan::Plan;
use crate::proposer::Proposer;
use crate::role::{Promises, Role};
use acceptor::NoMemory;
use acceptor::ballot::Ballot;
use acceptor::entry::Entry;

impl Proposer {
    ghost use Rattle.std.specs.Prelude.{◌≡◌, IfOk};
    ghost use Rattle.proposer.specs.Proposing.{promises_heard, choice, highest};

    /// The plan once these desks have promised the desk's ballot.
    pub(crate) fn promises_heard(
        &self,
        own: Ballot,
        at: u32,
        heard: Promises,
    ) -> Result<Plan, NoMemory>
        ensures { let p = self.now in
            IfOk result (λ plan. plan ≡ promises_heard p.desks p.desk p.passing own at heard) }
    {
        if !self.is_majority(heard.as_slice().len()) {
            let role = Role::Gathering {
                ballot: own,
                pos: at,
                heard,
            };
            return Ok(self.take_role(role, self.no_messages()));
        }
        match self.choice(&heard)? {
            None => Ok(self.take_role(Role::Idle, self.no_messages())),
            Some(entry) => self.ask(own, at, entry),
        }
    }

    /// The entry to propose: that of the highest vote, else the first of the queue.
    fn choice(&self, heard: &Promises) -> Result<Option<Entry>, NoMemory>
        ensures { IfOk result (λ e. e ≡ choice (highest heard.now) self.now.passing.queue) }
    {
        if let Some(report) = heard.highest() {
            return Ok(Some(report.entry.copy()?));
        }
        match self.queue().first() {
            Some(entry) => Ok(Some(entry.copy()?)),
            None => Ok(None),
        }
    }
}
