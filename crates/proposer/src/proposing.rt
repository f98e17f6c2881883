//! A desk that proposes: how it asks for votes, and what it does once it has heard them.

use crate::plan::Plan;
use crate::proposer::Proposer;
use crate::role::Role;
use crate::votes::Votes;
use acceptor::NoMemory;
use acceptor::ballot::Ballot;
use acceptor::entry::Entry;
use acceptor::message::Body;
use acceptor::sending::{to_all, to_others, to_unheard};

impl Proposer {
    ghost use Rattle.std.specs.Prelude.{◌≡◌, IfOk};
    ghost use Rattle.proposer.specs.Proposing.{ask, ask_again, votes_heard};

    /// The plan to ask all desks for their votes.
    pub(crate) fn ask(&self, own: Ballot, at: u32, entry: Entry) -> Result<Plan, NoMemory>
        ensures { let p = self.now in
            IfOk result (λ plan. plan ≡ ask p.desks p.desk p.passing own at entry) }
    {
        let question = Body::Accept {
            ballot: own,
            pos: at,
            entry: entry.copy()?,
        };
        let messages = to_all(self.allocator(), self.desks(), self.desk(), &question)?;
        let role = Role::Proposing {
            ballot: own,
            pos: at,
            entry,
            heard: Votes::new(self.allocator()),
        };
        Ok(self.take_role(role, messages))
    }

    /// The plan to ask the desks that have not voted, once more and for the same entry.
    pub(crate) fn ask_again(
        &self,
        own: Ballot,
        at: u32,
        entry: &Entry,
        heard: &Votes,
    ) -> Result<Plan, NoMemory>
        ensures { let p = self.now in
            let step = ask_again p.desks p.desk p.passing own at entry.now heard.now in
            IfOk result (λ plan. plan ≡ step) }
    {
        let again = entry.copy()?;
        let question = Body::Accept {
            ballot: own,
            pos: at,
            entry: again,
        };
        let heard = heard.as_slice();
        let messages = to_unheard(
            self.allocator(),
            self.desks(),
            self.desk(),
            heard,
            &question,
        )?;
        Ok(self.only_say(messages))
    }

    /// The plan once these desks have voted for the desk's entry.
    pub(crate) fn votes_heard(
        &self,
        own: Ballot,
        at: u32,
        entry: &Entry,
        heard: Votes,
    ) -> Result<Plan, NoMemory>
        ensures { let p = self.now in
            let step = votes_heard p.desks p.desk p.passing own at entry.now heard in
            IfOk result (λ plan. plan ≡ step) }
    {
        let entry = entry.copy()?;
        let count = heard.as_slice().len();
        if !self.is_majority(count) {
            let role = Role::Proposing {
                ballot: own,
                pos: at,
                entry,
                heard,
            };
            return Ok(self.take_role(role, self.no_messages()));
        }
        let news = Body::Decided {
            pos: at,
            entry: entry.copy()?,
        };
        let messages = to_others(self.allocator(), self.desks(), self.desk(), &news)?;
        let role = Role::Leading { ballot: own };
        Ok(self.append(entry, role, messages))
    }
}
