//! The plans that a desk makes, by what they change.

use crate::plan::Plan;
use crate::proposer::Proposer;
use crate::role::Role;
use acceptor::entry::Entry;
use acceptor::message::Messages;
use acceptor::stored::Change;

impl Proposer {
    ghost use Rattle.std.specs.Prelude.{◌≡◌, []};
    ghost use Rattle.proposer.specs.Plans.{only_say, become, give_way, append, begins_with};

    /// The plan that changes and sends nothing. It takes no memory.
    pub fn nothing(&self) -> Plan
        ensures { result ≡ only_say self.now.passing [] }
    {
        self.only_say(self.no_messages())
    }

    /// The plan that changes nothing and sends these.
    pub fn only_say(&self, messages: Messages) -> Plan
        ensures { result ≡ only_say self.now.passing messages }
    {
        Plan {
            role: None,
            seen: self.seen(),
            drop_first: false,
            change: None,
            messages,
        }
    }

    /// The plan that only changes the role, and sends these.
    pub(crate) fn take_role(&self, role: Role, messages: Messages) -> Plan
        ensures { result ≡ become self.now.passing role messages }
    {
        Plan {
            role: Some(role),
            seen: self.seen(),
            drop_first: false,
            change: None,
            messages,
        }
    }

    /// The plan by which the desk gives its ballot up, and keeps in mind the number that was shown.
    pub(crate) fn give_way(&self, number: u32) -> Plan
        ensures { result ≡ give_way self.now.passing number }
    {
        Plan {
            role: Some(Role::Idle),
            seen: self.seen().max(number),
            drop_first: false,
            change: None,
            messages: self.no_messages(),
        }
    }

    /// The plan by which the log grows by this entry. It leaves the queue where it is the first
    /// there.
    pub fn append(&self, entry: Entry, role: Role, messages: Messages) -> Plan
        ensures { result ≡ append self.now.passing entry role messages }
    {
        Plan {
            role: Some(role),
            seen: self.seen(),
            drop_first: self.is_first(&entry),
            change: Some(Change::Appended(entry)),
            messages,
        }
    }

    /// Nothing to send.
    pub(crate) fn no_messages(&self) -> Messages
        ensures { result ≡ [] }
    {
        Messages::none(self.allocator())
    }

    /// Whether the queue begins with an equal entry.
    fn is_first(&self, entry: &Entry) -> bool
        ensures { result ≡ begins_with self.now.passing.queue entry.now }
    {
        match self.queue().first() {
            None => false,
            Some(first) => first == entry,
        }
    }
}
