//! Which lines about another desk are due, so that what lasts for hours isn't said each second.

ghost use Rattle.std.specs.Prelude.{◌≡◌, None, Some};
ghost use Rattle.links.specs.Outages.{is_free, told, line_of, failed_in, reached_in, new_telling};
ghost use Rattle.links.specs.Outages.{after_due, due_line, failing, reaching, after_foreign};
ghost use Rattle.links.specs.Outages.{foreign_line};

use std::marker::Model;

/// The least time between two lines about a desk, in milliseconds.
const APART: u64 = 1000;

/// A line about another desk.
#[derive(Clone, Copy, PartialEq, Eq, Debug)]
pub enum Notice {
    /// It can't be reached.
    Unreachable,
    /// It was reached again, this many whole seconds after the first failure.
    Reached { seconds: u64 },
    /// What answers there is no desk of this hall.
    Foreign,
}

/// What is known of another desk, and what of it was said. Times are milliseconds.
#[derive(Clone, Copy, PartialEq, Eq, Debug)]
pub enum Outage {
    /// It can be reached, as far as is known.
    Reachable,
    /// It can't be reached since this time, which isn't said yet.
    Untold { since: u64 },
    /// It can't be reached since this time, which is said.
    Told { since: u64 },
    /// It couldn't be reached from the one time to the other. The first is said, the second isn't.
    Back { since: u64, until: u64 },
}

/// The line that this makes due.
fn line_of(outage: Outage) -> Option<Notice>
    ensures { result ≡ line_of outage }
{
    match outage {
        Outage::Reachable | Outage::Told { .. } => None,
        Outage::Untold { .. } => Some(Notice::Unreachable),
        Outage::Back { since, until } => Some(Notice::Reached {
            seconds: until.saturating_sub(since) / 1000,
        }),
    }
}

/// The outage once its line is written.
fn told(outage: Outage) -> Outage
    ensures { result ≡ told outage }
{
    match outage {
        Outage::Reachable | Outage::Back { .. } => Outage::Reachable,
        Outage::Untold { since } | Outage::Told { since } => Outage::Told { since },
    }
}

/// The outage after a failure.
fn failed_in(outage: Outage, now: u64) -> Outage
    ensures { result ≡ failed_in outage now }
{
    match outage {
        Outage::Reachable => Outage::Untold { since: now },
        Outage::Untold { since } => Outage::Untold { since },
        Outage::Told { since } | Outage::Back { since, .. } => Outage::Told { since },
    }
}

/// The outage after the desk was reached.
fn reached_in(outage: Outage, now: u64) -> Outage
    ensures { result ≡ reached_in outage now }
{
    match outage {
        Outage::Reachable | Outage::Untold { .. } => Outage::Reachable,
        Outage::Told { since } => Outage::Back { since, until: now },
        Outage::Back { since, until } => Outage::Back { since, until },
    }
}

/// The lines about one other desk: at most one in 1,000 milliseconds. That it can't be reached is
/// said once, and that it was reached again is said only after that. What can't be said at once is
/// said by a later call, unless it is no longer so.
#[derive(Drop)]
pub struct Notices {
    last: Option<u64>,
    outage: Outage,
}

impl Model for Notices {
    ghost use Rattle.links.specs.Outages.{Telling};

    ghost Value = { Telling };

    ghost view = { λ n. record { last = n.last; outage = n.outage } };
}

impl Notices {
    /// Nothing is said yet, and the desk can be reached, as far as is known.
    pub fn new() -> Notices
        ensures { result ≡ new_telling }
    {
        Notices {
            last: None,
            outage: Outage::Reachable,
        }
    }

    /// Whether a line may be written now: none was written, or the last one 1,000 milliseconds ago.
    fn is_free(&self, now: u64) -> bool
        ensures { result ≡ is_free self.now.last now }
    {
        match self.last {
            None => true,
            Some(last) => now.saturating_sub(last) >= APART,
        }
    }

    /// A connection to the desk failed. The line that is due, if one is.
    pub fn failed(&mut self, now: u64) -> Option<Notice>
        ensures line { result ≡ due_line (failing self.old now) now }
        ensures new { self.new ≡ after_due (failing self.old now) now }
    {
        self.outage = failed_in(self.outage, now);
        self.due(now)
    }

    /// A connection to the desk was opened. The line that is due, if one is.
    pub fn reached(&mut self, now: u64) -> Option<Notice>
        ensures line { result ≡ due_line (reaching self.old now) now }
        ensures new { self.new ≡ after_due (reaching self.old now) now }
    {
        self.outage = reached_in(self.outage, now);
        self.due(now)
    }

    /// The line that is due now, if one is.
    pub fn due(&mut self, now: u64) -> Option<Notice>
        ensures line { result ≡ due_line self.old now }
        ensures new { self.new ≡ after_due self.old now }
    {
        if !self.is_free(now) {
            return None;
        }
        let line = line_of(self.outage);
        if line.is_some() {
            self.last = Some(now);
        }
        self.outage = told(self.outage);
        line
    }

    /// What answers there is no desk of this hall. The line, if one may be written now.
    pub fn foreign(&mut self, now: u64) -> Option<Notice>
        ensures line { result ≡ foreign_line self.old now }
        ensures new { self.new ≡ after_foreign self.old now }
    {
        if !self.is_free(now) {
            return None;
        }
        self.last = Some(now);
        Some(Notice::Foreign)
    }
}
