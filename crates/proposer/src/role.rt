//! What a desk is doing, and the promises that it has heard.

use crate::votes::Votes;
use acceptor::NoMemory;
use acceptor::ballot::Ballot;
use acceptor::entry::Entry;
use acceptor::message::{Report, copy_report};
use std::alloc::Global;
use std::marker::Model;

/// A desk that has promised, with the vote that it reported.
#[derive(Debug, Drop)]
pub struct PromisingDesk {
    pub desk: u8,
    pub vote: Option<Report>,
}

/// The desks that have promised so far, the last one first.
#[derive(Debug, Drop)]
pub struct Promises {
    heard: Vec<PromisingDesk>,
}

impl Model for Promises {
    ghost use Rattle.std.specs.Prelude.{List};
    ghost use Rattle.proposer.specs.declared.role.PromisingDesk.{PromisingDesk};

    ghost Value = { List PromisingDesk };

    ghost view = { λ p. p.heard.items };
}

impl Promises {
    ghost use Rattle.std.specs.Prelude.{◌≡◌, [], ◌∷◌, IfOk, option_map};
    ghost use Rattle.proposer.specs.Proposing.{was_heard, highest};

    /// Nobody is heard. It takes no memory.
    pub fn new(alloc: Global) -> Promises
        ensures { result ≡ [] }
    {
        Promises {
            heard: Vec::new(alloc),
        }
    }

    /// These desks, the last one first.
    pub fn from_vec(heard: Vec<PromisingDesk>) -> Promises
        ensures { result ≡ heard.items }
    {
        Promises { heard }
    }

    /// The desks as a slice.
    pub fn as_slice(&self) -> &[PromisingDesk]
        ensures { result.now ≡ self.now }
    {
        self.heard.as_slice()
    }

    /// The `Vec` of the desks, with no copy made.
    pub fn into_vec(self) -> Vec<PromisingDesk>
        ensures { result.items ≡ self }
    {
        let Promises { heard } = self;
        heard
    }

    /// Whether this desk has promised.
    pub fn has(&self, desk: u8) -> bool
        ensures { result ≡ was_heard self.now desk }
    {
        self.heard.iter().any(|h| h.desk == desk)
    }

    /// These and one more. Where memory is refused, the answer is NoMemory.
    pub fn with(&self, desk: u8, vote: &Option<Report>) -> Result<Promises, NoMemory>
        ensures { IfOk result (λ p. p ≡ record { desk = desk; vote = vote.now } ∷ self.now) }
    {
        let mut heard = Vec::new(*self.heard.allocator());
        let vote = copy_report(vote)?;
        heard.push(PromisingDesk { desk, vote })?;
        for h in &self.heard {
            let vote = copy_report(&h.vote)?;
            heard.push(PromisingDesk { desk: h.desk, vote })?;
        }
        Ok(Promises { heard })
    }

    /// The reported vote of the highest ballot, where one was reported.
    pub fn highest(&self) -> Option<&Report>
        ensures { option_map (λ r. r.now) result ≡ highest self.now }
    {
        let mut best: Option<&Report> = None;
        let mut i = self.heard.len();
        while i > 0 {
            i -= 1;
            let h = &self.heard[i];
            best = match (&h.vote, best) {
                (None, other) => other,
                (Some(report), None) => Some(report),
                (Some(report), Some(other)) => {
                    if report.ballot.is_below(other.ballot) {
                        Some(other)
                    } else {
                        Some(report)
                    }
                }
            };
        }
        best
    }
}

/// What a desk is doing. Its ballot is one of its own.
#[derive(Debug, Drop)]
pub enum Role {
    /// It waits.
    Idle,
    /// It has asked all desks for promises to its ballot, at this position, and has heard these.
    Gathering {
        ballot: Ballot,
        pos: u32,
        heard: Promises,
    },
    /// It has asked all desks for votes for this entry, and has heard these.
    Proposing {
        ballot: Ballot,
        pos: u32,
        entry: Entry,
        heard: Votes,
    },
    /// A majority has promised its ballot at an earlier position, and an entry was decided by it.
    /// The ballot serves the next positions too.
    Leading {
        ballot: Ballot,
    },
}

impl Role {
    ghost use Rattle.std.specs.Prelude.{◌≡◌};
    ghost use Rattle.proposer.specs.Proposing.{is_ballot_of};

    /// Whether this is the ballot of the role.
    pub fn has_ballot(&self, ballot: Ballot) -> bool
        ensures { result ≡ is_ballot_of self.now ballot }
    {
        match self {
            Role::Idle => false,
            Role::Gathering { ballot: own, .. } => *own == ballot,
            Role::Proposing { ballot: own, .. } => *own == ballot,
            Role::Leading { ballot: own } => *own == ballot,
        }
    }
}
