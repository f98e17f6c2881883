//! One desk's proposing side: its parts, its queue, and how it takes a plan.

use crate::fault::{Refusal, StepFault};
use crate::plan::Plan;
use crate::role::Role;
use acceptor::entry::Entry;
use acceptor::{MOST_ENTRIES, NoMemory};
use std::alloc::Global;
use std::marker::Model;

/// The most entries in the queue.
const MOST_QUEUED: usize = 64;

/// One desk's proposing side: what it has in hand, what waits to be proposed, and the greatest
/// number that a Nack has shown. All of it is lost at a restart.
///
/// `start`, `tick`, `on_promise`, `on_accepted` and `on_nack` change nothing: each gives the plan
/// of one step. Once the plan's change is stored, `adopt` takes the plan.
#[derive(Debug, Drop)]
pub struct Proposer {
    alloc: Global,
    desk: u8,
    desks: u8,
    role: Role,
    queue: Vec<Entry>,
    seen: u32,
}

impl Model for Proposer {
    ghost use Rattle.std.specs.Prelude.{◌≤◌, length};
    ghost use Rattle.proposer.specs.Sides.{Side};

    ghost Value = { Side };

    ghost view = { λ p. record {
      desk = p.desk;
      desks = p.desks;
      passing = record { role = p.role; queue = p.queue.items; seen = p.seen };
    } };

    ghost invariant = { λ p.
        (1 ≤ p.desk) × (p.desk ≤ p.desks) × (p.desks ≤ 5) × (length p.queue.items ≤ 64) };
}

impl Proposer {
    ghost use Rattle.std.specs.Prelude.{◌≡◌, ◌≤◌, ◌⊎◌, IfOk, OnOk, OnErr, length};
    ghost use Rattle.proposer.specs.Plans.{passing_after, first_passing};
    ghost use Rattle.proposer.specs.Refusals.{RefusesAs};
    ghost use Rattle.proposer.specs.Proposing.{submit, is_majority};

    /// The proposing side of this desk, of 3 or 5 desks, as it is when the desk starts: idle, with
    /// an empty queue. Where memory is refused, the answer is NoMemory.
    pub fn new(alloc: Global, desk: u8, desks: u8) -> Result<Proposer, NoMemory>
        requires desks { (desks ≡ 3) ⊎ (desks ≡ 5) }
        requires desk { (1 ≤ desk) × (desk ≤ desks) }
        ensures { IfOk result
            (λ p. p ≡ record { desk = desk; desks = desks; passing = first_passing }) }
    {
        let queue = Vec::with_capacity(alloc, MOST_QUEUED)?;
        Ok(Proposer {
            alloc,
            desk,
            desks,
            role: Role::Idle,
            queue,
            seen: 0,
        })
    }

    /// The number of this desk, 1 to `desks`.
    pub fn desk(&self) -> u8
        ensures desk { result ≡ self.now.desk }
        ensures in_range { (1 ≤ result) × (result ≤ self.now.desks) }
    {
        self.desk
    }

    /// The number of desks, at most 5.
    pub fn desks(&self) -> u8
        ensures desks { result ≡ self.now.desks }
        ensures in_range { result ≤ 5 }
    {
        self.desks
    }

    /// What the desk is doing.
    pub fn role(&self) -> &Role
        ensures { result.now ≡ self.now.passing.role }
    {
        &self.role
    }

    /// The greatest number that a Nack has shown, first 0.
    pub fn seen(&self) -> u32
        ensures { result ≡ self.now.passing.seen }
    {
        self.seen
    }

    /// The entries that wait to be proposed, the first one first. There are at most 64.
    pub fn queue(&self) -> &[Entry]
        ensures queue { result.now ≡ self.now.passing.queue }
        ensures short { length result.now ≤ 64 }
    {
        self.queue.as_slice()
    }

    /// Puts the entry last in the queue, where `len` is the length of the log.
    ///
    /// With 64 entries in the queue the desk is Busy. Else, with 65,536 in the log, it is LogFull.
    /// Else, where memory is refused, the answer is NoMemory. A refused entry is dropped, and
    /// nothing changes.
    pub fn submit(&mut self, entry: Entry, len: u32) -> Result<(), StepFault>
        ensures taken { OnOk result (submit len self.old.passing entry ≡ Ok self.new.passing) }
        ensures same { (self.new.desk ≡ self.old.desk) × (self.new.desks ≡ self.old.desks) }
        ensures refused { RefusesAs result (submit len self.old.passing entry) }
        ensures err { OnErr result (self.new ≡ self.old) }
    {
        if self.queue.len() >= MOST_QUEUED {
            return Err(StepFault::Refused(Refusal::Busy));
        }
        if len >= MOST_ENTRIES {
            return Err(StepFault::Refused(Refusal::LogFull));
        }
        self.queue.push(entry)?;
        Ok(())
    }

    /// Takes the plan: its role where it has one, its `seen`, and the queue without its first where
    /// the plan drops it. The plan's change and messages are the caller's to store and to send.
    pub fn adopt(&mut self, plan: Plan)
        ensures { self.new ≡ record self.old { passing = passing_after self.old.passing plan } }
    {
        let Plan {
            role,
            seen,
            drop_first,
            change: _,
            messages: _,
        } = plan;
        if let Some(role) = role {
            self.role = role;
        }
        if drop_first && !self.queue.is_empty() {
            self.queue.remove(0);
        }
        self.seen = seen;
    }

    /// Whether this many desks are more than half of all.
    pub(crate) fn is_majority(&self, count: usize) -> bool
        ensures { result ≡ is_majority self.now.desks count }
    {
        count > self.desks as usize / 2
    }

    /// The allocator of the plans.
    pub(crate) fn allocator(&self) -> Global {
        self.alloc
    }
}
