//! The keeper in memory, for tests, which fails where a test asks for it.

ghost use Rattle.std.specs.Prelude.{◌≡◌, ◌≤◌, ◌||◌, ◌==◌, Option, Some, None, Bool, true, false};
ghost use Rattle.std.specs.Prelude.{IfOk, OnOk, OnErr, IfSome};
ghost use Rattle.std.proofs.Common.{sym, ◌∙◌};
ghost use Rattle.acceptor.specs.Storing.{stored_after, log_after};
ghost use Rattle.store.specs.{Ranges.IsHome, Ranges.IsFit, Ranges.home_at, Memory.MemoryLoads};
ghost use Rattle.store.specs.Memory.{MemoryState, first_memory, is_stopped, nearer, MemorySaves};

use crate::NoMemory;
use crate::copying::{copy_log, copy_stored, copy_vote};
use crate::failing::Failing;
use crate::fault::{LoadFault, SaveFault};
use crate::home::Home;
use crate::keeper::Keeper;
use crate::ranges::is_fit;
use acceptor::stored::{Change, Stored};
use learner::log::{Log, ReserveFault};
use std::alloc::Global;
use std::marker::Model;

/// A keeper in memory, which commits each change at once. Tests can tell it at which save to fail.
#[derive(Drop)]
pub struct MemoryKeeper {
    alloc: Global,
    home: Home,
    stored: Stored,
    log: Log,
    failing: Option<Failing>,
    failures: u64,
    down: bool,
}

impl Model for MemoryKeeper {
    ghost use Rattle.std.specs.Prelude.{◌≤◌, IfSome};
    ghost use Rattle.store.specs.Ranges.{IsHome};
    ghost use Rattle.store.specs.Memory.{MemoryState};

    ghost Value = { MemoryState };

    ghost view = { λ k.
        record {
          home = k.home;
          stored = k.stored;
          log = k.log.entries;
          failing = k.failing;
          failures = k.failures;
          down = k.down;
        } };

    ghost invariant = { λ k. IsHome k.home };
}

fn apply(alloc: Global, stored: &mut Stored, log: &mut Log, change: &Change) -> Result<(), NoMemory>
    ensures ok { OnOk result
        ((stored.new ≡ stored_after stored.old (Some change.now))
        × (log.new.entries ≡ log_after log.old.entries (Some change.now))) }
    ensures err { OnErr result ((stored.new ≡ stored.old) × (log.new.entries ≡ log.old.entries)) }
{
    match change {
        Change::Promised(ballot) => stored.promised = *ballot,
        Change::Voted(vote) => {
            let vote = copy_vote(alloc, vote)?;
            stored.promised = vote.ballot;
            stored.vote = Some(vote);
        }
        Change::Tried(number) => stored.tried = *number,
        Change::Appended(entry) => {
            let entry = entry.copy_in(alloc)?;
            match log.reserve() {
                Ok(()) => log.append(entry),
                // A full log has no room either: the state after the change would not be in its
                // ranges.
                Err(ReserveFault::LogFull | ReserveFault::NoMemory) => return Err(NoMemory),
            }
        }
    }
    Ok(())
}

fn one_nearer(failing: Option<Failing>) -> Option<Failing>
    ensures { result ≡ nearer failing }
{
    match failing {
        Some(failing) if failing.saves > 1 => Some(Failing {
            saves: failing.saves - 1,
            kept: failing.kept,
        }),
        _ => None,
    }
}

/// Whether this save fails, and then whether its change is kept.
fn due(failing: Option<Failing>) -> Option<bool>
    ensures some { IfSome result (λ kept. failing ≡ Some (record { saves = 1; kept = kept })) }
    ensures none { result ≡ None → (kept : Bool)
        → ¬ (failing ≡ Some (record { saves = 1; kept = kept })) }
{
    match failing {
        Some(failing) if failing.saves == 1 => Some(failing.kept),
        _ => None,
    }
}

impl MemoryKeeper {
    /// A keeper of the first state and the empty log, for this desk of a hall of 3 or 5 desks.
    pub fn new(alloc: Global, hall: u32, desk: u8, desks: u8) -> Result<MemoryKeeper, NoMemory>
        requires { IsHome (home_at hall desk desks) }
        ensures { IfOk result (λ k. k ≡ first_memory (home_at hall desk desks)) }
    {
        Ok(MemoryKeeper {
            alloc,
            home: Home { hall, desk, desks },
            stored: Stored::new(),
            log: Log::new(alloc)?,
            failing: None,
            failures: 0,
            down: false,
        })
    }

    /// Replaces the state and the log by these, which are in their ranges. NoMemory leaves the
    /// keeper as it was.
    pub fn with(&mut self, stored: &Stored, log: &Log) -> Result<(), NoMemory>
        requires { IsFit self.old.home.desks stored.now log.now.entries }
        ensures ok { OnOk result
            (self.new ≡ record self.old { stored = stored.now; log = log.now.entries }) }
        ensures err { OnErr result (self.new ≡ self.old) }
    {
        let stored = copy_stored(self.alloc, stored)?;
        let log = copy_log(self.alloc, log)?;
        self.stored = stored;
        self.log = log;
        Ok(())
    }

    /// The `saves`-th save from now, not counting those that answer Down or NoMemory, answers
    /// Device, with its change kept or not. It replaces what was asked before.
    pub fn fail_at(&mut self, saves: u64, kept: bool)
        requires { 1 ≤ saves }
        ensures { self.new
            ≡ record self.old { failing = Some (record { saves = saves; kept = kept }) } }
    {
        self.failing = Some(Failing { saves, kept });
    }

    fn fail(&mut self) -> Result<(), SaveFault>
        requires { is_stopped self.old ≡ false }
        ensures fault { result ≡ Err SaveFault.Device }
        ensures after { self.new ≡ Rattle.store.specs.Memory.after_failure self.old }
    {
        self.failing = None;
        self.failures += 1;
        self.down = true;
        Err(SaveFault::Device)
    }
}

impl Keeper for MemoryKeeper {
    ghost is_honest = { λ _. Unit {0} };

    ghost may_hold = { λ k s log. (s ≡ k.stored) × (log ≡ k.log) };

    ghost may_break = { λ _. ⊥ };

    ghost keeps = { λ k s log. (is_stopped k ≡ false) × IsFit k.home.desks s log × (s ≡ k.stored)
        × (log ≡ k.log) };

    ghost finds = { λ k s log. (s ≡ k.stored) × (log ≡ k.log) };

    ghost is_settled = { λ _. Unit {0} };

    ghost is_down = { is_stopped };

    ghost failures_of = { λ k. k.failures };

    ghost home_of = { λ k. k.home };

    ghost save_gives = { MemorySaves };

    ghost load_gives = { MemoryLoads };

    fn home(&self) -> Home {
        self.home
    }

    fn failures(&self) -> u64 {
        self.failures
    }

    fn save(&mut self, change: &Change) -> Result<(), SaveFault> {
        if self.down || self.failures == u64::MAX {
            return Err(SaveFault::Down);
        }
        let due = due(self.failing);
        if due == Some(false) {
            return self.fail();
        }
        if apply(self.alloc, &mut self.stored, &mut self.log, change).is_err() {
            return Err(SaveFault::NoMemory);
        }
        if due == Some(true) {
            return self.fail();
        }
        self.failing = one_nearer(self.failing);
        Ok(())
    }

    fn settle(&mut self) -> bool {
        !self.down && self.failures != u64::MAX
    }

    fn load(&mut self, alloc: Global) -> Result<(Stored, Log), LoadFault> {
        if self.failures == u64::MAX || !is_fit(self.home.desks, &self.stored) {
            return Err(LoadFault::Damaged);
        }
        let Ok(stored) = copy_stored(alloc, &self.stored) else {
            return Err(LoadFault::NoMemory);
        };
        let Ok(log) = copy_log(alloc, &self.log) else {
            return Err(LoadFault::NoMemory);
        };
        self.down = false;
        Ok((stored, log))
    }

    ghost alone = { λ k s log honest kept.
        record {
          holds = (kept.2, kept.3);
          only = λ t more h. (h.0 ∙ sym kept.2, h.1 ∙ sym kept.3);
          whole = λ never. never;
        } };

    ghost ranges = { λ k s log kept. kept.1 };

    ghost works = { λ k s log kept. kept.0 };

    ghost rests = { λ k s log settled found. found };
}
