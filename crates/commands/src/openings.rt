//! How a round is opened: with those in it who advance from the one before. And how that is taken
//! back.

ghost use Rattle.std.specs.Prelude.{◌≡◌, ◌≤◌, ◌-◌, suc, IfOk, IfNone, OnOk, OnErr, OnSome, None};
ghost use Rattle.std.specs.{Prelude.length, Prelude.nat_eq, List.IsDistinct};
ghost use Rattle.formats.specs.{Events.unit_of, Results.IsFormatOf};
ghost use Rattle.rounds.specs.Tables.{IsCutoff, enter_fault, with_entrant};
ghost use Rattle.texts.specs.Fields.{round_id};
ghost use Rattle.commands.specs.Accepted.{who_advance, who_wait, cancel_refusal};
ghost use Rattle.commands.specs.model.Kept.{kept_round, kept_by, table_opened, AreOthers, Opens};
ghost use Rattle.commands.specs.model.Kept.{Cancels};

use crate::kept_rounds::{KeptRound, KeptRounds, is_same};
use crate::solutions::Solutions;
use advancement::{advancing, waiting};
use attempts::NoMemory;
use formats::{Event, unit_of};
use rounds::{EnterFault, RoundTable};
use std::alloc::{AllocError, Global};
use texts::{Code, RoundId, Settings};

/// The round before a round. None is ever opened before the first.
pub(crate) fn round_before(id: RoundId) -> RoundId
    requires { 1 ≤ id.round }
    ensures { result ≡ round_id id.event (id.round - 1) }
{
    RoundId {
        event: id.event,
        round: id.round - 1,
    }
}

/// Enters a competitor whom nothing but want of memory keeps out.
fn enter_next(table: &mut RoundTable, number: u16) -> Result<(), NoMemory>
    requires { enter_fault table.old number ≡ None }
    ensures { OnOk result (table.new ≡ with_entrant table.old number) }
{
    match table.enter(number) {
        Ok(()) => Ok(()),
        Err(EnterFault::NoMemory) => Err(AllocError),
        Err(EnterFault::Closed | EnterFault::Already | EnterFault::Full) => unreachable!(),
    }
}

/// A table into which these were entered, in order.
fn table_with(
    alloc: Global,
    event: Event,
    settings: Settings,
    numbers: &[u16],
) -> Result<RoundTable, NoMemory>
    requires cutoff { IsCutoff settings.format settings.cutoff }
    requires format { IsFormatOf (unit_of event) settings.format }
    requires each_once { IsDistinct nat_eq numbers.now }
    requires few { length numbers.now ≤ 999 }
    ensures { IfOk result (λ table. table ≡ table_opened event settings numbers.now) }
{
    let mut table = RoundTable::new(alloc, settings.format, unit_of(event), settings.cutoff)?;
    for number in numbers {
        enter_next(&mut table, *number)?;
    }
    Ok(table)
}

/// Those who advance from a round, in order of its standings; nobody where it was not opened.
fn who_advance(alloc: Global, rounds: &KeptRounds, id: RoundId) -> Result<Vec<u16>, NoMemory>
    ensures order { IfOk result
        (λ numbers. numbers.items ≡ who_advance (kept_by id rounds.now)) }
    ensures each_once { IfOk result (λ numbers. IsDistinct nat_eq numbers.items) }
    ensures few { IfOk result (λ numbers. length numbers.items ≤ 999) }
{
    match rounds.get(id) {
        Some(kept) => advancing(alloc, &kept.table, kept.settings.advance),
        None => Ok(Vec::new(alloc)),
    }
}

/// Those who did not advance from a round and wait for a place in the next, in order of its
/// standings; nobody where it was not opened.
fn who_wait(alloc: Global, rounds: &KeptRounds, id: RoundId) -> Result<Vec<u16>, NoMemory>
    ensures order { IfOk result
        (λ numbers. numbers.items ≡ who_wait (kept_by id rounds.now)) }
    ensures each_once { IfOk result (λ numbers. IsDistinct nat_eq numbers.items) }
    ensures apart { IfOk result
        (λ numbers. AreOthers (who_advance (kept_by id rounds.now)) numbers.items) }
{
    match rounds.get(id) {
        Some(kept) => waiting(alloc, &kept.table, kept.settings.advance),
        None => Ok(Vec::new(alloc)),
    }
}

impl KeptRounds {
    /// Adds a round, with those in it who advance from the one before.
    pub(crate) fn add(
        &mut self,
        alloc: Global,
        id: RoundId,
        settings: Settings,
    ) -> Result<(), NoMemory>
        requires cutoff { IsCutoff settings.format settings.cutoff }
        requires format { IsFormatOf (unit_of id.event) settings.format }
        requires round { 1 ≤ id.round }
        ensures ok { OnOk result (Opens id settings self.old self.new) }
        ensures err { OnErr result (self.new.opened.items ≡ self.old.opened.items) }
    {
        let numbers = who_advance(alloc, self, round_before(id))?;
        let waiting = who_wait(alloc, self, round_before(id))?;
        let table = table_with(alloc, id.event, settings, &numbers)?;
        let competitors_before = self.started(round_before(id));
        self.opened.push(KeptRound {
            id,
            settings,
            table,
            scrambles: [None; 5],
            solutions: Solutions::new(alloc),
            waiting,
            advanced: numbers,
            competitors_before,
        })?;
        Ok(())
    }
    /// Takes back that a round was opened in which nobody has an attempt, or says why not.
    pub(crate) fn cancel(&mut self, id: RoundId) -> Option<Code>
        ensures code { result
            ≡ cancel_refusal (kept_round id.event (suc id.round) self.old.opened.items)
            (kept_by id self.old) }
        ensures done { IfNone result (Cancels id self.old self.new) }
        ensures refused { OnSome result (self.new.opened.items ≡ self.old.opened.items) }
    {
        let Some(kept) = self.get(id) else {
            return Some(Code::RoundUnknown);
        };
        if self.next(id).is_some() {
            return Some(Code::RoundOpen);
        }
        if kept.table.is_attempted(1) {
            return Some(Code::HasAttempts);
        }
        self.opened.retain(|other| !is_same(id, other.id));
        None
    }
}
