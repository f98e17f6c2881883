//! What mends a desk's mistakes in a round: other settings, another scramble, an entrant who
//! withdraws, and a round that is opened again.

ghost use Rattle.std.specs.Prelude.{◌≡◌, ◌≤◌, ◌+◌, IfOk, IfNone, OnErr, OnSome, drop};
ghost use Rattle.std.specs.{List.list_any, Option.option_copied};
ghost use Rattle.advancement.specs.Advancing.{holds_of};
ghost use Rattle.rounds.specs.Tables.{standings, entrant, has_done};
ghost use Rattle.texts.specs.{Fields.round_id, Spelling.IsFitCutoff};
ghost use Rattle.commands.specs.Accepted.{rules_refusal, rescramble_refusal, withdraw_refusal};
ghost use Rattle.commands.specs.Accepted.{reopen_refusal, has_solved};
ghost use Rattle.commands.specs.model.Kept.{kept_by, waiting_by, with_settings, with_reopening};
ghost use Rattle.commands.specs.model.Kept.{HasUnit, IsApart, Changes, Exchanges, AddsScramble};
ghost use Rattle.commands.specs.model.{Kept.kept_solved, Kept.first_of_all, Solved.is_noted};

use crate::codes::{reopen_code, rules_code};
use crate::kept_rounds::{KeptRound, KeptRounds};
use crate::outcomes::is_moves;
use crate::settings::settings_refusal;
use attempts::NoMemory;
use cube::Move;
use formats::{Format, LAST_ROUND, unit_of};
use rounds::{RoundTable, WithdrawFault};
use std::alloc::AllocError;
use texts::{Code, RoundId};

/// The first of those who wait, if anybody does.
fn first_of(waiting: &[u16]) -> Option<u16>
    ensures { result ≡ first_of_all waiting.now }
{
    waiting.first().copied()
}

/// Takes the first away of those who wait, if anybody does.
fn take_first(waiting: &mut Vec<u16>)
    ensures { waiting.new.items ≡ drop 1 waiting.old.items }
{
    if !waiting.is_empty() {
        waiting.remove(0);
    }
}

/// Whether an attempt of the entrant with a number counts.
fn has_done(table: &RoundTable, attempt: u8, number: u16) -> bool
    ensures { result ≡ holds_of (has_done attempt) (entrant table.now number) }
{
    match table.row(number) {
        Some(row) => usize::from(attempt) <= row.values.len(),
        None => false,
    }
}

/// Whether an attempt of the entrant with a number counts, and a solution was entered for it.
fn has_solved(kept: &KeptRound, attempt: u8, number: u16) -> bool
    requires { 1 ≤ attempt }
    ensures { result ≡ has_solved (λ n. is_noted kept.now.solutions n attempt) kept.now.table
        attempt number }
{
    has_done(&kept.table, attempt, number) && kept.solutions.is_noted(number, attempt)
}

/// Whether an attempt of some entrant counts for which a solution was entered.
fn is_solved(kept: &KeptRound, attempt: u8) -> Result<bool, NoMemory>
    requires { 1 ≤ attempt }
    ensures { IfOk result (λ found. found
        ≡ list_any (has_solved (λ n. is_noted kept.now.solutions n attempt) kept.now.table attempt)
        (standings kept.now.table)) }
{
    let numbers = kept.table.standings()?;
    Ok(
        numbers
            .iter()
            .any(|number| has_solved(kept, attempt, *number)),
    )
}

impl KeptRounds {
    /// Gives a round in which nobody has an attempt another format, cutoff and limit, or says why
    /// not.
    pub(crate) fn set_round(
        &mut self,
        id: RoundId,
        format: Format,
        cutoff: Option<(u8, u32)>,
        limit: Option<u32>,
    ) -> Option<Code>
        requires fit { IsFitCutoff cutoff }
        requires unit { HasUnit id.event (kept_by id self.old) }
        ensures code { result ≡ rules_refusal id.event format cutoff limit (kept_by id self.old) }
        ensures done { IfNone result
            (Changes id (with_settings format cutoff limit) self.old self.new) }
        ensures refused { OnSome result (self.new.opened.items ≡ self.old.opened.items) }
    {
        let Some(place) = self.place_of(id) else {
            return Some(Code::RoundUnknown);
        };
        let kept = &mut self.opened[place];
        if kept.table.is_closed() {
            return Some(Code::Closed);
        }
        if kept.table.is_attempted(1) {
            return Some(Code::HasAttempts);
        }
        if let Some(code) = settings_refusal(id.event, format, cutoff, limit) {
            return Some(code);
        }
        match kept.table.set_rules(format, cutoff) {
            Ok(()) => {
                kept.settings.format = format;
                kept.settings.cutoff = cutoff;
                kept.settings.limit = limit;
                None
            }
            Err(fault) => Some(rules_code(fault)),
        }
    }

    /// Notes where another scramble of an attempt will be, or says why not. The attempt has the
    /// scramble `there` already.
    pub(crate) fn rescramble(
        &mut self,
        id: RoundId,
        attempt: u8,
        there: Option<&[Move]>,
        place: usize,
    ) -> Result<Option<Code>, NoMemory>
        requires { (1 ≤ attempt) × (attempt ≤ 5) }
        ensures code { IfOk result (λ code. code
            ≡ rescramble_refusal id.event attempt (option_copied there.entry)
            (λ n. kept_solved id.event id.round attempt n self.old.opened.items)
            (kept_by id self.old)) }
        ensures done { IfOk result (λ code. IfNone code
            (AddsScramble id.event id.round attempt place self.old.opened.items
            self.new.opened.items)) }
        ensures refused { IfOk result
            (λ code. OnSome code (self.new.opened.items ≡ self.old.opened.items)) }
        ensures err { OnErr result (self.new.opened.items ≡ self.old.opened.items) }
    {
        let Some(index) = self.place_of(id) else {
            return Ok(Some(Code::RoundUnknown));
        };
        if !is_moves(unit_of(id.event)) {
            return Ok(Some(Code::WrongOutcome));
        }
        if there.is_none() {
            return Ok(Some(Code::NoScramble));
        }
        let kept = &mut self.opened[index];
        if kept.table.is_closed() {
            return Ok(Some(Code::Closed));
        }
        if is_solved(kept, attempt)? {
            return Ok(Some(Code::HasAttempts));
        }
        kept.scrambles[usize::from(attempt) - 1] = Some(place);
        Ok(None)
    }

    /// Takes an entrant without attempts out of a round, or says why not. The first of those who
    /// wait, if anybody does, takes the place as the last entrant.
    pub(crate) fn withdraw(&mut self, id: RoundId, number: u16) -> Result<Option<Code>, NoMemory>
        requires { IsApart (kept_by id self.old) (waiting_by id self.old) }
        ensures code { IfOk result
            (λ code. code ≡ withdraw_refusal number (kept_by id self.old)) }
        ensures done { IfOk result
            (λ code. IfNone code (Exchanges id number self.old self.new)) }
        ensures refused { IfOk result
            (λ code. OnSome code (self.new.opened.items ≡ self.old.opened.items)) }
        ensures err { OnErr result (self.new.opened.items ≡ self.old.opened.items) }
    {
        let Some(place) = self.place_of(id) else {
            return Ok(Some(Code::RoundUnknown));
        };
        let kept = &mut self.opened[place];
        let next = first_of(&kept.waiting);
        match kept.table.withdraw(number, next) {
            Ok(()) => {
                take_first(&mut kept.waiting);
                Ok(None)
            }
            Err(WithdrawFault::Closed) => Ok(Some(Code::Closed)),
            Err(WithdrawFault::NotEntered) => Ok(Some(Code::NotEntered)),
            Err(WithdrawFault::HasAttempts) => Ok(Some(Code::HasAttempts)),
            Err(WithdrawFault::NoMemory) => Err(AllocError),
        }
    }

    /// Opens a closed round again whose next one is not open, or says why not.
    pub(crate) fn reopen(&mut self, id: RoundId) -> Option<Code>
        requires { id.round ≤ LAST_ROUND }
        ensures code { result
            ≡ reopen_refusal (kept_by (round_id id.event (id.round + 1)) self.old)
            (kept_by id self.old) }
        ensures done { IfNone result (Changes id with_reopening self.old self.new) }
        ensures refused { OnSome result (self.new.opened.items ≡ self.old.opened.items) }
    {
        let Some(place) = self.place_of(id) else {
            return Some(Code::RoundUnknown);
        };
        if !self.opened[place].table.is_closed() {
            return Some(Code::NotClosed);
        }
        if self.is_open(RoundId {
            event: id.event,
            round: id.round + 1,
        }) {
            return Some(Code::RoundOpen);
        }
        let kept = &mut self.opened[place];
        match kept.table.reopen() {
            Ok(()) => None,
            Err(fault) => Some(reopen_code(fault)),
        }
    }
}
