//! What changes in a round once it is opened: entries, scrambles, attempts, who advances, the end.

ghost use Rattle.std.specs.Prelude.{◌≡◌, ◌≤◌, IfOk, IfErr, IfNone, OnErr, OnSome};
ghost use Rattle.std.specs.Option.{option_copied};
ghost use Rattle.texts.specs.{Fields.round_id, Spelling.IsEntered};
ghost use Rattle.commands.specs.Accepted.{enter_refusal, scramble_refusal, strike_refusal};
ghost use Rattle.commands.specs.Accepted.{advance_refusal, close_refusal, breaks_rounds_rule};
ghost use Rattle.commands.specs.model.Kept.{kept_by, kept_competitors, with_strike, with_advance};
ghost use Rattle.commands.specs.model.Kept.{with_end, with_entry, HasUnit, Changes, AddsScramble};
ghost use Rattle.commands.specs.model.{Kept.IsAsBefore, Settled.IsSettled, Settled.attempt_refusal};
ghost use Rattle.commands.specs.model.Settled.{IsUnfit, correction_refusal, AddsAttempt, Corrects};

use crate::codes::{close_code, correct_code, put_code, strike_code};
use crate::kept_rounds::KeptRounds;
use crate::outcomes::{is_moves, is_solution, outcome_of, refusal};
use crate::rounds_rule::breaks_rounds_rule;
use advancement::Advance;
use attempts::{NoMemory, Value, settle};
use cube::Move;
use formats::{Event, LAST_ROUND, attempts_of, unit_of};
use rounds::EnterFault;
use std::alloc::AllocError;
use texts::{AttemptEntry, Code, RoundId};

/// Whether another round shall follow this one, and the competitors do not allow it.
fn breaks_rule(rounds: &KeptRounds, id: RoundId, advance: Advance) -> bool
    requires { id.round ≤ LAST_ROUND }
    ensures { result ≡ breaks_rounds_rule (kept_competitors id.event rounds.now.opened.items)
        id.round advance }
{
    breaks_rounds_rule(rounds, id, rounds.competitors(id), advance)
}

impl KeptRounds {
    /// Enters a competitor in a first round, or says why not.
    pub(crate) fn enter(&mut self, event: Event, number: u16) -> Result<Option<Code>, NoMemory>
        ensures code { IfOk result
            (λ code. code ≡ enter_refusal number (kept_by (round_id event 1) self.old)) }
        ensures done { IfOk result (λ code.
            IfNone code (Changes (round_id event 1) (with_entry number) self.old self.new)) }
        ensures refused { IfOk result
            (λ code. OnSome code (self.new.opened.items ≡ self.old.opened.items)) }
        ensures err { OnErr result (self.new.opened.items ≡ self.old.opened.items) }
    {
        let Some(place) = self.place_of(RoundId { event, round: 1 }) else {
            return Ok(Some(Code::RoundUnknown));
        };
        let kept = &mut self.opened[place];
        match kept.table.enter(number) {
            Ok(()) => Ok(None),
            Err(EnterFault::Closed) => Ok(Some(Code::Closed)),
            Err(EnterFault::Already) => Ok(Some(Code::Already)),
            Err(EnterFault::Full) => Ok(Some(Code::Full)),
            Err(EnterFault::NoMemory) => Err(AllocError),
        }
    }

    /// Notes where the scramble of an attempt will be, or says why not. The attempt has the
    /// scramble `there` already.
    pub(crate) fn add_scramble(
        &mut self,
        id: RoundId,
        attempt: u8,
        there: Option<&[Move]>,
        place: usize,
    ) -> Option<Code>
        requires { 1 ≤ attempt }
        ensures code { result ≡ scramble_refusal id.event attempt (option_copied there.entry)
            (kept_by id self.old) }
        ensures done { IfNone result
            (AddsScramble id.event id.round attempt place self.old.opened.items
            self.new.opened.items) }
        ensures refused { OnSome result (self.new.opened.items ≡ self.old.opened.items) }
    {
        let Some(index) = self.place_of(id) else {
            return Some(Code::RoundUnknown);
        };
        let kept = &mut self.opened[index];
        if kept.table.is_closed() {
            return Some(Code::Closed);
        }
        if !is_moves(unit_of(id.event)) {
            return Some(Code::WrongOutcome);
        }
        if attempt > attempts_of(kept.settings.format) {
            return Some(Code::NoSuchAttempt);
        }
        if there.is_some() {
            return Some(Code::ScrambleThere);
        }
        kept.scrambles[usize::from(attempt) - 1] = Some(place);
        None
    }

    /// The place of an entry's round, and the value of what was entered; or why it is refused
    /// before the table of the round is asked. The attempt has this scramble, where it has one.
    fn settled(
        &self,
        entry: &AttemptEntry,
        scramble: Option<&[Move]>,
    ) -> Result<(usize, Value), Code>
        requires entered { IsEntered entry.now.outcome }
        requires unit { HasUnit entry.now.id.event (kept_by entry.now.id self.now) }
        ensures settled { IfOk result (λ found.
            IsSettled entry.now (option_copied scramble.entry) self.now found.0 found.1) }
        ensures refused { IfErr result
            (IsUnfit entry.now (option_copied scramble.entry) self.now) }
    {
        let Some(place) = self.place_of(entry.id) else {
            return Err(Code::RoundUnknown);
        };
        if let Some(code) = refusal(entry.id.event, &entry.outcome, scramble) {
            return Err(code);
        }
        let limit = self.opened[place].settings.limit;
        Ok((place, settle(outcome_of(scramble, &entry.outcome), limit)))
    }

    /// Adds an attempt of an entrant, or says why not. The attempt has this scramble, where it has
    /// one. Where it is refused, nothing is looked up otherwise than before.
    pub(crate) fn put(
        &mut self,
        entry: &AttemptEntry,
        scramble: Option<&[Move]>,
    ) -> Result<Option<Code>, NoMemory>
        requires entered { IsEntered entry.now.outcome }
        requires attempt { (1 ≤ entry.now.attempt) × (entry.now.attempt ≤ 5) }
        requires unit { HasUnit entry.now.id.event (kept_by entry.now.id self.old) }
        ensures code { IfOk result (λ code. code
            ≡ attempt_refusal entry.now (option_copied scramble.entry) self.old) }
        ensures done { IfOk result (λ code. IfNone code
            (AddsAttempt entry.now (option_copied scramble.entry) self.old self.new)) }
        ensures refused { IfOk result (λ code. OnSome code (IsAsBefore self.old self.new)) }
        ensures err { OnErr result (IsAsBefore self.old self.new) }
    {
        let (place, value) = match self.settled(entry, scramble) {
            Ok(found) => found,
            Err(code) => return Ok(Some(code)),
        };
        let solved = is_solution(&entry.outcome);
        let kept = &mut self.opened[place];
        kept.solutions.make_room(entry.number, solved)?;
        match kept.table.put(entry.number, entry.attempt, value) {
            Ok(()) => {
                kept.solutions.note(entry.number, entry.attempt, solved);
                Ok(None)
            }
            Err(fault) => Ok(Some(put_code(fault))),
        }
    }

    /// Replaces an attempt of an entrant, or says why not. The attempt has this scramble, where it
    /// has one. Where it is refused, nothing is looked up otherwise than before.
    pub(crate) fn correct(
        &mut self,
        entry: &AttemptEntry,
        scramble: Option<&[Move]>,
    ) -> Result<Option<Code>, NoMemory>
        requires entered { IsEntered entry.now.outcome }
        requires attempt { (1 ≤ entry.now.attempt) × (entry.now.attempt ≤ 5) }
        requires unit { HasUnit entry.now.id.event (kept_by entry.now.id self.old) }
        ensures code { IfOk result (λ code. code
            ≡ correction_refusal entry.now (option_copied scramble.entry) self.old) }
        ensures done { IfOk result (λ code. IfNone code
            (Corrects entry.now (option_copied scramble.entry) self.old self.new)) }
        ensures refused { IfOk result (λ code. OnSome code (IsAsBefore self.old self.new)) }
        ensures err { OnErr result (IsAsBefore self.old self.new) }
    {
        let (place, value) = match self.settled(entry, scramble) {
            Ok(found) => found,
            Err(code) => return Ok(Some(code)),
        };
        let solved = is_solution(&entry.outcome);
        let kept = &mut self.opened[place];
        kept.solutions.make_room(entry.number, solved)?;
        match kept.table.correct(entry.number, entry.attempt, value) {
            Ok(()) => {
                kept.solutions.note(entry.number, entry.attempt, solved);
                Ok(None)
            }
            Err(fault) => Ok(Some(correct_code(fault))),
        }
    }

    /// Removes the last attempt of an entrant, or says why not.
    pub(crate) fn strike(&mut self, id: RoundId, number: u16) -> Option<Code>
        ensures code { result ≡ strike_refusal number (kept_by id self.old) }
        ensures done { IfNone result (Changes id (with_strike number) self.old self.new) }
        ensures refused { OnSome result (self.new.opened.items ≡ self.old.opened.items) }
    {
        let Some(place) = self.place_of(id) else {
            return Some(Code::RoundUnknown);
        };
        let kept = &mut self.opened[place];
        match kept.table.strike(number) {
            Ok(()) => None,
            Err(fault) => Some(strike_code(fault)),
        }
    }

    /// Changes who advances from a round, or says why not.
    pub(crate) fn set_advance(&mut self, id: RoundId, advance: Advance) -> Option<Code>
        ensures code { result ≡ advance_refusal (kept_by id self.old) }
        ensures done { IfNone result (Changes id (with_advance advance) self.old self.new) }
        ensures refused { OnSome result (self.new.opened.items ≡ self.old.opened.items) }
    {
        let Some(place) = self.place_of(id) else {
            return Some(Code::RoundUnknown);
        };
        let kept = &mut self.opened[place];
        if kept.table.is_closed() {
            return Some(Code::Closed);
        }
        kept.settings.advance = advance;
        None
    }

    /// Closes a round, or says why not.
    pub(crate) fn close(&mut self, id: RoundId) -> Option<Code>
        requires { id.round ≤ LAST_ROUND }
        ensures code { result
            ≡ close_refusal (kept_competitors id.event self.old.opened.items) id.round
            (kept_by id self.old) }
        ensures done { IfNone result (Changes id with_end self.old self.new) }
        ensures refused { OnSome result (self.new.opened.items ≡ self.old.opened.items) }
    {
        let Some(place) = self.place_of(id) else {
            return Some(Code::RoundUnknown);
        };
        let kept = &self.opened[place];
        if kept.table.is_closed() {
            return Some(Code::Closed);
        }
        if !kept.table.is_finished() {
            return Some(Code::Unfinished);
        }
        if breaks_rule(self, id, kept.settings.advance) {
            return Some(Code::RoundsRule);
        }
        let kept = &mut self.opened[place];
        match kept.table.close() {
            Ok(()) => None,
            Err(fault) => Some(close_code(fault)),
        }
    }
}
