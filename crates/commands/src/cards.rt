//! Scorecards: all attempts of an entrant at once, where what counts is what the writer of the card
//! saw.

ghost use Rattle.std.specs.Prelude.{◌≡◌, ◌<◌, ◌≤◌, ◌+◌, ◌++◌, ◌&&◌, IfOk, IfNone, OnErr};
ghost use Rattle.std.specs.Prelude.{slice_index_or, length, is_some, not, true, None};
ghost use Rattle.std.specs.List.{list_any};
ghost use Rattle.rounds.specs.{Rows.AreValues, Tables.entrant};
ghost use Rattle.commands.specs.Accepted.{refusal, is_registered, are_values, seen_refusal};
ghost use Rattle.commands.specs.Accepted.{is_wrong, has_outcome, unfit_card_refusal, counts_in};
ghost use Rattle.commands.specs.Accepted.{card_values, breaks_rounds_rule, but_for};
ghost use Rattle.commands.specs.History.{added};
ghost use Rattle.commands.specs.model.Cards.{IsReadCard, scrambles_of, enters, lacks_in, value_at};
ghost use Rattle.commands.specs.model.Cards.{state_refusal, early_refusal};
ghost use Rattle.commands.specs.model.Kept.{IsIndexOf, kept_value, kept_next, kept_competitors};
ghost use Rattle.attempts.specs.declared.Value.TheVariants as value;
ghost use Rattle.texts.specs.declared.command.Command.TheVariants as command;

use crate::codes::{fix_code, set_code};
use crate::index::Index;
use crate::kept_rounds::{KeptRound, KeptRounds};
use crate::outcomes::{is_wrong, lacks_scramble, settled};
use crate::rounds_rule::breaks_rounds_rule;
use crate::solutions::has_solution;
use advancement::Advance;
use attempts::{NoMemory, Unit, Value};
use formats::{LAST_ROUND, unit_of};
use rounds::RoundTable;
use std::alloc::Global;
use texts::{CardEntry, Code, Command, Entered, RoundId, Settings};

/// Whether these values are those that count.
fn are_values(was: &[Value], stand: &[Value]) -> bool
    ensures { result ≡ are_values was.now stand.now }
{
    was == stand
}

/// Why what counts of an entrant is not what the writer of a card saw.
fn seen_refusal(table: &RoundTable, card: &CardEntry) -> Option<Code>
    ensures code { result
        ≡ seen_refusal card.entry.now.was (entrant table.now card.entry.now.number) }
    ensures seen { IfNone result
        (AreValues table.now card.entry.now.number card.entry.now.was) }
{
    match table.values(card.number) {
        None => Some(Code::NotEntered),
        Some(stand) => {
            if are_values(card.was.as_slice(), stand) {
                None
            } else {
                Some(Code::Changed)
            }
        }
    }
}

/// Why a round is not open, or not closed where it has to be.
fn state_refusal(table: &RoundTable, closed: bool) -> Option<Code>
    ensures { result ≡ state_refusal closed table.now.is_closed }
{
    match (closed, table.is_closed()) {
        (false, true) => Some(Code::Closed),
        (true, false) => Some(Code::NotClosed),
        (false, false) | (true, true) => None,
    }
}

/// Whether something is entered for an attempt that is not of the unit.
fn enters_wrong(unit: Unit, outcome: &Option<Entered>) -> bool
    ensures { result ≡ enters (is_wrong unit) outcome.now }
{
    match outcome {
        Some(entered) => is_wrong(unit, entered),
        None => false,
    }
}

/// Whether something is entered that is not of the unit.
fn has_wrong(unit: Unit, now: &[Option<Entered>]) -> bool
    ensures { result ≡ list_any (enters (is_wrong unit)) now.now }
{
    now.iter().any(|outcome| enters_wrong(unit, outcome))
}

impl KeptRounds {
    /// Whether the next round is not open, and the rounds rule is broken where this many
    /// competitors have an attempt in this one that is not DNS.
    fn breaks_with(&self, id: RoundId, competitors: u16, advance: Advance) -> bool
        requires { id.round ≤ LAST_ROUND }
        ensures { result
            ≡ (not (is_some (kept_next id.event id.round self.now.opened.items))
            && breaks_rounds_rule (but_for (kept_competitors id.event self.now.opened.items)
            id.round competitors) id.round advance) }
    {
        self.next(id).is_none() && breaks_rounds_rule(self, id, competitors, advance)
    }
}

impl Index {
    /// Whether a card enters a solution for an attempt that has no scramble; the attempts are
    /// counted from 0.
    fn lacks_at(&self, accepted: &[Command], card: &CardEntry, at: usize) -> bool
        requires index { IsIndexOf accepted.now self.now }
        requires card { IsReadCard card.now }
        requires within { at < length card.now.now }
        ensures { result
            ≡ enters (lacks_in (scrambles_of accepted.now card.entry.now.id) (at + 1))
            (slice_index_or card.entry.now.now at None) }
    {
        match &card.now.as_slice()[at] {
            Some(entered) => {
                lacks_scramble(self.scramble_of(accepted, card.id, at as u8 + 1), entered)
            }
            None => false,
        }
    }

    /// Whether some solution is entered for an attempt that has no scramble.
    fn lacks_scramble(&self, accepted: &[Command], card: &CardEntry) -> bool
        requires index { IsIndexOf accepted.now self.now }
        requires card { IsReadCard card.now }
        ensures { result
            ≡ has_outcome (lacks_in (scrambles_of accepted.now card.entry.now.id)) 1
            card.entry.now.now }
    {
        for at in 0..card.now.as_slice().len() {
            if self.lacks_at(accepted, card, at) {
                return true;
            }
        }
        false
    }

    /// Why an event does not accept what a card enters.
    fn unfit_card(&self, accepted: &[Command], card: &CardEntry) -> Option<Code>
        requires index { IsIndexOf accepted.now self.now }
        requires card { IsReadCard card.now }
        ensures { result
            ≡ unfit_card_refusal card.entry.now.id.event
            (scrambles_of accepted.now card.entry.now.id) card.entry.now.now }
    {
        if has_wrong(unit_of(card.id.event), card.now.as_slice()) {
            return Some(Code::WrongOutcome);
        }
        if self.lacks_scramble(accepted, card) {
            return Some(Code::NoScramble);
        }
        None
    }

    /// Why a card is refused in its round before its values are asked for. The round has to be
    /// closed, or else open.
    fn early_refusal(
        &self,
        accepted: &[Command],
        card: &CardEntry,
        kept: &KeptRound,
        closed: bool,
    ) -> Option<Code>
        requires index { IsIndexOf accepted.now self.now }
        requires card { IsReadCard card.now }
        ensures code { result
            ≡ early_refusal closed (scrambles_of accepted.now card.entry.now.id) card.entry.now
            (kept_value kept.now) }
        ensures seen { IfNone result
            (AreValues kept.now.table card.entry.now.number card.entry.now.was) }
    {
        if let Some(code) = self.unfit_card(accepted, card) {
            return Some(code);
        }
        if let Some(code) = state_refusal(&kept.table, closed) {
            return Some(code);
        }
        seen_refusal(&kept.table, card)
    }

    /// The value that a card leaves for an attempt, under the settings of its round; the attempts
    /// are counted from 0.
    fn value_at(
        &self,
        accepted: &[Command],
        card: &CardEntry,
        settings: Settings,
        at: usize,
    ) -> Value
        requires index { IsIndexOf accepted.now self.now }
        requires card { IsReadCard card.now }
        requires within { at < length card.now.now }
        ensures { result
            ≡ value_at (counts_in settings (scrambles_of accepted.now card.entry.now.id) (at + 1))
            (slice_index_or card.entry.now.now at None)
            (slice_index_or card.entry.now.was at value.Dns) }
    {
        match &card.now.as_slice()[at] {
            Some(entered) => {
                let scramble = self.scramble_of(accepted, card.id, at as u8 + 1);
                settled(settings, scramble, entered)
            }
            None => card.was.as_slice()[at],
        }
    }

    /// The values that a card leaves, under the settings of its round.
    fn card_values(
        &self,
        alloc: Global,
        accepted: &[Command],
        card: &CardEntry,
        settings: Settings,
    ) -> Result<Vec<Value>, NoMemory>
        requires index { IsIndexOf accepted.now self.now }
        requires card { IsReadCard card.now }
        ensures { IfOk result (λ values. values.items
            ≡ card_values (scrambles_of accepted.now card.entry.now.id) card.entry.now settings) }
    {
        let count = card.now.as_slice().len();
        let mut values = Vec::with_capacity(alloc, count)?;
        for at in 0..count {
            values.push(self.value_at(accepted, card, settings, at))?;
        }
        Ok(values)
    }

    /// Gives an entrant of an open round the attempts of a card, or says why not.
    pub(crate) fn card(
        &mut self,
        alloc: Global,
        accepted: &[Command],
        card: &CardEntry,
    ) -> Result<Option<Code>, NoMemory>
        requires index { IsIndexOf accepted.now self.old }
        requires card { IsReadCard card.now }
        requires known { is_registered accepted.now card.now.number ≡ true }
        ensures code { IfOk result
            (λ code. code ≡ refusal accepted.now (command.Card card.entry.now)) }
        ensures index { IfOk result
            (λ code.
            IsIndexOf (accepted.now ++ added code (command.Card card.entry.now)) self.new) }
        ensures err { OnErr result (IsIndexOf accepted.now self.new) }
    {
        let Some(place) = self.rounds.place_of(card.id) else {
            return Ok(Some(Code::RoundUnknown));
        };
        let kept = &self.rounds.opened[place];
        if let Some(code) = self.early_refusal(accepted, card, kept, false) {
            return Ok(Some(code));
        }
        let values = self.card_values(alloc, accepted, card, kept.settings)?;
        let kept = &mut self.rounds.opened[place];
        let now = card.now.as_slice();
        kept.solutions.make_room(card.number, has_solution(now))?;
        match kept.table.set(card.number, &values) {
            Ok(()) => {
                kept.solutions.note_card(card.number, now);
                Ok(None)
            }
            Err(fault) => Ok(Some(set_code(fault))),
        }
    }

    /// Gives an entrant of a closed round the attempts of a card, or says why not. The round stays
    /// closed.
    pub(crate) fn fix(
        &mut self,
        alloc: Global,
        accepted: &[Command],
        card: &CardEntry,
    ) -> Result<Option<Code>, NoMemory>
        requires index { IsIndexOf accepted.now self.old }
        requires card { IsReadCard card.now }
        requires known { is_registered accepted.now card.now.number ≡ true }
        ensures code { IfOk result
            (λ code. code ≡ refusal accepted.now (command.Fix card.entry.now)) }
        ensures index { IfOk result
            (λ code.
            IsIndexOf (accepted.now ++ added code (command.Fix card.entry.now)) self.new) }
        ensures err { OnErr result (IsIndexOf accepted.now self.new) }
    {
        let Some(place) = self.rounds.place_of(card.id) else {
            return Ok(Some(Code::RoundUnknown));
        };
        let kept = &self.rounds.opened[place];
        if let Some(code) = self.early_refusal(accepted, card, kept, true) {
            return Ok(Some(code));
        }
        let values = self.card_values(alloc, accepted, card, kept.settings)?;
        let kept = &self.rounds.opened[place];
        if let Some(fault) = kept.table.fix_fault(card.number, &values) {
            return Ok(Some(fix_code(fault)));
        }
        let competitors = kept.table.started_with(card.number, &values);
        let advance = kept.settings.advance;
        if self.rounds.breaks_with(card.id, competitors, advance) {
            return Ok(Some(Code::RoundsRule));
        }
        let kept = &mut self.rounds.opened[place];
        let now = card.now.as_slice();
        kept.solutions.make_room(card.number, has_solution(now))?;
        match kept.table.fix(card.number, &values) {
            Ok(()) => {
                kept.solutions.note_card(card.number, now);
                Ok(None)
            }
            Err(fault) => Ok(Some(fix_code(fault))),
        }
    }
}
