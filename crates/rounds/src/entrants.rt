//! The entrants of a round, in order of entry, with what is kept of them.

ghost use Rattle.std.specs.Prelude.{◌≡◌, ◌<◌, ◌≤◌, [], None, Some, All, IfOk, IfSome, OnOk, OnErr};
ghost use Rattle.std.specs.Prelude.{MatchOption, false, find, length, map, nat_eq, nat_le};
ghost use Rattle.std.specs.Prelude.{slice_get};
ghost use Rattle.std.specs.List.{list_any, IsDistinct, Sorted.IsPermutation};
ghost use Rattle.indexmap.specs.IndexMap.{values};
ghost use Rattle.attempts.specs.Attempts.{IsInRangeOf};
ghost use Rattle.formats.specs.Results.{IsFormatOf};
ghost use Rattle.rounds.specs.Tables.{Entrant, IsCutoff, KeepsAllotted, allotted, has_number};
ghost use Rattle.rounds.specs.Tables.{has_started, is_finished, number_of_entrant, has_done};
ghost use Rattle.rounds.specs.{Tables.standings, Tables.started, model.UpToDate.IsNewcomer};
ghost use Rattle.rounds.specs.{CutoffLaw.MetIsBetterIn, Positions.place_at};
ghost use Rattle.rounds.specs.model.Field.{as_table, with_newcomer, with_values_at, IsEntrantAt};
ghost use Rattle.rounds.specs.model.Field.{IsKeptEntrantOf, IsWithoutAttempts, without_at};
ghost use Rattle.rounds.specs.model.{Field.with_field_rules, KeptEntrants.is_unfinished};

use crate::cutoff::{allotted, has_started};
use crate::kept::EntrantResult;
use crate::kept_entrant::KeptEntrant;
use crate::packed_key::packed_key_of;
use crate::recount::{move_places, recounted};
use crate::rules::Rules;
use crate::standings::{order_of, place_at};
use crate::value_row::ValueRow;
use attempts::{NoMemory, Value};
use formats::{Averaged, Format, MOST_ENTRANTS, RankKey, better};
use indexmap::IndexMap;
use std::alloc::Global;
use std::marker::Model;

/// What an entrant without a result is ranked by.
const NO_RESULT: RankKey = RankKey {
    main: None,
    tie: None,
};

/// One without attempts, at a place.
fn newcomer(place: u16) -> KeptEntrant
    ensures { IsNewcomer place result }
{
    KeptEntrant {
        row: ValueRow::new(),
        kept: EntrantResult {
            best: Value::Dns,
            average: Averaged::Missing,
            key: NO_RESULT,
            place,
        },
        packed_key: packed_key_of(NO_RESULT),
    }
}

/// The entrants by number, in order of entry. The counts are of those who have started, of those
/// who have not done all allotted attempts, and of those who have a result.
#[derive(Drop)]
pub(crate) struct Entrants {
    rules: Rules,
    by_number: IndexMap<u16, KeptEntrant>,
    started: u16,
    unfinished: u16,
    with_result: u16,
}

impl Model for Entrants {
    ghost use Rattle.rounds.specs.CutoffLaw.{MetIsBetterIn};
    ghost use Rattle.rounds.specs.model.Field.{Field};

    ghost Value = { Field };

    ghost use Rattle.rounds.specs.model.UpToDate.{field_of, IsUpToDate};

    ghost view = { field_of };

    ghost invariant = { IsUpToDate };
}

impl Entrants {
    pub(crate) fn new(alloc: Global, rules: Rules) -> Result<Self, NoMemory>
        requires cutoff { IsCutoff rules.format rules.cutoff }
        requires format { IsFormatOf rules.unit rules.format }
        ensures { IfOk result (λ entrants. entrants ≡ record { rules = rules; entrants = [] }) }
    {
        Ok(Entrants {
            rules,
            by_number: IndexMap::with_capacity(alloc, 16)?,
            started: 0,
            unfinished: 0,
            with_result: 0,
        })
    }

    pub(crate) fn rules(&self) -> Rules
        ensures value { result ≡ self.now.rules }
        ensures cutoff { IsCutoff result.format result.cutoff }
    {
        self.rules
    }

    pub(crate) fn len(&self) -> usize
        ensures { result ≡ length self.now.entrants }
    {
        self.by_number.len()
    }

    /// Whether a competitor is entered.
    pub(crate) fn contains(&self, number: u16) -> bool
        ensures { result ≡ list_any (has_number number) self.now.entrants }
    {
        self.by_number.contains_key(&number)
    }

    /// The index of an entrant.
    pub(crate) fn index_of(&self, number: u16) -> Option<usize>
        ensures { MatchOption result (find (has_number number) self.now.entrants ≡ None)
            (IsEntrantAt number self.now) }
    {
        self.by_number.get_index_of(&number)
    }

    /// The values of the entrant at an index.
    pub(crate) fn row_at(&self, index: usize) -> &ValueRow
        requires { index < length self.now.entrants }
        ensures { (e : Entrant) → slice_get self.now.entrants index ≡ Some e
            → result.now ≡ e.values }
    {
        &self.by_number[index].row
    }

    /// Adds an entrant without attempts. Nobody's place changes, since nobody is worse.
    pub(crate) fn enter(&mut self, number: u16) -> Result<(), NoMemory>
        requires absent { list_any (has_number number) self.old.entrants ≡ false }
        requires room { length self.old.entrants < MOST_ENTRANTS }
        ensures entered { OnOk result (self.new ≡ with_newcomer self.old number) }
        ensures unchanged { OnErr result (self.new ≡ self.old) }
    {
        self.by_number
            .insert(number, newcomer(self.with_result + 1))?;
        self.unfinished += 1;
        Ok(())
    }

    /// Takes out the entrant at an index, who has done no attempt. Nobody's place changes, since
    /// nobody is worse.
    pub(crate) fn leave(&mut self, index: usize)
        requires there { IsWithoutAttempts self.old index }
        ensures { self.new ≡ without_at self.old index }
    {
        self.by_number.shift_remove_index(index);
        self.unfinished -= 1;
    }

    /// Takes out the entrant at an index, who has done no attempt, and adds another one as the
    /// last.
    pub(crate) fn exchange(&mut self, index: usize, next: u16) -> Result<(), NoMemory>
        requires there { IsWithoutAttempts self.old index }
        requires absent { list_any (has_number next) self.old.entrants ≡ false }
        ensures exchanged { OnOk result
            (self.new ≡ with_newcomer (without_at self.old index) next) }
        ensures unchanged { OnErr result (self.new ≡ self.old) }
    {
        self.by_number.insert(next, newcomer(self.with_result + 1))?;
        self.by_number.shift_remove_index(index);
        Ok(())
    }

    /// Whether somebody has done an attempt; attempts are counted from 1.
    pub(crate) fn has_attempt(&self, attempt: u8) -> bool
        ensures { result ≡ list_any (has_done attempt) self.now.entrants }
    {
        is_attempted(&self.by_number, attempt)
    }

    /// Ranks and cuts off by another format and cutoff, while nobody has done an attempt.
    pub(crate) fn set_rules(&mut self, format: Format, cutoff: Option<(u8, u32)>)
        requires cutoff { IsCutoff format cutoff }
        requires format { IsFormatOf self.old.rules.unit format }
        requires none { list_any (has_done 1) self.old.entrants ≡ false }
        ensures { self.new ≡ with_field_rules self.old format cutoff }
    {
        self.rules = Rules {
            format,
            unit: self.rules.unit,
            cutoff,
        };
    }

    /// Gives the entrant at an index other values. Every other entrant's key is compared once with
    /// the old key and once with the new one, and takes no memory.
    pub(crate) fn replace(&mut self, index: usize, row: ValueRow)
        requires within { index < length self.old.entrants }
        requires few { length row ≤ allotted self.old.rules.format self.old.rules.cutoff row }
        requires in_range { All (IsInRangeOf self.old.rules.unit) row }
        ensures { self.new ≡ with_values_at self.old index row }
    {
        let before = &self.by_number[index];
        let mut kept = EntrantResult::of(self.rules, row.values(), 0);
        let (old, new) = (before.kept.key, kept.key);
        let packed_key = packed_key_of(new);
        self.started = recounted(
            self.started,
            has_started(before.row.values()),
            has_started(row.values()),
        );
        self.unfinished = recounted(
            self.unfinished,
            is_unfinished(self.rules, before.row.values()),
            is_unfinished(self.rules, row.values()),
        );
        self.with_result = recounted(
            self.with_result,
            better(old, NO_RESULT),
            better(new, NO_RESULT),
        );
        let ahead = move_places(&mut self.by_number, old, new);
        kept.place = 1 + recounted(ahead, better(old, new), false);
        self.by_number[index] = KeptEntrant {
            row,
            kept,
            packed_key,
        };
    }

    /// What is kept of an entrant.
    pub(crate) fn get(&self, number: u16) -> Option<&KeptEntrant>
        ensures { MatchOption result (find (has_number number) self.now.entrants ≡ None)
            (λ s. (e : Entrant) × IsKeptEntrantOf self.now number e s.now) }
    {
        self.by_number.get(&number)
    }

    pub(crate) fn started(&self) -> u16
        ensures { result ≡ started (as_table false self.now) }
    {
        self.started
    }

    /// How many would have started, if these were the values of the entrant at an index.
    pub(crate) fn started_with(&self, index: usize, values: &[Value]) -> u16
        requires { index < length self.now.entrants }
        ensures { result ≡ started (as_table false (with_values_at self.now index values.now)) }
    {
        let before = &self.by_number[index];
        recounted(
            self.started,
            has_started(before.row.values()),
            has_started(values),
        )
    }

    /// Whether all have done what they are allotted.
    pub(crate) fn are_finished(&self) -> bool
        ensures { result ≡ is_finished (as_table false self.now) }
    {
        self.unfinished == 0
    }

    /// The numbers by place, and those of one place in order of entry.
    pub(crate) fn standings(&self) -> Result<Vec<u16>, NoMemory>
        ensures order { IfOk result (λ order. order.items ≡ standings (as_table false self.now)) }
        ensures all { IfOk result
            (λ order. IsPermutation (map number_of_entrant self.now.entrants) order.items) }
        ensures each_once { IfOk result (λ order. IsDistinct nat_eq order.items) }
        ensures few { IfOk result (λ order. length order.items ≤ MOST_ENTRANTS) }
    {
        order_of(&self.by_number)
    }

    /// The greatest place that is not above a position; 0 where there is none.
    pub(crate) fn place_at(&self, position: u16) -> u16
        ensures { result ≡ place_at (as_table false self.now) position }
    {
        place_at(&self.by_number, position)
    }

    /// The cutoff of the round.
    pub(crate) fn cutoff(&self) -> Option<(u8, u32)>
        ensures value { result ≡ self.now.rules.cutoff }
        ensures rules { IsCutoff self.now.rules.format self.now.rules.cutoff }
        ensures allotted { KeepsAllotted (as_table false self.now) }
        ensures met { IfSome result (λ cutoff. MetIsBetterIn cutoff (as_table false self.now)) }
    {
        self.rules.cutoff
    }
}

/// Whether less is done than is allotted.
fn is_unfinished(rules: Rules, values: &[Value]) -> bool
    requires { IsCutoff rules.format rules.cutoff }
    ensures { result ≡ is_unfinished rules values.now }
{
    values.len() < usize::from(allotted(rules.format, rules.cutoff, values))
}

/// Whether one of these has done an attempt.
fn is_attempted(entrants: &IndexMap<u16, KeptEntrant>, attempt: u8) -> bool
    ensures { result ≡ list_any (λ s. nat_le attempt (length s.row)) (values entrants.now) }
{
    entrants.values().any(|entrant| usize::from(attempt) <= entrant.row.values().len())
}
