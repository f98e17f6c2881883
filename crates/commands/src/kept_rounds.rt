//! The rounds that were opened, each with its table and the places of its scrambles.

ghost use Rattle.std.specs.Prelude.{◌≡◌, ◌≤◌, [], is_some, MatchOption, option_map, position, find};
ghost use Rattle.std.specs.{Prelude.None, Prelude.suc, Option.option_copied};
ghost use Rattle.commands.specs.Accepted.{is_final, is_of, leads_on, competitors_of};
ghost use Rattle.commands.specs.model.Kept.{is_round, kept_by, kept_scramble, IsKeptAt, kept_next};
ghost use Rattle.commands.specs.model.Kept.{kept_competitors, kept_advanced};

use crate::solutions::Solutions;
use advancement::Advance;
use rounds::RoundTable;
use std::alloc::Global;
use texts::{RoundId, Settings};

/// A round that was opened.
#[derive(Drop)]
pub(crate) struct KeptRound {
    pub(crate) id: RoundId,
    pub(crate) settings: Settings,
    pub(crate) table: RoundTable,
    /// Where the scramble of each attempt is among the accepted commands.
    pub(crate) scrambles: [Option<usize>; 5],
    /// For which attempts a solution was entered.
    pub(crate) solutions: Solutions,
    /// Those who wait for a place in the round, in order: who withdraws gives it to the first.
    pub(crate) waiting: Vec<u16>,
    /// Those who advanced from the round before when this one was opened.
    pub(crate) advanced: Vec<u16>,
    /// How many competitors the round before had then.
    pub(crate) competitors_before: u16,
}

/// The rounds that were opened: at most four of each event.
#[derive(Drop)]
pub(crate) struct KeptRounds {
    pub(crate) opened: Vec<KeptRound>,
}

/// Whether two ids are of one round.
pub(crate) fn is_same(one: RoundId, other: RoundId) -> bool
    ensures { result ≡ is_of one.event one.round other }
{
    one == other
}

/// Whether an id is that of the round after another.
fn is_before(id: RoundId, next: RoundId) -> bool
    ensures { result ≡ is_of id.event (suc id.round) next }
{
    id.event == next.event && u16::from(id.round) + 1 == u16::from(next.round)
}

/// Whether no round follows.
pub(crate) fn is_final(advance: Advance) -> bool
    ensures { result ≡ is_final advance }
{
    match advance {
        Advance::Final => true,
        Advance::Top(_) | Advance::Percent(_) => false,
    }
}

/// Where the round of an id is among these.
fn place_in(rounds: &[KeptRound], id: RoundId) -> Option<usize>
    ensures { result ≡ position (is_round id.event id.round) rounds.now }
{
    rounds.iter().position(|kept| is_same(id, kept.id))
}

impl KeptRounds {
    /// No round is opened yet.
    pub(crate) fn new(alloc: Global) -> Self
        ensures { result.opened.items ≡ [] }
    {
        KeptRounds {
            opened: Vec::new(alloc),
        }
    }

    /// Where a round is, if it was opened.
    pub(crate) fn place_of(&self, id: RoundId) -> Option<usize>
        ensures value { result ≡ position (is_round id.event id.round) self.now.opened.items }
        ensures kept { MatchOption result (kept_by id self.now ≡ None)
            (IsKeptAt self.now.opened.items id.event id.round) }
    {
        place_in(&self.opened, id)
    }

    /// A round, if it was opened.
    pub(crate) fn get(&self, id: RoundId) -> Option<&KeptRound>
        ensures { option_copied result
            ≡ find (is_round id.event id.round) self.now.opened.items }
    {
        let place = self.place_of(id)?;
        Some(&self.opened[place])
    }

    /// Whether a round was opened.
    pub(crate) fn is_open(&self, id: RoundId) -> bool
        ensures { result ≡ is_some (kept_by id self.now) }
    {
        self.get(id).is_some()
    }

    /// The table of a round.
    pub(crate) fn table(&self, id: RoundId) -> Option<&RoundTable>
        ensures { option_copied result ≡ option_map (λ r. r.1) (kept_by id self.now) }
    {
        Some(&self.get(id)?.table)
    }

    /// The settings of a round.
    pub(crate) fn settings(&self, id: RoundId) -> Option<Settings>
        ensures { result ≡ option_map (λ r. r.0) (kept_by id self.now) }
    {
        Some(self.get(id)?.settings)
    }

    /// Where the scramble of an attempt is among the accepted commands.
    pub(crate) fn scramble(&self, id: RoundId, attempt: u8) -> Option<usize>
        requires { 1 ≤ attempt }
        ensures { result ≡ kept_scramble id.event id.round attempt self.now.opened.items }
    {
        *self.get(id)?.scrambles.get(usize::from(attempt) - 1)?
    }

    /// Whether a round is closed, and is not the event's last.
    pub(crate) fn leads_on(&self, id: RoundId) -> bool
        ensures { result ≡ leads_on (kept_by id self.now) }
    {
        match self.get(id) {
            Some(kept) => kept.table.is_closed() && !is_final(kept.settings.advance),
            None => false,
        }
    }

    /// The next round, if it was opened.
    pub(crate) fn next(&self, id: RoundId) -> Option<&KeptRound>
        ensures { option_copied result ≡ kept_next id.event id.round self.now.opened.items }
    {
        self.opened.iter().find(|kept| is_before(id, kept.id))
    }

    /// How many competitors a round has now: entrants with an attempt that is not DNS.
    pub(crate) fn started(&self, id: RoundId) -> u16
        ensures { result ≡ competitors_of (kept_by id self.now) }
    {
        match self.get(id) {
            Some(kept) => kept.table.started(),
            None => 0,
        }
    }

    /// How many competitors a round has, as the next one sees it: those when the next one was
    /// opened, where it is.
    pub(crate) fn competitors(&self, id: RoundId) -> u16
        ensures { result ≡ kept_competitors id.event self.now.opened.items id.round }
    {
        match self.next(id) {
            Some(next) => next.competitors_before,
            None => self.started(id),
        }
    }

    /// Those who advanced from a round when the next one was opened, if it was.
    pub(crate) fn advanced(&self, id: RoundId) -> Option<&[u16]>
        ensures { option_map (λ numbers. numbers.now) result
            ≡ kept_advanced id.event id.round self.now.opened.items }
    {
        Some(&self.next(id)?.advanced)
    }
}
