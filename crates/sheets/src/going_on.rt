//! Who goes on from a round.

ghost use Rattle.std.specs.Prelude.{◌≡◌, IfOk, nat_eq};
ghost use Rattle.std.specs.HashSet.{IsFromIterResult};
ghost use Rattle.rounds.specs.{Rows.IsRow, Tables.Entrant, Tables.Table};
ghost use Rattle.sheets.specs.Going.{TellsOf, is_told};

use advancement::{border, is_through};
use attempts::NoMemory;
use commands::Meet;
use formats::Event;
use rounds::EntrantRow;
use std::alloc::Global;
use std::collections::HashSet;

/// Who goes on from a round: it is made once for all entrants, and tells of each in one step.
#[derive(Drop)]
pub enum AdvancingEntrants {
    /// Those who have a number as best attempt and are placed before this place, as the round is.
    PlacedBefore(u16),
    /// These, who advanced when the next round was opened. Attempts may have been fixed since.
    These(HashSet<u16>),
}

/// A set of these numbers.
fn set_of(alloc: Global, numbers: &[u16]) -> Result<HashSet<u16>, NoMemory>
    ensures { IfOk result (IsFromIterResult nat_eq numbers.now) }
{
    numbers.iter().copied().collect(alloc)
}

impl AdvancingEntrants {
    /// Who goes on from a round: who would advance as it is, or advances once it is closed, or
    /// advanced when the next round was opened, where it is. It is `NoMemory` only where a growth
    /// was refused.
    pub fn from_round(alloc: Global, meet: &Meet, event: Event, round: u8) -> Result<Self, NoMemory>
        ensures { IfOk result (λ going_on. TellsOf going_on meet.now.accepted event round) }
    {
        if let Some(numbers) = meet.advanced(event, round) {
            return Ok(AdvancingEntrants::These(set_of(alloc, numbers)?));
        }
        let (Some(table), Some(settings)) = (meet.round(event, round), meet.settings(event, round))
        else {
            return Ok(AdvancingEntrants::PlacedBefore(0));
        };
        Ok(AdvancingEntrants::PlacedBefore(border(table, settings.advance)))
    }

    /// Whether the entrant with this number and this row goes on.
    pub fn includes(&self, number: u16, row: EntrantRow<'_>) -> bool
        ensures { (t : Table) (e : Entrant) → IsRow t number e row.entry
            → result ≡ is_told self.now t number }
    {
        match self {
            AdvancingEntrants::PlacedBefore(border) => is_through(row.best, row.place, *border),
            AdvancingEntrants::These(numbers) => numbers.contains(&number),
        }
    }
}
