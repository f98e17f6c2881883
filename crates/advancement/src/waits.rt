//! Who waits for a place in the next round.

ghost use Rattle.std.specs.Prelude.{◌≡◌, ◌≤◌, ◌&&◌, not, IfOk, is_some, length, nat_eq, nat_lt};
ghost use Rattle.std.specs.List.{IsDistinct};
ghost use Rattle.formats.specs.Results.{number_of};
ghost use Rattle.rounds.specs.Tables.{entrant};
ghost use Rattle.advancement.specs.{Advancing.holds_of, Waiting.those_behind};
ghost use Rattle.advancement.specs.Waiting.{waiting, AreThoseWhoWait, IsTakenInTurn, is_behind};
ghost use Rattle.advancement.specs.WaitingCases.{IsWorked};

use crate::{border, is_number, is_through};
use attempts::{NoMemory, Value};
use formats::Advance;
use rounds::RoundTable;
use std::alloc::Global;

/// The numbers of those who wait for a place in the next round, in order of standings, each once:
/// whose best attempt is a number, and who do not advance. It is `NoMemory` only where a growth was
/// refused.
///
/// One who withdraws from the next round gives the place to the first of them who was not taken in
/// so yet. After this many who were, that is the one at this index.
pub fn waiting(alloc: Global, table: &RoundTable, advance: Advance) -> Result<Vec<u16>, NoMemory>
    ensures order { IfOk result (λ numbers. numbers.items ≡ waiting table.now advance) }
    // These and no others wait.
    ensures whom { IfOk result (λ numbers. AreThoseWhoWait table.now advance numbers.items) }
    ensures each_once { IfOk result (λ numbers. IsDistinct nat_eq numbers.items) }
    ensures few { IfOk result (λ numbers. length numbers.items ≤ 999) }
    ensures in_turn { IfOk result (λ numbers. IsTakenInTurn numbers.items) }
{
    let order = table.standings()?;
    let limit = border(table, advance);
    those_behind(alloc, table, limit, &order)
}

/// Those of the numbers whose entrants are not placed before a border, with a result.
fn those_behind(
    alloc: Global,
    table: &RoundTable,
    border: u16,
    numbers: &[u16],
) -> Result<Vec<u16>, NoMemory>
    ensures { IfOk result (λ kept. kept.items ≡ those_behind table.now border numbers.now) }
{
    numbers
        .iter()
        .copied()
        .filter(|number| is_behind(table, border, *number))
        .collect(alloc)
}

/// Whether a number is of an entrant who is not placed before a border, with a result.
fn is_behind(table: &RoundTable, border: u16, number: u16) -> bool
    ensures { result ≡ holds_of (is_behind table.now border) (entrant table.now number) }
{
    match table.kept(number) {
        Some(kept) => stays_behind(kept.best, kept.place, border),
        None => false,
    }
}

/// Whether an entrant with this best attempt and this place is not placed before a border, with a
/// number as best.
fn stays_behind(best: Value, place: u16, border: u16) -> bool
    ensures { result
        ≡ (is_some (number_of best) && not (is_some (number_of best) && nat_lt place border)) }
{
    is_number(best) && !is_through(best, place, border)
}

/// Worked cases: who waits, with ties at the border and with nobody left, and who takes the places
/// of those who withdraw one after the other.
pub fn waiting_worked()
    ensures { IsWorked }
{}
