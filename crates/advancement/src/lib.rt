//! Advancement: how many rounds may follow one, and who goes on to the next (WCA Regulations,
//! article 9).
#![tactic(auto)]

mod waits;

ghost use Rattle.std.specs.Prelude.{◌≡◌, ◌≤◌, ◌&&◌, IfOk, is_some, length, nat_eq, nat_lt};
ghost use Rattle.std.specs.List.{IsDistinct};
ghost use Rattle.formats.specs.Results.{number_of};
ghost use Rattle.rounds.specs.Tables.{entrant};
ghost use Rattle.advancement.specs.Advancing.{later_rounds, quota, advancing, holds_of, is_before};
ghost use Rattle.advancement.specs.Advancing.{IsBorder, AreThoseWhoAdvance, those_before};

use attempts::{NoMemory, Value};
pub use formats::Advance;
use rounds::RoundTable;
use std::alloc::Global;
pub use waits::{waiting, waiting_worked};

/// How many rounds may follow one with this many competitors (WCA Regulations, article 9m): at most
/// 7 competitors allow none, at most 15 one, at most 99 two, and more three.
pub fn later_rounds(competitors: u16) -> u8
    ensures { result ≡ later_rounds competitors }
{
    match competitors {
        0..=7 => 0,
        8..=15 => 1,
        16..=99 => 2,
        _ => 3,
    }
}

/// How many of a round's competitors may advance: as many as are wanted, a percentage rounded down,
/// and at most three quarters, rounded down (WCA Regulations, article 9p). From a final it is 0.
pub fn quota(advance: Advance, competitors: u16) -> u16
    ensures { result ≡ quota advance competitors }
{
    let competitors = u32::from(competitors);
    let wanted = match advance {
        Advance::Final => 0,
        Advance::Top(number) => u32::from(number),
        Advance::Percent(percent) => competitors * u32::from(percent) / 100,
    };
    wanted.min(3 * competitors / 4) as u16
}

/// The place at which nobody advances any more: those advance whose best attempt is a number and
/// whose place is before it. It goes over the entrants once and takes no memory, so code that asks
/// for many entrants of a round finds it once and asks `is_through` of each.
pub fn border(table: &RoundTable, advance: Advance) -> u16
    ensures { IsBorder table.now advance result }
{
    table.place_at(quota(advance, table.started()) + 1)
}

/// Whether an entrant with this best attempt and this place is placed before the border of its
/// round, with a number as best.
pub fn is_through(best: Value, place: u16, border: u16) -> bool
    ensures { result ≡ (is_some (number_of best) && nat_lt place border) }
{
    is_number(best) && place < border
}

/// The numbers of those who advance, in order of standings, each once; at most 999. It is
/// `NoMemory` only where a growth was refused.
///
/// The competitors of the round are the entrants with an attempt that is not DNS. An entrant
/// advances whose best attempt is a number and for whom no more competitors than the quota are not
/// worse, the entrant included. So those who are tied over the border stay out together.
pub fn advancing(alloc: Global, table: &RoundTable, advance: Advance) -> Result<Vec<u16>, NoMemory>
    ensures order { IfOk result (λ numbers. numbers.items ≡ advancing table.now advance) }
    // These and no others advance.
    ensures whom { IfOk result (λ numbers. AreThoseWhoAdvance table.now advance numbers.items) }
    ensures each_once { IfOk result (λ numbers. IsDistinct nat_eq numbers.items) }
    ensures few { IfOk result (λ numbers. length numbers.items ≤ 999) }
{
    let order = table.standings()?;
    let limit = border(table, advance);
    those_before(alloc, table, limit, &order)
}

/// Those of the numbers whose entrants are placed before a border, with a result.
fn those_before(
    alloc: Global,
    table: &RoundTable,
    border: u16,
    numbers: &[u16],
) -> Result<Vec<u16>, NoMemory>
    ensures { IfOk result (λ kept. kept.items ≡ those_before table.now border numbers.now) }
{
    numbers
        .iter()
        .copied()
        .filter(|number| is_before(table, border, *number))
        .collect(alloc)
}

/// Whether a number is of an entrant who is placed before a border, with a result.
fn is_before(table: &RoundTable, border: u16, number: u16) -> bool
    ensures { result ≡ holds_of (is_before table.now border) (entrant table.now number) }
{
    match table.kept(number) {
        Some(kept) => is_through(kept.best, kept.place, border),
        None => false,
    }
}

/// Whether a value is a number.
pub(crate) fn is_number(value: Value) -> bool
    ensures { result ≡ is_some (number_of value) }
{
    matches!(value, Value::Number(_))
}
