//! What both forms of a sheet say of an entrant, as texts.

ghost use Rattle.std.specs.Prelude.{◌≡◌, IfOk, IfSome, decimal, option_map};
ghost use Rattle.formats.specs.Results.{best_of};
ghost use Rattle.commands.specs.Accepted.{round_of};
ghost use Rattle.rounds.specs.{Rows.IsRow, Tables.Entrant};
ghost use Rattle.sheets.specs.Sheet.{best_text, attempt_text, name_text};
ghost use Rattle.sheets.specs.model.Shown.{IsOpened, TellsShown, marks_shown};

use crate::AdvancingEntrants;
use attempts::{NoMemory, Unit, Value, print_value, push_decimal};
use commands::{Meet, Settings};
use formats::Event;
use rounds::{EntrantRow, RoundTable};
use std::alloc::Global;

/// A round that was opened, and the meet that it belongs to.
#[derive(Clone, Copy)]
pub struct SheetRound<'a> {
    pub meet: &'a Meet,
    pub event: Event,
    pub round: u8,
    pub settings: Settings,
    pub table: &'a RoundTable,
}

/// The round to show, if it was opened.
pub fn shown_round(meet: &Meet, event: Event, round: u8) -> Option<SheetRound<'_>>
    ensures meet { IfSome result (λ shown. shown.meet.now ≡ meet.now) }
    ensures event { IfSome result (λ shown. shown.event ≡ event) }
    ensures number { IfSome result (λ shown. shown.round ≡ round) }
    ensures round { option_map (λ shown. (shown.settings, shown.table.now)) result
        ≡ round_of meet.now.accepted event round }
    ensures opened { IfSome result IsOpened }
{
    let (Some(table), Some(settings)) = (meet.round(event, round), meet.settings(event, round))
    else {
        return None;
    };
    Some(SheetRound {
        meet,
        event,
        round,
        settings,
        table,
    })
}

/// A number in decimal.
pub fn decimal_text(alloc: Global, number: u32) -> Result<Vec<u8>, NoMemory>
    ensures { IfOk result (λ text. text.items ≡ decimal number) }
{
    let mut text = Vec::new(alloc);
    push_decimal(&mut text, number)?;
    Ok(text)
}

/// The best value, or `-` where there is no attempt.
pub fn best_text(
    alloc: Global,
    values: &[Value],
    best: Value,
    unit: Unit,
) -> Result<Vec<u8>, NoMemory>
    requires { best ≡ best_of values.now }
    ensures { IfOk result (λ text. text.items ≡ best_text unit values.now) }
{
    if values.is_empty() {
        Vec::from_slice(alloc, b"-")
    } else {
        print_value(alloc, best, unit)
    }
}

/// The attempt at a place, counted from 0, or `-` where it is not there.
pub fn attempt_text(
    alloc: Global,
    values: &[Value],
    place: usize,
    unit: Unit,
) -> Result<Vec<u8>, NoMemory>
    ensures { IfOk result (λ text. text.items ≡ attempt_text unit values.now place) }
{
    match values.get(place) {
        Some(value) => print_value(alloc, *value, unit),
        None => Vec::from_slice(alloc, b"-"),
    }
}

/// The name of a competitor; an entrant always has one.
pub fn name_text(meet: &Meet, number: u16) -> &[u8]
    ensures { result.now ≡ name_text meet.now.accepted number }
{
    match meet.name(number) {
        Some(name) => name,
        None => &[],
    }
}

/// Whether the sheet marks the entrant of a row as one who advances.
pub fn is_marked(
    shown: SheetRound<'_>,
    going_on: &AdvancingEntrants,
    number: u16,
    row: EntrantRow<'_>,
) -> bool
    requires { TellsShown shown going_on.now }
    ensures { (e : Entrant) → IsRow shown.entry.table.now number e row.entry
        → result ≡ marks_shown shown.entry number }
{
    shown.table.is_closed() && going_on.includes(number, row)
}
