//! The sheet in the form that is asked for.

ghost use Rattle.std.specs.Prelude.{◌≡◌, IfOk, IfErr, Some};
ghost use Rattle.sheets.specs.{Sheet.sheet, Faults.NoSheet};

use crate::{SheetFault, SheetStyle, table, text};
use commands::Meet;
use formats::Event;
use std::alloc::Global;

/// The result sheet of a round in a form: what [`text`](crate::text) or [`table`](crate::table)
/// gives.
///
/// # Errors
///
/// - `NoSuchRound` where no accepted command opened the round.
/// - `NoMemory` where memory ran out.
pub fn sheet(
    alloc: Global,
    meet: &Meet,
    event: Event,
    round: u8,
    position: u32,
    style: SheetStyle,
) -> Result<Vec<u8>, SheetFault>
    ensures sheet { IfOk result
        (λ text. sheet style meet.now.accepted event round position ≡ Some text.items) }
    ensures none { IfErr result
        (λ e. NoSheet e (sheet style meet.now.accepted event round position)) }
{
    match style {
        SheetStyle::Text => text(alloc, meet, event, round, position),
        SheetStyle::Table => table(alloc, meet, event, round, position),
    }
}
