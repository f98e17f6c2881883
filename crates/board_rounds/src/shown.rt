//! A round that was opened, as it is shown.

ghost use Rattle.std.specs.Prelude.{◌≡◌, IfSome, option_map};
ghost use Rattle.commands.specs.Accepted.{round_of};
ghost use Rattle.sheets.specs.Sheet.{name_text};
ghost use Rattle.board_rounds.specs.model.Shown.{IsOpened};

use commands::Meet;
use rounds::RoundTable;
use texts::{RoundId, Settings};

/// A round that was opened, and the meet that it belongs to.
#[derive(Clone, Copy)]
pub(crate) struct BoardRound<'a> {
    pub(crate) meet: &'a Meet,
    pub(crate) id: RoundId,
    pub(crate) settings: Settings,
    pub(crate) table: &'a RoundTable,
}

/// The round to show, if it was opened.
pub(crate) fn shown_round(meet: &Meet, id: RoundId) -> Option<BoardRound<'_>>
    ensures meet { IfSome result (λ shown. shown.meet.now ≡ meet.now) }
    ensures id { IfSome result (λ shown. shown.id ≡ id) }
    ensures round { option_map (λ shown. (shown.settings, shown.table.now)) result
        ≡ round_of meet.now.accepted id.event id.round }
    ensures opened { IfSome result IsOpened }
{
    let (Some(table), Some(settings)) = (
        meet.round(id.event, id.round),
        meet.settings(id.event, id.round),
    ) else {
        return None;
    };
    Some(BoardRound {
        meet,
        id,
        settings,
        table,
    })
}

/// The name of a competitor; an entrant always has one.
pub fn name_text(meet: &Meet, number: u16) -> &[u8]
    ensures { result.now ≡ name_text meet.now.accepted number }
{
    match meet.name(number) {
        Some(name) => name,
        None => &[],
    }
}
