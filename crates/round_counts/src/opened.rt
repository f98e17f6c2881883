//! A round that was opened.

ghost use Rattle.std.specs.Prelude.{◌≡◌, option_map};
ghost use Rattle.commands.specs.Accepted.{round_by};

use commands::Meet;
use rounds::RoundTable;
use texts::{RoundId, Settings};

/// A round that was opened: how it is run now, and its table.
#[derive(Clone, Copy)]
pub struct OpenedRound<'a> {
    pub settings: Settings,
    pub table: &'a RoundTable,
}

/// A round, where it was opened.
pub fn round_opened(meet: &Meet, id: RoundId) -> Option<OpenedRound<'_>>
    ensures { option_map (λ round. (round.settings, round.table.now)) result
        ≡ round_by meet.now.accepted id }
{
    let (Some(table), Some(settings)) = (
        meet.round(id.event, id.round),
        meet.settings(id.event, id.round),
    ) else {
        return None;
    };
    Some(OpenedRound { settings, table })
}
