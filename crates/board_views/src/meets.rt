//! The table of a round as a mirror had it after the first of its entries.

ghost use Rattle.std.specs.Prelude.{◌≡◌, IfOk, option_map};
ghost use Rattle.board_views.specs.Rounds.{table_at};

use acceptor::NoMemory;
use answers::LogSheetFault;
use mirror::Mirror;
use sheets::SheetStyle;
use std::alloc::{AllocError, Global};
use texts::RoundId;

/// The table of a round after the first entries of the log, `position` of them, where there are
/// this many and the round was opened in them.
pub(crate) fn table_at(
    alloc: Global,
    mirror: &Mirror,
    position: u32,
    id: RoundId,
) -> Result<Option<Vec<u8>>, NoMemory>
    ensures { IfOk result
        (λ table. option_map (λ text. text.items) table ≡ table_at mirror.now position id) }
{
    match mirror.sheet_at(alloc, position, id.event, id.round, SheetStyle::Table) {
        Ok(text) => Ok(Some(text)),
        Err(LogSheetFault::NotThere) => Ok(None),
        Err(LogSheetFault::NoSuchRound) => Ok(None),
        Err(LogSheetFault::NoMemory) => Err(AllocError),
    }
}
