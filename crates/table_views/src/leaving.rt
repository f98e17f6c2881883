//! Who can withdraw from a round.

ghost use Rattle.std.specs.Prelude.{◌≡◌};
ghost use Rattle.table_views.specs.Leaving.{may_leave};

use rounds::RoundTable;

/// Whether a competitor can withdraw from a round: the round is open, and the competitor is in it
/// and has no attempt.
pub fn may_leave(table: &RoundTable, number: u16) -> bool
    ensures { result ≡ may_leave table.now number }
{
    match table.row(number) {
        Some(row) => !table.is_closed() && row.values.is_empty(),
        None => false,
    }
}
