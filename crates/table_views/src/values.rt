//! What counts of a competitor in a round.

ghost use Rattle.std.specs.Prelude.{◌≡◌};
ghost use Rattle.table_views.specs.Standing.{standing, values_of};

use attempts::Value;
use commands::Meet;
use rounds::RoundTable;
use texts::RoundId;

/// The values that count of a competitor in a round; none where the competitor is not in it.
pub fn values_of(table: &RoundTable, number: u16) -> &[Value]
    ensures { result.now ≡ values_of table.now number }
{
    match table.values(number) {
        Some(values) => values,
        None => &[],
    }
}

/// The values that count of a competitor in a round; none where the round was not opened, or the
/// competitor is not in it.
pub fn standing(meet: &Meet, id: RoundId, number: u16) -> &[Value]
    ensures { result.now ≡ standing meet.now.accepted id number }
{
    match meet.round(id.event, id.round) {
        Some(table) => values_of(table, number),
        None => &[],
    }
}
