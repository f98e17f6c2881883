//! Below which a time is asked about.

ghost use Rattle.std.specs.Prelude.{◌≡◌, ◌<◌, ◌^◌, IfOk, IfSome};
ghost use Rattle.table_entry_views.specs.Bounds.{best_in, floor_of, single_in, single_of, time_of};

use acceptor::NoMemory;
use attempts::Value;
use formats::{Event, best};
use rounds::RoundTable;
use table_views::values_of;
use texts::Entered;

/// The time of a field, with its penalties, in hundredths of a second.
pub fn time_of(field: &Option<Entered>) -> Option<u64>
    ensures time { result ≡ time_of field.now }
    ensures small { IfSome result (λ time. time < 2 ^ 33) }
{
    match field {
        Some(
            Entered::Time {
                hundredths,
                penalties,
            },
        ) => Some(u64::from(*hundredths) + 200 * u64::from(*penalties)),
        _ => None,
    }
}

/// A time in hundredths of a second, clearly below the best single that anybody ever had. It is 0
/// in fewest moves and in multi-blind.
pub fn floor_of(event: Event) -> u32
    ensures { result ≡ floor_of event }
{
    match event {
        Event::Cube2 => 30,
        Event::Cube3 => 250,
        Event::Cube4 => 1300,
        Event::Cube5 => 2700,
        Event::Cube6 => 5000,
        Event::Cube7 => 8000,
        Event::Blind3 => 1000,
        Event::OneHanded => 500,
        Event::Clock => 130,
        Event::Megaminx => 2000,
        Event::Pyraminx | Event::Skewb => 60,
        Event::Square1 => 300,
        Event::Blind4 => 4500,
        Event::Blind5 => 10_500,
        Event::FewestMoves | Event::MultiBlind => 0,
    }
}

/// The best of these attempts, in what the event's `Unit` counts, where one is a result.
pub fn single_of(values: &[Value]) -> Option<u32>
    ensures { result ≡ single_of values.now }
{
    match best(values) {
        Value::Number(number) => Some(number),
        Value::Dnf | Value::Dns => None,
    }
}

/// The best single that counts of a competitor in a round, if there is one.
fn single_in(table: &RoundTable, number: u16) -> Option<u32>
    ensures { result ≡ single_in table.now number }
{
    single_of(values_of(table, number))
}

/// The best single that counts in a round, of all who are in it, in what its `Unit` counts.
pub fn best_in(table: &RoundTable) -> Result<Option<u32>, NoMemory>
    ensures { IfOk result (λ best. best ≡ best_in table.now) }
{
    let numbers = table.standings()?;
    Ok(
        numbers
            .iter()
            .filter_map(|number| single_in(table, *number))
            .min(),
    )
}
