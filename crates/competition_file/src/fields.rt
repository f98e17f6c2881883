//! The best single of a round's entrants, by the file.

ghost use Rattle.std.specs.Prelude.{◌≡◌, map};
ghost use Rattle.serde_json.specs.View.{view};
ghost use Rattle.competition_file.specs.Fields.{field_best, is_in_field, lesser, single_in_field};

use crate::bests::{ResultKind, best_of};
use crate::numbers::list_number;
use formats::Event;
use rounds::RoundTable;
use serde_json::Value;

/// Whether the number of a person is entered in a round.
fn is_in_field(table: &RoundTable, person: &Value) -> bool
    ensures { result ≡ is_in_field table.now (view person.now) }
{
    match list_number(person) {
        Some(number) => table.place(number).is_some(),
        None => false,
    }
}

/// The best single of a person whose number is entered in a round.
fn single_in_field(event: Event, table: &RoundTable, person: &Value) -> Option<u32>
    ensures { result ≡ single_in_field event table.now (view person.now) }
{
    if is_in_field(table, person) {
        best_of(person, event, ResultKind::Single)
    } else {
        None
    }
}

/// The lesser of two bests, of those that are there.
fn lesser(one: Option<u32>, other: Option<u32>) -> Option<u32>
    ensures { result ≡ lesser one other }
{
    match (one, other) {
        (Some(one), Some(other)) => Some(one.min(other)),
        (None, other) => other,
        (one, None) => one,
    }
}

/// The least best single in an event, before the competition, of the persons whose numbers are
/// entered in a round, in what the event's `Unit` counts. None where nobody of them has one.
pub fn field_best(persons: &[Value], event: Event, table: &RoundTable) -> Option<u32>
    ensures { result ≡ field_best event table.now (map view persons.now) }
{
    let mut least = None;
    for person in persons {
        least = lesser(least, single_in_field(event, table, person));
    }
    least
}
