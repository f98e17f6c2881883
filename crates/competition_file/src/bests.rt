//! Personal bests.

ghost use Rattle.std.specs.Prelude.{◌≡◌};
ghost use Rattle.serde_json.specs.View.{view};
ghost use Rattle.competition_file.specs.Bests.{best_in, best_of, is_best_of, kind_name};

use crate::items::items_under;
use formats::Event;
use serde_json::Value;
use wcif::{number_within, text_under};

/// The greatest number of a best.
const MOST: u64 = 4_294_967_295;

/// What a best is of.
#[derive(Clone, Copy, Debug, PartialEq, Eq)]
pub enum ResultKind {
    Single,
    Average,
}

/// The `type` of a best.
pub fn kind_name(kind: ResultKind) -> &'static str
    ensures { result.now ≡ kind_name kind }
{
    match kind {
        ResultKind::Single => "single",
        ResultKind::Average => "average",
    }
}

/// Whether a best is of this kind, in this event.
fn is_best_of(event: Event, kind: ResultKind, best: &Value) -> bool
    ensures { result ≡ is_best_of event kind (view best.now) }
{
    text_under(best, "eventId").as_bytes() == event.name().as_bytes()
        && text_under(best, "type").as_bytes() == kind_name(kind).as_bytes()
}

/// The number of a best, where it is of this kind, in this event.
fn best_in(event: Event, kind: ResultKind, best: &Value) -> Option<u32>
    ensures { result ≡ best_in event kind (view best.now) }
{
    if !is_best_of(event, kind, best) {
        return None;
    }
    let number = number_within(best, "best", 1, MOST)?;
    Some(number as u32)
}

/// A person's best single or average in an event before the competition, in what the event's `Unit`
/// counts, an average of moves in hundredths: the first that the file has. None where it has none.
#[tactic(auto, unfolding(crate::specs::Bests::best_of))]
pub fn best_of(person: &Value, event: Event, kind: ResultKind) -> Option<u32>
    ensures { result ≡ best_of event kind (view person.now) }
{
    let bests = items_under(person, "personalBests");
    for best in bests {
        let found = best_in(event, kind, best);
        if found.is_some() {
            return found;
        }
    }
    None
}
