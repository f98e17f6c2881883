//! Limits for several attempts together.

ghost use Rattle.std.specs.Prelude.{◌≡◌, find, map, option_map, IfOk};
ghost use Rattle.serde_json.specs.View.{view};
ghost use Rattle.wcif.specs.Persons.{has_id};
ghost use Rattle.competition_file.specs.Files.{data_of};
ghost use Rattle.competition_file.specs.Limits.{cumulative_limit, limit_rounds, round_of};

use crate::file::CompetitionFile;
use crate::items::{items_of, items_under};
use attempts::NoMemory;
use serde_json::Value;
use std::alloc::Global;
use texts::RoundId;
use wcif::{member_at, number_within, round_id, text_under};

/// The greatest limit, in hundredths of a second.
const MOST_LIMIT: u64 = 360_000;

/// Whether the id of an item is this one.
fn has_id(id: &[u8], item: &Value) -> bool
    ensures { result ≡ has_id id.now (view item.now) }
{
    id == text_under(item, "id").as_bytes()
}

/// The first of these items with an id.
fn with_id<'v>(items: &'v [Value], id: &[u8]) -> Option<&'v Value>
    ensures { option_map (λ item. view item.now) result ≡ find (has_id id.now) (map view
        items.now) }
{
    for item in items {
        if has_id(id, item) {
            return Some(item);
        }
    }
    None
}

/// The round of a file with an id.
#[tactic(auto, unfolding(crate::specs::Limits::round_of))]
pub fn round_of(
    alloc: Global,
    file: &CompetitionFile,
    id: RoundId,
) -> Result<Option<&Value>, NoMemory>
    ensures { IfOk result (λ found. option_map (λ round. view round.now) found
        ≡ round_of id (data_of file.now)) }
{
    let text = round_id(alloc, id.event, id.round)?;
    let events = items_under(file.value(), "events");
    let event = with_id(events, id.event.name().as_bytes());
    Ok(with_id(items_of(event, "rounds"), &text))
}

/// The ids of the rounds of whose attempts the limit of a round is the limit together; none where
/// it is that of each attempt.
#[tactic(auto, unfolding(crate::specs::Limits::limit_rounds))]
pub fn limit_rounds(round: &Value) -> &[Value]
    ensures { map view result.now ≡ limit_rounds (view round.now) }
{
    items_of(member_at(round, "timeLimit"), "cumulativeRoundIds")
}

/// The limit of a round, in hundredths of a second, 1 to 360000, where it is for several attempts
/// together.
#[tactic(auto, unfolding(crate::specs::Limits::cumulative_limit))]
pub fn cumulative_limit(round: &Value) -> Option<u32>
    ensures { result ≡ cumulative_limit (view round.now) }
{
    if limit_rounds(round).is_empty() {
        return None;
    }
    let limit = number_within(
        member_at(round, "timeLimit")?,
        "centiseconds",
        1,
        MOST_LIMIT,
    )?;
    Some(limit as u32)
}
