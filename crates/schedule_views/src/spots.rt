//! Where and when something happens that a person may be assigned to.

ghost use Rattle.std.specs.Prelude.{◌≡◌, [], ◌∷◌, ◌++◌, find, map, option_map, IfOk, OnOk};
ghost use Rattle.serde_json.specs.View.{view};
ghost use Rattle.competition_file.specs.Files.{data_of};
ghost use Rattle.schedule_views.specs.Spots.{is_spot, seen, spot, spot_of, spots, spots_down};
ghost use Rattle.schedule_views.specs.Spots.{spots_in_room, spots_in_round, spots_in_venue};

use attempts::NoMemory;
use competition_file::{CompetitionFile, items_under};
use serde_json::Value;
use std::alloc::Global;
use wcif::number_at;

/// How many levels of activities below those of a room are read. A file nests at most 64 deep, and
/// each of these levels is two.
const LEVELS: u8 = 32;

/// An activity, with the venue and the room where it is, and the activity of the room that it is or
/// that it is a part of.
#[derive(Clone, Copy)]
pub(crate) struct Spot<'v> {
    pub(crate) venue: &'v Value,
    pub(crate) room: &'v Value,
    pub(crate) round: &'v Value,
    pub(crate) activity: &'v Value,
    pub(crate) id: Option<u64>,
}

/// Adds an activity.
fn push_one<'v>(
    spots: &mut Vec<Spot<'v>>,
    venue: &'v Value,
    room: &'v Value,
    round: &'v Value,
    activity: &'v Value,
) -> Result<(), NoMemory>
    ensures { OnOk result (map seen spots.new.items ≡ map seen spots.old.items
        ++ spot (view venue.now) (view room.now) (view round.now) (view activity.now) ∷ []) }
{
    let id = number_at(activity, "id");
    spots.push(Spot {
        venue,
        room,
        round,
        activity,
        id,
    })?;
    Ok(())
}

/// Adds an activity and those below it.
fn push_down<'v>(
    spots: &mut Vec<Spot<'v>>,
    venue: &'v Value,
    room: &'v Value,
    round: &'v Value,
    level: u8,
    activity: &'v Value,
) -> Result<(), NoMemory>
    ensures { OnOk result (map seen spots.new.items ≡ map seen spots.old.items
        ++ spots_down (view venue.now) (view room.now) (view round.now) level
        (view activity.now)) }
{
    push_one(spots, venue, room, round, activity)?;
    if level == 0 {
        return Ok(());
    }
    let children = items_under(activity, "childActivities");
    for child in children {
        push_down(spots, venue, room, round, level - 1, child)?;
    }
    Ok(())
}

/// Adds an activity of a room and those below it.
#[tactic(auto, unfolding(crate::specs::Spots::spots_in_round))]
fn push_round<'v>(
    spots: &mut Vec<Spot<'v>>,
    venue: &'v Value,
    room: &'v Value,
    round: &'v Value,
) -> Result<(), NoMemory>
    ensures { OnOk result (map seen spots.new.items ≡ map seen spots.old.items
        ++ spots_in_round (view venue.now) (view room.now) (view round.now)) }
{
    push_down(spots, venue, room, round, LEVELS, round)
}

/// Adds the activities of a room.
fn push_room<'v>(
    spots: &mut Vec<Spot<'v>>,
    venue: &'v Value,
    room: &'v Value,
) -> Result<(), NoMemory>
    ensures { OnOk result (map seen spots.new.items ≡ map seen spots.old.items
        ++ spots_in_room (view venue.now) (view room.now)) }
{
    let rounds = items_under(room, "activities");
    for round in rounds {
        push_round(spots, venue, room, round)?;
    }
    Ok(())
}

/// Adds the activities of a venue.
fn push_venue<'v>(spots: &mut Vec<Spot<'v>>, venue: &'v Value) -> Result<(), NoMemory>
    ensures { OnOk result (map seen spots.new.items ≡ map seen spots.old.items
        ++ spots_in_venue (view venue.now)) }
{
    let rooms = items_under(venue, "rooms");
    for room in rooms {
        push_room(spots, venue, room)?;
    }
    Ok(())
}

/// All activities, in the order of the file.
pub(crate) fn spots(alloc: Global, file: &CompetitionFile) -> Result<Vec<Spot<'_>>, NoMemory>
    ensures { IfOk result (λ all. map seen all.items ≡ spots (data_of file.now)) }
{
    let mut all = Vec::new(alloc);
    let venues = file.venues();
    for venue in venues {
        push_venue(&mut all, venue)?;
    }
    Ok(all)
}

/// Whether an activity has this id.
fn is_spot(id: u64, spot: &Spot<'_>) -> bool
    ensures { result ≡ is_spot id (seen spot.entry.now) }
{
    match spot.id {
        Some(own) => own == id,
        None => false,
    }
}

/// The first activity with an id.
fn spot_with<'s, 'v>(spots: &'s [Spot<'v>], id: u64) -> Option<&'s Spot<'v>>
    ensures { option_map (λ spot. seen spot.now) result ≡ find (is_spot id) (map seen spots.now) }
{
    for spot in spots {
        if is_spot(id, spot) {
            return Some(spot);
        }
    }
    None
}

/// The activity that an assignment names.
pub(crate) fn spot_of<'s, 'v>(spots: &'s [Spot<'v>], assignment: &Value) -> Option<&'s Spot<'v>>
    ensures { option_map (λ spot. seen spot.now) result
        ≡ spot_of (map seen spots.now) (view assignment.now) }
{
    spot_with(spots, number_at(assignment, "activityId")?)
}
