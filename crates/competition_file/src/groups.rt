//! The groups of rounds, and who competes in which.

ghost use Rattle.std.specs.Prelude.{◌≡◌, ◌++◌, flat_map, map, option_map, IfOk, OnOk};
ghost use Rattle.serde_json.specs.View.{view};
ghost use Rattle.competition_file.specs.Files.{data_of};
ghost use Rattle.competition_file.specs.Groups.{activity_seat, after, group_in, group_prefix};
ghost use Rattle.competition_file.specs.Groups.{groups_down, is_competitor, level_name};
ghost use Rattle.competition_file.specs.Groups.{number_after, round_groups, seat_among, seat_with};
ghost use Rattle.competition_file.specs.Groups.{seats_in, seats_of, station_of, with_activity};

use crate::file::CompetitionFile;
use crate::items::items_under;
use attempts::NoMemory;
use serde_json::Value;
use std::alloc::Global;
use texts::{RoundId, cut, number_between};
use wcif::{number_at, number_within, round_id, text_under};

/// The greatest number of a group and of a station.
const MOST: u64 = 9_999;

/// How many levels below a venue the groups are: rooms, activities of rounds, groups.
const GROUPS: u8 = 3;

/// A group of a round: the id of its activity, and its number.
#[derive(Clone, Copy, Debug, PartialEq, Eq)]
pub struct RoundGroup {
    pub activity: u64,
    pub number: u16,
}

/// Where somebody competes in a round: the number of the group, and that of the station, where it
/// is known, 1 to 9999 each.
#[derive(Clone, Copy, Debug, PartialEq, Eq)]
pub struct Seat {
    pub group: u16,
    pub station: Option<u16>,
}

/// The id of the activity in which an assignment lets somebody compete, and the number of the
/// station, where it is known.
#[derive(Clone, Copy, Debug, PartialEq, Eq)]
pub(crate) struct ActivitySeat {
    pub(crate) activity: u64,
    pub(crate) station: Option<u16>,
}

/// The name of the lists on this level below a venue, counted from the groups.
fn level_name(level: u8) -> &'static str
    ensures { result.now ≡ level_name level }
{
    if level == 3 {
        "rooms"
    } else if level == 2 {
        "activities"
    } else {
        "childActivities"
    }
}

/// What is after a text in the front of another.
fn after<'t>(front: &[u8], text: &'t [u8]) -> Option<&'t [u8]>
    ensures { option_map (λ rest. rest.now) result ≡ after front.now text.now }
{
    text.strip_prefix(front)
}

/// The number of a group, from what is after `-g` in the code of an activity.
fn number_after(rest: &[u8]) -> Option<u16>
    ensures { result ≡ number_after rest.now }
{
    let number = number_between(1, MOST, cut(rest, b'-').0)?;
    Some(number as u16)
}

/// The group that an activity is, where its code begins so.
fn group_in(front: &[u8], activity: &Value) -> Option<RoundGroup>
    ensures { result ≡ group_in front.now (view activity.now) }
{
    let number = number_after(after(front, text_under(activity, "activityCode").as_bytes())?)?;
    let activity = number_at(activity, "id")?;
    Some(RoundGroup { activity, number })
}

/// Adds the groups that are so many levels down and whose codes begin so.
fn push_groups(
    groups: &mut Vec<RoundGroup>,
    front: &[u8],
    level: u8,
    value: &Value,
) -> Result<(), NoMemory>
    ensures { OnOk result (groups.new.items
        ≡ groups.old.items ++ groups_down front.now level (view value.now)) }
{
    if level == 0 {
        if let Some(group) = group_in(front, value) {
            groups.push(group)?;
        }
        return Ok(());
    }
    let items = items_under(value, level_name(level));
    for item in items {
        push_groups(groups, front, level - 1, item)?;
    }
    Ok(())
}

/// How the codes of the groups of a round begin.
fn group_prefix(alloc: Global, id: RoundId) -> Result<Vec<u8>, NoMemory>
    ensures { IfOk result (λ front. front.items ≡ group_prefix id) }
{
    let mut front = round_id(alloc, id.event, id.round)?;
    front.extend_from_slice(b"-g")?;
    Ok(front)
}

/// The groups of a round, in the order of the file.
#[tactic(auto, unfolding(crate::specs::Groups::round_groups))]
pub fn round_groups(
    alloc: Global,
    file: &CompetitionFile,
    id: RoundId,
) -> Result<Vec<RoundGroup>, NoMemory>
    ensures { IfOk result (λ groups. groups.items ≡ round_groups id (data_of file.now)) }
{
    let front = group_prefix(alloc, id)?;
    let mut groups = Vec::new(alloc);
    let venues = file.venues();
    for venue in venues {
        push_groups(&mut groups, &front, GROUPS, venue)?;
    }
    Ok(groups)
}

/// The first of these groups whose activity has this id.
fn with_activity(groups: &[RoundGroup], activity: u64) -> Option<RoundGroup>
    ensures { result ≡ with_activity activity groups.now }
{
    groups
        .iter()
        .copied()
        .find(|group| group.activity == activity)
}

/// Whether an assignment is to compete.
fn is_competitor(assignment: &Value) -> bool
    ensures { result ≡ is_competitor (view assignment.now) }
{
    text_under(assignment, "assignmentCode").as_bytes() == b"competitor".as_slice()
}

/// The number of the station of an assignment.
fn station_of(assignment: &Value) -> Option<u16>
    ensures { result ≡ station_of (view assignment.now) }
{
    let number = number_within(assignment, "stationNumber", 1, MOST)?;
    Some(number as u16)
}

/// The activity in which an assignment lets somebody compete, and the station.
fn activity_seat(assignment: &Value) -> Option<ActivitySeat>
    ensures { result ≡ activity_seat (view assignment.now) }
{
    if !is_competitor(assignment) {
        return None;
    }
    let activity = number_at(assignment, "activityId")?;
    let station = station_of(assignment);
    Some(ActivitySeat { activity, station })
}

fn push_seat(seats: &mut Vec<ActivitySeat>, assignment: &Value) -> Result<(), NoMemory>
    ensures { OnOk result (seats.new.items
        ≡ seats.old.items ++ seats_in (view assignment.now)) }
{
    if let Some(seat) = activity_seat(assignment) {
        seats.push(seat)?;
    }
    Ok(())
}

fn push_seats(seats: &mut Vec<ActivitySeat>, assignments: &[Value]) -> Result<(), NoMemory>
    ensures { OnOk result (seats.new.items
        ≡ seats.old.items ++ flat_map seats_in (map view assignments.now)) }
{
    for assignment in assignments {
        push_seat(seats, assignment)?;
    }
    Ok(())
}

/// All activities in which a person competes, in the order of the assignments.
#[tactic(auto, unfolding(crate::specs::Groups::seats_of))]
pub(crate) fn seats_of(alloc: Global, person: &Value) -> Result<Vec<ActivitySeat>, NoMemory>
    ensures { IfOk result (λ seats. seats.items ≡ seats_of (view person.now)) }
{
    let mut seats = Vec::new(alloc);
    push_seats(&mut seats, items_under(person, "assignments"))?;
    Ok(seats)
}

/// The seat in an activity, where it is one of these groups.
fn seat_in(groups: &[RoundGroup], seat: &ActivitySeat) -> Option<Seat>
    ensures { result ≡ seat_with groups.now seat.now }
{
    let group = with_activity(groups, seat.activity)?;
    Some(Seat {
        group: group.number,
        station: seat.station,
    })
}

/// The first seat that is in one of these groups.
pub(crate) fn seat_among(groups: &[RoundGroup], seats: &[ActivitySeat]) -> Option<Seat>
    ensures { result ≡ seat_among groups.now seats.now }
{
    for seat in seats {
        let found = seat_in(groups, seat);
        if found.is_some() {
            return found;
        }
    }
    None
}
