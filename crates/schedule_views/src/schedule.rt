//! The schedule: for each room of each venue what happens there, with links to rounds.

ghost use Rattle.std.specs.Prelude.{◌≡◌, ◌++◌, flat_map, map, option_map, slice_get, IfOk, OnOk};
ghost use Rattle.serde_json.specs.View.{view};
ghost use Rattle.competition_file.specs.Files.{data_of};
ghost use Rattle.schedule_views.specs.Order.{in_order};
ghost use Rattle.schedule_views.specs.Schedule.{activities, activity_at, activity_lines, end_of};
ghost use Rattle.schedule_views.specs.Schedule.{group_at, groups, if_opened, inside};
ghost use Rattle.schedule_views.specs.Schedule.{is_named_after, line, name_cell, opened_round};
ghost use Rattle.schedule_views.specs.Schedule.{room_table, round_after, round_named, round_number};
ghost use Rattle.schedule_views.specs.Schedule.{schedule, start_of, starts, tables, venue_tables};
ghost use Rattle.schedule_views.specs.Schedule.{what};

use crate::looks::times;
use crate::ordering::in_order;
use attempts::NoMemory;
use commands::Meet;
use competition_file::{CompetitionFile, items_under};
use formats::{Event, LAST_ROUND};
use markup::Piece::{Html, Text};
use markup::board_page::push_escaped;
use markup::fill;
use round_counts::round_opened;
use round_words::push_round_name;
use serde_json::Value;
use std::alloc::Global;
use texts::{RoundId, cut, number_between};
use wcif::{given_name, text_under};

/// The section: the tables, and how their times keep up.
const SCHEDULE: &[u8] = b"\
<section class=\"people schedule\"><h2>Schedule</h2>
<p>By the competition's file. <span class=\"zone\">Times are in UTC.</span></p>
$$</section>
";

const NO_SCHEDULE: &[u8] = b"<p>The file has no schedule.</p>\n";

/// The table of a room: the time zone, the room for scripts and for people, the venue, and the
/// lines.
const TABLE: &[u8] = b"\
<table data-zone=\"$\" data-room=\"$\"><caption dir=\"auto\"><h2>$</h2>$</caption>
<thead><tr><th scope=\"col\">from</th><th scope=\"col\">to</th><th scope=\"col\">what</th></tr>\
</thead><tbody>
$</tbody></table>
";

/// A line: its class, for scripts from when to when and what, then from when to when and the name,
/// which may be a link.
const LINE: &[u8] = b"\
<tr$ data-start=\"$\" data-end=\"$\" data-what=\"$\">\
<td><time datetime=\"$\">$</time></td><td><time datetime=\"$\">$</time></td>\
<th scope=\"row\" dir=\"auto\">$</th></tr>
";

const GROUP: &[u8] = b" class=\"group\"";

/// A name that leads to the page of a round.
const LINK: &[u8] = b"<a href=\"/$\">$</a>";

/// A name that does not begin with that of its round, after it.
const BOTH: &[u8] = b"$, $";

/// When an activity begins, as the file has it; the empty text where it has none.
pub(crate) fn start_of(activity: &Value) -> &[u8]
    ensures { result.now ≡ start_of (view activity.now) }
{
    text_under(activity, "startTime").as_bytes()
}

/// When an activity ends, as the file has it; the empty text where it has none.
pub(crate) fn end_of(activity: &Value) -> &[u8]
    ensures { result.now ≡ end_of (view activity.now) }
{
    text_under(activity, "endTime").as_bytes()
}

/// Whether a name begins with another.
fn is_named_after(round: &[u8], name: &[u8]) -> bool
    ensures { result ≡ is_named_after round.now name.now }
{
    name.starts_with(round)
}

/// What an activity is, of the activity of a room that it is or that it is a part of: its name, and
/// that of the other where it does not begin with it.
pub(crate) fn what(alloc: Global, round: &Value, activity: &Value) -> Result<Vec<u8>, NoMemory>
    ensures { IfOk result (λ text. text.items ≡ what (view round.now) (view activity.now)) }
{
    let whole = given_name(round).as_bytes();
    let name = given_name(activity).as_bytes();
    let mut text = Vec::new(alloc);
    if is_named_after(whole, name) {
        fill(&mut text, b"$", &[Text(name)])?;
    } else {
        fill(&mut text, BOTH, &[Text(whole), Text(name)])?;
    }
    Ok(text)
}

/// The number of a round in a code, as `r1`.
fn round_number(text: &[u8]) -> Option<u8>
    ensures { result ≡ round_number text.now }
{
    let number = text.strip_prefix(b"r".as_slice())?;
    Some(number_between(1, u64::from(LAST_ROUND), number)? as u8)
}

/// The round of an event, by what is after the event in a code, as `r1` or `r1-g2`.
fn round_after(event: Event, rest: &[u8]) -> Option<RoundId>
    ensures { result ≡ round_after event rest.now }
{
    let round = round_number(cut(rest, b'-').0)?;
    Some(RoundId { event, round })
}

/// The round that the code of an activity names, as `333-r1` or `333-r1-g2`.
fn round_named(code: &[u8]) -> Option<RoundId>
    ensures { result ≡ round_named code.now }
{
    let (name, rest) = cut(code, b'-');
    let event = Event::from_name(name)?;
    round_after(event, rest?)
}

/// A round, where it was opened.
fn if_opened(meet: &Meet, id: RoundId) -> Option<RoundId>
    ensures { result ≡ if_opened meet.now.accepted id }
{
    match round_opened(meet, id) {
        Some(_) => Some(id),
        None => None,
    }
}

/// The round that an activity is or that it is a part of, where that was opened.
fn opened_round(meet: &Meet, activity: &Value) -> Option<RoundId>
    ensures { result ≡ opened_round meet.now.accepted (view activity.now) }
{
    let id = round_named(text_under(activity, "activityCode").as_bytes())?;
    if_opened(meet, id)
}

/// Adds the name of an activity, which leads to this round where there is one.
fn push_name(out: &mut Vec<u8>, round: Option<RoundId>, activity: &Value) -> Result<(), NoMemory>
    ensures { OnOk result (out.new.items
        ≡ out.old.items ++ name_cell round (view activity.now)) }
{
    let name = given_name(activity).as_bytes();
    let Some(id) = round else {
        return push_escaped(out, name);
    };
    let mut path = Vec::new(*out.allocator());
    push_round_name(&mut path, id)?;
    fill(out, LINK, &[Html(&path), Text(name)])
}

/// Adds the line of an activity, of the activity of a room that it is or that it is a part of.
fn push_line(
    out: &mut Vec<u8>,
    meet: &Meet,
    class: &[u8],
    round: &Value,
    activity: &Value,
) -> Result<(), NoMemory>
    ensures { OnOk result (out.new.items
        ≡ out.old.items
        ++ line meet.now.accepted class.now (view round.now) (view activity.now)) }
{
    let words = what(*out.allocator(), round, activity)?;
    let start = Text(start_of(activity));
    let end = Text(end_of(activity));
    let mut name = Vec::new(*out.allocator());
    push_name(&mut name, opened_round(meet, activity), activity)?;
    let pieces = [
        Html(class),
        start,
        end,
        Html(&words),
        start,
        start,
        end,
        end,
        Html(&name),
    ];
    fill(out, LINE, &pieces)
}

/// When these activities begin.
fn starts(alloc: Global, activities: &[Value]) -> Result<Vec<&[u8]>, NoMemory>
    ensures { IfOk result (λ all. map (λ text. text.now) all.items
        ≡ starts (map view activities.now)) }
{
    let mut all = Vec::new(alloc);
    for activity in activities {
        all.push(start_of(activity))?;
    }
    Ok(all)
}

/// The places of activities in the order in which they begin.
fn ordered(alloc: Global, activities: &[Value]) -> Result<Vec<usize>, NoMemory>
    ensures { IfOk result (λ order. order.items ≡ in_order (starts (map view activities.now))) }
{
    let all = starts(alloc, activities)?;
    in_order(alloc, &all)
}

/// The activity at a place, counted from 0.
fn item_at(activities: &[Value], place: usize) -> Option<&Value>
    ensures { option_map (λ activity. view activity.now) result
        ≡ slice_get (map view activities.now) place }
{
    activities.get(place)
}

/// Adds the line of the group at a place.
fn push_group_at(
    out: &mut Vec<u8>,
    meet: &Meet,
    round: &Value,
    children: &[Value],
    place: usize,
) -> Result<(), NoMemory>
    ensures { OnOk result (out.new.items
        ≡ out.old.items
        ++ group_at meet.now.accepted (view round.now) (map view children.now) place) }
{
    match item_at(children, place) {
        Some(group) => push_line(out, meet, GROUP, round, group),
        None => Ok(()),
    }
}

/// Adds the lines of the groups at these places.
fn push_group_lines(
    out: &mut Vec<u8>,
    meet: &Meet,
    round: &Value,
    children: &[Value],
    places: &[usize],
) -> Result<(), NoMemory>
    ensures { OnOk result (out.new.items ≡ out.old.items
        ++ flat_map (group_at meet.now.accepted (view round.now) (map view children.now))
        places.now) }
{
    for place in places {
        push_group_at(out, meet, round, children, *place)?;
    }
    Ok(())
}

/// Adds the lines of groups, in the order in which they begin.
fn push_groups(
    out: &mut Vec<u8>,
    meet: &Meet,
    round: &Value,
    children: &[Value],
) -> Result<(), NoMemory>
    ensures { OnOk result (out.new.items
        ≡ out.old.items
        ++ groups meet.now.accepted (view round.now) (map view children.now)) }
{
    let order = ordered(*out.allocator(), children)?;
    push_group_lines(out, meet, round, children, &order)
}

/// Adds the line of an activity of a room, and those of its groups.
fn push_activity(out: &mut Vec<u8>, meet: &Meet, activity: &Value) -> Result<(), NoMemory>
    ensures { OnOk result (out.new.items
        ≡ out.old.items ++ activity_lines meet.now.accepted (view activity.now)) }
{
    push_line(out, meet, b"", activity, activity)?;
    push_groups(
        out,
        meet,
        activity,
        items_under(activity, "childActivities"),
    )
}

/// Adds the lines of the activity at a place.
fn push_activity_at(
    out: &mut Vec<u8>,
    meet: &Meet,
    all: &[Value],
    place: usize,
) -> Result<(), NoMemory>
    ensures { OnOk result (out.new.items
        ≡ out.old.items ++ activity_at meet.now.accepted (map view all.now) place) }
{
    match item_at(all, place) {
        Some(activity) => push_activity(out, meet, activity),
        None => Ok(()),
    }
}

/// The lines of the activities at these places.
fn lines(alloc: Global, meet: &Meet, all: &[Value], places: &[usize]) -> Result<Vec<u8>, NoMemory>
    ensures { IfOk result (λ text. text.items
        ≡ flat_map (activity_at meet.now.accepted (map view all.now)) places.now) }
{
    let mut text = Vec::new(alloc);
    for place in places {
        push_activity_at(&mut text, meet, all, *place)?;
    }
    Ok(text)
}

/// The lines of activities of a room, in the order in which they begin.
fn activities(alloc: Global, meet: &Meet, all: &[Value]) -> Result<Vec<u8>, NoMemory>
    ensures { IfOk result (λ text. text.items
        ≡ activities meet.now.accepted (map view all.now)) }
{
    let order = ordered(alloc, all)?;
    lines(alloc, meet, all, &order)
}

/// Adds the table of a room of a venue.
fn push_table(out: &mut Vec<u8>, meet: &Meet, venue: &Value, room: &Value) -> Result<(), NoMemory>
    ensures { OnOk result (out.new.items
        ≡ out.old.items ++ room_table meet.now.accepted (view venue.now) (view room.now)) }
{
    let lines = activities(*out.allocator(), meet, items_under(room, "activities"))?;
    let name = Text(given_name(room).as_bytes());
    let pieces = [
        Text(text_under(venue, "timezone").as_bytes()),
        name,
        name,
        Text(given_name(venue).as_bytes()),
        Html(&lines),
    ];
    fill(out, TABLE, &pieces)
}

/// Adds the tables of the rooms of a venue.
fn push_venue(out: &mut Vec<u8>, meet: &Meet, venue: &Value) -> Result<(), NoMemory>
    ensures { OnOk result (out.new.items
        ≡ out.old.items ++ venue_tables meet.now.accepted (view venue.now)) }
{
    let rooms = items_under(venue, "rooms");
    for room in rooms {
        push_table(out, meet, venue, room)?;
    }
    Ok(())
}

/// The tables of all rooms.
fn tables(alloc: Global, file: &CompetitionFile, meet: &Meet) -> Result<Vec<u8>, NoMemory>
    ensures { IfOk result (λ text. text.items ≡ tables meet.now.accepted (data_of file.now)) }
{
    let mut text = Vec::new(alloc);
    let venues = file.venues();
    for venue in venues {
        push_venue(&mut text, meet, venue)?;
    }
    Ok(text)
}

/// The tables, or that there is none.
#[tactic(auto, unfolding(crate::specs::Schedule::inside))]
fn inside(shown: &[u8]) -> &[u8]
    ensures { result.now ≡ inside shown.now }
{
    if shown.is_empty() {
        return NO_SCHEDULE;
    }
    shown
}

/// Adds the section of the schedule of a file: a table for each room of each venue, with a line for
/// each activity and for each of its groups. A name is a link to the page of a round, where the
/// activity's code names the round, alone or with a part of it, and the round was opened.
///
/// # Errors
///
/// Where memory runs out. A front part may have been added then.
#[tactic(auto, unfolding(crate::specs::Schedule::schedule))]
pub fn push_schedule(out: &mut Vec<u8>, file: &CompetitionFile, meet: &Meet) -> Result<(), NoMemory>
    ensures { OnOk result (out.new.items
        ≡ out.old.items ++ schedule meet.now.accepted (data_of file.now)) }
{
    let shown = tables(*out.allocator(), file, meet)?;
    fill(out, SCHEDULE, &[Html(inside(&shown)), Html(times())])
}
