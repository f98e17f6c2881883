//! What a person has to do, in the order of the times.

ghost use Rattle.std.specs.Prelude.{◌≡◌, ◌++◌, flat_map, map, option_map, slice_get, IfOk, OnOk};
ghost use Rattle.serde_json.specs.View.{view};
ghost use Rattle.competition_file.specs.Files.{data_of};
ghost use Rattle.markup.specs.Pieces.{piece_text};
ghost use Rattle.schedule_views.specs.Order.{in_order};
ghost use Rattle.schedule_views.specs.Spots.{Spot as Place, seen};
ghost use Rattle.schedule_views.specs.Today.{do_words, inside, lost_line, nobody, person_section};
ghost use Rattle.schedule_views.specs.Today.{section_with};
ghost use Rattle.schedule_views.specs.Today.{spot_line, start_at, starts, station_words, task_at};
ghost use Rattle.schedule_views.specs.Today.{task_line, tasks, today};

use crate::looks::times;
use crate::ordering::in_order;
use crate::schedule::{end_of, start_of, what};
use crate::spots::{Spot, spot_of, spots};
use attempts::NoMemory;
use competition_file::{CompetitionFile, items_under};
use markup::Piece::{Html, Number, Text};
use markup::{Piece, fill};
use serde_json::Value;
use std::alloc::Global;
use wcif::{given_name, number_within, text_under};

/// The greatest number of a station.
const MOST: u64 = 9_999;

/// The section: the name, the number, the lines, and how their times keep up.
const PERSON: &[u8] = b"\
<section class=\"people today\"><h2 dir=\"auto\">$</h2>
<p>Number $, by the competition's file. <span class=\"zone\">Times are in UTC.</span></p>
<table><thead><tr><th scope=\"col\">from</th><th scope=\"col\">to</th>\
<th scope=\"col\">what</th><th scope=\"col\">to do</th><th scope=\"col\">room</th>\
<th scope=\"col\">station</th></tr></thead><tbody>
$</tbody></table>
$</section>
";

const NOBODY: &[u8] = b"\
<section class=\"people today\"><p>The file has nobody with the number $.</p></section>
";

const NOTHING: &[u8] = b"<tr><td colspan=\"6\">There is nothing to do by the file.</td></tr>\n";

/// A line: the time zone, from when to when, for scripts; from when to when, what, what to do, the
/// room, and the station.
const TASK: &[u8] = b"\
<tr data-zone=\"$\" data-start=\"$\" data-end=\"$\">\
<td><time datetime=\"$\">$</time></td><td><time datetime=\"$\">$</time></td>\
<th scope=\"row\" dir=\"auto\">$</th><td>$</td><td dir=\"auto\">$</td><td>$</td></tr>
";

/// A line of an activity that the file does not have: what to do, and the station.
const LOST: &[u8] = b"\
<tr data-zone=\"\" data-start=\"\" data-end=\"\"><td></td><td></td>\
<th scope=\"row\">an activity that the file does not have</th>\
<td>$</td><td></td><td>$</td></tr>
";

/// What somebody is to do.
fn do_piece(code: &str) -> Piece<'_>
    ensures { piece_text result ≡ do_words code.now }
{
    match code {
        "competitor" => Html(b"competes"),
        "staff-scrambler" => Html(b"scrambles"),
        "staff-runner" => Html(b"runs"),
        "staff-judge" => Html(b"judges"),
        "staff-dataentry" => Html(b"enters results"),
        "staff-announcer" => Html(b"announces"),
        "staff-delegate" => Html(b"is a delegate"),
        "staff-stagelead" => Html(b"leads the stage"),
        "staff-core" => Html(b"is on the core staff"),
        "staff-setup" => Html(b"sets up"),
        "staff-other" => Html(b"helps"),
        _ => Text(code.as_bytes()),
    }
}

/// The station of an assignment, where it has one.
fn station_piece(assignment: &Value) -> Piece<'static>
    ensures { piece_text result ≡ station_words (view assignment.now) }
{
    match number_within(assignment, "stationNumber", 1, MOST) {
        Some(number) => Number(number),
        None => Html(b""),
    }
}

/// Adds the line of an assignment to an activity.
fn push_spot(out: &mut Vec<u8>, spot: &Spot<'_>, assignment: &Value) -> Result<(), NoMemory>
    ensures { OnOk result (out.new.items
        ≡ out.old.items ++ spot_line (view assignment.now) (seen spot.entry.now)) }
{
    let words = what(*out.allocator(), spot.round, spot.activity)?;
    let start = Text(start_of(spot.activity));
    let end = Text(end_of(spot.activity));
    let pieces = [
        Text(text_under(spot.venue, "timezone").as_bytes()),
        start,
        end,
        start,
        start,
        end,
        end,
        Html(&words),
        do_piece(text_under(assignment, "assignmentCode")),
        Text(given_name(spot.room).as_bytes()),
        station_piece(assignment),
    ];
    fill(out, TASK, &pieces)
}

/// Adds the line of an assignment to an activity that the file does not have.
fn push_lost(out: &mut Vec<u8>, assignment: &Value) -> Result<(), NoMemory>
    ensures { OnOk result (out.new.items ≡ out.old.items ++ lost_line (view assignment.now)) }
{
    let pieces = [
        do_piece(text_under(assignment, "assignmentCode")),
        station_piece(assignment),
    ];
    fill(out, LOST, &pieces)
}

/// Adds the line of an assignment.
fn push_task(out: &mut Vec<u8>, spots: &[Spot<'_>], assignment: &Value) -> Result<(), NoMemory>
    ensures { OnOk result (out.new.items
        ≡ out.old.items ++ task_line (map seen spots.now) (view assignment.now)) }
{
    match spot_of(spots, assignment) {
        Some(spot) => push_spot(out, spot, assignment),
        None => push_lost(out, assignment),
    }
}

/// When the activity of an assignment begins; the empty text where the file has none.
fn start_at<'v>(spots: &[Spot<'v>], assignment: &Value) -> &'v [u8]
    ensures { result.now ≡ start_at (map seen spots.now) (view assignment.now) }
{
    match spot_of(spots, assignment) {
        Some(spot) => start_of(spot.activity),
        None => b"",
    }
}

/// When the activities of these assignments begin.
fn starts<'v>(
    alloc: Global,
    spots: &[Spot<'v>],
    assignments: &[Value],
) -> Result<Vec<&'v [u8]>, NoMemory>
    ensures { IfOk result (λ all. map (λ text. text.now) all.items
        ≡ starts (map seen spots.now) (map view assignments.now)) }
{
    let mut all = Vec::new(alloc);
    for assignment in assignments {
        all.push(start_at(spots, assignment))?;
    }
    Ok(all)
}

/// The places of assignments in the order in which their activities begin.
fn ordered(alloc: Global, spots: &[Spot<'_>], assignments: &[Value]) -> Result<Vec<usize>, NoMemory>
    ensures { IfOk result (λ order. order.items
        ≡ in_order (starts (map seen spots.now) (map view assignments.now))) }
{
    let all = starts(alloc, spots, assignments)?;
    in_order(alloc, &all)
}

/// The assignment at a place, counted from 0.
fn item_at(assignments: &[Value], place: usize) -> Option<&Value>
    ensures { option_map (λ assignment. view assignment.now) result
        ≡ slice_get (map view assignments.now) place }
{
    assignments.get(place)
}

/// Adds the line of the assignment at a place.
fn push_task_at(
    out: &mut Vec<u8>,
    spots: &[Spot<'_>],
    assignments: &[Value],
    place: usize,
) -> Result<(), NoMemory>
    ensures { OnOk result (out.new.items
        ≡ out.old.items ++ task_at (map seen spots.now) (map view assignments.now) place) }
{
    match item_at(assignments, place) {
        Some(assignment) => push_task(out, spots, assignment),
        None => Ok(()),
    }
}

/// The lines of the assignments at these places.
fn lines(
    alloc: Global,
    spots: &[Spot<'_>],
    assignments: &[Value],
    places: &[usize],
) -> Result<Vec<u8>, NoMemory>
    ensures { IfOk result (λ text. text.items
        ≡ flat_map (task_at (map seen spots.now) (map view assignments.now)) places.now) }
{
    let mut text = Vec::new(alloc);
    for place in places {
        push_task_at(&mut text, spots, assignments, *place)?;
    }
    Ok(text)
}

/// The lines of assignments, in the order in which their activities begin.
fn tasks(alloc: Global, spots: &[Spot<'_>], assignments: &[Value]) -> Result<Vec<u8>, NoMemory>
    ensures { IfOk result (λ text. text.items
        ≡ tasks (map seen spots.now) (map view assignments.now)) }
{
    let order = ordered(alloc, spots, assignments)?;
    lines(alloc, spots, assignments, &order)
}

/// The lines, or that there is none.
#[tactic(auto, unfolding(crate::specs::Today::inside))]
fn inside(shown: &[u8]) -> &[u8]
    ensures { result.now ≡ inside shown.now }
{
    if shown.is_empty() {
        return NOTHING;
    }
    shown
}

/// Adds the section of a person with this number and these lines.
fn push_section<'a>(
    out: &mut Vec<u8>,
    number: u16,
    person: &'a Value,
    shown: &'a [u8],
) -> Result<(), NoMemory>
    ensures { OnOk result (out.new.items
        ≡ out.old.items ++ section_with number (view person.now) shown.now) }
{
    let pieces = [
        Text(given_name(person).as_bytes()),
        Number(u64::from(number)),
        Html(inside(shown)),
        Html(times()),
    ];
    fill(out, PERSON, &pieces)
}

/// Adds the section of a person with this number.
fn push_person(
    out: &mut Vec<u8>,
    file: &CompetitionFile,
    number: u16,
    person: &Value,
) -> Result<(), NoMemory>
    ensures { OnOk result (out.new.items
        ≡ out.old.items ++ person_section (data_of file.now) number (view person.now)) }
{
    let alloc = *out.allocator();
    let all = spots(alloc, file)?;
    let shown = tasks(alloc, &all, items_under(person, "assignments"))?;
    push_section(out, number, person, &shown)
}

fn push_nobody(out: &mut Vec<u8>, number: u16) -> Result<(), NoMemory>
    ensures { OnOk result (out.new.items ≡ out.old.items ++ nobody number) }
{
    fill(out, NOBODY, &[Number(u64::from(number))])
}

/// Adds the section of what the first accepted person of a file with a number has to do: a line for
/// each assignment, in the order in which their activities begin; or that there is nobody.
///
/// # Errors
///
/// Where memory runs out. A front part may have been added then.
#[tactic(auto, unfolding(crate::specs::Today::today))]
pub fn push_today(out: &mut Vec<u8>, file: &CompetitionFile, number: u16) -> Result<(), NoMemory>
    ensures { OnOk result (out.new.items ≡ out.old.items ++ today number (data_of file.now)) }
{
    match file.person(number) {
        Some(person) => push_person(out, file, number, person),
        None => push_nobody(out, number),
    }
}
