//! What somebody does in a group beside competing.

ghost use Rattle.std.specs.Prelude.{◌≡◌, ◌&&◌, ◌||◌, ◌==◌, ℕ, IfOk, OnOk, map, nat_eq, not};
ghost use Rattle.std.specs.HashSet.{contains};
ghost use Rattle.serde_json.specs.View.{view};
ghost use Rattle.wcif.specs.Persons.{given_name as name_of};
ghost use Rattle.competition_file.specs.Duties.{code_of, duty_at, has_duty, is_this};
ghost use Rattle.competition_file.specs.Kept.{AddsName, AreHelpers, names_at};

use crate::items::items_under;
use attempts::NoMemory;
use serde_json::Value;
use std::alloc::Global;
use std::collections::{HashMap, HashSet};
use wcif::{given_name, number_at, text_under};

/// What somebody does in a group beside competing.
#[derive(Clone, Copy, Debug, PartialEq, Eq)]
pub enum Duty {
    Scrambler,
    Runner,
    Judge,
}

/// The names of those who have a duty in a group, by the id of the group's activity.
pub(crate) type Names = HashMap<u64, Vec<Vec<u8>>>;

/// The `assignmentCode` of a duty.
fn code_of(duty: Duty) -> &'static str
    ensures { result.now ≡ code_of duty }
{
    match duty {
        Duty::Scrambler => "staff-scrambler",
        Duty::Runner => "staff-runner",
        Duty::Judge => "staff-judge",
    }
}

/// The id of the activity of the group in which an assignment is this duty.
fn duty_at(duty: Duty, assignment: &Value) -> Option<u64>
    ensures { result ≡ duty_at duty (view assignment.now) }
{
    if text_under(assignment, "assignmentCode").as_bytes() == code_of(duty).as_bytes() {
        number_at(assignment, "activityId")
    } else {
        None
    }
}

/// Adds a name at an activity.
fn note_name(names: &mut Names, activity: u64, name: Vec<u8>) -> Result<(), NoMemory>
    ensures { OnOk result (AddsName (λ id. activity == id) name.items names.old names.new) }
{
    let mut noted = match names.remove(&activity) {
        Some(noted) => noted,
        None => Vec::new(*name.allocator()),
    };
    noted.push(name)?;
    names.insert(activity, noted)?;
    Ok(())
}

/// Adds the name of a person where an assignment is this duty, unless it is there already.
fn note_assignment(
    names: &mut Names,
    noted: &mut HashSet<u64>,
    alloc: Global,
    duty: Duty,
    person: &Value,
    assignment: &Value,
) -> Result<(), NoMemory>
    ensures noted { OnOk result ((id : ℕ) → contains nat_eq noted.new id
        ≡ (contains nat_eq noted.old id || is_this duty id (view assignment.now))) }
    ensures names { OnOk result (AddsName (λ id. is_this duty id (view assignment.now)
        && not (contains nat_eq noted.old id)) (name_of (view person.now)) names.old names.new) }
{
    let Some(activity) = duty_at(duty, assignment) else {
        return Ok(());
    };
    if noted.insert(activity)? {
        let name = Vec::from_slice(alloc, given_name(person).as_bytes())?;
        note_name(names, activity, name)?;
    }
    Ok(())
}

/// Adds the name of a person, once at each activity in whose group the person has this duty.
fn note_person(names: &mut Names, alloc: Global, duty: Duty, person: &Value) -> Result<(), NoMemory>
    ensures { OnOk result (AddsName (λ id. has_duty duty id (view person.now))
        (name_of (view person.now)) names.old names.new) }
{
    let mut noted = HashSet::new(alloc);
    let assignments = items_under(person, "assignments");
    for assignment in assignments {
        note_assignment(names, &mut noted, alloc, duty, person, assignment)?;
    }
    Ok(())
}

/// The names of those of these persons who have a duty, at each activity in their order.
pub(crate) fn all_names(alloc: Global, duty: Duty, persons: &[Value]) -> Result<Names, NoMemory>
    ensures { IfOk result (AreHelpers duty (map view persons.now)) }
{
    let mut names = HashMap::new(alloc);
    for person in persons {
        note_person(&mut names, alloc, duty, person)?;
    }
    Ok(names)
}

/// The names that are noted at an activity.
pub(crate) fn names_at(names: &Names, activity: u64) -> &[Vec<u8>]
    ensures { map (λ name. name.items) result.now ≡ names_at names.now activity }
{
    match names.get(&activity) {
        Some(noted) => noted,
        None => &[],
    }
}
