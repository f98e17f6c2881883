//! What an export reads in a competition's file.

ghost use Rattle.std.specs.Prelude.{◌≡◌, ◌++◌, map, IfOk, OnOk, codes, option_map, unwrap_or, []};
ghost use Rattle.json.specs.Value.{value_view};
ghost use Rattle.wcif_results.specs.Faults.{file_rounds, held, is_accepted, items_under, number_of};
ghost use Rattle.wcif_results.specs.Faults.{is_numbered, person_with, round_with_id, status_of};
ghost use Rattle.wcif_results.specs.{Filled.id_of, Filled.text_under, model.Opened.held_view};

use attempts::NoMemory;
use json::Value;
use std::alloc::Global;

/// The items of the list under a name, where there is a list.
pub(crate) fn list_under<'v, 'a>(value: &'v Value<'a>, name: &str) -> Option<&'v [Value<'a>]>
    ensures { unwrap_or (option_map (λ vs. map value_view vs.now) result) []
        ≡ items_under name.now (value_view value.now) }
{
    match value.get(name)? {
        Value::Array(items) => Some(items.as_slice()),
        _ => None,
    }
}

/// A text under a name; the empty text where there is none.
pub(crate) fn text_under<'a>(value: &Value<'a>, name: &str) -> &'a str
    ensures { result.now ≡ text_under name.now (value_view value.now) }
{
    value.get(name).and_then(Value::as_str).unwrap_or("")
}

/// The id of a round; the empty text where it has none.
pub(crate) fn id_of<'a>(round: &Value<'a>) -> &'a str
    ensures { result.now ≡ id_of (value_view round.now) }
{
    text_under(round, "id")
}

/// The status of a person's registration; the empty text where there is none.
fn status_of<'a>(person: &Value<'a>) -> &'a str
    ensures { result.now ≡ status_of (value_view person.now) }
{
    match person.get("registration") {
        Some(registration) => text_under(registration, "status"),
        None => "",
    }
}

/// Whether a person's registration is accepted, neither pending nor deleted.
#[tactic(auto, unfolding(crate::specs::Faults::is_accepted))]
fn is_accepted(person: &Value<'_>) -> bool
    ensures { result ≡ is_accepted (value_view person.now) }
{
    status_of(person).as_bytes() == b"accepted".as_slice()
}

/// The number of a person as the file spells it; the empty text where there is none.
fn number_of<'a>(person: &Value<'a>) -> &'a str
    ensures { result.now ≡ number_of (value_view person.now) }
{
    person
        .get("registrantId")
        .and_then(Value::as_number)
        .unwrap_or("")
}

/// What is read of a round of the file: its id and its format.
#[derive(Clone, Copy)]
pub(crate) struct HeldRound<'a> {
    pub(crate) id: &'a str,
    pub(crate) format: &'a str,
}

/// Adds the rounds of an event.
fn push_rounds<'a>(rounds: &mut Vec<HeldRound<'a>>, event: &Value<'a>) -> Result<(), NoMemory>
    ensures { OnOk result (map held_view rounds.new.items ≡ map held_view rounds.old.items
        ++ map held (items_under (codes "rounds") (value_view event.now))) }
{
    let Some(items) = list_under(event, "rounds") else {
        return Ok(());
    };
    for item in items {
        rounds.push(HeldRound {
            id: id_of(item),
            format: text_under(item, "format"),
        })?;
    }
    Ok(())
}

/// The rounds of the file.
#[tactic(auto, unfolding(crate::specs::Faults::file_rounds))]
pub(crate) fn held_rounds<'a>(
    alloc: Global,
    file: &Value<'a>,
) -> Result<Vec<HeldRound<'a>>, NoMemory>
    ensures { IfOk result (λ rounds. map held_view rounds.items
        ≡ map held (file_rounds (value_view file.now))) }
{
    let mut rounds = Vec::new(alloc);
    let Some(events) = list_under(file, "events") else {
        return Ok(rounds);
    };
    for event in events {
        push_rounds(&mut rounds, event)?;
    }
    Ok(rounds)
}

/// The first of the file's rounds with an id.
pub(crate) fn round_with_id<'r, 'a>(
    rounds: &'r [HeldRound<'a>],
    id: &[u8],
) -> Option<&'r HeldRound<'a>>
    ensures { option_map (λ r. held_view r.now) result
        ≡ round_with_id id.now (map held_view rounds.now) }
{
    for round in rounds {
        if round.id.as_bytes() == id {
            return Some(round);
        }
    }
    None
}

/// Whether a person has a number, and is accepted where not all may be meant.
fn is_numbered(person: &Value<'_>, number: &[u8], all: bool) -> bool
    ensures { result ≡ is_numbered all number.now (value_view person.now) }
{
    number_of(person).as_bytes() == number && (all || is_accepted(person))
}

/// The first of the persons with a number: of all, or of those who are accepted.
pub(crate) fn person_with<'v, 'a>(
    persons: &'v [Value<'a>],
    number: &[u8],
    all: bool,
) -> Option<&'v Value<'a>>
    ensures { option_map (λ v. value_view v.now) result
        ≡ person_with all number.now (map value_view persons.now) }
{
    for person in persons {
        if is_numbered(person, number, all) {
            return Some(person);
        }
    }
    None
}
