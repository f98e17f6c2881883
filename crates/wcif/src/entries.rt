//! The events for which a person is registered.

ghost use Rattle.std.specs.Prelude.{◌≡◌, ◌++◌, map, OnOk, option_map, option_to_list};
ghost use Rattle.std.specs.List.{list_any};
ghost use Rattle.serde_json.specs.View.{view};
ghost use Rattle.wcif.specs.Persons.{has_id, is_id, id_faults, events_faults};
ghost use Rattle.wcif.specs.Told.{told};

use crate::fault::PersonFault;
use crate::persons::{text_of, text_under};
use attempts::NoMemory;
use serde_json::Value;

/// The most events of which a list is read.
pub(crate) const MOST_EVENTS: usize = 100;

/// Whether an event of the file has this id.
pub(crate) fn has_id(events: &[Value], id: &str) -> bool
    ensures { result ≡ list_any (has_id id.now) (map view events.now) }
{
    for event in events {
        if id.as_bytes() == text_under(event, "id").as_bytes() {
            return true;
        }
    }
    false
}

/// Whether an item of a list is this id.
pub(crate) fn holds_id(ids: &[Value], id: &str) -> bool
    ensures { result ≡ list_any (is_id id.now) (map view ids.now) }
{
    for item in ids {
        if id.as_bytes() == text_of(item).as_bytes() {
            return true;
        }
    }
    false
}

/// What is wrong with an id of a registration, given those in front.
fn id_fault(events: &[Value], earlier: &[Value], id: &Value) -> Option<PersonFault>
    ensures { option_to_list result
        ≡ id_faults (map view events.now) (map view earlier.now) (view id.now) }
{
    let item = earlier.len() + 1;
    if !has_id(events, text_of(id)) {
        Some(PersonFault::NotHeld { item })
    } else if holds_id(earlier, text_of(id)) {
        Some(PersonFault::EnteredTwice { item })
    } else {
        None
    }
}

/// Adds a fault, where there is one.
pub(crate) fn push_some(
    faults: &mut Vec<PersonFault>,
    fault: Option<PersonFault>,
) -> Result<(), NoMemory>
    ensures { OnOk result (faults.new.items ≡ faults.old.items ++ option_to_list fault) }
{
    if let Some(fault) = fault {
        faults.push(fault)?;
    }
    Ok(())
}

/// Adds what is wrong with the ids of a registration.
fn push_id_faults(
    faults: &mut Vec<PersonFault>,
    events: &[Value],
    ids: &[Value],
) -> Result<(), NoMemory>
    ensures { OnOk result (faults.new.items
        ≡ faults.old.items ++ told (id_faults (map view events.now)) (map view ids.now)) }
{
    for index in 0..ids.len() {
        push_some(faults, id_fault(events, &ids[..index], &ids[index]))?;
    }
    Ok(())
}

/// Adds what is wrong with the events of a registration.
pub(crate) fn push_events_faults(
    faults: &mut Vec<PersonFault>,
    events: &[Value],
    ids: Option<&[Value]>,
) -> Result<(), NoMemory>
    ensures { OnOk result (faults.new.items ≡ faults.old.items
        ++ events_faults (map view events.now) (option_map (λ vs. map view vs.now) ids.entry)) }
{
    let Some(ids) = ids else {
        return push_some(faults, Some(PersonFault::NoEvents));
    };
    if ids.len() > MOST_EVENTS {
        return push_some(faults, Some(PersonFault::TooManyEvents));
    }
    push_id_faults(faults, events, ids)
}
