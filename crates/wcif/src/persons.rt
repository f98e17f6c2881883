//! The persons of a competition.

ghost use Rattle.std.specs.Prelude.{◌≡◌, map, option_map, option_and_then, codes};
ghost use Rattle.serde_json.specs.{Find.get, View.view};
ghost use Rattle.wcif.specs.{Members.text_at, Persons.wca_id, Persons.event_ids};
ghost use Rattle.wcif.specs.Persons.{text_of, text_under, is_accepted, number_of, given_name};

use crate::members::{list_at, number_at, text_at};
use serde_json::Value;

/// The text that a value is; what is no text is the empty one.
pub(crate) fn text_of(value: &Value) -> &str
    ensures { result.now ≡ text_of (view value.now) }
{
    value.as_str().unwrap_or("")
}

/// A text under a name; the empty one where there is none.
pub fn text_under<'v>(value: &'v Value, name: &str) -> &'v str
    ensures { result.now ≡ text_under name.now (view value.now) }
{
    text_at(value, name).unwrap_or("")
}

/// The status of a person's registration; the empty text where there is none.
fn status(person: &Value) -> Option<&str>
    ensures { option_map (λ s. s.now) result ≡ option_and_then (text_at (codes "status"))
        (get (codes "registration") (view person.now)) }
{
    text_at(person.get("registration")?, "status")
}

/// Whether a person's registration is accepted.
#[tactic(auto, unfolding(crate::specs::Persons::is_accepted))]
pub fn is_accepted(person: &Value) -> bool
    ensures { result ≡ is_accepted (view person.now) }
{
    status(person).unwrap_or("").as_bytes() == b"accepted".as_slice()
}

/// The number in the file.
#[tactic(auto, unfolding(crate::specs::Persons::number_of))]
pub fn number_of(person: &Value) -> Option<u64>
    ensures { result ≡ number_of (view person.now) }
{
    number_at(person, "registrantId")
}

/// The name in the file; the empty text where there is none.
#[tactic(auto, unfolding(crate::specs::Persons::given_name))]
pub fn given_name(person: &Value) -> &str
    ensures { result.now ≡ given_name (view person.now) }
{
    text_under(person, "name")
}

/// The WCA ID, where the person has one.
#[tactic(auto, unfolding(crate::specs::Persons::wca_id))]
pub(crate) fn wca_id(person: &Value) -> Option<&str>
    ensures { option_map (λ s. s.now) result ≡ wca_id (view person.now) }
{
    text_at(person, "wcaId")
}

/// The ids of the events for which the person is registered.
#[tactic(auto, unfolding(crate::specs::Persons::event_ids))]
pub(crate) fn event_ids(person: &Value) -> Option<&[Value]>
    ensures { option_map (λ vs. map view vs.now) result ≡ event_ids (view person.now) }
{
    list_at(person.get("registration")?, "eventIds")
}
