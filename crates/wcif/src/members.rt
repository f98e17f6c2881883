//! Members of a JSON value, by their names.

ghost use Rattle.std.specs.Prelude.{◌≡◌, map, option_map};
ghost use Rattle.serde_json.specs.View.{view};
ghost use Rattle.wcif.specs.Members.{member_at, text_at, number_at, list_at};

use serde_json::Value;

/// A member that is there and is not null.
pub fn member_at<'v>(value: &'v Value, name: &str) -> Option<&'v Value>
    ensures { option_map (λ v. view v.now) result ≡ member_at name.now (view value.now) }
{
    match value.get(name) {
        Some(Value::Null) => None,
        found => found,
    }
}

/// A member that is a text.
pub fn text_at<'v>(value: &'v Value, name: &str) -> Option<&'v str>
    ensures { option_map (λ s. s.now) result ≡ text_at name.now (view value.now) }
{
    value.get(name).and_then(Value::as_str)
}

/// A member that is a whole number, and not negative.
pub fn number_at(value: &Value, name: &str) -> Option<u64>
    ensures { result ≡ number_at name.now (view value.now) }
{
    value.get(name).and_then(Value::as_u64)
}

/// A member that is a list.
pub fn list_at<'v>(value: &'v Value, name: &str) -> Option<&'v [Value]>
    ensures { option_map (λ vs. map view vs.now) result ≡ list_at name.now (view value.now) }
{
    match value.get(name)?.as_array() {
        Some(list) => Some(list.as_slice()),
        None => None,
    }
}
