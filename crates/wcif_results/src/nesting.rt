//! How deep a JSON value nests.

ghost use Rattle.std.specs.Prelude.{◌≡◌, nat_le};
ghost use Rattle.json.specs.{Tree.depth, Value.value_view};

use json::Value;

/// Whether lists and objects nest in a value at most so deep.
pub(crate) fn nests_within(value: &Value<'_>, levels: u32) -> bool
    ensures { result ≡ nat_le (depth (value_view value.now)) levels }
{
    match value {
        Value::Array(items) => {
            if levels == 0 {
                return false;
            }
            for item in items {
                if !nests_within(item, levels - 1) {
                    return false;
                }
            }
            true
        }
        Value::Object(members) => {
            if levels == 0 {
                return false;
            }
            for member in members {
                if !nests_within(&member.1, levels - 1) {
                    return false;
                }
            }
            true
        }
        _ => true,
    }
}
