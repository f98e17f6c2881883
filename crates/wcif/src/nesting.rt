//! How deep a JSON value nests.

ghost use Rattle.std.specs.Prelude.{◌≡◌, nat_le};
ghost use Rattle.serde_json.specs.{Data.depth, View.view};

use serde_json::Value;

/// Whether lists and objects nest in a value at most so deep.
pub(crate) fn nests_within(value: &Value, levels: u32) -> bool
    ensures { result ≡ nat_le (depth (view value.now)) levels }
{
    match value {
        Value::Array(items) => {
            if levels == 0 {
                return false;
            }
            for item in items.as_slice() {
                if !nests_within(item, levels - 1) {
                    return false;
                }
            }
            true
        }
        Value::Object(members) => {
            if levels == 0 {
                return false;
            }
            for (_, member) in members.iter() {
                if !nests_within(member, levels - 1) {
                    return false;
                }
            }
            true
        }
        _ => true,
    }
}
