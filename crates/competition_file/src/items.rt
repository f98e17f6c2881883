//! Lists of a value, by their names.

ghost use Rattle.std.specs.Prelude.{◌≡◌, map, option_map};
ghost use Rattle.serde_json.specs.View.{view};
ghost use Rattle.competition_file.specs.Items.{items_of, items_under};

use serde_json::Value;
use wcif::list_at;

/// The items of the list under a name; none where there is no list.
#[tactic(auto, unfolding(crate::specs::Items::items_under))]
pub fn items_under<'v>(value: &'v Value, name: &str) -> &'v [Value]
    ensures { map view result.now ≡ items_under name.now (view value.now) }
{
    match list_at(value, name) {
        Some(items) => items,
        None => &[],
    }
}

/// The items of the list under a name of a value; none where there is no value.
pub(crate) fn items_of<'v>(value: Option<&'v Value>, name: &str) -> &'v [Value]
    ensures { map view result.now ≡ items_of name.now (option_map (λ v. view v.now) value.entry) }
{
    match value {
        Some(value) => items_under(value, name),
        None => &[],
    }
}
