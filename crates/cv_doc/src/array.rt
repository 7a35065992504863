//! The items of an array.

ghost use Rattle.std.specs.Prelude.{◌≡◌, option_map, option_and_then};
ghost use Rattle.serde_json.specs.Find.{as_array};
ghost use Rattle.serde_json.specs.View.{items_view, view};

use serde_json::Value;

/// The items of an array.
pub fn array(value: Option<&Value>) -> Option<&[Value]>
    ensures { option_map (λ items. items_view items.now) result ≡ option_and_then as_array (option_map (λ v. view v.now) value.entry) }
{
    Some(value?.as_array()?.as_slice())
}
