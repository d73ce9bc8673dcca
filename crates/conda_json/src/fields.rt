ghost use Rattle.std.specs.Prelude.{◌≡◌, MatchResult, None, Some};
ghost use Rattle.conda_json.specs.Json.{list_at, number_at, object_at, text_at};
ghost use Rattle.serde_json.specs.View.{items_view, members_view, view};

use crate::error::JsonErr;
use serde_json::{Map, Value};

/// The text in the named field of an object.
pub fn text_of<'a>(value: &'a Value, name: &str) -> Result<&'a str, JsonErr>
    ensures { MatchResult result (λ text. text_at (view value.now) name.now ≡ Some text.now)
        (λ e. (e ≡ JsonErr.BadField) × (text_at (view value.now) name.now ≡ None)) }
{
    match value.get(name) {
        Some(field) => match field.as_str() {
            Some(text) => Ok(text),
            None => Err(JsonErr::BadField),
        },
        None => Err(JsonErr::BadField),
    }
}

/// The whole number below 2^64 in the named field of an object. `1.0`, `1e3` and `-0` are none.
pub fn number_of(value: &Value, name: &str) -> Result<u64, JsonErr>
    ensures { MatchResult result (λ n. number_at (view value.now) name.now ≡ Some n)
        (λ e. (e ≡ JsonErr.BadField) × (number_at (view value.now) name.now ≡ None)) }
{
    value
        .get(name)
        .and_then(Value::as_u64)
        .ok_or(JsonErr::BadField)
}

/// The list in the named field of an object.
pub fn list_of<'a>(value: &'a Value, name: &str) -> Result<&'a [Value], JsonErr>
    ensures { MatchResult result
        (λ list. list_at (view value.now) name.now ≡ Some (items_view list.now))
        (λ e. (e ≡ JsonErr.BadField) × (list_at (view value.now) name.now ≡ None)) }
{
    match value.get(name) {
        Some(field) => match field.as_array() {
            Some(list) => Ok(list.as_slice()),
            None => Err(JsonErr::BadField),
        },
        None => Err(JsonErr::BadField),
    }
}

/// The object in the named field of an object.
pub fn object_of<'a>(value: &'a Value, name: &str) -> Result<&'a Map<String, Value>, JsonErr>
    ensures { MatchResult result
        (λ map. object_at (view value.now) name.now ≡ Some (members_view map.now.entries))
        (λ e. (e ≡ JsonErr.BadField) × (object_at (view value.now) name.now ≡ None)) }
{
    match value.get(name) {
        Some(field) => match field.as_object() {
            Some(map) => Ok(map),
            None => Err(JsonErr::BadField),
        },
        None => Err(JsonErr::BadField),
    }
}
