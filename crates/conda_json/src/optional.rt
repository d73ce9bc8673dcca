ghost use Rattle.std.specs.Prelude.{◌≡◌, MatchResult, Ok, Err, option_map};
ghost use Rattle.conda_json.specs.Fields.{is_there, optional};
ghost use Rattle.conda_json.specs.Json.{inner_at, list_at, number_at, object_at, text_at, truth_at};
ghost use Rattle.serde_json.specs.View.{items_view, members_view, view};

use crate::required::{
    BadField, list_field, members_field, number_field, object_field, text_field, truth_field,
};
use serde_json::{Map, Value};

/// What `null` means in a field that may be absent.
#[derive(Clone, Copy, Debug, PartialEq, Eq)]
pub enum Null {
    /// The field is absent.
    Absent,
    /// The field is there, and of another kind.
    Bad,
}

fn is_field_there(value: &Value, field: &str, null: Null) -> bool
    ensures { result ≡ is_there null field.now (view value.now) }
{
    match value.get(field) {
        Some(found) => match null {
            Null::Absent => !found.is_null(),
            Null::Bad => true,
        },
        None => false,
    }
}

/// The text in a field that may be absent.
pub fn optional_text<'a>(
    value: &'a Value,
    field: &'static str,
    null: Null,
) -> Result<Option<&'a str>, BadField>
    ensures { MatchResult result (λ found. optional text_at null field.now (view value.now)
        ≡ Ok (option_map (λ text. text.now) found))
        (λ e. optional text_at null field.now (view value.now) ≡ Err e.field.now) }
{
    if !is_field_there(value, field, null) {
        return Ok(None);
    }
    Ok(Some(text_field(value, field)?))
}

/// The whole number below 2^64 in a field that may be absent.
pub fn optional_number(
    value: &Value,
    field: &'static str,
    null: Null,
) -> Result<Option<u64>, BadField>
    ensures { MatchResult result
        (λ found. optional number_at null field.now (view value.now) ≡ Ok found)
        (λ e. optional number_at null field.now (view value.now) ≡ Err e.field.now) }
{
    if !is_field_there(value, field, null) {
        return Ok(None);
    }
    Ok(Some(number_field(value, field)?))
}

/// The truth value in a field that may be absent.
pub fn optional_truth(
    value: &Value,
    field: &'static str,
    null: Null,
) -> Result<Option<bool>, BadField>
    ensures { MatchResult result
        (λ found. optional truth_at null field.now (view value.now) ≡ Ok found)
        (λ e. optional truth_at null field.now (view value.now) ≡ Err e.field.now) }
{
    if !is_field_there(value, field, null) {
        return Ok(None);
    }
    Ok(Some(truth_field(value, field)?))
}

/// The list in a field that may be absent.
pub fn optional_list<'a>(
    value: &'a Value,
    field: &'static str,
    null: Null,
) -> Result<Option<&'a [Value]>, BadField>
    ensures { MatchResult result (λ found. optional list_at null field.now (view value.now)
        ≡ Ok (option_map (λ list. items_view list.now) found))
        (λ e. optional list_at null field.now (view value.now) ≡ Err e.field.now) }
{
    if !is_field_there(value, field, null) {
        return Ok(None);
    }
    Ok(Some(list_field(value, field)?))
}

/// The members of the object in a field that may be absent.
pub fn optional_members<'a>(
    value: &'a Value,
    field: &'static str,
    null: Null,
) -> Result<Option<&'a Map<String, Value>>, BadField>
    ensures { MatchResult result (λ found. optional object_at null field.now (view value.now)
        ≡ Ok (option_map (λ map. members_view map.now.entries) found))
        (λ e. optional object_at null field.now (view value.now) ≡ Err e.field.now) }
{
    if !is_field_there(value, field, null) {
        return Ok(None);
    }
    Ok(Some(members_field(value, field)?))
}

/// The object in a field that may be absent, whose fields can be read in turn.
pub fn optional_object<'a>(
    value: &'a Value,
    field: &'static str,
    null: Null,
) -> Result<Option<&'a Value>, BadField>
    ensures { MatchResult result (λ found. optional inner_at null field.now (view value.now)
        ≡ Ok (option_map (λ inner. view inner.now) found))
        (λ e. optional inner_at null field.now (view value.now) ≡ Err e.field.now) }
{
    if !is_field_there(value, field, null) {
        return Ok(None);
    }
    Ok(Some(object_field(value, field)?))
}
