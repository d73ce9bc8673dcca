ghost use Rattle.std.specs.Prelude.{◌≡◌, IfOk, MatchResult, Ok, Err};
ghost use Rattle.conda_json.specs.Fields.{element_text as element_read, required, required_texts};
ghost use Rattle.conda_json.specs.Json.{inner_at, list_at, number_at, object_at, text_at, truth_at};
ghost use Rattle.serde_json.specs.View.{items_view, members_view, view};

use crate::fields::{list_of, number_of, object_of, text_of};
use conda_base::{Rows, Text};
use serde_json::{Map, Value};
use std::alloc::{AllocError, Global};

/// A field of an object that is absent or of another kind than it has to be.
#[derive(Clone, Copy, Debug)]
pub struct BadField {
    /// The field's name.
    pub field: &'static str,
}

/// The text in a field that has to be there.
pub fn text_field<'a>(value: &'a Value, field: &'static str) -> Result<&'a str, BadField>
    ensures { MatchResult result (λ text. required text_at field.now (view value.now) ≡ Ok text.now)
        (λ e. required text_at field.now (view value.now) ≡ Err e.field.now) }
{
    text_of(value, field).map_err(|_| BadField { field })
}

/// The whole number below 2^64 in a field that has to be there.
pub fn number_field(value: &Value, field: &'static str) -> Result<u64, BadField>
    ensures { MatchResult result (λ n. required number_at field.now (view value.now) ≡ Ok n)
        (λ e. required number_at field.now (view value.now) ≡ Err e.field.now) }
{
    number_of(value, field).map_err(|_| BadField { field })
}

/// The truth value in a field that has to be there.
pub fn truth_field(value: &Value, field: &'static str) -> Result<bool, BadField>
    ensures { MatchResult result (λ truth. required truth_at field.now (view value.now) ≡ Ok truth)
        (λ e. required truth_at field.now (view value.now) ≡ Err e.field.now) }
{
    value
        .get(field)
        .and_then(Value::as_bool)
        .ok_or(BadField { field })
}

/// The list in a field that has to be there.
pub fn list_field<'a>(value: &'a Value, field: &'static str) -> Result<&'a [Value], BadField>
    ensures { MatchResult result
        (λ list. required list_at field.now (view value.now) ≡ Ok (items_view list.now))
        (λ e. required list_at field.now (view value.now) ≡ Err e.field.now) }
{
    list_of(value, field).map_err(|_| BadField { field })
}

/// The members of the object in a field that has to be there.
pub fn members_field<'a>(
    value: &'a Value,
    field: &'static str,
) -> Result<&'a Map<String, Value>, BadField>
    ensures { MatchResult result
        (λ map. required object_at field.now (view value.now) ≡ Ok (members_view map.now.entries))
        (λ e. required object_at field.now (view value.now) ≡ Err e.field.now) }
{
    object_of(value, field).map_err(|_| BadField { field })
}

/// The object in a field that has to be there, whose fields can be read in turn.
pub fn object_field<'a>(value: &'a Value, field: &'static str) -> Result<&'a Value, BadField>
    ensures { MatchResult result
        (λ inner. required inner_at field.now (view value.now) ≡ Ok (view inner.now))
        (λ e. required inner_at field.now (view value.now) ≡ Err e.field.now) }
{
    match value.get(field) {
        Some(inner) if inner.is_object() => Ok(inner),
        _ => Err(BadField { field }),
    }
}

/// The text that is an element of the list in a field.
pub fn element_text<'a>(element: &'a Value, field: &'static str) -> Result<&'a str, BadField>
    ensures { MatchResult result (λ text. element_read field.now (view element.now) ≡ Ok text.now)
        (λ e. element_read field.now (view element.now) ≡ Err e.field.now) }
{
    match element.as_str() {
        Some(text) => Ok(text),
        None => Err(BadField { field }),
    }
}

/// Texts of their own with the texts of a list, which has to be there and to hold nothing else.
///
/// A reader that makes something else of each text goes over the list itself, by `list_field` and
/// `element_text`, and copies nothing.
pub fn texts_field(
    alloc: Global,
    value: &Value,
    field: &'static str,
) -> Result<Result<Rows<Text>, BadField>, AllocError>
    ensures { IfOk result (λ read. MatchResult read
        (λ texts. required_texts field.now (view value.now) ≡ Ok texts)
        (λ e. required_texts field.now (view value.now) ≡ Err e.field.now)) }
{
    let list = match list_field(value, field) {
        Ok(list) => list,
        Err(e) => return Ok(Err(e)),
    };
    let mut texts = Vec::with_capacity(alloc, list.len())?;
    for element in list {
        match element_text(element, field) {
            Ok(text) => texts.push(Text::from_str(alloc, text)?)?,
            Err(e) => return Ok(Err(e)),
        }
    }
    Ok(Ok(Rows::from_vec(texts)))
}
