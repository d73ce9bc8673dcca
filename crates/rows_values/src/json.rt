ghost use Rattle.conda_base.specs.Reads.{Gives};
ghost use Rattle.rows_values.specs.Json.{sample_fault_of, sample_meant};
ghost use Rattle.serde_json.specs.View.{view};
ghost use Rattle.std.specs.Prelude.{◌≡◌, IfOk, option_map};

use conda_base::{Rows, Text};
use conda_json::{
    BadField, JsonErr, Null, Value, compact, list_field, list_of, members_field, number_field,
    number_of, object_field, object_of, optional_list, optional_members, optional_number,
    optional_object, optional_text, optional_truth, parse, parse_object, text_field, text_of,
    texts_field, truth_field,
};
use std::alloc::{AllocError, Global};

/// The rows of conda_json.
pub fn answer(alloc: Global, call: &str, arguments: &[Text]) -> Result<Option<String>, AllocError> {
    match (call, arguments) {
        ("json.compact", [text]) => {
            let found = parse(alloc, text.as_str().as_bytes());
            Ok(Some(read_again(alloc, found)?))
        }
        ("json.object", [text]) => {
            let found = parse_object(alloc, text.as_str().as_bytes());
            Ok(Some(read_again(alloc, found)?))
        }
        ("json.bytes", [hex]) => {
            let bytes = match hex::decode(alloc, hex.as_str()) {
                Ok(bytes) => bytes,
                Err(_) => return Ok(None),
            };
            Ok(Some(read_again(alloc, parse(alloc, bytes.as_slice()))?))
        }
        ("json.of", [kind, text, name]) => match parse(alloc, text.as_str().as_bytes()) {
            Ok(value) => of(alloc, kind.as_str(), &value, name.as_str()),
            Err(_) => Ok(None),
        },
        ("json.field", [kind, text]) => match parse(alloc, text.as_str().as_bytes()) {
            Ok(value) => field(alloc, kind.as_str(), &value),
            Err(_) => Ok(None),
        },
        ("json.optional", [kind, null, text]) => match parse(alloc, text.as_str().as_bytes()) {
            Ok(value) => optional(alloc, kind.as_str(), null_named(null.as_str()), &value),
            Err(_) => Ok(None),
        },
        ("json.sample", [text]) => match parse(alloc, text.as_str().as_bytes()) {
            Ok(value) => Ok(Some(shown_sample(alloc, read_sample(alloc, &value))?)),
            Err(_) => Ok(None),
        },
        _ => Ok(None),
    }
}

/// The compact text of what was read.
fn read_again(alloc: Global, found: Result<Value, JsonErr>) -> Result<String, AllocError> {
    let value = match found {
        Ok(value) => value,
        Err(JsonErr::Memory) => return Err(AllocError),
        Err(_) => return String::from_str(alloc, "bad json"),
    };
    match compact(alloc, &value) {
        Ok(bytes) => shown_bytes(alloc, bytes),
        Err(_) => Err(AllocError),
    }
}

fn shown_bytes(alloc: Global, bytes: Vec<u8>) -> Result<String, AllocError> {
    match String::from_utf8(bytes) {
        Ok(text) => Ok(text),
        Err(_) => String::from_str(alloc, "no text"),
    }
}

fn null_named(word: &str) -> Null {
    match word {
        "null is absent" => Null::Absent,
        _ => Null::Bad,
    }
}

/// A named field, by the look-ups that don't name it in their error.
fn of(alloc: Global, kind: &str, value: &Value, name: &str) -> Result<Option<String>, AllocError> {
    let found = match kind {
        "text" => match text_of(value, name) {
            Ok(text) => format!(in alloc; "{text}")?,
            Err(_) => String::from_str(alloc, "bad field")?,
        },
        "number" => match number_of(value, name) {
            Ok(number) => format!(in alloc; "{number}")?,
            Err(_) => String::from_str(alloc, "bad field")?,
        },
        "list" => match list_of(value, name) {
            Ok(list) => format!(in alloc; "{} elements", list.len())?,
            Err(_) => String::from_str(alloc, "bad field")?,
        },
        "object" => match object_of(value, name) {
            Ok(members) => format!(in alloc; "{} members", members.len())?,
            Err(_) => String::from_str(alloc, "bad field")?,
        },
        _ => return Ok(None),
    };
    Ok(Some(found))
}

fn bad(alloc: Global, bad: BadField) -> Result<String, AllocError> {
    format!(in alloc; "bad {}", bad.field)
}

/// The field `f`, which has to be there.
fn field(alloc: Global, kind: &str, value: &Value) -> Result<Option<String>, AllocError> {
    let found = match kind {
        "text" => match text_field(value, "f") {
            Ok(text) => format!(in alloc; "{text}")?,
            Err(e) => bad(alloc, e)?,
        },
        "number" => match number_field(value, "f") {
            Ok(number) => format!(in alloc; "{number}")?,
            Err(e) => bad(alloc, e)?,
        },
        "truth" => match truth_field(value, "f") {
            Ok(truth) => format!(in alloc; "{truth}")?,
            Err(e) => bad(alloc, e)?,
        },
        "list" => match list_field(value, "f") {
            Ok(list) => format!(in alloc; "{} elements", list.len())?,
            Err(e) => bad(alloc, e)?,
        },
        "members" => match members_field(value, "f") {
            Ok(members) => format!(in alloc; "{} members", members.len())?,
            Err(e) => bad(alloc, e)?,
        },
        "object" => match object_field(value, "f") {
            Ok(inner) => text_in(alloc, inner)?,
            Err(e) => bad(alloc, e)?,
        },
        _ => return Ok(None),
    };
    Ok(Some(found))
}

/// The text in the field `g`.
fn text_in(alloc: Global, value: &Value) -> Result<String, AllocError> {
    match text_field(value, "g") {
        Ok(text) => format!(in alloc; "{text}"),
        Err(e) => bad(alloc, e),
    }
}

/// The field `f`, which may be absent.
fn optional(
    alloc: Global,
    kind: &str,
    null: Null,
    value: &Value,
) -> Result<Option<String>, AllocError> {
    let found = match kind {
        "text" => match optional_text(value, "f", null) {
            Ok(Some(text)) => format!(in alloc; "{text}")?,
            Ok(None) => String::from_str(alloc, "absent")?,
            Err(e) => bad(alloc, e)?,
        },
        "number" => match optional_number(value, "f", null) {
            Ok(Some(number)) => format!(in alloc; "{number}")?,
            Ok(None) => String::from_str(alloc, "absent")?,
            Err(e) => bad(alloc, e)?,
        },
        "truth" => match optional_truth(value, "f", null) {
            Ok(Some(truth)) => format!(in alloc; "{truth}")?,
            Ok(None) => String::from_str(alloc, "absent")?,
            Err(e) => bad(alloc, e)?,
        },
        "list" => match optional_list(value, "f", null) {
            Ok(Some(list)) => format!(in alloc; "{} elements", list.len())?,
            Ok(None) => String::from_str(alloc, "absent")?,
            Err(e) => bad(alloc, e)?,
        },
        "members" => match optional_members(value, "f", null) {
            Ok(Some(members)) => format!(in alloc; "{} members", members.len())?,
            Ok(None) => String::from_str(alloc, "absent")?,
            Err(e) => bad(alloc, e)?,
        },
        "object" => match optional_object(value, "f", null) {
            Ok(Some(inner)) => text_in(alloc, inner)?,
            Ok(None) => String::from_str(alloc, "absent")?,
            Err(e) => bad(alloc, e)?,
        },
        _ => return Ok(None),
    };
    Ok(Some(found))
}

/// An object of four fields.
#[derive(Debug, Drop)]
pub struct Sample {
    pub name: Text,
    pub size: u64,
    pub license: Option<Text>,
    pub depends: Rows<Text>,
}

/// Why an object is no sample.
#[derive(Clone, Copy, Debug)]
pub enum SampleErr {
    /// The first field that is absent or of another kind.
    BadSample { field: &'static str },
    /// There was no memory.
    Memory,
}

impl From<BadField> for SampleErr {
    ghost use Rattle.rows_values.specs.declared.json.SampleErr.{SampleErr};
    ghost use Rattle.std.specs.Prelude.{◌≡◌};

    ghost from_gives = { λ bad e. e ≡ SampleErr.BadSample bad.field };

    fn from(bad: BadField) -> SampleErr {
        SampleErr::BadSample { field: bad.field }
    }
}

impl From<AllocError> for SampleErr {
    ghost use Rattle.rows_values.specs.declared.json.SampleErr.{SampleErr};
    ghost use Rattle.std.specs.Prelude.{◌≡◌};

    ghost from_gives = { λ _ e. e ≡ SampleErr.Memory };

    fn from(_: AllocError) -> SampleErr {
        SampleErr::Memory
    }
}

fn copied(alloc: Global, text: Option<&str>) -> Result<Option<Text>, AllocError>
    ensures { IfOk result (λ made. made ≡ option_map (λ t. t.now) text.entry) }
{
    match text {
        Some(text) => Ok(Some(Text::from_str(alloc, text)?)),
        None => Ok(None),
    }
}

/// Reads an object of four fields, in order.
pub fn read_sample(alloc: Global, value: &Value) -> Result<Sample, SampleErr>
    ensures { Gives sample_fault_of result (sample_meant (view value.now)) }
{
    let name = text_field(value, "name")?;
    let size = number_field(value, "size")?;
    let license = optional_text(value, "license", Null::Absent)?;
    let depends = texts_field(alloc, value, "depends")??;
    Ok(Sample {
        name: Text::from_str(alloc, name)?,
        size,
        license: copied(alloc, license)?,
        depends,
    })
}

fn shown_sample(alloc: Global, found: Result<Sample, SampleErr>) -> Result<String, AllocError> {
    let sample = match found {
        Ok(sample) => sample,
        Err(SampleErr::BadSample { field }) => return format!(in alloc; "bad {field}"),
        Err(SampleErr::Memory) => return Err(AllocError),
    };
    let license = match &sample.license {
        Some(license) => license.as_str(),
        None => "none",
    };
    let mut shown = format!(in alloc;
        "{} of {}, license {license}",
        sample.name.as_str(),
        sample.size
    )?;
    for depend in sample.depends.as_slice() {
        shown.push_str(", ")?;
        shown.push_str(depend.as_str())?;
    }
    Ok(shown)
}
