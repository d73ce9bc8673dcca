ghost use Rattle.std.specs.Prelude.{◌≡◌, [], MatchOption, None, Some};
ghost use Rattle.std.specs.List.{list_all};
ghost use Rattle.std.specs.Result.{result_map_both};
ghost use Rattle.serde_json.specs.View.{view};
ghost use Rattle.conda_base.specs.Reads.{Gives};
ghost use Rattle.conda_words.specs.Values as values;
ghost use Rattle.conda_record.specs.Records.{record_read};
ghost use Rattle.conda_meta.specs.Reading as reading;
ghost use Rattle.conda_meta.specs.Reading.{field_fault_of};

use crate::error::{FieldErr, MetaField};
use conda_json::{Value, text_of};
use conda_path::{Dist, DistErr};
use conda_record::{PkgRecord, RecordErr, RecordField};
use std::alloc::Global;

/// The most bytes of the name of a channel.
const CHANNEL_LIMIT: usize = 64;

/// A letter, a digit, `_`, `-` or `.`.
fn is_label_byte(byte: u8) -> bool
    ensures { result ≡ values.is_label_byte byte }
{
    byte.is_ascii_alphanumeric() || byte == b'_' || byte == b'-' || byte == b'.'
}

fn are_label_bytes(name: &[u8]) -> bool
    ensures { result ≡ list_all values.is_label_byte name.now }
{
    name.iter().all(|byte| is_label_byte(*byte))
}

/// Whether the text is the name of a channel.
fn is_channel(name: &str) -> bool
    ensures { result ≡ values.is_channel name.now }
{
    let bytes = name.as_bytes();
    if bytes.is_empty() {
        return false;
    }
    if bytes.len() > CHANNEL_LIMIT {
        return false;
    }
    if bytes.first() == Some(&b'.') {
        return false;
    }
    are_label_bytes(bytes)
}

fn channel_field(value: &Value) -> Result<&str, MetaField>
    ensures { result_map_both (λ channel. channel.now) (λ e. e) result
        ≡ reading.channel_read (view value.now) }
{
    match text_of(value, "channel") {
        Ok(channel) if is_channel(channel) => Ok(channel),
        _ => Err(MetaField::Channel),
    }
}

/// The dist that a text is.
pub fn dist_of(alloc: Global, field: MetaField, text: &str) -> Result<Dist, FieldErr>
    ensures { Gives field_fault_of result (reading.dist_read field text.now) }
{
    match Dist::read(alloc, text) {
        Ok(dist) => Ok(dist),
        Err(DistErr::BadDist) => Err(FieldErr::Bad { field }),
        Err(DistErr::Memory) => Err(FieldErr::Memory),
    }
}

/// The dist in the named field.
fn dist_field(alloc: Global, field: MetaField, name: &str, value: &Value) -> Result<Dist, FieldErr>
    ensures { Gives field_fault_of result (reading.dist_at field name.now (view value.now)) }
{
    match text_of(value, name) {
        Ok(text) => dist_of(alloc, field, text),
        Err(_) => Err(FieldErr::Bad { field }),
    }
}

/// The folder of a channel that the record names.
fn subdir_of(value: &Value) -> Option<&str>
    ensures { MatchOption result (reading.subdir_at (view value.now) ≡ None)
        (λ subdir. reading.subdir_at (view value.now) ≡ Some subdir.now) }
{
    match text_of(value, "subdir") {
        Ok("linux-64") => Some("linux-64"),
        Ok("noarch") => Some("noarch"),
        _ => None,
    }
}

/// The record where its folder is named.
fn named_record(
    alloc: Global,
    value: &Value,
    dist: &str,
    channel: &str,
    subdir: &str,
) -> Result<PkgRecord, FieldErr>
    ensures { Gives field_fault_of result (reading.in_record
        (record_read (view value.now) dist.now channel.now subdir.now)) }
{
    match PkgRecord::read(alloc, value, dist, channel, subdir) {
        Ok(rec) => Ok(rec),
        Err(RecordErr::BadRecord { field }) => Err(FieldErr::Bad {
            field: MetaField::InRecord { field },
        }),
        Err(RecordErr::Memory) => Err(FieldErr::Memory),
    }
}

/// What is wrong where the folder isn't named: what is wrong before that, or else that.
fn subdir_first(field: RecordField) -> RecordField
    ensures { result ≡ reading.subdir_first field }
{
    match field {
        RecordField::Fn => RecordField::Subdir,
        field => field,
    }
}

/// What is wrong with a record whose folder isn't named.
fn unnamed_record(
    alloc: Global,
    value: &Value,
    dist: &str,
    channel: &str,
) -> Result<PkgRecord, FieldErr>
    ensures { Gives field_fault_of result (reading.in_record
        (reading.subdir_at_fault (record_read (view value.now) dist.now channel.now []))) }
{
    let field = match PkgRecord::read(alloc, value, dist, channel, "") {
        Ok(_) => RecordField::Subdir,
        Err(RecordErr::BadRecord { field }) => subdir_first(field),
        Err(RecordErr::Memory) => return Err(FieldErr::Memory),
    };
    Err(FieldErr::Bad {
        field: MetaField::InRecord { field },
    })
}

/// The record that an object is, whose dist stands in the named field.
pub fn record_of(
    alloc: Global,
    field: MetaField,
    name: &str,
    value: &Value,
) -> Result<PkgRecord, FieldErr>
    ensures { Gives field_fault_of result (reading.record_at field name.now (view value.now)) }
{
    let channel = channel_field(value)?;
    let dist = dist_field(alloc, field, name, value)?;
    match subdir_of(value) {
        Some(subdir) => named_record(alloc, value, dist.text(), channel, subdir),
        None => unnamed_record(alloc, value, dist.text(), channel),
    }
}
