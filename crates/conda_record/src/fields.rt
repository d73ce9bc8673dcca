ghost use Rattle.std.specs.Prelude.{◌≡◌};
ghost use Rattle.std.specs.List.{list_all};
ghost use Rattle.std.specs.Result.{result_map_both};
ghost use Rattle.serde_json.specs.View.{view};
ghost use Rattle.conda_base.specs.Reads.{Gives};
ghost use Rattle.conda_record.specs.Records as records;
ghost use Rattle.conda_record.specs.Records.{record_fault_of};

use crate::error::{RecordErr, RecordField};
use crate::spec_list::read_specs;
use conda_base::{Rows, Text};
use conda_json::{Null, list_of, number_of, optional_list, optional_text, text_of};
use conda_path::{Dist, DistErr, cut_ending};
use conda_spec::{Spec, SpecTable};
use conda_version::{Version, VersionErr};
use serde_json::Value;
use std::alloc::Global;

/// The dist that a file's name is, with the ending of a package file or without it.
pub fn dist_of(alloc: Global, file: &str) -> Result<Dist, RecordErr>
    ensures { Gives record_fault_of result (records.dist_read file.now) }
{
    let stem = match cut_ending(file) {
        Some(stem) => stem,
        None => file,
    };
    match Dist::read(alloc, stem) {
        Ok(dist) => Ok(dist),
        Err(DistErr::BadDist) => Err(RecordErr::BadRecord {
            field: RecordField::Fn,
        }),
        Err(DistErr::Memory) => Err(RecordErr::Memory),
    }
}

/// A letter, a digit, `_`, `-` or `.`.
fn is_package_byte(byte: u8) -> bool
    ensures { result ≡ records.is_package_byte byte }
{
    byte.is_ascii_alphanumeric() || byte == b'_' || byte == b'-' || byte == b'.'
}

fn are_package_bytes(text: &[u8]) -> bool
    ensures { result ≡ list_all records.is_package_byte text.now }
{
    text.iter().all(|byte| is_package_byte(*byte))
}

/// The package's name, which may be empty.
pub fn name_field(value: &Value) -> Result<&str, RecordErr>
    ensures { Gives record_fault_of (result_map_both (λ name. name.now) (λ e. e) result)
        (records.name_read (view value.now)) }
{
    match text_of(value, "name") {
        Ok(name) if are_package_bytes(name.as_bytes()) => Ok(name),
        _ => Err(RecordErr::BadRecord {
            field: RecordField::Name,
        }),
    }
}

pub fn version_field(alloc: Global, value: &Value) -> Result<Version, RecordErr>
    ensures { Gives record_fault_of result (records.version_field_read (view value.now)) }
{
    let text = match text_of(value, "version") {
        Ok(text) => text,
        Err(_) => return Err(RecordErr::BadRecord {
            field: RecordField::Version,
        }),
    };
    match Version::read(alloc, text) {
        Ok(version) => Ok(version),
        Err(VersionErr::BadVersion { at: _, why: _ }) => Err(RecordErr::BadRecord {
            field: RecordField::Version,
        }),
        Err(VersionErr::Memory) => Err(RecordErr::Memory),
    }
}

pub fn build_field(value: &Value) -> Result<&str, RecordErr>
    ensures { Gives record_fault_of (result_map_both (λ build. build.now) (λ e. e) result)
        (records.build_read (view value.now)) }
{
    match text_of(value, "build") {
        Ok(build) => Ok(build),
        Err(_) => Err(RecordErr::BadRecord {
            field: RecordField::Build,
        }),
    }
}

pub fn build_number_field(value: &Value) -> Result<u64, RecordErr>
    ensures { Gives record_fault_of result (records.build_number_read (view value.now)) }
{
    match number_of(value, "build_number") {
        Ok(number) => Ok(number),
        Err(_) => Err(RecordErr::BadRecord {
            field: RecordField::BuildNumber,
        }),
    }
}

pub fn depends_field(
    alloc: Global,
    table: &mut SpecTable,
    value: &Value,
) -> Result<Rows<Spec>, RecordErr>
    ensures { Gives record_fault_of result (records.depends_read (view value.now)) }
{
    match list_of(value, "depends") {
        Ok(elements) => read_specs(alloc, table, RecordField::Depends, elements),
        Err(_) => Err(RecordErr::BadRecord {
            field: RecordField::Depends,
        }),
    }
}

/// The specifications that the package bars others by; none where the field is absent.
pub fn constrains_field(
    alloc: Global,
    table: &mut SpecTable,
    value: &Value,
) -> Result<Rows<Spec>, RecordErr>
    ensures { Gives record_fault_of result (records.constrains_read (view value.now)) }
{
    match optional_list(value, "constrains", Null::Bad) {
        Ok(Some(elements)) => read_specs(alloc, table, RecordField::Constrains, elements),
        Ok(None) => Ok(Rows::new(alloc)),
        Err(_) => Err(RecordErr::BadRecord {
            field: RecordField::Constrains,
        }),
    }
}

/// The subdir in which the record stands, which a field `subdir` has to be.
pub fn subdir_field(alloc: Global, value: &Value, subdir: &str) -> Result<Text, RecordErr>
    ensures { Gives record_fault_of result (records.subdir_read subdir.now (view value.now)) }
{
    match optional_text(value, "subdir", Null::Bad) {
        Ok(Some(found)) if found != subdir => Err(RecordErr::BadRecord {
            field: RecordField::Subdir,
        }),
        Ok(_) => Ok(Text::from_str(alloc, subdir)?),
        Err(_) => Err(RecordErr::BadRecord {
            field: RecordField::Subdir,
        }),
    }
}

/// The timestamp as it stands; 0 where it is no whole number below 2^64.
pub fn timestamp_of(value: &Value) -> u64
    ensures { result ≡ records.timestamp_of (view value.now) }
{
    match number_of(value, "timestamp") {
        Ok(timestamp) => timestamp,
        Err(_) => 0,
    }
}

/// Whether a dist is of this name, version and build.
pub fn is_of_parts(dist: &Dist, name: &str, version: &str, build: &str) -> bool
    ensures { result ≡ records.is_of_parts dist.now name.now version.now build.now }
{
    dist.name() == name && dist.version() == version && dist.build() == build
}
