ghost use Rattle.std.specs.Prelude.{◌≡◌, ◌<◌, Err, IfOk, Ok, OnErr, length};
ghost use Rattle.std.specs.Result.{result_map_both};
ghost use Rattle.serde_json.specs.View.{items_view, view};
ghost use Rattle.conda_base.specs.Reads.{Gives};
ghost use Rattle.conda_json.specs.Fields.{each_from};
ghost use Rattle.conda_meta.specs.Reading as reading;
ghost use Rattle.conda_meta.specs.Reading.{field_fault_of, meta_fault_of};
ghost use Rattle.conda_meta.specs.Rules.{IsPackage};
ghost use Rattle.conda_meta.specs.Texts as texts;
ghost use Rattle.conda_meta.specs.declared.error.MetaErr.{MetaErr};

use crate::error::{FieldErr, MetaErr, MetaField};
use crate::good::{digest_field, good_path, sorted};
use crate::laws::meta_laws;
use crate::linked::Linked;
use crate::named::ascend;
use crate::record_field::record_of;
use crate::revision::{object_at, read_object};
use crate::writing::prefix_value;
use conda_base::Copied;
use conda_json::{Value, compact, list_of, number_of, text_of};
use conda_path::{Good, Kind, RelPath};
use conda_record::{RecordField, record_laws};
use std::alloc::Global;

/// The path that an element of `files` is.
fn read_file(alloc: Global, element: &Value) -> Result<RelPath, FieldErr>
    ensures { Gives field_fault_of result (reading.file_read (view element.now)) }
{
    match element.as_str() {
        Some(text) => good_path(alloc, MetaField::Files, text),
        None => Err(FieldErr::Bad {
            field: MetaField::Files,
        }),
    }
}

/// The paths that elements are, in their order.
fn read_files(alloc: Global, elements: &[Value]) -> Result<Vec<RelPath>, FieldErr>
    ensures { Gives field_fault_of (result_map_both (λ files. files.items) (λ e. e) result)
        (each_from 0 (λ at. reading.file_read) (items_view elements.now)) }
{
    let mut files = Vec::with_capacity(alloc, elements.len())?;
    for element in elements {
        let path = read_file(alloc, element)?;
        files.push(path)?;
    }
    Ok(files)
}

/// The paths of the goods, which ascend.
fn files_field(alloc: Global, value: &Value) -> Result<Vec<RelPath>, FieldErr>
    ensures { Gives field_fault_of (result_map_both (λ files. files.items) (λ e. e) result)
        (reading.files_read (view value.now)) }
{
    let bad = FieldErr::Bad {
        field: MetaField::Files,
    };
    let Ok(elements) = list_of(value, "files") else {
        return Err(bad);
    };
    let files = read_files(alloc, elements)?;
    if ascend(files.as_slice()) {
        Ok(files)
    } else {
        Err(bad)
    }
}

/// The kind that a `path_type` names; whether a file is executable isn't said.
fn type_named(text: &str) -> Option<Kind>
    ensures { result ≡ reading.type_named text.now }
{
    match text {
        "hardlink" => Some(Kind::File),
        "softlink" => Some(Kind::Soft),
        _ => None,
    }
}

/// The kind of a good.
fn type_field(value: &Value) -> Result<Kind, MetaField>
    ensures { result ≡ reading.type_read (view value.now) }
{
    match text_of(value, "path_type") {
        Ok(text) => type_named(text).ok_or(MetaField::PathsData),
        Err(_) => Err(MetaField::PathsData),
    }
}

/// Whether an element of `paths_data` speaks of the path.
fn names_path(path: &RelPath, value: &Value) -> bool
    ensures { result ≡ reading.names_path path.now (view value.now) }
{
    match text_of(value, "_path") {
        Ok(text) => text == path.as_str(),
        Err(_) => false,
    }
}

/// The good at a path of which an element of `paths_data` speaks.
fn read_placed(path: &RelPath, value: &Value) -> Result<Good, FieldErr>
    ensures { Gives field_fault_of result (reading.placed_read path.now (view value.now)) }
{
    let bad = FieldErr::Bad {
        field: MetaField::PathsData,
    };
    if !names_path(path, value) {
        return Err(bad);
    }
    let kind = type_field(value)?;
    let digest = digest_field(MetaField::PathsData, "sha256_in_prefix", value)?;
    let Ok(size) = number_of(value, "size_in_bytes") else {
        return Err(bad);
    };
    Ok(Good {
        path: path.copy()?,
        kind,
        size,
        digest,
    })
}

/// The goods at paths, of which the elements speak one by one.
fn read_all(alloc: Global, files: &[RelPath], elements: &[Value]) -> Result<Vec<Good>, FieldErr>
    ensures { Gives field_fault_of (result_map_both (λ goods. goods.items) (λ e. e) result)
        (reading.placed_goods files.now (items_view elements.now)) }
{
    let bad = FieldErr::Bad {
        field: MetaField::PathsData,
    };
    let mut goods = Vec::with_capacity(alloc, files.len())?;
    for (at, path) in files.iter().enumerate() {
        let Some(element) = elements.get(at) else {
            return Err(bad);
        };
        let good = read_placed(path, element)?;
        goods.push(good)?;
    }
    match elements.get(files.len()) {
        Some(_) => Err(bad),
        None => Ok(goods),
    }
}

/// The elements of `paths_data`, whose version is 1.
fn placed_elements(inner: &Value) -> Result<&[Value], MetaField>
    ensures { result_map_both (λ list. items_view list.now) (λ e. e) result
        ≡ reading.placed_elements (view inner.now) }
{
    match number_of(inner, "paths_version") {
        Ok(1) => {}
        _ => return Err(MetaField::PathsData),
    }
    match list_of(inner, "paths") {
        Ok(elements) => Ok(elements),
        Err(_) => Err(MetaField::PathsData),
    }
}

/// The goods of the package.
fn placed_field(alloc: Global, files: &[RelPath], value: &Value) -> Result<Vec<Good>, FieldErr>
    ensures { Gives field_fault_of (result_map_both (λ goods. goods.items) (λ e. e) result)
        (reading.paths_data_read files.now (view value.now)) }
{
    let inner = object_at(MetaField::PathsData, "paths_data", value)?;
    read_all(alloc, files, placed_elements(inner)?)
}

/// The package that an object is.
fn read_package(alloc: Global, value: &Value) -> Result<Linked, FieldErr>
    ensures { Gives field_fault_of result (reading.prefix_of (view value.now)) }
{
    let dist = MetaField::InRecord {
        field: RecordField::Fn,
    };
    let rec = record_of(alloc, dist, "fn", value)?;
    let files = files_field(alloc, value)?;
    let goods = placed_field(alloc, files.as_slice(), value)?;
    Ok(Linked {
        rec,
        goods: sorted(goods)?,
    })
}

/// The package that the bytes of an object are.
fn read_bytes(alloc: Global, bytes: &[u8]) -> Result<Linked, FieldErr>
    ensures { Gives field_fault_of result (reading.prefix_in bytes.now) }
{
    let value = read_object(alloc, bytes)?;
    read_package(alloc, &value)
}

/// Reads `conda-meta/<dist>.json`: the record's fields, `fn`, which is the dist, `files`, the paths of
/// its goods, ascending and none below `conda-meta`, and `paths_data`, which speaks of each of them.
/// Whether a file is executable isn't said there, so no good has the kind `Exec`. Other fields are
/// passed over.
///
/// `BadPrefixRecord` has `json` where the bytes are no JSON object, else the first field that is
/// absent or of another form: `channel`, `fn`, the record's own, `files`, `paths_data`.
pub fn prefix_read(alloc: Global, bytes: &[u8]) -> Result<Linked, MetaErr>
    ensures { Gives meta_fault_of result (reading.prefix_read bytes.now) }
{
    match read_bytes(alloc, bytes) {
        Ok(package) => Ok(package),
        Err(FieldErr::Bad { field }) => Err(MetaErr::BadPrefixRecord { field }),
        Err(FieldErr::Memory) => Err(MetaErr::Memory),
    }
}

/// The text of `conda-meta/<dist>.json`: compact JSON, the keys of each object ascending. Its only
/// error is `Memory`.
pub fn prefix_text(alloc: Global, linked: &Linked) -> Result<Vec<u8>, MetaErr>
    ensures text { IfOk result (λ text. text.items ≡ texts.prefix_text linked.now) }

    // A package of a revision is read again from it, but that an executable file is a file.
    ensures reads_back { IsPackage linked.now → IfOk result (λ text.
        reading.prefix_read text.items ≡ Ok (texts.kept_package linked.now)) }
    ensures err { OnErr result (result ≡ Err MetaErr.Memory) }
{
    meta_laws();
    conda_spec::grammar_laws();
    record_laws();
    let value = prefix_value(alloc, linked)?;
    match compact(alloc, &value) {
        Ok(text) => Ok(text),
        Err(_) => Err(MetaErr::Memory),
    }
}
