ghost use Rattle.std.specs.Prelude.{◌≡◌, Err, IfOk, Ok, OnErr};
ghost use Rattle.std.specs.Option.{ok_or};
ghost use Rattle.std.specs.Result.{result_map_both};
ghost use Rattle.serde_json.specs.View.{items_view, view};
ghost use Rattle.conda_base.specs.Reads.{Gives};
ghost use Rattle.conda_json.specs.Fields.{each_from};
ghost use Rattle.conda_json.specs.Json.{inner_at};
ghost use Rattle.conda_meta.specs.Reading as reading;
ghost use Rattle.conda_meta.specs.Reading.{field_fault_of, meta_fault_of, revision_read};
ghost use Rattle.conda_meta.specs.Rules.{IsGoodRevision};
ghost use Rattle.conda_meta.specs.Texts.{revision_text};
ghost use Rattle.conda_meta.specs.declared.error.MetaErr.{MetaErr};

use crate::error::{FieldErr, MetaErr, MetaField};
use crate::good::goods_field;
use crate::laws::meta_laws;
use crate::linked::Linked;
use crate::named::ascend;
use crate::record_field::{dist_of, record_of};
use crate::requested::requested_field;
use crate::writing::revision_value;
use conda_base::{Copied, Rows};
use conda_json::{JsonErr, Value, compact, list_of, object_field, parse_object};
use conda_path::Dist;
use conda_record::record_laws;
use conda_spec::Spec;
use std::alloc::{AllocError, Global};

/// What one revision of an environment changed.
#[derive(Clone, Debug, Drop)]
pub struct Revision {
    /// The packages that were linked, by dist; also those that were linked again.
    pub linked: Rows<Linked>,
    /// The packages that were unlinked and not linked again.
    pub unlinked: Rows<Dist>,
    /// The specifications that the user asked for up to then, by name and text.
    pub requested: Rows<Spec>,
}

impl Copied for Revision {
    fn copy(&self) -> Result<Revision, AllocError> {
        self.clone()
    }
}

/// The object that bytes are.
pub fn read_object(alloc: Global, bytes: &[u8]) -> Result<Value, FieldErr>
    ensures { Gives field_fault_of (result_map_both view (λ e. e) result) (reading.object_of bytes.now) }
{
    match parse_object(alloc, bytes) {
        Ok(value) => Ok(value),
        Err(JsonErr::Memory) => Err(FieldErr::Memory),
        Err(_) => Err(FieldErr::Bad {
            field: MetaField::Json,
        }),
    }
}

/// The object in the named field.
pub fn object_at<'a>(
    field: MetaField,
    name: &'static str,
    value: &'a Value,
) -> Result<&'a Value, MetaField>
    ensures { result_map_both (λ inner. view inner.now) (λ e. e) result
        ≡ ok_or (inner_at (view value.now) name.now) field }
{
    let Ok(inner) = object_field(value, name) else {
        return Err(field);
    };
    Ok(inner)
}

/// The package that an element of `linked` is.
fn read_linked(alloc: Global, value: &Value) -> Result<Linked, FieldErr>
    ensures { Gives field_fault_of result (reading.linked_read (view value.now)) }
{
    let goods = goods_field(alloc, value)?;
    let inner = object_at(MetaField::Record, "record", value)?;
    let rec = record_of(alloc, MetaField::Dist, "dist", inner)?;
    Ok(Linked { rec, goods })
}

/// The packages that elements are, in their order.
fn read_all(alloc: Global, elements: &[Value]) -> Result<Rows<Linked>, FieldErr>
    ensures { Gives field_fault_of result
        (each_from 0 (λ at. reading.linked_read) (items_view elements.now)) }
{
    let mut linked = Rows::from_vec(Vec::with_capacity(alloc, elements.len())?);
    for element in elements {
        let package = read_linked(alloc, element)?;
        linked.push(package)?;
    }
    Ok(linked)
}

/// Whether each element is an object.
fn are_objects(elements: &[Value]) -> bool
    ensures { result ≡ reading.all_objects (items_view elements.now) }
{
    elements.iter().all(|element| element.is_object())
}

/// The linked packages.
fn linked_field(alloc: Global, value: &Value) -> Result<Rows<Linked>, FieldErr>
    ensures { Gives field_fault_of result (reading.linked_list (view value.now)) }
{
    let bad = FieldErr::Bad {
        field: MetaField::Linked,
    };
    let Ok(elements) = list_of(value, "linked") else {
        return Err(bad);
    };
    if !are_objects(elements) {
        return Err(bad);
    }
    let linked = read_all(alloc, elements)?;
    if ascend(linked.as_slice()) {
        Ok(linked)
    } else {
        Err(bad)
    }
}

/// The dist that an element of `unlinked` is.
fn unlinked_dist(alloc: Global, element: &Value) -> Result<Dist, FieldErr>
    ensures { Gives field_fault_of result (reading.unlinked_dist (view element.now)) }
{
    match element.as_str() {
        Some(text) => dist_of(alloc, MetaField::Unlinked, text),
        None => Err(FieldErr::Bad {
            field: MetaField::Unlinked,
        }),
    }
}

/// The dists that elements are, in their order.
fn read_dists(alloc: Global, elements: &[Value]) -> Result<Rows<Dist>, FieldErr>
    ensures { Gives field_fault_of result
        (each_from 0 (λ at. reading.unlinked_dist) (items_view elements.now)) }
{
    let mut dists = Rows::from_vec(Vec::with_capacity(alloc, elements.len())?);
    for element in elements {
        let dist = unlinked_dist(alloc, element)?;
        dists.push(dist)?;
    }
    Ok(dists)
}

/// The unlinked dists.
fn unlinked_field(alloc: Global, value: &Value) -> Result<Rows<Dist>, FieldErr>
    ensures { Gives field_fault_of result (reading.unlinked_list (view value.now)) }
{
    match list_of(value, "unlinked") {
        Ok(elements) => read_dists(alloc, elements),
        Err(_) => Err(FieldErr::Bad {
            field: MetaField::Unlinked,
        }),
    }
}

/// The revision that an object is.
fn read_revision(alloc: Global, value: &Value) -> Result<Revision, FieldErr>
    ensures { Gives field_fault_of result (reading.revision_of (view value.now)) }
{
    let linked = linked_field(alloc, value)?;
    let requested = requested_field(alloc, value)?;
    let unlinked = unlinked_field(alloc, value)?;
    Ok(Revision {
        linked,
        unlinked,
        requested,
    })
}

/// The revision that the bytes of an object are.
fn read_bytes(alloc: Global, bytes: &[u8]) -> Result<Revision, FieldErr>
    ensures { Gives field_fault_of result (reading.revision_in bytes.now) }
{
    let value = read_object(alloc, bytes)?;
    read_revision(alloc, &value)
}

impl Revision {
    /// Reads `conda-meta/revisions/<n>.json`: an object with `linked`, a list by dist of objects with
    /// `goods` and `record`; `requested`, a list of specifications in normal form without a star in
    /// a name, by name and text; and `unlinked`, a list of dists. The goods of a package ascend by
    /// path, and none lies below `conda-meta`. Other fields are passed over.
    ///
    /// `BadRevision` has `json` where the bytes are no JSON object, else the first field that is
    /// absent or of another form: `linked` where it is no list of objects, the fields of each of its
    /// elements, `linked` where it isn't by dist, `requested`, `unlinked`.
    pub fn read(alloc: Global, bytes: &[u8]) -> Result<Revision, MetaErr>
        ensures { Gives meta_fault_of result (revision_read bytes.now) }
    {
        match read_bytes(alloc, bytes) {
            Ok(revision) => Ok(revision),
            Err(FieldErr::Bad { field }) => Err(MetaErr::BadRevision { field }),
            Err(FieldErr::Memory) => Err(MetaErr::Memory),
        }
    }

    /// The text of `conda-meta/revisions/<n>.json`: compact JSON, the keys of each object ascending.
    /// Its only error is `Memory`.
    pub fn text(&self, alloc: Global) -> Result<Vec<u8>, MetaErr>
        ensures text { IfOk result (λ text. text.items ≡ revision_text self.now) }

        // A revision that a file can have is read again from it.
        ensures reads_back { IsGoodRevision self.now → IfOk result (λ text.
            revision_read text.items ≡ Ok self.now) }
        ensures err { OnErr result (result ≡ Err MetaErr.Memory) }
    {
        meta_laws();
        conda_spec::grammar_laws();
        record_laws();
        let value = revision_value(alloc, self)?;
        match compact(alloc, &value) {
            Ok(text) => Ok(text),
            Err(_) => Err(MetaErr::Memory),
        }
    }
}
