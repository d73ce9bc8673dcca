ghost use Rattle.std.specs.Prelude.{◌≡◌, IfOk};
ghost use Rattle.std.specs.Result.{result_map_both};
ghost use Rattle.serde_json.specs.View.{items_view, view};
ghost use Rattle.conda_base.specs.Reads.{Gives};
ghost use Rattle.conda_base.specs.Texts.{Ascending};
ghost use Rattle.conda_json.specs.Fields.{each_from};
ghost use Rattle.conda_goods.specs.Goods.{paths_of};
ghost use Rattle.conda_paths.specs.Listings.{is_meta};
ghost use Rattle.conda_meta.specs.Reading as reading;
ghost use Rattle.conda_meta.specs.Reading.{field_fault_of};

use crate::error::{FieldErr, MetaField};
use crate::named::ascend;
use conda_base::ascending_laws;
use conda_goods::Goods;
use conda_json::{Value, list_of, number_of, text_of};
use conda_path::{Digest, Good, Kind, PathErr, RelPath};
use hex::FromHex;
use std::alloc::{AllocError, Global};

/// The kind that a word names.
fn kind_named(text: &str) -> Option<Kind>
    ensures { result ≡ reading.kind_named text.now }
{
    match text {
        "file" => Some(Kind::File),
        "exec" => Some(Kind::Exec),
        "soft" => Some(Kind::Soft),
        _ => None,
    }
}

/// Whether the path lies below `conda-meta`.
fn is_in_meta(path: &str) -> bool
    ensures { result ≡ is_meta path.now }
{
    path.starts_with("conda-meta/")
}

/// The path of a good, which doesn't lie below `conda-meta`.
pub fn good_path(alloc: Global, field: MetaField, text: &str) -> Result<RelPath, FieldErr>
    ensures { Gives field_fault_of result (reading.good_path field text.now) }
{
    if is_in_meta(text) {
        return Err(FieldErr::Bad { field });
    }
    match RelPath::read(alloc, text) {
        Ok(path) => Ok(path),
        Err(PathErr::BadPath { at: _ }) => Err(FieldErr::Bad { field }),
        Err(PathErr::Memory) => Err(FieldErr::Memory),
    }
}

/// The digest in the named field, in 64 hexadecimal digits of either case.
pub fn digest_field(field: MetaField, name: &str, value: &Value) -> Result<Digest, MetaField>
    ensures { result ≡ reading.digest_read field name.now (view value.now) }
{
    match text_of(value, name) {
        Ok(text) => match <[u8; 32] as FromHex>::from_hex(text) {
            Ok(bytes) => Ok(Digest { bytes }),
            Err(_) => Err(field),
        },
        Err(_) => Err(field),
    }
}

/// The kind of a good.
fn kind_field(value: &Value) -> Result<Kind, MetaField>
    ensures { result ≡ reading.kind_read (view value.now) }
{
    match text_of(value, "kind") {
        Ok(text) => kind_named(text).ok_or(MetaField::Goods),
        Err(_) => Err(MetaField::Goods),
    }
}

/// The path of a good in a revision.
fn path_field(alloc: Global, value: &Value) -> Result<RelPath, FieldErr>
    ensures { Gives field_fault_of result (reading.path_field_read (view value.now)) }
{
    match text_of(value, "path") {
        Ok(text) => good_path(alloc, MetaField::Goods, text),
        Err(_) => Err(FieldErr::Bad {
            field: MetaField::Goods,
        }),
    }
}

/// The good that an element of a revision's `goods` is.
fn read_good(alloc: Global, value: &Value) -> Result<Good, FieldErr>
    ensures { Gives field_fault_of result (reading.good_read (view value.now)) }
{
    let kind = kind_field(value)?;
    let path = path_field(alloc, value)?;
    let digest = digest_field(MetaField::Goods, "sha256", value)?;
    let size = match number_of(value, "size") {
        Ok(size) => size,
        Err(_) => return Err(FieldErr::Bad {
            field: MetaField::Goods,
        }),
    };
    Ok(Good {
        path,
        kind,
        size,
        digest,
    })
}

/// The goods that elements are, in their order.
fn read_all(alloc: Global, elements: &[Value]) -> Result<Vec<Good>, FieldErr>
    ensures { Gives field_fault_of (result_map_both (λ goods. goods.items) (λ e. e) result)
        (each_from 0 (λ at. reading.good_read) (items_view elements.now)) }
{
    let mut goods = Vec::with_capacity(alloc, elements.len())?;
    for element in elements {
        let good = read_good(alloc, element)?;
        goods.push(good)?;
    }
    Ok(goods)
}

/// Goods that ascend by path as they stand.
pub fn sorted(goods: Vec<Good>) -> Result<Goods, AllocError>
    requires { Ascending (paths_of goods.items) }
    ensures { IfOk result (λ made. made ≡ goods.items) }
{
    ascending_laws();
    Goods::make(goods)
}

/// The goods of a package in a revision, which ascend by path.
pub fn goods_field(alloc: Global, value: &Value) -> Result<Goods, FieldErr>
    ensures { Gives field_fault_of result (reading.goods_read (view value.now)) }
{
    let bad = FieldErr::Bad {
        field: MetaField::Goods,
    };
    let Ok(elements) = list_of(value, "goods") else {
        return Err(bad);
    };
    let goods = read_all(alloc, elements)?;
    if ascend(goods.as_slice()) {
        Ok(sorted(goods)?)
    } else {
        Err(bad)
    }
}
