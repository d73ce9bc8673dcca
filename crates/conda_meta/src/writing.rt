ghost use Rattle.std.specs.Prelude.{◌≡◌, IfOk, Ok, OnOk, map, string_bytes};
ghost use Rattle.std.specs.List.{AllByRecursion};
ghost use Rattle.hex.specs.Hex.{IsBytes, decode_sized, encode_lower};
ghost use Rattle.serde_json.specs.Data.{array, number, put as with_member, string, unsigned};
ghost use Rattle.serde_json.specs.View.{items_view, members_view, view};
ghost use Rattle.conda_path.specs.Dists.{IsDist};
ghost use Rattle.conda_record.specs.Records.{record_data, spec_data, specs_data};
ghost use Rattle.conda_record.specs.Rules.{ReadsBack};
ghost use Rattle.conda_goods.specs.Goods.{paths_of};
ghost use Rattle.conda_meta.specs.Back.{AreWritten, IsWritten, LinkedBack, RecordBack};
ghost use Rattle.conda_meta.specs.Texts as texts;

use crate::linked::Linked;
use crate::revision::Revision;
use conda_path::{Digest, Dist, Good, Kind};
use conda_record::{Noarch, PkgRecord};
use conda_spec::Spec;
use serde_json::{Map, Value, put};
use std::alloc::{AllocError, Global};

type Members = Map<String, Value>;

/// Puts a member that is a text.
fn put_text(alloc: Global, members: &mut Members, name: &str, text: &str) -> Result<(), AllocError>
    ensures { OnOk result (members_view members.new.entries
        ≡ with_member name.now (string text.now) (members_view members.old.entries)) }
{
    let value = Value::try_from_str(alloc, text)?;
    put(members, alloc, name, value)
}

/// Puts a member that is a whole number.
fn put_number(alloc: Global, members: &mut Members, name: &str, n: u64) -> Result<(), AllocError>
    ensures { OnOk result (members_view members.new.entries
        ≡ with_member name.now (number (unsigned n)) (members_view members.old.entries)) }
{
    put(members, alloc, name, Value::from(n))
}

/// Puts a member that is a list of specifications in normal form.
fn put_specs(
    alloc: Global,
    members: &mut Members,
    name: &str,
    specs: &[Spec],
) -> Result<(), AllocError>
    ensures member { OnOk result (members_view members.new.entries
        ≡ with_member name.now (array (specs_data specs.now)) (members_view members.old.entries)) }
    ensures again { OnOk result (AllByRecursion ReadsBack specs.now) }
{
    let list = specs_value(alloc, specs)?;
    put(members, alloc, name, Value::Array(list))
}

/// The normal form of a specification.
fn spec_value(alloc: Global, spec: &Spec) -> Result<Value, AllocError>
    ensures value { IfOk result (λ value. view value ≡ spec_data spec.now) }
    ensures again { OnOk result (ReadsBack spec.now) }
{
    match spec.text(alloc) {
        Ok(text) => Ok(Value::String(text)),
        Err(_) => Err(AllocError),
    }
}

/// The normal forms of specifications, in their order.
fn specs_value(alloc: Global, specs: &[Spec]) -> Result<Vec<Value>, AllocError>
    ensures list { IfOk result (λ list. items_view list.items ≡ specs_data specs.now) }
    ensures again { OnOk result (AllByRecursion ReadsBack specs.now) }
{
    let mut list = Vec::with_capacity(alloc, specs.len())?;
    for spec in specs {
        list.push(spec_value(alloc, spec)?)?;
    }
    Ok(list)
}

// ---- a revision

fn kind_name(kind: Kind) -> &'static str
    ensures { result.now ≡ texts.kind_name kind }
{
    match kind {
        Kind::File => "file",
        Kind::Exec => "exec",
        Kind::Soft => "soft",
    }
}

/// Two digits for each byte.
fn hex_text(alloc: Global, bytes: &[u8]) -> Result<String, AllocError>
    ensures text { IfOk result (λ text. string_bytes text ≡ encode_lower bytes.now) }
    ensures bytes { IsBytes bytes.now }
{
    hex::encode(alloc, bytes)
}

/// The digits of a digest, from which it is read again.
fn digest_text(alloc: Global, digest: &Digest) -> Result<String, AllocError>
    ensures text { IfOk result (λ text. string_bytes text ≡ encode_lower digest.now.bytes) }
    ensures again { decode_sized (encode_lower digest.now.bytes) 32 ≡ Ok digest.now.bytes }
{
    hex_text(alloc, digest.bytes.as_slice())
}

/// A good in a revision.
fn good_value(alloc: Global, good: &Good) -> Result<Value, AllocError>
    ensures value { IfOk result (λ value. view value ≡ texts.good_data good.now) }
    ensures again { OnOk result (IsWritten good.now) }
{
    let digits = digest_text(alloc, &good.digest)?;
    let mut members = Map::new(alloc);
    put_text(alloc, &mut members, "kind", kind_name(good.kind))?;
    put_text(alloc, &mut members, "path", good.path.as_str())?;
    put_text(alloc, &mut members, "sha256", digits.as_str())?;
    put_number(alloc, &mut members, "size", good.size)?;
    Ok(Value::Object(members))
}

/// The goods of a package in a revision.
fn goods_value(alloc: Global, goods: &[Good]) -> Result<Vec<Value>, AllocError>
    ensures list { IfOk result (λ list. map view list.items ≡ map texts.good_data goods.now) }
    ensures again { OnOk result (AllByRecursion IsWritten goods.now) }
{
    let mut list = Vec::with_capacity(alloc, goods.len())?;
    for good in goods {
        list.push(good_value(alloc, good)?)?;
    }
    Ok(list)
}

/// The object of a record.
fn record_value(alloc: Global, rec: &PkgRecord) -> Result<Value, AllocError>
    ensures value { IfOk result (λ value. view value ≡ record_data rec.now) }
    ensures again { OnOk result (RecordBack rec.now) }
{
    match rec.value(alloc) {
        Ok(value) => Ok(value),
        Err(_) => Err(AllocError),
    }
}

/// A package in a revision.
fn linked_value(alloc: Global, linked: &Linked) -> Result<Value, AllocError>
    ensures value { IfOk result (λ value. view value ≡ texts.linked_data linked.now) }
    ensures again { OnOk result (LinkedBack linked.now) }
{
    let goods = goods_value(alloc, linked.goods.list())?;
    let inner = record_value(alloc, &linked.rec)?;
    let mut members = Map::new(alloc);
    put(&mut members, alloc, "goods", Value::Array(goods))?;
    put(&mut members, alloc, "record", inner)?;
    Ok(Value::Object(members))
}

/// The packages of a revision.
fn all_linked(alloc: Global, linked: &[Linked]) -> Result<Vec<Value>, AllocError>
    ensures list { IfOk result (λ list. map view list.items ≡ map texts.linked_data linked.now) }
    ensures again { OnOk result (AllByRecursion LinkedBack linked.now) }
{
    let mut list = Vec::with_capacity(alloc, linked.len())?;
    for one in linked {
        list.push(linked_value(alloc, one)?)?;
    }
    Ok(list)
}

/// The dists of a revision.
fn dists_value(alloc: Global, dists: &[Dist]) -> Result<Vec<Value>, AllocError>
    ensures list { IfOk result (λ list. map view list.items ≡ map string dists.now) }
    ensures again { OnOk result (AllByRecursion IsDist dists.now) }
{
    let mut list = Vec::with_capacity(alloc, dists.len())?;
    for dist in dists {
        list.push(Value::try_from_str(alloc, dist.text())?)?;
    }
    Ok(list)
}

/// The object of a revision.
#[tactic(auto, unfolding(crate::specs::Texts::revision_data))]
pub fn revision_value(alloc: Global, revision: &Revision) -> Result<Value, AllocError>
    ensures value { IfOk result (λ value. view value ≡ texts.revision_data revision.now) }
    ensures linked { OnOk result (AllByRecursion LinkedBack revision.now.linked) }
    ensures requested { OnOk result (AllByRecursion ReadsBack revision.now.requested) }
    ensures unlinked { OnOk result (AllByRecursion IsDist revision.now.unlinked) }
{
    let linked = all_linked(alloc, revision.linked.as_slice())?;
    let unlinked = dists_value(alloc, revision.unlinked.as_slice())?;
    let mut members = Map::new(alloc);
    put(&mut members, alloc, "linked", Value::Array(linked))?;
    put_specs(
        alloc,
        &mut members,
        "requested",
        revision.requested.as_slice(),
    )?;
    put(&mut members, alloc, "unlinked", Value::Array(unlinked))?;
    Ok(Value::Object(members))
}

// ---- a package in a prefix

fn type_name(kind: Kind) -> &'static str
    ensures { result.now ≡ texts.type_name kind }
{
    match kind {
        Kind::File | Kind::Exec => "hardlink",
        Kind::Soft => "softlink",
    }
}

/// What `paths_data` says of a good.
fn placed_value(alloc: Global, good: &Good) -> Result<Value, AllocError>
    ensures value { IfOk result (λ value. view value ≡ texts.placed_data good.now) }
    ensures again { OnOk result (IsWritten good.now) }
{
    let digits = digest_text(alloc, &good.digest)?;
    let mut members = Map::new(alloc);
    put_text(alloc, &mut members, "_path", good.path.as_str())?;
    put_text(alloc, &mut members, "path_type", type_name(good.kind))?;
    put_text(alloc, &mut members, "sha256_in_prefix", digits.as_str())?;
    put_number(alloc, &mut members, "size_in_bytes", good.size)?;
    Ok(Value::Object(members))
}

/// What `paths_data` says of all goods.
fn all_placed(alloc: Global, goods: &[Good]) -> Result<Vec<Value>, AllocError>
    ensures list { IfOk result (λ list. map view list.items ≡ map texts.placed_data goods.now) }
    ensures again { OnOk result (AllByRecursion IsWritten goods.now) }
{
    let mut list = Vec::with_capacity(alloc, goods.len())?;
    for good in goods {
        list.push(placed_value(alloc, good)?)?;
    }
    Ok(list)
}

/// The object in `paths_data`.
fn paths_data_value(alloc: Global, goods: &[Good]) -> Result<Value, AllocError>
    ensures value { IfOk result (λ value. view value ≡ texts.paths_data goods.now) }
    ensures again { OnOk result (AllByRecursion IsWritten goods.now) }
{
    let placed = all_placed(alloc, goods)?;
    let mut members = Map::new(alloc);
    put(&mut members, alloc, "paths", Value::Array(placed))?;
    put_number(alloc, &mut members, "paths_version", 1)?;
    Ok(Value::Object(members))
}

/// The paths of goods.
fn files_value(alloc: Global, goods: &[Good]) -> Result<Vec<Value>, AllocError>
    ensures { IfOk result (λ list. map view list.items ≡ map string (paths_of goods.now)) }
{
    let mut list = Vec::with_capacity(alloc, goods.len())?;
    for good in goods {
        list.push(Value::try_from_str(alloc, good.path.as_str())?)?;
    }
    Ok(list)
}

/// The members of a record but for `dist` and `noarch`.
fn record_members(alloc: Global, rec: &PkgRecord) -> Result<Members, AllocError>
    ensures members { IfOk result (λ made. members_view made.entries
        ≡ texts.plain_members rec.now) }
    ensures depends { OnOk result (AllByRecursion ReadsBack rec.now.depends) }
    ensures constrains { OnOk result (AllByRecursion ReadsBack rec.now.constrains) }
{
    let mut members = Map::new(alloc);
    put_text(alloc, &mut members, "build", rec.build.as_str())?;
    put_number(alloc, &mut members, "build_number", rec.build_number)?;
    put_text(alloc, &mut members, "channel", rec.channel.as_str())?;
    put_specs(alloc, &mut members, "constrains", rec.constrains.as_slice())?;
    put_specs(alloc, &mut members, "depends", rec.depends.as_slice())?;
    put_text(alloc, &mut members, "fn", rec.dist.text())?;
    put_text(alloc, &mut members, "name", rec.name.as_str())?;
    put_text(alloc, &mut members, "subdir", rec.subdir.as_str())?;
    put_number(alloc, &mut members, "timestamp", rec.timestamp)?;
    put_text(alloc, &mut members, "version", rec.version.text())?;
    Ok(members)
}

/// The members of a package in a prefix but for `noarch`.
fn prefix_members(alloc: Global, linked: &Linked) -> Result<Members, AllocError>
    ensures members { IfOk result (λ made. members_view made.entries
        ≡ texts.prefix_members Noarch.No linked.now) }
    ensures goods { OnOk result (AreWritten linked.now) }
    ensures depends { OnOk result (AllByRecursion ReadsBack linked.now.rec.depends) }
    ensures constrains { OnOk result (AllByRecursion ReadsBack linked.now.rec.constrains) }
{
    let files = files_value(alloc, linked.goods.list())?;
    let placed = paths_data_value(alloc, linked.goods.list())?;
    let mut members = record_members(alloc, &linked.rec)?;
    put(&mut members, alloc, "files", Value::Array(files))?;
    put(&mut members, alloc, "paths_data", placed)?;
    Ok(members)
}

/// The object of a package in a prefix.
#[tactic(auto, unfolding(crate::specs::Texts::prefix_data))]
pub fn prefix_value(alloc: Global, linked: &Linked) -> Result<Value, AllocError>
    ensures value { IfOk result (λ value. view value ≡ texts.prefix_data linked.now) }
    ensures goods { OnOk result (AreWritten linked.now) }
    ensures depends { OnOk result (AllByRecursion ReadsBack linked.now.rec.depends) }
    ensures constrains { OnOk result (AllByRecursion ReadsBack linked.now.rec.constrains) }
{
    let mut members = prefix_members(alloc, linked)?;
    match linked.rec.noarch {
        Noarch::No => Ok(Value::Object(members)),
        Noarch::Generic => {
            put_text(alloc, &mut members, "noarch", "generic")?;
            Ok(Value::Object(members))
        }
        Noarch::Python => {
            put_text(alloc, &mut members, "noarch", "python")?;
            Ok(Value::Object(members))
        }
    }
}
