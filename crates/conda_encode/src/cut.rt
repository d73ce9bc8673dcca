ghost use Rattle.std.specs.Prelude.{◌≡◌, ◌≤◌, ◌++◌, [], ◌∷◌, IfOk, OnOk, cond, length, map};
ghost use Rattle.std.specs.List.{Contains};
ghost use Rattle.conda_encode.specs.Known.{ArePools, IsKnown};
ghost use Rattle.conda_encode.specs.Marks.{AreSound, Grows, IsMarked, WantedAreMarked};
ghost use Rattle.conda_encode.specs.Models.{IsCut, IsModel, chosen};
ghost use Rattle.conda_encode.specs.Sides.{side_of};
ghost use Rattle.conda_encode.specs.Solution.{IsSolution};
ghost use Rattle.conda_encode.specs.Variables.{IsPlain, IsRequest, records};
ghost use Rattle.conda_encode.specs.declared.asked.Asked.{Asked};
ghost use Rattle.conda_encode.specs.declared.asked.AskKind.{AskKind};

use crate::asked::{AskKind, Asked};
use crate::encoded::Encoded;
use crate::error::EncodeErr;
use crate::known::Known;
use crate::pools::flat;
use crate::reach::{mark_named, mark_reached};
use conda_base::Copied;
use conda_record::{NamePool, PkgRecord};
use std::alloc::{AllocError, Global};

/// Marks what the model chooses and a wanted item names.
fn mark_item(
    alloc: Global,
    pools: &[NamePool],
    items: &[Asked],
    item: &Asked,
    model: &[bool],
    known: &mut Known,
    marks: &mut [bool],
) -> Result<(), AllocError>
    requires pools { ArePools pools.now }
    requires known { IsKnown pools.now known.old }
    requires item { Contains items.now item.now }
    requires plain { IsPlain item.now.spec }
    requires count { length marks.old ≡ length (records pools.now) }
    requires long { length marks.old ≤ length model.now }
    requires sound { AreSound pools.now items.now model.now marks.old }
    ensures known { OnOk result (IsKnown pools.now known.new) }
    ensures grows { OnOk result (Grows marks.old marks.new) }
    ensures sound { OnOk result (AreSound pools.now items.now model.now marks.new) }
    ensures marked { OnOk result (item.now.kind ≡ AskKind.Wanted
        → IsMarked pools.now model.now marks.new item.now.spec) }
{
    match item.kind {
        AskKind::Pinned => Ok(()),
        AskKind::Wanted => {
            mark_named(alloc, pools, items, &item.spec, model, known, marks)?;
            Ok(())
        }
    }
}

/// The same of all items.
fn mark_wanted(
    alloc: Global,
    pools: &[NamePool],
    items: &[Asked],
    model: &[bool],
    known: &mut Known,
    marks: &mut [bool],
) -> Result<(), AllocError>
    requires pools { ArePools pools.now }
    requires known { IsKnown pools.now known.old }
    requires plain { (item : Asked) → Contains items.now item → IsPlain item.spec }
    requires count { length marks.old ≡ length (records pools.now) }
    requires long { length marks.old ≤ length model.now }
    requires sound { AreSound pools.now items.now model.now marks.old }
    ensures known { OnOk result (IsKnown pools.now known.new) }
    ensures sound { OnOk result (AreSound pools.now items.now model.now marks.new) }
    ensures marked { OnOk result (WantedAreMarked pools.now model.now marks.new items.now) }
{
    for item in items {
        mark_item(alloc, pools, items, item, model, known, marks)?;
    }
    Ok(())
}

/// Marks on what is reached.
fn reached(
    alloc: Global,
    pools: &[NamePool],
    items: &[Asked],
    recs: &[&PkgRecord],
    model: &[bool],
) -> Result<Vec<bool>, AllocError>
    requires request { IsRequest pools.now items.now }
    requires recs { map (λ r. r.now) recs.now ≡ records pools.now }
    requires sides { length (records pools.now) ≤ length model.now }
    ensures count { IfOk result (λ marks. length marks.items ≡ length (records pools.now)) }
    ensures cut { IfOk result (λ marks. IsCut pools.now items.now (side_of model.now)
        (chosen pools.now (side_of marks.items))) }
{
    let mut known = Known::new(alloc, pools)?;
    let mut marks = vec![in alloc; false; recs.len()]?;
    let sides = marks.as_mut_slice();
    mark_wanted(alloc, pools, items, model, &mut known, sides)?;
    mark_reached(alloc, pools, items, recs, model, &mut known, sides)?;
    Ok(marks)
}

/// Puts the record at the end, if it is marked.
fn put_marked(set: &mut Vec<PkgRecord>, rec: &PkgRecord, side: bool) -> Result<(), AllocError>
    ensures { OnOk result (set.new.items ≡ set.old.items ++ cond side (rec.now ∷ []) []) }
{
    if side {
        set.push(rec.copy()?)?;
    }
    Ok(())
}

/// The records that are marked.
fn picked(
    alloc: Global,
    pools: &[NamePool],
    recs: &[&PkgRecord],
    marks: &[bool],
) -> Result<Vec<PkgRecord>, AllocError>
    requires recs { map (λ r. r.now) recs.now ≡ records pools.now }
    requires count { length (records pools.now) ≤ length marks.now }
    ensures { IfOk result (λ set. set.items ≡ chosen pools.now (side_of marks.now)) }
{
    let mut set = Vec::new(alloc);
    for (at, rec) in recs.iter().enumerate() {
        put_marked(&mut set, rec, marks[at])?;
    }
    Ok(set)
}

/// Of what the model chooses, what is reached.
fn cut(
    alloc: Global,
    pools: &[NamePool],
    items: &[Asked],
    recs: &[&PkgRecord],
    model: &[bool],
) -> Result<Vec<PkgRecord>, AllocError>
    requires request { IsRequest pools.now items.now }
    requires recs { map (λ r. r.now) recs.now ≡ records pools.now }
    requires sides { length (records pools.now) ≤ length model.now }
    ensures { IfOk result (λ set. IsCut pools.now items.now (side_of model.now) set.items) }
{
    let marks = reached(alloc, pools, items, recs, model)?;
    picked(alloc, pools, recs, marks.as_slice())
}

/// Of the records whose variables the model makes true those that are reached, in the order of the
/// variables: what a wanted item names, and what a dependency of such a record names. Its only
/// error is `Memory`.
pub fn set_of(alloc: Global, encoded: &Encoded, model: &[bool]) -> Result<Vec<PkgRecord>, EncodeErr>
    requires request { IsRequest encoded.now.pools encoded.now.asked }
    requires sides { length (records encoded.now.pools) ≤ length model.now }
    ensures cut { IfOk result (λ set.
        IsCut encoded.now.pools encoded.now.asked (side_of model.now) set.items) }
    ensures solution { IsModel encoded.now.pools encoded.now.asked (side_of model.now) →
        IfOk result (λ set. IsSolution set.items encoded.now.asked encoded.now.pools) }
{
    let pools = encoded.pools.as_slice();
    let recs = flat(alloc, pools)?;
    Ok(cut(
        alloc,
        pools,
        encoded.asked.as_slice(),
        recs.as_slice(),
        model,
    )?)
}
