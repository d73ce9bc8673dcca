ghost use Rattle.std.specs.Prelude.{◌≡◌, ◌≤◌, ◌+◌, ℕ, IfOk, OnOk, false, length, map, true};
ghost use Rattle.std.specs.List.{Contains};
ghost use Rattle.conda_spec.specs.Parts.{Parts};
ghost use Rattle.conda_record.specs.declared.pkg_record.PkgRecord.{PkgRecord};
ghost use Rattle.conda_encode.specs.Known.{ArePools, IsKnown};
ghost use Rattle.conda_encode.specs.Marks.{AreSound, DependsArePlain, Grows, IsMarked, NeedsAreMarked, Reaches};
ghost use Rattle.conda_encode.specs.Sides.{side_of};
ghost use Rattle.conda_encode.specs.Variables.{IsPlain, numbered, records, variables};

use crate::asked::Asked;
use crate::known::Known;
use crate::marks::mark_all;
use conda_record::{NamePool, PkgRecord};
use conda_spec::Spec;
use std::alloc::{AllocError, Global};

/// Marks what the model chooses and the specification names. Whether it wasn't marked before.
pub fn mark_named(
    alloc: Global,
    pools: &[NamePool],
    items: &[Asked],
    spec: &Spec,
    model: &[bool],
    known: &mut Known,
    marks: &mut [bool],
) -> Result<bool, AllocError>
    requires pools { ArePools pools.now }
    requires known { IsKnown pools.now known.old }
    requires plain { IsPlain spec.now }
    requires count { length marks.old ≡ length (records pools.now) }
    requires long { length marks.old ≤ length model.now }
    requires sound { AreSound pools.now items.now model.now marks.old }
    requires reaches { Reaches pools.now items.now model.now spec.now }
    ensures known { OnOk result (IsKnown pools.now known.new) }
    ensures grows { OnOk result (Grows marks.old marks.new) }
    ensures sound { OnOk result (AreSound pools.now items.now model.now marks.new) }
    ensures marked { OnOk result (IsMarked pools.now model.now marks.new spec.now) }
    ensures same { IfOk result (λ changed. changed ≡ false → marks.new ≡ marks.old) }
{
    let at = known.split(alloc, pools, spec)?;
    Ok(mark_all(known.splits[at].named.as_slice(), model, marks))
}

/// The same of each of these specifications.
fn mark_each(
    alloc: Global,
    pools: &[NamePool],
    items: &[Asked],
    specs: &[Spec],
    model: &[bool],
    known: &mut Known,
    marks: &mut [bool],
) -> Result<bool, AllocError>
    requires pools { ArePools pools.now }
    requires known { IsKnown pools.now known.old }
    requires plain { (spec : Parts) → Contains specs.now spec → IsPlain spec }
    requires count { length marks.old ≡ length (records pools.now) }
    requires long { length marks.old ≤ length model.now }
    requires sound { AreSound pools.now items.now model.now marks.old }
    requires reaches { (spec : Parts) → Contains specs.now spec
        → Reaches pools.now items.now model.now spec }
    ensures known { OnOk result (IsKnown pools.now known.new) }
    ensures grows { OnOk result (Grows marks.old marks.new) }
    ensures sound { OnOk result (AreSound pools.now items.now model.now marks.new) }
    ensures marked { OnOk result ((spec : Parts) → Contains specs.now spec
        → IsMarked pools.now model.now marks.new spec) }
    ensures same { IfOk result (λ changed. changed ≡ false → marks.new ≡ marks.old) }
{
    let mut changed = false;
    for spec in specs {
        if mark_named(alloc, pools, items, spec, model, known, marks)? {
            changed = true;
        }
    }
    Ok(changed)
}

/// The same of what a record needs, if it is marked.
fn mark_needs(
    alloc: Global,
    pools: &[NamePool],
    items: &[Asked],
    at: usize,
    rec: &PkgRecord,
    model: &[bool],
    known: &mut Known,
    marks: &mut [bool],
) -> Result<bool, AllocError>
    requires pools { ArePools pools.now }
    requires known { IsKnown pools.now known.old }
    requires record { Contains (variables pools.now) (at + 1, rec.now) }
    requires plain { (spec : Parts) → Contains rec.now.depends spec → IsPlain spec }
    requires count { length marks.old ≡ length (records pools.now) }
    requires long { length marks.old ≤ length model.now }
    requires sound { AreSound pools.now items.now model.now marks.old }
    ensures known { OnOk result (IsKnown pools.now known.new) }
    ensures grows { OnOk result (Grows marks.old marks.new) }
    ensures sound { OnOk result (AreSound pools.now items.now model.now marks.new) }
    ensures marked { OnOk result (side_of marks.old (at + 1) ≡ true → (spec : Parts)
        → Contains rec.now.depends spec → IsMarked pools.now model.now marks.new spec) }
    ensures same { IfOk result (λ changed. changed ≡ false → marks.new ≡ marks.old) }
{
    if !marks[at] {
        return Ok(false);
    }
    mark_each(
        alloc,
        pools,
        items,
        rec.depends.as_slice(),
        model,
        known,
        marks,
    )
}

/// The same of what all records need that are marked.
fn mark_pass(
    alloc: Global,
    pools: &[NamePool],
    items: &[Asked],
    recs: &[&PkgRecord],
    model: &[bool],
    known: &mut Known,
    marks: &mut [bool],
) -> Result<bool, AllocError>
    requires pools { ArePools pools.now }
    requires recs { map (λ r. r.now) recs.now ≡ records pools.now }
    requires known { IsKnown pools.now known.old }
    requires plain { DependsArePlain (records pools.now) }
    requires count { length marks.old ≡ length (records pools.now) }
    requires long { length marks.old ≤ length model.now }
    requires sound { AreSound pools.now items.now model.now marks.old }
    ensures known { OnOk result (IsKnown pools.now known.new) }
    ensures grows { OnOk result (Grows marks.old marks.new) }
    ensures sound { OnOk result (AreSound pools.now items.now model.now marks.new) }
    ensures marked { OnOk result (NeedsAreMarked pools.now model.now marks.old marks.new
        (variables pools.now)) }
    ensures same { IfOk result (λ changed. changed ≡ false → marks.new ≡ marks.old) }
{
    let mut changed = false;
    for (at, rec) in recs.iter().enumerate() {
        if mark_needs(alloc, pools, items, at, rec, model, known, marks)? {
            changed = true;
        }
    }
    Ok(changed)
}

/// Marks all that marked records reach.
pub fn mark_reached(
    alloc: Global,
    pools: &[NamePool],
    items: &[Asked],
    recs: &[&PkgRecord],
    model: &[bool],
    known: &mut Known,
    marks: &mut [bool],
) -> Result<(), AllocError>
    requires pools { ArePools pools.now }
    requires recs { map (λ r. r.now) recs.now ≡ records pools.now }
    requires known { IsKnown pools.now known.old }
    requires plain { DependsArePlain (records pools.now) }
    requires count { length marks.old ≡ length (records pools.now) }
    requires long { length marks.old ≤ length model.now }
    requires sound { AreSound pools.now items.now model.now marks.old }
    ensures grows { OnOk result (Grows marks.old marks.new) }
    ensures sound { OnOk result (AreSound pools.now items.now model.now marks.new) }
    ensures marked { OnOk result (NeedsAreMarked pools.now model.now marks.new marks.new
        (variables pools.now)) }
{
    for _round in 0..u64::MAX {
        if !mark_pass(alloc, pools, items, recs, model, known, marks)? {
            return Ok(());
        }
    }
    Err(AllocError)
}
