ghost use Rattle.std.specs.Prelude.{◌≡◌, ◌<◌, ◌≤◌, ◌^◌, ◌++◌, [], ◌∷◌, false, filter, map, not, pos, OnOk};
ghost use Rattle.std.specs.List.{Contains, flat_map};
ghost use Rattle.std.specs.Ordering.{int_eq};
ghost use Rattle.conda_spec.specs.Parts.{Parts};
ghost use Rattle.conda_record.specs.declared.pkg_record.PkgRecord.{PkgRecord};
ghost use Rattle.conda_refute.specs.Literals.{has};
ghost use Rattle.conda_encode.specs.Clauses.{barred, barred_by, barred_entry, barred_pair, each_barred, is_other, needed, needed_by, needed_entry, off, pinned, pinned_at, pinned_literal, wanted, wanted_at};
ghost use Rattle.conda_encode.specs.Known.{ArePools, IsKnown};
ghost use Rattle.conda_encode.specs.Variables.{IsPlain, numbered, records};
ghost use Rattle.conda_encode.specs.declared.asked.Asked.{Asked};

use crate::asked::{AskKind, Asked};
use crate::clauses::clause_of;
use crate::encoded::Why;
use crate::known::Known;
use crate::written::Written;
use conda_record::{NamePool, PkgRecord};
use conda_spec::Spec;
use std::alloc::{AllocError, Global};

/// The clause of a wanted item.
fn write_wanted_at(
    alloc: Global,
    pools: &[NamePool],
    place: usize,
    item: &Asked,
    known: &mut Known,
    written: &mut Written,
) -> Result<(), AllocError>
    requires pools { ArePools pools.now }
    requires known { IsKnown pools.now known.old }
    requires plain { IsPlain item.now.spec }
    ensures known { OnOk result (IsKnown pools.now known.new) }
    ensures written { OnOk result (written.new
        ≡ written.old ++ wanted_at pools.now item.now.kind item.now.spec place) }
{
    match item.kind {
        AskKind::Pinned => Ok(()),
        AskKind::Wanted => {
            let at = known.split(alloc, pools, &item.spec)?;
            let clause = clause_of(alloc, &[], known.splits[at].named.as_slice())?;
            written.push(Why::Asked(place), clause)
        }
    }
}

/// A clause for each wanted item.
pub fn write_wanted(
    alloc: Global,
    pools: &[NamePool],
    items: &[Asked],
    known: &mut Known,
    written: &mut Written,
) -> Result<(), AllocError>
    requires pools { ArePools pools.now }
    requires known { IsKnown pools.now known.old }
    requires plain { (item : Asked) → Contains items.now item → IsPlain item.spec }
    ensures known { OnOk result (IsKnown pools.now known.new) }
    ensures written { OnOk result (written.new ≡ written.old ++ wanted pools.now items.now) }
{
    for (place, item) in items.iter().enumerate() {
        write_wanted_at(alloc, pools, place, item, known, written)?;
    }
    Ok(())
}

/// The clause of a dependency.
fn write_needed_entry(
    alloc: Global,
    pools: &[NamePool],
    rec: u32,
    entry: usize,
    spec: &Spec,
    known: &mut Known,
    written: &mut Written,
) -> Result<(), AllocError>
    requires pools { ArePools pools.now }
    requires known { IsKnown pools.now known.old }
    requires plain { IsPlain spec.now }
    requires low { 1 ≤ rec }
    requires high { rec < 2 ^ 31 }
    ensures known { OnOk result (IsKnown pools.now known.new) }
    ensures written { OnOk result (written.new ≡ written.old
        ++ needed_entry pools.now rec (entry, spec.now) ∷ []) }
{
    let at = known.split(alloc, pools, spec)?;
    let clause = clause_of(alloc, &[-(rec as i32)], known.splits[at].named.as_slice())?;
    written.push(Why::Needs { rec, entry }, clause)
}

/// A clause for each dependency of a record.
fn write_needed_by(
    alloc: Global,
    pools: &[NamePool],
    rec: u32,
    depends: &[Spec],
    known: &mut Known,
    written: &mut Written,
) -> Result<(), AllocError>
    requires pools { ArePools pools.now }
    requires known { IsKnown pools.now known.old }
    requires plain { (spec : Parts) → Contains depends.now spec → IsPlain spec }
    requires low { 1 ≤ rec }
    requires high { rec < 2 ^ 31 }
    ensures known { OnOk result (IsKnown pools.now known.new) }
    ensures written { OnOk result (written.new ≡ written.old
        ++ map (needed_entry pools.now rec) (numbered 0 depends.now)) }
{
    for (entry, spec) in depends.iter().enumerate() {
        write_needed_entry(alloc, pools, rec, entry, spec, known, written)?;
    }
    Ok(())
}

/// A clause for each dependency of each record.
pub fn write_needed(
    alloc: Global,
    pools: &[NamePool],
    recs: &[&PkgRecord],
    known: &mut Known,
    written: &mut Written,
) -> Result<(), AllocError>
    requires pools { ArePools pools.now }
    requires recs { map (λ r. r.now) recs.now ≡ records pools.now }
    requires known { IsKnown pools.now known.old }
    requires plain { (pkg : PkgRecord) → Contains (records pools.now) pkg
        → (spec : Parts) → Contains pkg.depends spec → IsPlain spec }
    ensures known { OnOk result (IsKnown pools.now known.new) }
    ensures written { OnOk result (written.new ≡ written.old ++ needed pools.now) }
{
    for (at, rec) in recs.iter().enumerate() {
        let number = at as u32 + 1;
        write_needed_by(alloc, pools, number, rec.depends.as_slice(), known, written)?;
    }
    Ok(())
}

/// The clause that one of two records isn't chosen, if they are two.
fn write_barred_pair(
    alloc: Global,
    rec: u32,
    entry: usize,
    literal: &i32,
    written: &mut Written,
) -> Result<(), AllocError>
    requires low { 1 ≤ rec }
    requires high { rec < 2 ^ 31 }
    requires literal { has (literal.now ∷ []) (pos 0) ≡ false }
    ensures { OnOk result (written.new ≡ written.old
        ++ map (barred_pair rec entry) (filter (is_other rec) (literal.now ∷ []))) }
{
    let own = -(rec as i32);
    if *literal == own {
        return Ok(());
    }
    let clause = clause_of(alloc, &[own], &[*literal])?;
    written.push(Why::Constrains { rec, entry }, clause)
}

fn write_barred_pairs(
    alloc: Global,
    rec: u32,
    entry: usize,
    barred: &[i32],
    written: &mut Written,
) -> Result<(), AllocError>
    requires low { 1 ≤ rec }
    requires high { rec < 2 ^ 31 }
    requires barred { has barred.now (pos 0) ≡ false }
    ensures { OnOk result (written.new ≡ written.old
        ++ map (barred_pair rec entry) (filter (is_other rec) barred.now)) }
{
    for literal in barred {
        write_barred_pair(alloc, rec, entry, literal, written)?;
    }
    Ok(())
}

/// The clauses of an entry of `constrains`.
fn write_barred_entry(
    alloc: Global,
    pools: &[NamePool],
    rec: u32,
    entry: usize,
    spec: &Spec,
    known: &mut Known,
    written: &mut Written,
) -> Result<(), AllocError>
    requires pools { ArePools pools.now }
    requires known { IsKnown pools.now known.old }
    requires plain { IsPlain spec.now }
    requires low { 1 ≤ rec }
    requires high { rec < 2 ^ 31 }
    ensures known { OnOk result (IsKnown pools.now known.new) }
    ensures written { OnOk result (written.new
        ≡ written.old ++ barred_entry pools.now rec (entry, spec.now)) }
{
    let at = known.split(alloc, pools, spec)?;
    write_barred_pairs(
        alloc,
        rec,
        entry,
        known.splits[at].barred.as_slice(),
        written,
    )
}

/// The clauses of the entries of `constrains` of a record.
fn write_barred_by(
    alloc: Global,
    pools: &[NamePool],
    rec: u32,
    constrains: &[Spec],
    known: &mut Known,
    written: &mut Written,
) -> Result<(), AllocError>
    requires pools { ArePools pools.now }
    requires known { IsKnown pools.now known.old }
    requires plain { (spec : Parts) → Contains constrains.now spec → IsPlain spec }
    requires low { 1 ≤ rec }
    requires high { rec < 2 ^ 31 }
    ensures known { OnOk result (IsKnown pools.now known.new) }
    ensures written { OnOk result (written.new ≡ written.old
        ++ flat_map (barred_entry pools.now rec) (numbered 0 constrains.now)) }
{
    for (entry, spec) in constrains.iter().enumerate() {
        write_barred_entry(alloc, pools, rec, entry, spec, known, written)?;
    }
    Ok(())
}

/// The clauses of the entries of `constrains` of all records.
pub fn write_barred(
    alloc: Global,
    pools: &[NamePool],
    recs: &[&PkgRecord],
    known: &mut Known,
    written: &mut Written,
) -> Result<(), AllocError>
    requires pools { ArePools pools.now }
    requires recs { map (λ r. r.now) recs.now ≡ records pools.now }
    requires known { IsKnown pools.now known.old }
    requires plain { (pkg : PkgRecord) → Contains (records pools.now) pkg
        → (spec : Parts) → Contains pkg.constrains spec → IsPlain spec }
    ensures known { OnOk result (IsKnown pools.now known.new) }
    ensures written { OnOk result (written.new ≡ written.old ++ barred pools.now) }
{
    for (at, rec) in recs.iter().enumerate() {
        let number = at as u32 + 1;
        write_barred_by(
            alloc,
            pools,
            number,
            rec.constrains.as_slice(),
            known,
            written,
        )?;
    }
    Ok(())
}

fn write_pinned_literals(
    alloc: Global,
    place: usize,
    barred: &[i32],
    written: &mut Written,
) -> Result<(), AllocError>
    requires { has barred.now (pos 0) ≡ false }
    ensures { OnOk result (written.new ≡ written.old ++ map (pinned_literal place) barred.now) }
{
    for literal in barred {
        let clause = clause_of(alloc, &[], &[*literal])?;
        written.push(Why::Pinned(place), clause)?;
    }
    Ok(())
}

/// The clauses of a pinned item.
fn write_pinned_at(
    alloc: Global,
    pools: &[NamePool],
    place: usize,
    item: &Asked,
    known: &mut Known,
    written: &mut Written,
) -> Result<(), AllocError>
    requires pools { ArePools pools.now }
    requires known { IsKnown pools.now known.old }
    requires plain { IsPlain item.now.spec }
    ensures known { OnOk result (IsKnown pools.now known.new) }
    ensures written { OnOk result (written.new
        ≡ written.old ++ pinned_at pools.now item.now.kind item.now.spec place) }
{
    match item.kind {
        AskKind::Wanted => Ok(()),
        AskKind::Pinned => {
            let at = known.split(alloc, pools, &item.spec)?;
            write_pinned_literals(alloc, place, known.splits[at].barred.as_slice(), written)
        }
    }
}

/// The clauses of all pinned items.
pub fn write_pinned(
    alloc: Global,
    pools: &[NamePool],
    items: &[Asked],
    known: &mut Known,
    written: &mut Written,
) -> Result<(), AllocError>
    requires pools { ArePools pools.now }
    requires known { IsKnown pools.now known.old }
    requires plain { (item : Asked) → Contains items.now item → IsPlain item.spec }
    ensures known { OnOk result (IsKnown pools.now known.new) }
    ensures written { OnOk result (written.new ≡ written.old ++ pinned pools.now items.now) }
{
    for (place, item) in items.iter().enumerate() {
        write_pinned_at(alloc, pools, place, item, known, written)?;
    }
    Ok(())
}
