ghost use Rattle.std.specs.Prelude.{◌≡◌, IfOk, map};
ghost use Rattle.std.specs.List.{Contains};
ghost use Rattle.conda_record.specs.declared.pkg_record.PkgRecord.{PkgRecord};
ghost use Rattle.conda_record.specs.declared.pool.NamePool.{NamePool};
ghost use Rattle.conda_encode.specs.Variables.{records};
ghost use Rattle.conda_resolve.specs.Asking.{AreDecided, AreOrdered};
ghost use Rattle.conda_resolve.specs.Choice.{IsChoice};

use conda_base::{Copied, Text};
use conda_encode::Asked;
use conda_record::{NamePool, PkgRecord};
use indexmap::IndexMap;
use std::alloc::{AllocError, Global};

/// The records of the variables, in the order of these.
fn records_of(
    alloc: Global,
    pools: &[NamePool],
    asked: &[Asked],
    installed: &[PkgRecord],
    recs: &[&PkgRecord],
    decided: &IndexMap<Text, u32>,
) -> Result<Vec<PkgRecord>, AllocError>
    requires recs { map (λ r. r.now) recs.now ≡ records pools.now }
    requires decided { AreOrdered pools.now asked.now installed.now decided.now.entries }
    ensures { IfOk result (λ set. IsChoice pools.now asked.now installed.now set.items) }
{
    let mut set = Vec::new(alloc);
    for at in 0..decided.len() {
        if let Some((_, variable)) = decided.get_index(at) {
            set.push(recs[*variable as usize - 1].copy()?)?;
        }
    }
    Ok(set)
}

/// The records that are decided, by name.
pub fn by_name(
    alloc: Global,
    pools: &[NamePool],
    asked: &[Asked],
    installed: &[PkgRecord],
    recs: &[&PkgRecord],
    decided: IndexMap<Text, u32>,
) -> Result<Vec<PkgRecord>, AllocError>
    requires recs { map (λ r. r.now) recs.now ≡ records pools.now }
    requires decided { AreDecided pools.now asked.now installed.now decided.entries }
    ensures { IfOk result (λ set. IsChoice pools.now asked.now installed.now set.items) }
{
    let mut decided = decided;
    decided.sort_keys()?;
    records_of(alloc, pools, asked, installed, recs, &decided)
}
