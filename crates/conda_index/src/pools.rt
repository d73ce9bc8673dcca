ghost use Rattle.std.specs.Prelude.{◌≡◌, ◌↔◌, ℕ, List, [], All, Contains, IfErr, IfOk, OnOk, map, nat_eq};
ghost use Rattle.std.specs.Cmp.Lexicographic.{pointwise};
ghost use Rattle.indexmap.specs.IndexSet.{insert_all};
ghost use Rattle.std.specs.List.Sorted.{IsSorted};
ghost use Rattle.conda_base.specs.Texts.{Ascending};
ghost use Rattle.conda_encode.specs.Matching.{lowered};
ghost use Rattle.conda_encode.specs.Variables.{IsPlain, IsRequest};
ghost use Rattle.conda_encode.specs.declared.asked.Asked.{Asked};
ghost use Rattle.conda_index.specs.Order.{plain_cmp};
ghost use Rattle.conda_index.specs.Pools.{pool_of};
ghost use Rattle.conda_index.specs.Reached.{Reaches, names_of};
ghost use Rattle.conda_index.specs.Walk.{names_wanted, needs_of};
ghost use Rattle.conda_index.specs.declared.error.IndexErr.TheVariants.{Memory};

use crate::error::IndexErr;
use crate::index::Index;
use crate::names::lowered;
use conda_base::{Copied, Rows, Text, copied_all};
use conda_encode::{AskKind, Asked};
use conda_record::{NamePool, PkgRecord};
use conda_spec::Spec;
use conda_version::order_laws;
use indexmap::IndexSet;
use std::alloc::{AllocError, Global};

impl Index {
    /// The pools of the names that a request can meet, ascending by name: the names of its wanted
    /// items, and those of the dependencies of the records in these pools, and so on. A name that
    /// has no record has an empty pool. Where no wanted or pinned item has a star in its name, they
    /// can be written as clauses.
    pub fn pools(&self, alloc: Global, asked: &[Asked]) -> Result<Vec<NamePool>, IndexErr>
        ensures names { IfOk result (λ pools. (name : List ℕ) →
            Contains (names_of pools.items) name ↔ Reaches self.now asked.now name) }
        ensures ascending { IfOk result (λ pools. Ascending (names_of pools.items)) }
        ensures records { IfOk result (λ pools.
            All (λ pool. pool.recs ≡ pool_of self.now pool.name) pools.items) }
        ensures lowered { IfOk result (λ pools.
            All (λ pool. lowered pool.name ≡ pool.name) pools.items) }
        ensures order { IfOk result (λ pools.
            All (λ pool. IsSorted plain_cmp pool.recs) pools.items) }
        ensures request { IfOk result (λ pools.
            ((item : Asked) → Contains asked.now item → IsPlain item.spec) →
            IsRequest pools.items asked.now) }
        ensures bad { IfErr result (λ e. e ≡ Memory) }
    {
        order_laws();
        let _ = self.records.as_slice();
        let reached = self.reached(alloc, asked)?;
        Ok(self.pools_of(alloc, reached)?)
    }

    /// The names that a request can meet.
    fn reached(&self, alloc: Global, asked: &[Asked]) -> Result<IndexSet<Text>, AllocError>
        ensures { IfOk result (λ names. (name : List ℕ) →
            Contains names.keys name ↔ Reaches self.now asked.now name) }
    {
        let mut names = wanted_names(alloc, asked)?;
        for at in 0..usize::MAX {
            let pool = match names.get_index(at) {
                None => return Ok(names),
                Some(name) => self.pool(name.as_str()),
            };
            add_needs(alloc, pool, &mut names)?;
        }
        let _ = names.len();
        Ok(names)
    }

    /// The pools of these names, ascending by name.
    fn pools_of(&self, alloc: Global, names: IndexSet<Text>) -> Result<Vec<NamePool>, AllocError>
        ensures names { IfOk result (λ pools. (name : List ℕ) →
            Contains (names_of pools.items) name ↔ Contains names.keys name) }
        ensures ascending { IfOk result (λ pools. Ascending (names_of pools.items)) }
        ensures records { IfOk result (λ pools.
            All (λ pool. pool.recs ≡ pool_of self.now pool.name) pools.items) }
    {
        let mut names = names;
        names.sort()?;
        let mut pools = Vec::new(alloc);
        for name in names.as_slice() {
            let recs = copied_all(alloc, self.pool(name.as_str()))?;
            pools.push(NamePool {
                name: name.copy()?,
                recs: Rows::from_vec(recs),
            })?;
        }
        Ok(pools)
    }
}

/// The names of the wanted items.
fn wanted_names(alloc: Global, asked: &[Asked]) -> Result<IndexSet<Text>, AllocError>
    ensures { IfOk result (λ names. names.keys ≡ insert_all (pointwise nat_eq) [] (names_wanted asked.now)) }
{
    let mut names = IndexSet::new(alloc);
    for item in asked {
        match item.kind {
            AskKind::Wanted => {
                names.insert(lowered(alloc, item.spec.name())?)?;
            }
            AskKind::Pinned => {}
        }
    }
    Ok(names)
}

/// Adds the names of what the records of a pool need.
fn add_needs(
    alloc: Global,
    pool: &[PkgRecord],
    names: &mut IndexSet<Text>,
) -> Result<(), AllocError>
    ensures { OnOk result (names.new.keys
        ≡ insert_all (pointwise nat_eq) names.old.keys (needs_of pool.now)) }
{
    for pkg in pool {
        add_names(alloc, pkg.depends.as_slice(), names)?;
    }
    Ok(())
}

/// Adds the names of specifications.
fn add_names(alloc: Global, specs: &[Spec], names: &mut IndexSet<Text>) -> Result<(), AllocError>
    ensures { OnOk result (names.new.keys
        ≡ insert_all (pointwise nat_eq) names.old.keys (map (λ spec. lowered spec.name) specs.now)) }
{
    for spec in specs {
        names.insert(lowered(alloc, spec.name())?)?;
    }
    Ok(())
}
