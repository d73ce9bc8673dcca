ghost use Rattle.std.specs.Prelude.{◌≡◌, ◌≢◌, [], IfOk, IsErrOf, filter, map};
ghost use Rattle.std.specs.List.Sorted.{IsSorted};
ghost use Rattle.conda_index.specs.Order.{index_cmp};
ghost use Rattle.conda_encode.specs.Matching.{names};
ghost use Rattle.conda_index.specs.Search.{found};
ghost use Rattle.conda_index.specs.declared.error.IndexErr.TheVariants.{NoMatch};

use crate::error::IndexErr;
use crate::index::Index;
use conda_base::Copied;
use conda_encode::names_record;
use conda_record::PkgRecord;
use conda_spec::Spec;
use conda_version::order_laws;
use rayon::prelude::*;
use std::alloc::{AllocError, Global};
use std::thread::Threads;

impl Index {
    /// The records of pools that a specification names, by name in lower case and in plain order,
    /// virtual packages among them. They are matched in as many threads as there are processors.
    ///
    /// `NoMatch` comes exactly where there are none.
    pub fn search<R: Threads + Sync>(
        &self,
        rt: &R,
        alloc: Global,
        spec: &Spec,
    ) -> Result<Vec<PkgRecord>, IndexErr>
        ensures found { IfOk result (λ records. records.items ≡ found spec.now self.now) }
        ensures some { IfOk result (λ records. records.items ≢ []) }
        ensures order { IfOk result (λ records. IsSorted index_cmp records.items) }
        ensures none { IsErrOf result NoMatch → found spec.now self.now ≡ [] }
    {
        order_laws();
        let found = matching(rt, alloc, spec, self.records.as_slice())?;
        if found.is_empty() {
            return Err(IndexErr::NoMatch);
        }
        Ok(copied_refs(alloc, found.as_slice())?)
    }
}

/// The records that a specification names.
fn matching<'a, R: Threads + Sync>(
    rt: &R,
    alloc: Global,
    spec: &Spec,
    records: &'a [PkgRecord],
) -> Result<Vec<&'a PkgRecord>, AllocError>
    ensures { IfOk result (λ found. map (λ pkg. pkg.now) found.items
        ≡ filter (names spec.now) records.now) }
{
    records
        .par_iter()
        .filter(
            move |pkg: &&PkgRecord| -> bool
                ensures { result ≡ names spec.entry.now pkg.now.now }
            { names_record(spec, *pkg) },
        )
        .collect(rt, alloc)
}

/// Equal records of their own.
fn copied_refs(alloc: Global, records: &[&PkgRecord]) -> Result<Vec<PkgRecord>, AllocError>
    ensures { IfOk result (λ copies. copies.items ≡ map (λ pkg. pkg.now) records.now) }
{
    let mut copies = Vec::with_capacity(alloc, records.len())?;
    for pkg in records {
        copies.push(pkg.copy()?)?;
    }
    Ok(copies)
}
