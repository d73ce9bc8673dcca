ghost use Rattle.std.specs.Prelude.{◌≡◌, ◌≤◌, ◌+◌, ℕ, List, All, IfErr, IfOk, length, true};
ghost use Rattle.std.specs.List.Sorted.{IsSorted};
ghost use Rattle.conda_path.specs.Dists.{is_dist};
ghost use Rattle.conda_index.specs.Order.{is_before, is_within, plain_cmp};
ghost use Rattle.conda_index.specs.Pools.{IsIndex, IsPool, NamesPlainly, given, index_limit, pool_of};
ghost use Rattle.conda_index.specs.Pools.{pool_records, virtual_dist};
ghost use Rattle.conda_index.specs.declared.error.IndexErr.TheVariants.{Memory};

use crate::error::IndexErr;
use crate::gather::{shown_records, take_virtuals};
use crate::names::compare_names;
use crate::order::put_in_order;
use crate::virtuals::Virtual;
use conda_record::PkgRecord;
use conda_repodata::Repodata;
use conda_version::order_laws;
use std::alloc::Global;
use std::marker::Model;
use std::thread::Threads;

/// The records of channels and of virtual packages, but for those that are hidden.
///
/// Contracts see it as these records: by name in lower case, and those of one name in plain order.
#[derive(Debug, Drop)]
pub struct Index {
    pub(crate) records: Vec<PkgRecord>,
}

impl Model for Index {
    ghost use Rattle.std.specs.Prelude.{List};
    ghost use Rattle.conda_record.specs.declared.pkg_record.PkgRecord.{PkgRecord};
    ghost use Rattle.conda_index.specs.Pools.{IsIndex};

    ghost Value = { List PkgRecord };

    ghost view = { λ i. i.records.items };

    ghost invariant = { λ i. IsIndex i.records.items };
}

impl Index {
    /// The index of channels and virtual packages. The parts are the channels' subdirs, each
    /// channel's before those of the channels behind it.
    ///
    /// The pool of a name that begins with `__` has the virtual packages of the name. That of each
    /// other name has its records in the first channel that has one, in whatever subdir: all later
    /// channels are hidden, whatever versions they have. An entry that its part has set aside hides
    /// nothing. Names are compared in lower case. The records are put in order in as many threads
    /// as there are processors.
    pub fn make<R: Threads + Sync>(
        rt: &R,
        alloc: Global,
        parts: Vec<Repodata>,
        virtuals: Vec<Virtual>,
    ) -> Result<Index, IndexErr>
        requires dists { All (λ v. is_dist (virtual_dist v) ≡ true) virtuals.items }
        requires plain { All NamesPlainly (given parts.items) }
        requires few { length (given parts.items) + length virtuals.items ≤ index_limit }
        ensures pools { IfOk result (λ index. (name : List ℕ) →
            IsPool (pool_records parts.items virtuals.items name) (pool_of index name)) }
        ensures bad { IfErr result (λ e. e ≡ Memory) }
    {
        order_laws();
        let mut records = shown_records(alloc, parts)?;
        take_virtuals(alloc, virtuals, &mut records)?;
        put_in_order(rt, records.as_mut_slice());
        Ok(Index { records })
    }

    /// The pool of a name, in plain order: the greater version first, then the greater build
    /// number, the greater timestamp, the lesser dist, the lesser subdir. The name is compared in
    /// lower case. It takes no memory.
    pub fn pool(&self, name: &str) -> &[PkgRecord]
        ensures pool { result.now ≡ pool_of self.now name.now }
        ensures order { IsSorted plain_cmp result.now }
    {
        pool_in(self.records.as_slice(), name)
    }
}

/// The records of a name among records that stand in the order of an index.
fn pool_in<'a>(records: &'a [PkgRecord], name: &str) -> &'a [PkgRecord]
    requires { IsIndex records.now }
    ensures pool { result.now ≡ pool_of records.now name.now }
    ensures order { IsSorted plain_cmp result.now }
{
    order_laws();
    let start = records.partition_point(
        |pkg: &PkgRecord| -> bool
            ensures { result ≡ is_before name.entry.now pkg.now }
        { compare_names(pkg.name.as_str(), name).is_lt() },
    );
    let (_, behind) = records.split_at(start);
    let count = behind.partition_point(
        |pkg: &PkgRecord| -> bool
            ensures { result ≡ is_within name.entry.now pkg.now }
        { compare_names(pkg.name.as_str(), name).is_le() },
    );
    let (pool, _) = behind.split_at(count);
    pool
}
