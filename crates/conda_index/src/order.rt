ghost use Rattle.std.specs.Prelude.{◌≡◌};
ghost use Rattle.std.specs.List.Sorted.{IsPermutation, IsSorted};
ghost use Rattle.conda_index.specs.Order.{index_cmp, plain_cmp};

use crate::names::compare_names;
use conda_record::PkgRecord;
use conda_version::order_laws;
use rayon::prelude::*;
use std::cmp::Ordering;
use std::thread::Threads;

/// Plain order: what is newer comes first.
fn compare_plainly(first: &PkgRecord, second: &PkgRecord) -> Ordering
    ensures { result ≡ plain_cmp first.now second.now }
{
    second
        .version
        .compare(&first.version)
        .then(second.build_number.cmp(&first.build_number))
        .then(second.timestamp.cmp(&first.timestamp))
        .then(first.dist.cmp(&second.dist))
        .then(first.subdir.cmp(&second.subdir))
}

/// By name, and records of one name in plain order.
fn compare(first: &PkgRecord, second: &PkgRecord) -> Ordering
    ensures { result ≡ index_cmp first.now second.now }
{
    let order = compare_names(first.name.as_str(), second.name.as_str());
    if order.is_ne() {
        return order;
    }
    compare_plainly(first, second)
}

/// Puts records in the order of an index, in as many threads as there are processors.
pub fn put_in_order<R: Threads + Sync>(rt: &R, records: &mut [PkgRecord])
    ensures same { IsPermutation records.old records.new }
    ensures order { IsSorted index_cmp records.new }
{
    order_laws();
    par_sort_unstable_by(
        rt,
        records,
        |first: &PkgRecord, second: &PkgRecord| -> Ordering
            ensures { result ≡ index_cmp first.now second.now }
        { compare(first, second) },
    );
}
