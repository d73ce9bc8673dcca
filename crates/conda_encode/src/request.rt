ghost use Rattle.std.specs.Prelude.{◌≡◌, ◌≢◌, ◌↔◌, ◌<◌, ◌^◌, IsTrue, length, map};
ghost use Rattle.std.specs.List.{All, AllPairs};
ghost use Rattle.conda_base.specs.Texts.{IsBeforeFirst};
ghost use Rattle.conda_encode.specs.Fit.{IsFit, NeedsPlainly};
ghost use Rattle.conda_encode.specs.Matching.{lowered};
ghost use Rattle.conda_encode.specs.Variables.{IsPlain, IsRequest, records};

use crate::asked::Asked;
use crate::matching::is_lowered;
use conda_record::{NamePool, PkgRecord};
use conda_spec::Spec;

/// A request has fewer records.
const RECORD_LIMIT: usize = 268_435_456;

/// Whether no specification has a star in its name.
fn are_plain(specs: &[Spec]) -> bool
    ensures { IsTrue result ↔ All IsPlain specs.now }
{
    specs.iter().all(|spec| !spec.has_glob())
}

fn items_are_plain(asked: &[Asked]) -> bool
    ensures { IsTrue result ↔ All (λ item. IsPlain item.spec) asked.now }
{
    asked.iter().all(|item| !item.spec.has_glob())
}

/// Whether no entry of the record has a star in its name.
fn needs_plainly(pkg: &PkgRecord) -> bool
    ensures { IsTrue result ↔ NeedsPlainly pkg.now }
{
    are_plain(pkg.depends.as_slice()) && are_plain(pkg.constrains.as_slice())
}

/// Whether no entry of these records has a star in its name. It takes no memory.
pub fn need_plainly(recs: &[PkgRecord]) -> bool
    ensures { IsTrue result ↔ All NeedsPlainly recs.now }
{
    recs.iter().all(|pkg| needs_plainly(pkg))
}

/// Whether all records are of the name.
fn are_of(name: &str, recs: &[PkgRecord]) -> bool
    ensures { IsTrue result ↔ All (λ pkg. lowered pkg.name ≡ name.now) recs.now }
{
    recs.iter().all(|pkg| is_lowered(pkg.name.as_str(), name))
}

/// Whether the pool has records of its name alone, and none of their entries has a star in its
/// name.
fn is_fit(pool: &NamePool) -> bool
    ensures { IsTrue result ↔ IsFit pool.now }
{
    let recs = pool.recs.as_slice();
    are_of(pool.name.as_str(), recs) && need_plainly(recs)
}

fn are_fit(pools: &[NamePool]) -> bool
    ensures { IsTrue result ↔ All IsFit pools.now }
{
    pools.iter().all(|pool| is_fit(pool))
}

/// Whether the pools have few enough records.
fn are_few(pools: &[NamePool]) -> bool
    ensures { IsTrue result ↔ length (records pools.now) < 2 ^ 28 }
{
    let mut count = 0_usize;
    for pool in pools {
        let more = pool.recs.len();
        if more >= RECORD_LIMIT {
            return false;
        }
        if count + more >= RECORD_LIMIT {
            return false;
        }
        count += more;
    }
    true
}

/// Whether the name comes before that of the first of these pools, if there is one.
fn is_before_first(pool: &NamePool, rest: &[NamePool]) -> bool
    ensures { IsTrue result → IsBeforeFirst pool.now.name (map (λ other. other.name) rest.now) }
{
    match rest.first() {
        Some(next) => pool.name < next.name,
        None => true,
    }
}

/// Whether the names ascend, so that none stands twice.
fn ascend(pools: &[NamePool]) -> bool
    ensures { IsTrue result → AllPairs (λ p q. p.name ≢ q.name) pools.now }
{
    let mut left = pools;
    while let Some((pool, rest)) = left.split_first() {
        if !is_before_first(pool, rest) {
            return false;
        }
        left = rest;
    }
    true
}

/// Whether no other pool has the name.
fn is_alone(pool: &NamePool, others: &[NamePool]) -> bool
    ensures { IsTrue result ↔ All (λ other. pool.now.name ≢ other.name) others.now }
{
    others.iter().all(|other| pool.name != other.name)
}

/// Whether each name differs from all later ones.
fn differ(pools: &[NamePool]) -> bool
    ensures { IsTrue result ↔ AllPairs (λ p q. p.name ≢ q.name) pools.now }
{
    let mut left = pools;
    while let Some((pool, rest)) = left.split_first() {
        if !is_alone(pool, rest) {
            return false;
        }
        left = rest;
    }
    true
}

/// The same, which takes a step for each pool where the names ascend.
fn are_apart(pools: &[NamePool]) -> bool
    ensures { IsTrue result ↔ AllPairs (λ p q. p.name ≢ q.name) pools.now }
{
    ascend(pools) || differ(pools)
}

/// Whether pools and items can be written as clauses, which [`encode`] asks for: the pools have
/// different names, each has records of its name alone and its name is in lower case, they have
/// fewer than 2^28 records together, and no item and no entry of a record has a star in its name.
/// It takes no memory.
///
/// [`encode`]: crate::encode
pub fn is_request(pools: &[NamePool], asked: &[Asked]) -> bool
    ensures { IsTrue result ↔ IsRequest pools.now asked.now }
{
    if !are_few(pools) {
        return false;
    }
    if !are_apart(pools) {
        return false;
    }
    are_fit(pools) && items_are_plain(asked)
}
