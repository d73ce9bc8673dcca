ghost use Rattle.std.specs.Prelude.{◌≡◌, ◌≤◌, ◌+◌, ◌↔◌, All, IfOk, IsTrue, length, true};
ghost use Rattle.conda_path.specs.Dists.{is_dist};
ghost use Rattle.conda_encode.specs.Fit.{NeedsPlainly};
ghost use Rattle.conda_index.specs.Pools.{NamesPlainly, given, index_limit, virtual_dist};

use crate::virtuals::{Virtual, has_dist};
use conda_encode::need_plainly;
use conda_repodata::Repodata;
use std::alloc::{AllocError, Global};

/// The most records that an index takes, those that are hidden among them.
pub const INDEX_LIMIT: usize = 16_777_216;

/// Whether an index can be made of parts and virtual packages: the name, version and build of each
/// virtual package are those of a dist, no entry of a record names packages by a star, and there are
/// at most [`INDEX_LIMIT`] records and virtual packages together.
pub fn can_index(
    alloc: Global,
    parts: &[Repodata],
    virtuals: &[Virtual],
) -> Result<bool, AllocError>
    ensures dists { IfOk result (λ can. IsTrue can →
        All (λ v. is_dist (virtual_dist v) ≡ true) virtuals.now) }
    ensures plain { IfOk result (λ can. IsTrue can → All NamesPlainly (given parts.now)) }
    ensures few { IfOk result (λ can. IsTrue can →
        length (given parts.now) + length virtuals.now ≤ index_limit) }
    ensures can { IfOk result (λ can. All (λ v. is_dist (virtual_dist v) ≡ true) virtuals.now →
        All NamesPlainly (given parts.now) →
        length (given parts.now) + length virtuals.now ≤ index_limit → IsTrue can) }
{
    if !have_dists(alloc, virtuals)? {
        return Ok(false);
    }
    Ok(are_few(parts, virtuals) && parts_name_plainly(parts))
}

/// Whether each virtual package has a dist.
fn have_dists(alloc: Global, virtuals: &[Virtual]) -> Result<bool, AllocError>
    ensures { IfOk result (λ can. IsTrue can ↔
        All (λ v. is_dist (virtual_dist v) ≡ true) virtuals.now) }
{
    for virtual_package in virtuals {
        if !has_dist(alloc, virtual_package)? {
            return Ok(false);
        }
    }
    Ok(true)
}

/// Whether there are at most as many records and virtual packages as an index takes.
fn are_few(parts: &[Repodata], virtuals: &[Virtual]) -> bool
    ensures { IsTrue result ↔ length (given parts.now) + length virtuals.now ≤ index_limit }
{
    let mut count = virtuals.len();
    for part in parts {
        let more = part.recs.len();
        if more > INDEX_LIMIT || count > INDEX_LIMIT {
            return false;
        }
        count += more;
    }
    count <= INDEX_LIMIT
}

/// Whether no entry of the parts' records names packages by a star.
fn parts_name_plainly(parts: &[Repodata]) -> bool
    ensures { IsTrue result ↔ All (λ part. All NeedsPlainly part.recs) parts.now }
{
    parts.iter().all(|part| need_plainly(part.recs.as_slice()))
}
