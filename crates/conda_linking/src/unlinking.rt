ghost use Rattle.std.specs.Prelude.{◌≡◌, ◌↔◌, ℕ, IfOk, IsTrue, List};
ghost use Rattle.std.specs.List.{Contains};
ghost use Rattle.conda_base.specs.Texts.{Ascending};
ghost use Rattle.conda_meta.specs.Folds.{held, last_of};
ghost use Rattle.conda_meta.specs.Reading.{dists_of};
ghost use Rattle.conda_meta.specs.declared.linked.Linked.{Linked};

use crate::by_dist::{ByDist, by_dist};
use conda_base::{Copied, Rows};
use conda_meta::Linked;
use conda_path::Dist;
use std::alloc::{AllocError, Global};

/// Whether one of the packages that stand by dist has the dist. It takes no memory.
fn has_dist(found: &ByDist<'_>, dist: &Dist) -> bool
    ensures { (packages : List Linked)
        → ((dist : List ℕ) → held found.now dist ≡ last_of dist packages)
        → (IsTrue result ↔ Contains (dists_of packages) dist.now) }
{
    found.contains_key(dist.text())
}

/// The dists that are linked now and of which the target has no package, in order.
pub fn unlinked(alloc: Global, now: &[Linked], target: &[Linked]) -> Result<Rows<Dist>, AllocError>
    requires { Ascending (dists_of now.now) }
    ensures unlinked { IfOk result (λ dists. (dist : List ℕ) → Contains dists dist
        ↔ (Contains (dists_of now.now) dist × (¬ Contains (dists_of target.now) dist))) }
    ensures by_dist { IfOk result (λ dists. Ascending dists) }
{
    let stay = by_dist(alloc, target)?;
    let mut dists = Rows::new(alloc);
    for one in now {
        if !has_dist(&stay, &one.rec.dist) {
            dists.push(one.rec.dist.copy()?)?;
        }
    }
    Ok(dists)
}
