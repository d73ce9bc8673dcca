ghost use Rattle.std.specs.Prelude.{◌≡◌, ℕ, IfOk, List};
ghost use Rattle.conda_meta.specs.Folds.{held, last_of};

use conda_meta::Linked;
use std::alloc::{AllocError, Global};
use std::collections::BTreeMap;

/// Packages by dist.
pub type ByDist<'a> = BTreeMap<&'a str, &'a Linked>;

/// The packages by dist; of several of one dist the last.
pub fn by_dist(alloc: Global, packages: &[Linked]) -> Result<ByDist<'_>, AllocError>
    ensures { IfOk result (λ found. (dist : List ℕ) → held found dist ≡ last_of dist packages.now) }
{
    let mut found = BTreeMap::new(alloc);
    for one in packages {
        let _ = found.insert(one.rec.dist.text(), one)?;
    }
    Ok(found)
}
