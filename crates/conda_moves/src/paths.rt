ghost use Rattle.std.specs.Prelude.{IfOk};
ghost use Rattle.conda_changes.specs.Paths.{HasJust};

use conda_path::RelPath;
use std::alloc::{AllocError, Global};
use std::collections::BTreeSet;

/// A set of paths, or of other texts.
pub type PathSet<'a> = BTreeSet<&'a str>;

/// The set of the paths.
pub fn set_of(alloc: Global, paths: &[RelPath]) -> Result<PathSet<'_>, AllocError>
    ensures { IfOk result (λ set. HasJust set paths.now) }
{
    let mut set = BTreeSet::new(alloc);
    for path in paths {
        let _ = set.insert(path.as_str())?;
    }
    Ok(set)
}
