ghost use Rattle.std.specs.Prelude.{◌≡◌, ◌++◌, [], ◌∷◌, ℕ, IfOk, List, OnOk, map};
ghost use Rattle.conda_changes.specs.Paths.{HasJust};
ghost use Rattle.conda_meta.specs.Reading.{dists_of};
ghost use Rattle.conda_moves.specs.Going as going_spec;
ghost use Rattle.conda_moves.specs.Going.{AreGoing, changed_dists, those_of};

use crate::files::prefix_path;
use crate::paths::PathSet;
use conda_meta::{Linked, Revision};
use conda_path::{Dist, RelPath};
use std::alloc::{AllocError, Global};
use std::collections::BTreeSet;

/// Adds dists.
fn add_dists<'a>(dists: &mut PathSet<'a>, more: &'a [Dist]) -> Result<(), AllocError>
    ensures { (before : List (List ℕ)) → HasJust dists.old before
        → OnOk result (HasJust dists.new (before ++ more.now)) }
{
    for dist in more {
        let _ = dists.insert(dist.text())?;
    }
    Ok(())
}

/// Adds the dists of packages.
fn add_linked<'a>(dists: &mut PathSet<'a>, linked: &'a [Linked]) -> Result<(), AllocError>
    ensures { (before : List (List ℕ)) → HasJust dists.old before
        → OnOk result (HasJust dists.new (before ++ dists_of linked.now)) }
{
    for one in linked {
        let _ = dists.insert(one.rec.dist.text())?;
    }
    Ok(())
}

/// The dists that a revision unlinks or links.
fn dists_changed(alloc: Global, revision: &Revision) -> Result<PathSet<'_>, AllocError>
    ensures { IfOk result (λ dists. HasJust dists (changed_dists revision.now)) }
{
    let mut dists = BTreeSet::new(alloc);
    add_dists(&mut dists, revision.unlinked.as_slice())?;
    add_linked(&mut dists, revision.linked.as_slice())?;
    Ok(dists)
}

/// Adds a package, if its dist is one of these.
fn add_if_among<'a>(
    going: &mut Vec<&'a Linked>,
    one: &'a Linked,
    dists: &PathSet<'_>,
) -> Result<(), AllocError>
    ensures { OnOk result (map (λ r. r.now) going.new.items
        ≡ map (λ r. r.now) going.old.items ++ those_of dists.now (one.now ∷ [])) }
{
    if dists.contains(one.rec.dist.text()) {
        going.push(one)?;
    }
    Ok(())
}

/// The packages that are linked now and go: those that the revision unlinks or links again.
pub fn going<'a>(
    alloc: Global,
    now: &'a [Linked],
    revision: &Revision,
) -> Result<Vec<&'a Linked>, AllocError>
    ensures { IfOk result (λ going. AreGoing now.now revision.now (map (λ r. r.now) going.items)) }
{
    let dists = dists_changed(alloc, revision)?;
    let mut going = Vec::new(alloc);
    for one in now {
        add_if_among(&mut going, one, &dists)?;
    }
    Ok(going)
}

/// The paths of the meta files of packages.
pub fn file_paths(alloc: Global, packages: &[&Linked]) -> Result<Vec<RelPath>, AllocError>
    ensures { IfOk result (λ paths.
        paths.items ≡ going_spec.file_paths (map (λ r. r.now) packages.now)) }
{
    let mut paths = Vec::new(alloc);
    for one in packages {
        paths.push(prefix_path(alloc, &one.rec.dist)?)?;
    }
    Ok(paths)
}
