ghost use Rattle.std.specs.Prelude.{IfOk, option_copied};
ghost use Rattle.conda_base.specs.Texts.{Ascending};
ghost use Rattle.conda_meta.specs.Reading.{dists_of};
ghost use Rattle.conda_linking.specs.Linking.{IsRevisionTo};

use crate::linking::linked;
use crate::unlinking::unlinked;
use conda_base::Copied;
use conda_meta::{Folded, Revision};
use std::alloc::{AllocError, Global};

/// The revision that leads from what is linked now to the target, both by dist. It links each
/// package of the target that isn't linked now with its channel, its subdir and its dist, and
/// again each noarch Python package where the target has a Python with an X.Y that no linked one
/// has; with `kept`, to go back to what was kept, each package of the target that isn't linked
/// now with its channel, its subdir, its dist and its goods. It unlinks each dist of which the
/// target has no package. It errs only for want of memory.
pub fn revision_to(
    alloc: Global,
    now: &Folded,
    target: &Folded,
    kept: Option<&Folded>,
) -> Result<Revision, AllocError>
    requires now { Ascending (dists_of now.now.linked) }
    requires target { Ascending (dists_of target.now.linked) }
    ensures { IfOk result (IsRevisionTo (option_copied kept.entry) now.now target.now) }
{
    let have = now.linked.as_slice();
    let wanted = target.linked.as_slice();
    Ok(Revision {
        linked: linked(alloc, have, wanted, kept)?,
        unlinked: unlinked(alloc, have, wanted)?,
        requested: target.requested.copy()?,
    })
}
