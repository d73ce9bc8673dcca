ghost use Rattle.std.specs.Prelude.{◌≡◌, ℕ, [], List, map, IfOk, OnOk, OnErr, Err};
ghost use Rattle.std.specs.BTreeMap.{IsOrdered};
ghost use Rattle.std.specs.Cmp.Lexicographic.{slice_cmp};
ghost use Rattle.std.specs.Option.{option_or};
ghost use Rattle.std.specs.Ordering.{nat_cmp};
ghost use Rattle.conda_meta.specs.Folds.{IsFold, held, last_of, left, requested_after, unless_among};
ghost use Rattle.conda_meta.specs.declared.error.MetaErr.{MetaErr};

use crate::error::MetaErr;
use crate::linked::Linked;
use crate::revision::Revision;
use conda_base::{Copied, Rows};
use conda_spec::Spec;
use std::alloc::{AllocError, Global};
use std::collections::BTreeMap;

/// What the revisions of an environment leave together.
#[derive(Clone, Debug, Drop)]
pub struct Folded {
    /// The packages that are linked, by dist.
    pub linked: Rows<Linked>,
    /// The specifications that the user asked for, by name and text.
    pub requested: Rows<Spec>,
}

impl Copied for Folded {
    fn copy(&self) -> Result<Folded, AllocError> {
        self.clone()
    }
}

/// What is linked, by dist.
type Present<'a> = BTreeMap<&'a str, &'a Linked>;

/// Takes out what a revision unlinks.
fn take_out<'a>(present: &mut Present<'a>, revision: &'a Revision)
    ensures { (dist : List ℕ) → held present.new dist
        ≡ unless_among dist revision.now.unlinked (held present.old dist) }
{
    for dist in revision.unlinked.as_slice() {
        let _ = present.remove(dist.text());
    }
}

/// Puts in what a revision links, in place of what was there of the same dist.
fn put_in<'a>(present: &mut Present<'a>, revision: &'a Revision) -> Result<(), AllocError>
    ensures { OnOk result ((dist : List ℕ) → held present.new dist
        ≡ option_or (last_of dist revision.now.linked) (held present.old dist)) }
{
    for package in revision.linked.as_slice() {
        let _ = present.insert(package.rec.dist.text(), package)?;
    }
    Ok(())
}

/// What all revisions leave.
fn present_after(alloc: Global, revs: &[Revision]) -> Result<Present<'_>, AllocError>
    ensures { IfOk result (λ present. (dist : List ℕ) → held present dist ≡ left revs.now dist) }
{
    let mut present = BTreeMap::new(alloc);
    for revision in revs {
        take_out(&mut present, revision);
        put_in(&mut present, revision)?;
    }
    Ok(present)
}

/// The packages of their own, by dist.
fn listed(alloc: Global, present: &Present<'_>) -> Result<Rows<Linked>, AllocError>
    ensures list { IfOk result (λ linked.
        linked ≡ map (λ entry. entry.1.now) present.now.entries) }
    ensures ordered { OnOk result (IsOrdered (λ x y. slice_cmp nat_cmp x.now y.now) present.now) }
{
    let mut linked = Rows::new(alloc);
    for (_, package) in present {
        linked.push(package.copy()?)?;
    }
    Ok(linked)
}

/// The specifications of the last revision, and none where there is none.
fn requested_last(alloc: Global, revs: &[Revision]) -> Result<Rows<Spec>, AllocError>
    ensures { IfOk result (λ requested. requested ≡ requested_after [] revs.now) }
{
    match revs.last() {
        Some(revision) => revision.requested.copy(),
        None => Ok(Rows::new(alloc)),
    }
}

/// The packages, their goods and the requested specifications that revisions leave, the first one
/// first. Before it nothing is linked; each takes out what it unlinks and links, and adds what it
/// links; its requested specifications replace those before. Of several packages of one dist in a
/// revision the last counts. Its only error is `Memory`.
pub fn fold(alloc: Global, revs: &[Revision]) -> Result<Folded, MetaErr>
    ensures fold { IfOk result (λ folded. IsFold revs.now folded) }
    ensures err { OnErr result (result ≡ Err MetaErr.Memory) }
{
    let present = present_after(alloc, revs)?;
    Ok(Folded {
        linked: listed(alloc, &present)?,
        requested: requested_last(alloc, revs)?,
    })
}
