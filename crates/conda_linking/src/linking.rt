ghost use Rattle.std.specs.Prelude.{◌≡◌, ◌↔◌, IfOk, IsTrue, List, option_copied};
ghost use Rattle.std.specs.List.{Contains};
ghost use Rattle.conda_base.specs.Texts.{Ascending};
ghost use Rattle.conda_record.specs.Records.{key_of};
ghost use Rattle.conda_record.specs.declared.noarch.Noarch.{Noarch};
ghost use Rattle.conda_meta.specs.Folds.{last_of};
ghost use Rattle.conda_meta.specs.Reading.{dists_of};
ghost use Rattle.conda_meta.specs.declared.linked.Linked.{Linked};
ghost use Rattle.conda_linking.specs.Linking.{HasNewPython, IsToLink};

use crate::by_dist::by_dist;
use crate::newly::has_new_python;
use conda_base::{Copied, Rows};
use conda_meta::{Folded, Linked};
use conda_record::{Noarch, PkgRecord};
use std::alloc::{AllocError, Global};

/// Whether two packages have one key in the cache. It takes no memory.
fn is_same_key(one: &PkgRecord, other: &PkgRecord) -> bool
    ensures { IsTrue result ↔ (key_of one.now ≡ key_of other.now) }
{
    one.channel == other.channel && one.subdir == other.subdir && one.dist == other.dist
}

/// Whether two packages have the same goods. It takes no memory.
fn has_same_goods(one: &Linked, other: &Linked) -> bool
    ensures { IsTrue result ↔ (one.now.goods ≡ other.now.goods) }
{
    one.goods == other.goods
}

/// Whether a package is to link again, whose key is linked now. It takes no memory.
fn is_to_link_again(one: &Linked, new_python: bool) -> bool
    ensures { IsTrue result ↔ ((one.now.rec.noarch ≡ Noarch.Python) × IsTrue new_python) }
{
    new_python && one.rec.noarch == Noarch::Python
}

/// Whether a package of the target is to link, where `had` is the one of its dist that is linked
/// now, if there is one. It takes no memory.
fn is_to_link(kept: Option<&Folded>, had: Option<&Linked>, one: &Linked, new_python: bool) -> bool
    ensures { (now target : List Linked) → Ascending (dists_of now)
        → option_copied had.entry ≡ last_of one.now.rec.dist now
        → (IsTrue new_python ↔ HasNewPython now target)
        → (IsTrue result ↔ IsToLink (option_copied kept.entry) now target one.now) }
{
    let Some(had) = had else {
        return true;
    };
    if !is_same_key(&had.rec, &one.rec) {
        return true;
    }
    match kept {
        Some(_) => !has_same_goods(had, one),
        None => is_to_link_again(one, new_python),
    }
}

/// The packages of the target that are to link, by dist.
pub fn linked(
    alloc: Global,
    now: &[Linked],
    target: &[Linked],
    kept: Option<&Folded>,
) -> Result<Rows<Linked>, AllocError>
    requires now { Ascending (dists_of now.now) }
    requires target { Ascending (dists_of target.now) }
    ensures linked { IfOk result (λ linked. (one : Linked) → Contains linked one
        ↔ (Contains target.now one × IsToLink (option_copied kept.entry) now.now target.now one)) }
    ensures by_dist { IfOk result (λ linked. Ascending (dists_of linked)) }
{
    let have = by_dist(alloc, now)?;
    let new_python = has_new_python(now, target);
    let mut linked = Rows::new(alloc);
    for one in target {
        let had = have.get(one.rec.dist.text()).copied();
        if is_to_link(kept, had, one, new_python) {
            linked.push(one.copy()?)?;
        }
    }
    Ok(linked)
}
