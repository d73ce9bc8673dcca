ghost use Rattle.std.specs.Prelude.{◌≡◌, ◌↔◌, List, ℕ, IfOk, MatchOption, None, true, map, option_copied};
ghost use Rattle.std.specs.BTreeMap.{get_by};
ghost use Rattle.std.specs.Cmp.Lexicographic.{slice_cmp};
ghost use Rattle.std.specs.Ordering.{nat_cmp};
ghost use Rattle.conda_path.specs.Paths as paths;
ghost use Rattle.conda_path.specs.Paths.{IsInside};
ghost use Rattle.conda_goods.specs.Claims.{claimed, held_by_other, other_has};
ghost use Rattle.conda_goods.specs.Claims.{NamesFirst, first_above, is_first_yet, is_least_yet};
ghost use Rattle.conda_goods.specs.Claims.{least_meeting};
ghost use Rattle.conda_goods.specs.Conflicts.{Holder, NamesFirstConflict, NoConflict, shown};

use crate::claims::{Claim, all_claims};
use crate::error::GoodsErr;
use crate::held::{Held, differ, is_other, joined};
use crate::owned::Owned;
use crate::owner::Owner;
use conda_base::{Copied, cut_last};
use conda_path::RelPath;
use std::alloc::{AllocError, Global};
use std::collections::BTreeMap;

/// Who has each path.
fn holders<'a>(
    alloc: Global,
    claims: &[Claim<'a>],
) -> Result<BTreeMap<&'a str, Held<'a>>, AllocError>
    ensures { IfOk result (λ at. (path : List ℕ) (holder : Holder) →
        held_by_other holder (get_by (λ k. slice_cmp nat_cmp path k.now) at)
        ≡ other_has (map claimed claims.now) holder path) }
{
    let mut at = BTreeMap::new(alloc);
    for claim in claims {
        let path = claim.path.as_str();
        let held = joined(at.get(path).copied(), claim.holder);
        let _ = at.insert(path, held)?;
    }
    Ok(at)
}

/// Whether another holder has the path, or a path that it lies below.
fn meets_other<'a>(
    at: &BTreeMap<&'a str, Held<'a>>,
    path: &'a str,
    holder: Option<&'a Owner>,
) -> bool
    ensures { (result ≡ true) ↔ ((folder : List ℕ) × IsInside path.now folder
        × (held_by_other (option_copied holder.entry)
        (get_by (λ k. slice_cmp nat_cmp folder k.now) at.now) ≡ true)) }
{
    if is_other(at.get(path).copied(), holder) {
        return true;
    }
    match cut_last(path, b'/') {
        Some((folder, _)) => meets_other(at, folder, holder),
        None => false,
    }
}

/// Whether the path comes before another one, if there is one.
fn is_less(path: &RelPath, other: Option<&RelPath>) -> bool
    ensures { result ≡ is_least_yet path.now (option_copied other.entry) }
{
    match other {
        Some(other) => path < other,
        None => true,
    }
}

/// The least path of a claim that meets one of another holder.
fn least_conflict<'a>(
    alloc: Global,
    claims: &[Claim<'a>],
) -> Result<Option<&'a RelPath>, AllocError>
    ensures { IfOk result (λ least. option_copied least
        ≡ least_meeting (map claimed claims.now) (map claimed claims.now) None) }
{
    let at = holders(alloc, claims)?;
    let mut least = None;
    for claim in claims {
        if is_less(claim.path, least) && meets_other(&at, claim.path.as_str(), claim.holder) {
            least = Some(claim.path);
        }
    }
    Ok(least)
}

/// Whether the path is the other one, or lies below it.
fn is_inside(path: &RelPath, other: &RelPath) -> bool
    ensures { result ≡ paths.is_inside path.now other.now }
{
    match path
        .as_str()
        .as_bytes()
        .strip_prefix(other.as_str().as_bytes())
    {
        Some([]) => true,
        Some([byte, ..]) => *byte == b'/',
        None => false,
    }
}

/// Whether the owner comes before another one, if there is one.
fn is_earlier(owner: &Owner, other: Option<&Owner>) -> bool
    ensures { result ≡ is_first_yet owner.now (option_copied other.entry) }
{
    match other {
        Some(other) => owner < other,
        None => true,
    }
}

/// The first owner of parts, but for one holder, that has the path or one that it lies below.
fn first_owner<'a>(
    claims: &[Claim<'a>],
    path: &RelPath,
    except: Option<&Owner>,
) -> Option<&'a Owner>
    ensures { option_copied result
        ≡ first_above path.now (option_copied except.entry) (map claimed claims.now) None }
{
    let mut first = None;
    for claim in claims {
        let Some(owner) = claim.holder else {
            continue;
        };
        if is_earlier(owner, first) && differ(Some(owner), except) && is_inside(path, claim.path) {
            first = Some(owner);
        }
    }
    first
}

/// The owner that an answer shows for a holder.
fn show(holder: Option<&Owner>) -> Result<Owner, AllocError>
    ensures { IfOk result (λ owner. owner ≡ shown (option_copied holder.entry)) }
{
    match holder {
        Some(owner) => owner.copy(),
        None => Ok(Owner::Other),
    }
}

/// The error that names the conflict at the least path.
fn clobber_at(claims: &[Claim<'_>], path: &RelPath) -> Result<GoodsErr, AllocError>
    ensures { IfOk result (NamesFirst (map claimed claims.now) path.now) }
{
    let first = first_owner(claims, path, None);
    let second = first_owner(claims, path, first);
    Ok(GoodsErr::Clobber {
        path: path.copy()?,
        first: show(first)?,
        second: show(second)?,
    })
}

/// The error that names the first conflict, if there is one.
pub fn first_conflict(
    alloc: Global,
    parts: &[Owned],
    others: &[RelPath],
) -> Result<Option<GoodsErr>, AllocError>
    ensures { IfOk result (λ found. MatchOption found (NoConflict parts.now others.now)
        (NamesFirstConflict parts.now others.now)) }
{
    let claims = all_claims(alloc, parts, others)?;
    match least_conflict(alloc, claims.as_slice())? {
        Some(path) => Ok(Some(clobber_at(claims.as_slice(), path)?)),
        None => Ok(None),
    }
}
