use crate::solution::is_solution;
use conda_base::{Copied, Text};
use conda_encode::{AskKind, Asked};
use conda_record::{NamePool, PkgRecord};
use conda_spec::Spec;
use std::alloc::{AllocError, Global};
use std::collections::BTreeMap;

/// How many records a request has at most whose sets are all tried.
const FEW: usize = 12;

/// Which of the records are members.
type Members = Vec<bool>;

/// The choice as it is defined, by trying all sets of records, or None where there is no solution.
/// Of more than a few records nothing is tried, and the answer has no value.
pub fn plain_choice(
    alloc: Global,
    pools: &[NamePool],
    asked: &[Asked],
    installed: &[PkgRecord],
) -> Result<Option<Option<Vec<PkgRecord>>>, AllocError> {
    let mut recs = Vec::new(alloc);
    for pool in pools {
        for pkg in pool.recs.as_slice() {
            recs.push(pkg.copy()?)?;
        }
    }
    if recs.len() > FEW {
        return Ok(None);
    }
    let recs = recs.as_slice();
    let solutions = solutions(alloc, recs, asked)?;
    if solutions.is_empty() {
        return Ok(Some(None));
    }
    let decided = decided(alloc, recs, asked, installed, solutions.as_slice())?;
    Ok(Some(Some(by_name(alloc, recs, decided.as_slice())?)))
}

/// All sets that are a solution.
fn solutions(
    alloc: Global,
    recs: &[PkgRecord],
    asked: &[Asked],
) -> Result<Vec<Members>, AllocError> {
    let mut found = Vec::new(alloc);
    let mut count = 1_u32;
    for _ in recs {
        count = count.saturating_mul(2);
    }
    for number in 0..count {
        let mut members = Vec::new(alloc);
        let mut set = Vec::new(alloc);
        let mut rest = number;
        for pkg in recs {
            let is_member = rest % 2 == 1;
            if is_member {
                set.push(pkg.copy()?)?;
            }
            members.push(is_member)?;
            rest /= 2;
        }
        if is_solution(alloc, set.as_slice(), asked)? {
            found.push(members)?;
        }
    }
    Ok(found)
}

/// The places of the records that are decided, in the order in which they are.
fn decided(
    alloc: Global,
    recs: &[PkgRecord],
    asked: &[Asked],
    installed: &[PkgRecord],
    solutions: &[Members],
) -> Result<Vec<usize>, AllocError> {
    let mut decided = Vec::new(alloc);
    for _ in 0..FEW {
        let Some(name) = next_name(recs, asked, decided.as_slice()) else {
            break;
        };
        if let Some(at) = picked(recs, asked, installed, solutions, decided.as_slice(), name) {
            decided.push(at)?;
        }
    }
    Ok(decided)
}

fn has_name(pkg: &PkgRecord, name: &str) -> bool {
    pkg.name.as_str().eq_ignore_ascii_case(name)
}

fn is_decided(recs: &[PkgRecord], decided: &[usize], name: &str) -> bool {
    decided.iter().any(|at| match recs.get(*at) {
        Some(pkg) => has_name(pkg, name),
        None => false,
    })
}

/// The first name that comes up and isn't decided.
fn next_name<'a>(recs: &'a [PkgRecord], asked: &'a [Asked], decided: &[usize]) -> Option<&'a str> {
    for item in asked {
        let name = item.spec.name();
        if matches!(item.kind, AskKind::Wanted) && !is_decided(recs, decided, name) {
            return Some(name);
        }
    }
    for at in decided {
        if let Some(pkg) = recs.get(*at) {
            if let Some(name) = next_need(recs, pkg.depends.as_slice(), decided) {
                return Some(name);
            }
        }
    }
    None
}

fn next_need<'a>(recs: &[PkgRecord], needs: &'a [Spec], decided: &[usize]) -> Option<&'a str> {
    for need in needs {
        if !is_decided(recs, decided, need.name()) {
            return Some(need.name());
        }
    }
    None
}

/// The place of the first record of the name that some solution has together with all that is
/// decided.
fn picked(
    recs: &[PkgRecord],
    asked: &[Asked],
    installed: &[PkgRecord],
    solutions: &[Members],
    decided: &[usize],
    name: &str,
) -> Option<usize> {
    let is_fresh = asked.iter().any(|item| matches!(item.kind, AskKind::Wanted)
        && item.fresh
        && item.spec.name() == name);
    let own = recs.iter().position(|pkg| has_name(pkg, name)
        && installed.iter().any(|other| is_same(pkg, other)));
    if let Some(at) = own {
        if !is_fresh && stands(solutions, decided, at) {
            return Some(at);
        }
    }
    for (at, pkg) in recs.iter().enumerate() {
        if has_name(pkg, name) && stands(solutions, decided, at) {
            return Some(at);
        }
    }
    None
}

fn is_same(pkg: &PkgRecord, other: &PkgRecord) -> bool {
    pkg.dist == other.dist && pkg.channel == other.channel && pkg.subdir == other.subdir
}

fn is_member(members: &Members, at: usize) -> bool {
    members.get(at).copied().unwrap_or(false)
}

fn stands(solutions: &[Members], decided: &[usize], at: usize) -> bool {
    solutions.iter().any(|members| is_member(members, at)
        && decided.iter().all(|d| is_member(members, *d)))
}

/// The records at these places, by name.
fn by_name(
    alloc: Global,
    recs: &[PkgRecord],
    places: &[usize],
) -> Result<Vec<PkgRecord>, AllocError> {
    let mut named = BTreeMap::new(alloc);
    for at in places {
        if let Some(pkg) = recs.get(*at) {
            let mut name = String::from_str(alloc, pkg.name.as_str())?;
            name.make_ascii_lowercase();
            named.insert(Text::from_string(name), pkg.copy()?)?;
        }
    }
    let mut set = Vec::new(alloc);
    for (_, pkg) in named {
        set.push(pkg)?;
    }
    Ok(set)
}
