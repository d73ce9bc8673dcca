use conda_encode::{AskKind, Asked, names_record};
use conda_record::PkgRecord;
use conda_spec::Spec;
use std::alloc::{AllocError, Global};

/// Whether members that were taken from their names' pools are a solution, by the definition: it
/// knows no clause.
pub fn is_solution(alloc: Global, set: &[PkgRecord], asked: &[Asked]) -> Result<bool, AllocError> {
    if !no_name_twice(set) || !asked.iter().all(|item| is_answered(set, item)) {
        return Ok(false);
    }
    if !set.iter().all(|pkg| is_served(set, pkg) && keeps(set, pkg)) {
        return Ok(false);
    }
    are_reached(alloc, set, asked)
}

/// Whether the names are one in lower case.
fn same_name(first: &str, second: &str) -> bool {
    first.eq_ignore_ascii_case(second)
}

fn no_name_twice(set: &[PkgRecord]) -> bool {
    set.iter().all(|pkg| times_named(set, pkg) == 1)
}

/// How many members have the record's name.
fn times_named(set: &[PkgRecord], pkg: &PkgRecord) -> usize {
    set.iter()
        .filter(|other| same_name(other.name.as_str(), pkg.name.as_str()))
        .count()
}

/// Whether a member is one that the specification names.
fn is_met(set: &[PkgRecord], spec: &Spec) -> bool {
    set.iter().any(|pkg| names_record(spec, pkg))
}

/// Whether the record, if it is of the specification's name, is one that it names.
fn is_bound(spec: &Spec, pkg: &PkgRecord) -> bool {
    !same_name(spec.name(), pkg.name.as_str()) || names_record(spec, pkg)
}

/// Whether a wanted item is met, and a pinned one binds each member of its name.
fn is_answered(set: &[PkgRecord], item: &Asked) -> bool {
    match item.kind {
        AskKind::Wanted => is_met(set, &item.spec),
        AskKind::Pinned => set.iter().all(|pkg| is_bound(&item.spec, pkg)),
    }
}

/// Whether each dependency of the member is met.
fn is_served(set: &[PkgRecord], pkg: &PkgRecord) -> bool {
    pkg.depends.as_slice().iter().all(|spec| is_met(set, spec))
}

/// Whether the member's `constrains` entries bind all members of other names.
fn keeps(set: &[PkgRecord], pkg: &PkgRecord) -> bool {
    set.iter().all(|other| allows(pkg, other))
}

fn allows(pkg: &PkgRecord, other: &PkgRecord) -> bool {
    same_name(pkg.name.as_str(), other.name.as_str())
        || pkg
            .constrains
            .as_slice()
            .iter()
            .all(|spec| is_bound(spec, other))
}

/// Whether a wanted item names the record.
fn is_wanted(asked: &[Asked], pkg: &PkgRecord) -> bool {
    asked.iter().any(|item| matches!(item.kind, AskKind::Wanted) && names_record(&item.spec, pkg))
}

/// Whether a dependency of the member names the record.
fn needs(pkg: &PkgRecord, other: &PkgRecord) -> bool {
    pkg.depends
        .as_slice()
        .iter()
        .any(|spec| names_record(spec, other))
}

/// Whether each member is one that a wanted item names, or that a dependency of a member names
/// which is reached itself.
fn are_reached(alloc: Global, set: &[PkgRecord], asked: &[Asked]) -> Result<bool, AllocError> {
    let mut marks = Vec::new(alloc);
    for pkg in set {
        marks.push(is_wanted(asked, pkg))?;
    }
    for _ in set {
        marks = one_step_on(alloc, set, marks.as_slice())?;
    }
    Ok(marks.iter().all(|mark| *mark))
}

/// The marks, and those of what the marked members need.
fn one_step_on(alloc: Global, set: &[PkgRecord], marks: &[bool]) -> Result<Vec<bool>, AllocError> {
    let mut more = Vec::new(alloc);
    for (pkg, mark) in set.iter().zip(marks) {
        more.push(*mark || is_needed(set, marks, pkg))?;
    }
    Ok(more)
}

/// Whether a marked member needs the record.
fn is_needed(set: &[PkgRecord], marks: &[bool], pkg: &PkgRecord) -> bool {
    set.iter()
        .zip(marks)
        .any(|(other, mark)| *mark && needs(other, pkg))
}
