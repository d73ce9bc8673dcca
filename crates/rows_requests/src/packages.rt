use conda_base::{Rows, Text};
use conda_encode::{AskKind, Asked};
use conda_index::Virtual;
use conda_path::{Dist, DistErr};
use conda_record::{NamePool, Noarch, PkgRecord, RecordField};
use conda_repodata::{Aside, Repodata};
use conda_spec::{Spec, SpecErr};
use conda_version::{Version, VersionErr};
use std::alloc::{AllocError, Global};

// Records of a row stand between `;`: `channel/subdir/dist`, and behind it, each after `&`, `needs
// SPEC`, `bars SPEC`, `number N` or `time N`. `aside` in place of a dist is an entry that is set
// aside. Neighbours of one channel and subdir are one part. Virtual packages stand between `;` as
// `name version build`, and asked specifications likewise, those that are pinned behind `pinned `
// and those that are fresh behind `fresh `.
// Pools stand between `+`, each as its name, `=` and its records.

/// The specification of a text, or None where it is none.
pub fn spec_of(alloc: Global, text: &str) -> Result<Option<Spec>, AllocError> {
    match Spec::read(alloc, text) {
        Ok(spec) => Ok(Some(spec)),
        Err(SpecErr::Memory) => Err(AllocError),
        Err(SpecErr::BadSpec { .. }) => Ok(None),
    }
}

fn version_of(alloc: Global, text: &str) -> Result<Option<Version>, AllocError> {
    match Version::read(alloc, text) {
        Ok(version) => Ok(Some(version)),
        Err(VersionErr::Memory) => Err(AllocError),
        Err(VersionErr::BadVersion { .. }) => Ok(None),
    }
}

fn dist_of(alloc: Global, text: &str) -> Result<Option<Dist>, AllocError> {
    match Dist::read(alloc, text) {
        Ok(dist) => Ok(Some(dist)),
        Err(DistErr::Memory) => Err(AllocError),
        Err(DistErr::BadDist) => Ok(None),
    }
}

/// Name, version and build of a dist's text.
fn parts_of_dist(text: &str) -> Option<(&str, &str, &str)> {
    let (front, build) = text.rsplit_once('-')?;
    let (name, version) = front.rsplit_once('-')?;
    Some((name, version, build))
}

/// A record without entries.
fn bare_record(
    alloc: Global,
    channel: &str,
    subdir: &str,
    dist: &str,
) -> Result<Option<PkgRecord>, AllocError> {
    let Some((name, version, build)) = parts_of_dist(dist) else {
        return Ok(None);
    };
    let Some(version) = version_of(alloc, version)? else {
        return Ok(None);
    };
    let Some(dist) = dist_of(alloc, dist)? else {
        return Ok(None);
    };
    Ok(Some(PkgRecord {
        name: Text::from_str(alloc, name)?,
        version,
        build: Text::from_str(alloc, build)?,
        build_number: 0,
        channel: Text::from_str(alloc, channel)?,
        subdir: Text::from_str(alloc, subdir)?,
        dist,
        depends: Rows::new(alloc),
        constrains: Rows::new(alloc),
        noarch: Noarch::No,
        timestamp: 0,
    }))
}

/// Adds what a word behind the key says; whether it says something.
fn add_word(alloc: Global, pkg: &mut PkgRecord, word: &str) -> Result<bool, AllocError> {
    let Some((what, value)) = word.split_once(' ') else {
        return Ok(false);
    };
    match (what, spec_of(alloc, value)?, value.parse::<u64>()) {
        ("needs", Some(spec), _) => pkg.depends.push(spec)?,
        ("bars", Some(spec), _) => pkg.constrains.push(spec)?,
        ("number", _, Ok(number)) => pkg.build_number = number,
        ("time", _, Ok(time)) => pkg.timestamp = time,
        _ => return Ok(false),
    }
    Ok(true)
}

/// What stands in a row for an entry of a channel.
fn add_entry(alloc: Global, parts: &mut Vec<Repodata>, text: &str) -> Result<bool, AllocError> {
    let (key, words) = match text.split_once('&') {
        Some((key, words)) => (key.trim(), words),
        None => (text.trim(), ""),
    };
    let Some((channel, rest)) = key.split_once('/') else {
        return Ok(false);
    };
    let Some((subdir, dist)) = rest.split_once('/') else {
        return Ok(false);
    };
    if dist == "aside" {
        return Ok(set_aside(alloc, parts)?);
    }
    let Some(mut pkg) = bare_record(alloc, channel, subdir, dist)? else {
        return Ok(false);
    };
    for word in words.split('&') {
        let word = word.trim();
        if !word.is_empty() && !add_word(alloc, &mut pkg, word)? {
            return Ok(false);
        }
    }
    add_record(alloc, parts, pkg)?;
    Ok(true)
}

/// Sets an entry aside in the last part.
fn set_aside(alloc: Global, parts: &mut Vec<Repodata>) -> Result<bool, AllocError> {
    let mut aside = Rows::new(alloc);
    aside.push(Aside {
        file: Text::from_str(alloc, "bad.conda")?,
        field: RecordField::Name,
    })?;
    parts.push(Repodata {
        recs: Rows::new(alloc),
        aside,
    })?;
    Ok(true)
}

/// Whether the record is of the channel and subdir of a part.
fn is_of(part: &Repodata, pkg: &PkgRecord) -> bool {
    match part.recs.as_slice() {
        [first, ..] => first.channel == pkg.channel && first.subdir == pkg.subdir,
        [] => false,
    }
}

/// Adds a record to the last part, or to a new one where that is another channel's or subdir's.
fn add_record(alloc: Global, parts: &mut Vec<Repodata>, pkg: PkgRecord) -> Result<(), AllocError> {
    if let Some(mut part) = parts.pop() {
        if is_of(&part, &pkg) {
            part.recs.push(pkg)?;
            parts.push(part)?;
            return Ok(());
        }
        parts.push(part)?;
    }
    let mut recs = Rows::new(alloc);
    recs.push(pkg)?;
    parts.push(Repodata {
        recs,
        aside: Rows::new(alloc),
    })?;
    Ok(())
}

/// The parts that a row gives.
pub fn parts_of(alloc: Global, text: &str) -> Result<Option<Vec<Repodata>>, AllocError> {
    let mut parts = Vec::new(alloc);
    for entry in text.split(';') {
        if !entry.trim().is_empty() && !add_entry(alloc, &mut parts, entry)? {
            return Ok(None);
        }
    }
    Ok(Some(parts))
}

/// The records that a row gives.
pub fn records_of(alloc: Global, text: &str) -> Result<Option<Vec<PkgRecord>>, AllocError> {
    let Some(parts) = parts_of(alloc, text)? else {
        return Ok(None);
    };
    let mut all = Vec::new(alloc);
    for part in parts {
        let Repodata { recs, .. } = part;
        for pkg in recs.into_vec() {
            all.push(pkg)?;
        }
    }
    Ok(Some(all))
}

/// The virtual packages that a row gives.
pub fn virtuals_of(alloc: Global, text: &str) -> Result<Option<Vec<Virtual>>, AllocError> {
    let mut virtuals = Vec::new(alloc);
    for one in text.split(';') {
        if one.trim().is_empty() {
            continue;
        }
        let mut words = one.split_whitespace();
        let (Some(name), Some(version), Some(build)) = (words.next(), words.next(), words.next())
        else {
            return Ok(None);
        };
        let Some(version) = version_of(alloc, version)? else {
            return Ok(None);
        };
        virtuals.push(Virtual {
            name: Text::from_str(alloc, name)?,
            version,
            build: Text::from_str(alloc, build)?,
        })?;
    }
    Ok(Some(virtuals))
}

/// Whether a text that is asked for is pinned, whether it is fresh, and the specification's text.
fn kind_of(text: &str) -> (AskKind, bool, &str) {
    if let Some(spec) = text.strip_prefix("pinned ") {
        return (AskKind::Pinned, false, spec);
    }
    match text.strip_prefix("fresh ") {
        Some(spec) => (AskKind::Wanted, true, spec),
        None => (AskKind::Wanted, false, text),
    }
}

/// The items that a row gives.
pub fn asked_of(alloc: Global, text: &str) -> Result<Option<Vec<Asked>>, AllocError> {
    let mut asked = Vec::new(alloc);
    for one in text.split(';') {
        let one = one.trim();
        if one.is_empty() {
            continue;
        }
        let (kind, fresh, text) = kind_of(one);
        let Some(spec) = spec_of(alloc, text)? else {
            return Ok(None);
        };
        asked.push(Asked { spec, fresh, kind })?;
    }
    Ok(Some(asked))
}

/// The pool that a row gives by a name and records.
fn pool_of(alloc: Global, text: &str) -> Result<Option<NamePool>, AllocError> {
    let Some((name, records)) = text.split_once('=') else {
        return Ok(None);
    };
    let Some(parts) = parts_of(alloc, records)? else {
        return Ok(None);
    };
    let mut recs = Rows::new(alloc);
    for part in parts {
        let Repodata { recs: more, .. } = part;
        for pkg in more.into_vec() {
            recs.push(pkg)?;
        }
    }
    let name = Text::from_str(alloc, name.trim())?;
    Ok(Some(NamePool { name, recs }))
}

/// The pools that a row gives.
pub fn pools_of(alloc: Global, text: &str) -> Result<Option<Vec<NamePool>>, AllocError> {
    let mut pools = Vec::new(alloc);
    for one in text.split('+') {
        if one.trim().is_empty() {
            continue;
        }
        match pool_of(alloc, one)? {
            Some(pool) => pools.push(pool)?,
            None => return Ok(None),
        }
    }
    Ok(Some(pools))
}
