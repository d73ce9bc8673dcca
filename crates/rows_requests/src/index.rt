use crate::packages::{asked_of, parts_of, spec_of, virtuals_of};
use conda_base::Text;
use conda_encode::Asked;
use conda_index::{Index, IndexErr, can_index};
use conda_record::{NamePool, PkgRecord};
use conda_spec::Spec;
use std::alloc::{AllocError, Global};
use std::thread::Threads;

/// The rows of conda_index.
pub fn answer<R: Threads + Sync>(
    rt: &R,
    alloc: Global,
    call: &str,
    arguments: &[Text],
) -> Result<Option<String>, AllocError> {
    let [records, virtuals, last] = arguments else {
        return Ok(None);
    };
    let Some(index) = index_of(rt, alloc, records.as_str(), virtuals.as_str())? else {
        return Ok(None);
    };
    match call {
        "index.pool" => Ok(Some(shown(alloc, index.pool(last.as_str()))?)),
        "index.pools" => match asked_of(alloc, last.as_str())? {
            Some(asked) => Ok(Some(pools(alloc, &index, asked.as_slice())?)),
            None => Ok(None),
        },
        "index.search" => match spec_of(alloc, last.as_str())? {
            Some(spec) => Ok(Some(search(rt, alloc, &index, &spec)?)),
            None => Ok(None),
        },
        _ => Ok(None),
    }
}

/// The index of the records and virtual packages of a row.
pub fn index_of<R: Threads + Sync>(
    rt: &R,
    alloc: Global,
    records: &str,
    virtuals: &str,
) -> Result<Option<Index>, AllocError> {
    let Some(parts) = parts_of(alloc, records)? else {
        return Ok(None);
    };
    let Some(virtuals) = virtuals_of(alloc, virtuals)? else {
        return Ok(None);
    };
    if !can_index(alloc, parts.as_slice(), virtuals.as_slice())? {
        return Ok(None);
    }
    match Index::make(rt, alloc, parts, virtuals) {
        Ok(index) => Ok(Some(index)),
        Err(_) => Err(AllocError),
    }
}

/// A record as `channel/subdir/dist`.
pub fn shown_record(alloc: Global, pkg: &PkgRecord) -> Result<String, AllocError> {
    let (channel, subdir, dist) = (pkg.channel.as_str(), pkg.subdir.as_str(), pkg.dist.text());
    format!(in alloc; "{channel}/{subdir}/{dist}")
}

/// The records, or `none` where there is none.
pub fn shown(alloc: Global, records: &[PkgRecord]) -> Result<String, AllocError> {
    if records.is_empty() {
        return String::from_str(alloc, "none");
    }
    let mut text = String::new(alloc);
    for pkg in records {
        if !text.is_empty() {
            text.push_str(" ")?;
        }
        let one = shown_record(alloc, pkg)?;
        text.push_str(one.as_str())?;
    }
    Ok(text)
}

/// The names that are reached, each with its pool.
fn pools(alloc: Global, index: &Index, asked: &[Asked]) -> Result<String, AllocError> {
    match index.pools(alloc, asked) {
        Ok(pools) => shown_pools(alloc, pools.as_slice()),
        Err(_) => Err(AllocError),
    }
}

fn shown_pools(alloc: Global, pools: &[NamePool]) -> Result<String, AllocError> {
    if pools.is_empty() {
        return String::from_str(alloc, "no name");
    }
    let mut text = String::new(alloc);
    for pool in pools {
        if !text.is_empty() {
            text.push_str("; ")?;
        }
        let name = pool.name.as_str();
        let recs = shown(alloc, pool.recs.as_slice())?;
        let one = format!(in alloc; "{name} = {recs}")?;
        text.push_str(one.as_str())?;
    }
    Ok(text)
}

/// The records that a specification names.
fn search<R: Threads + Sync>(
    rt: &R,
    alloc: Global,
    index: &Index,
    spec: &Spec,
) -> Result<String, AllocError> {
    match index.search(rt, alloc, spec) {
        Ok(found) => shown(alloc, found.as_slice()),
        Err(IndexErr::NoMatch) => String::from_str(alloc, "no match"),
        Err(IndexErr::Memory) => Err(AllocError),
    }
}
