ghost use Rattle.std.specs.Prelude.{◌≡◌};

use crate::setting::{listing, make_things};
use conda_device::{Host, Lane};
use conda_path::{Node, Prefix};
use conda_real::{RealHost, RealLane};
use rows_plan::{
    cached, node_of, path_of, shown_abilities, shown_node, shown_paths, shown_seen, word,
};
use std::alloc::{AllocError, Global};
use std::fs;
use std::rt::Files;

/// Runs calls, parted by `;`, on the only lane of the prefix `/e`, for which a folder stands with
/// these things in it: those below `e/` are the prefix's, those below `pkgs/` the cache's. The
/// answers, the count of faults, and all that lies in the folder afterwards.
pub fn answer<R: Files + AllocGlobal + Clone + Send + Drop>(
    alloc: Global,
    rt: &R,
    top: &str,
    things: &str,
    calls: &str,
) -> Result<Option<String>, AllocError> {
    let _ = fs::remove_dir_all(rt, top);
    if make_things(alloc, rt, top, things).is_err() {
        return Ok(None);
    }
    let Ok(prefix) = Prefix::read(alloc, "/e") else {
        return Ok(None);
    };
    let pkgs = format!(in alloc; "{top}/pkgs")?;
    let mut host = RealHost::make(rt.clone()?, alloc, top)?;
    let Ok(mut lanes) = host.lanes(alloc, &prefix, pkgs.as_str(), 1) else {
        return Ok(None);
    };
    let made = run_all(alloc, &mut lanes[0], calls)?;
    let Ok(left) = listing(alloc, rt, top) else {
        return Ok(None);
    };
    let _ = fs::remove_dir_all(rt, top);
    let made = made.as_str();
    let left = left.as_str();
    Ok(Some(format!(in alloc; "{made}{left}")?))
}

fn put<R: Files + AllocGlobal + Clone + Send + Drop>(
    alloc: Global,
    lane: &mut RealLane<R>,
    verb: &str,
    rest: &str,
) -> Result<&'static str, AllocError>
    requires number { lane.old.share.number ≡ 0 }
    requires lanes { lane.old.share.lanes ≡ 1 }
    ensures number { lane.new.share.number ≡ 0 }
    ensures lanes { lane.new.share.lanes ≡ 1 }
{
    let Some((path, node)) = node_of(alloc, rest)? else {
        return Ok("?");
    };
    if verb == "put" {
        return Ok(word(lane.put(&path, &node)));
    }
    if verb == "replace" {
        return Ok(word(lane.replace(&path, &node)));
    }
    let Some(from) = cached(alloc, &path)? else {
        return Ok("?");
    };
    Ok(word(lane.put_hard(&path, &from, &node)))
}

fn shift<R: Files + AllocGlobal + Clone + Send + Drop>(
    alloc: Global,
    lane: &mut RealLane<R>,
    rest: &str,
) -> &'static str
    requires number { lane.old.share.number ≡ 0 }
    requires lanes { lane.old.share.lanes ≡ 1 }
    ensures number { lane.new.share.number ≡ 0 }
    ensures lanes { lane.new.share.lanes ≡ 1 }
{
    let Some((from, to)) = rest.split_once(' ') else {
        return "?";
    };
    match (path_of(alloc, from), path_of(alloc, to)) {
        (Some(from), Some(to)) => word(lane.shift(&from, &to)),
        _ => "?",
    }
}

fn read<R: Files + AllocGlobal + Clone + Send + Drop>(
    alloc: Global,
    lane: &mut RealLane<R>,
    rest: &str,
) -> Result<String, AllocError>
    requires number { lane.old.share.number ≡ 0 }
    requires lanes { lane.old.share.lanes ≡ 1 }
    ensures number { lane.new.share.number ≡ 0 }
    ensures lanes { lane.new.share.lanes ≡ 1 }
{
    let Some((path, max)) = rest.split_once(' ') else {
        return String::from_str(alloc, "?");
    };
    match (path_of(alloc, path), max.parse::<u64>()) {
        (Some(path), Ok(max)) => shown_node(alloc, lane.read(alloc, &path, max)),
        _ => String::from_str(alloc, "?"),
    }
}

/// Makes one call of the lane 0 of 1.
fn answer_of<R: Files + AllocGlobal + Clone + Send + Drop>(
    alloc: Global,
    lane: &mut RealLane<R>,
    call: &str,
) -> Result<String, AllocError>
    requires number { lane.old.share.number ≡ 0 }
    requires lanes { lane.old.share.lanes ≡ 1 }
    ensures number { lane.new.share.number ≡ 0 }
    ensures lanes { lane.new.share.lanes ≡ 1 }
{
    let (verb, rest) = match call.split_once(' ') {
        Some(cut) => cut,
        None => (call, ""),
    };
    let path = path_of(alloc, rest);
    let answer = match (verb, path) {
        ("abilities", _) => return shown_abilities(alloc, lane.abilities()),
        ("paths", _) => return shown_paths(alloc, lane.paths(alloc)),
        ("count", _) => return counted(alloc, lane),
        ("size", Some(path)) => return sized(alloc, lane.read(alloc, &path, u64::MAX)),
        ("look", Some(path)) => return shown_seen(alloc, lane.look(&path)),
        ("erase", Some(path)) => word(lane.erase(&path)),
        ("read", _) => return read(alloc, lane, rest),
        ("shift", _) => shift(alloc, lane, rest),
        ("many", _) => many(alloc, lane, rest)?,
        ("clear", _) => clear(alloc, lane),
        _ => put(alloc, lane, verb, rest)?,
    };
    String::from_str(alloc, answer)
}

/// How many bytes a node has.
fn sized<E: Drop>(alloc: Global, read: Result<Option<Node>, E>) -> Result<String, AllocError> {
    match read {
        Ok(Some(node)) => {
            let size = node.bytes.as_slice().len();
            format!(in alloc; "{size}")
        }
        Ok(None) => String::from_str(alloc, "none"),
        Err(_) => String::from_str(alloc, "failed"),
    }
}

/// Erases all paths.
fn clear<R: Files + AllocGlobal + Clone + Send + Drop>(
    alloc: Global,
    lane: &mut RealLane<R>,
) -> &'static str
    requires number { lane.old.share.number ≡ 0 }
    requires lanes { lane.old.share.lanes ≡ 1 }
    ensures number { lane.new.share.number ≡ 0 }
    ensures lanes { lane.new.share.lanes ≡ 1 }
{
    let Ok(paths) = lane.paths(alloc) else {
        return "failed";
    };
    for path in paths.iter() {
        if lane.erase(path).is_err() {
            return "failed";
        }
    }
    "ok"
}

/// How many paths there are.
fn counted<R: Files + AllocGlobal + Clone + Send + Drop>(
    alloc: Global,
    lane: &mut RealLane<R>,
) -> Result<String, AllocError>
    requires number { lane.old.share.number ≡ 0 }
    requires lanes { lane.old.share.lanes ≡ 1 }
    ensures number { lane.new.share.number ≡ 0 }
    ensures lanes { lane.new.share.lanes ≡ 1 }
{
    match lane.paths(alloc) {
        Ok(paths) => {
            let count = paths.len();
            format!(in alloc; "{count}")
        }
        Err(_) => String::from_str(alloc, "failed"),
    }
}

/// Puts so many files into folders of a hundred, each with its number in it.
fn many<R: Files + AllocGlobal + Clone + Send + Drop>(
    alloc: Global,
    lane: &mut RealLane<R>,
    rest: &str,
) -> Result<&'static str, AllocError>
    requires number { lane.old.share.number ≡ 0 }
    requires lanes { lane.old.share.lanes ≡ 1 }
    ensures number { lane.new.share.number ≡ 0 }
    ensures lanes { lane.new.share.lanes ≡ 1 }
{
    let Ok(count) = rest.parse::<u32>() else {
        return Ok("?");
    };
    for i in 0..count {
        let folder = i / 100;
        let text = format!(in alloc; "d{folder}/f{i} file {i}")?;
        if put(alloc, lane, "put", text.as_str())? != "ok" {
            return Ok("failed");
        }
    }
    Ok("ok")
}

fn run_all<R: Files + AllocGlobal + Clone + Send + Drop>(
    alloc: Global,
    lane: &mut RealLane<R>,
    calls: &str,
) -> Result<String, AllocError>
    requires number { lane.old.share.number ≡ 0 }
    requires lanes { lane.old.share.lanes ≡ 1 }
{
    let mut made = String::new(alloc);
    for call in calls.split(';') {
        let answer = answer_of(alloc, lane, call.trim())?;
        made.push_str(answer.as_str())?;
        made.push_str("; ")?;
    }
    let faults = lane.faults();
    let made = made.as_str();
    format!(in alloc; "{made}{faults} faults; ")
}
