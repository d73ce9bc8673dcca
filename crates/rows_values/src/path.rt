use conda_base::{Copied, Text};
use conda_path::{Dist, DistErr, PathErr, Prefix, RelPath, SlotKey, cut_ending, lane_of};
use std::alloc::{AllocError, Global};
use std::cmp::Ordering;

/// The rows of conda_path.
pub fn answer(alloc: Global, call: &str, arguments: &[Text]) -> Result<Option<String>, AllocError> {
    match (call, arguments) {
        ("path", [text]) => path(alloc, text.as_str()),
        ("prefix", [text]) => prefix(alloc, text.as_str()),
        ("inside", [text, other]) => inside(alloc, text.as_str(), other.as_str()),
        ("dist", [text]) => dist(alloc, text.as_str()),
        ("ending", [text]) => ending(alloc, text.as_str()),
        ("lane", [text]) => lane(alloc, text.as_str()),
        ("key.order", [left, right]) => key_order(alloc, left.as_str(), right.as_str()),
        _ => Ok(None),
    }
}

fn word(alloc: Global, word: &str) -> Result<Option<String>, AllocError> {
    Ok(Some(String::from_str(alloc, word)?))
}

/// The place of a fault.
fn fault(alloc: Global, err: PathErr) -> Result<Option<String>, AllocError> {
    match err {
        PathErr::BadPath { at } => Ok(Some(format!(in alloc; "bad at {at}")?)),
        PathErr::Memory => Err(AllocError),
    }
}

fn path(alloc: Global, text: &str) -> Result<Option<String>, AllocError> {
    match RelPath::read(alloc, text) {
        Ok(path) if path.copy()?.as_str() == text => word(alloc, "read"),
        Ok(_) => word(alloc, "changed"),
        Err(err) => fault(alloc, err),
    }
}

fn prefix(alloc: Global, text: &str) -> Result<Option<String>, AllocError> {
    match Prefix::read(alloc, text) {
        Ok(prefix) if prefix.copy()?.as_str() == text => word(alloc, "read"),
        Ok(_) => word(alloc, "changed"),
        Err(err) => fault(alloc, err),
    }
}

/// Whether the first of two prefixes is inside the second.
fn inside(alloc: Global, text: &str, other: &str) -> Result<Option<String>, AllocError> {
    let (Ok(prefix), Ok(other)) = (Prefix::read(alloc, text), Prefix::read(alloc, other)) else {
        return Ok(None);
    };
    if prefix.inside(&other) {
        word(alloc, "inside")
    } else {
        word(alloc, "outside")
    }
}

fn dist(alloc: Global, text: &str) -> Result<Option<String>, AllocError> {
    match Dist::read(alloc, text) {
        Ok(dist) => {
            let dist = dist.copy()?;
            let name = dist.name();
            let version = dist.version();
            let build = dist.build();
            Ok(Some(format!(in alloc; "name {name}, version {version}, build {build}")?))
        }
        Err(DistErr::BadDist) => word(alloc, "bad"),
        Err(DistErr::Memory) => Err(AllocError),
    }
}

/// What stands before the ending of a package file.
fn ending(alloc: Global, text: &str) -> Result<Option<String>, AllocError> {
    match cut_ending(text) {
        Some(stem) => Ok(Some(format!(in alloc; "behind {stem}")?)),
        None => word(alloc, "none"),
    }
}

/// The lane of a path, of a thousand.
fn lane(alloc: Global, text: &str) -> Result<Option<String>, AllocError> {
    match RelPath::read(alloc, text) {
        Ok(path) => {
            let lane = lane_of(&path, 1_000);
            Ok(Some(format!(in alloc; "{lane}")?))
        }
        Err(_) => Ok(None),
    }
}

/// The key `<channel>/noarch/x-1-0`.
fn key(alloc: Global, channel: &str) -> Result<Option<SlotKey>, AllocError> {
    let channel = Text::from_str(alloc, channel)?;
    let subdir = Text::from_str(alloc, "noarch")?;
    match Dist::read(alloc, "x-1-0") {
        Ok(dist) => Ok(Some(SlotKey {
            channel,
            subdir,
            dist,
        })),
        Err(_) => Ok(None),
    }
}

/// How the keys of two channels stand to one another.
fn key_order(alloc: Global, left: &str, right: &str) -> Result<Option<String>, AllocError> {
    match (key(alloc, left)?, key(alloc, right)?) {
        (Some(left), Some(right)) => match left.cmp(&right) {
            Ordering::Less => word(alloc, "less"),
            Ordering::Equal => word(alloc, "equal"),
            Ordering::Greater => word(alloc, "greater"),
        },
        _ => Ok(None),
    }
}
