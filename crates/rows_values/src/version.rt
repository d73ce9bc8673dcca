use conda_base::{Copied, Text};
use conda_version::{Version, VersionErr, trimmed};
use std::alloc::{AllocError, Global};
use std::cmp::Ordering;

/// The rows of conda_version.
pub fn answer(alloc: Global, call: &str, arguments: &[Text]) -> Result<Option<String>, AllocError> {
    match (call, arguments) {
        ("version", [text]) => version(alloc, text.as_str()),
        ("version.copy", [text]) => copied(alloc, text.as_str()),
        ("version.order" | "version.starts" | "version.same", [left, right]) => {
            pair(alloc, call, left.as_str(), right.as_str())
        }
        ("trimmed", [text]) => {
            let text = trimmed(text.as_str());
            Ok(Some(format!(in alloc; "\"{text}\"")?))
        }
        _ => Ok(None),
    }
}

/// The text that was read, or the first fault and its place.
fn version(alloc: Global, text: &str) -> Result<Option<String>, AllocError> {
    match Version::read(alloc, text) {
        Ok(version) => {
            let text = version.text();
            Ok(Some(format!(in alloc; "read {text}")?))
        }
        Err(VersionErr::BadVersion { at, why }) => Ok(Some(format!(in alloc; "{why} at {at}")?)),
        Err(VersionErr::Memory) => Err(AllocError),
    }
}

fn copied(alloc: Global, text: &str) -> Result<Option<String>, AllocError> {
    let Ok(version) = Version::read(alloc, text) else {
        return Ok(None);
    };
    let copy = version.copy()?;
    Ok(Some(String::from_str(alloc, copy.text())?))
}

/// How the first of two versions stands to the second.
fn pair(alloc: Global, call: &str, left: &str, right: &str) -> Result<Option<String>, AllocError> {
    let (Ok(left), Ok(right)) = (Version::read(alloc, left), Version::read(alloc, right)) else {
        return Ok(None);
    };
    let word = match call {
        "version.order" => order(&left, &right),
        "version.starts" => yes_or_no(left.starts_with(&right)),
        _ => yes_or_no(left == right),
    };
    Ok(Some(String::from_str(alloc, word)?))
}

fn order(left: &Version, right: &Version) -> &'static str {
    match left.compare(right) {
        Ordering::Less => "less",
        Ordering::Equal => "equal",
        Ordering::Greater => "greater",
    }
}

fn yes_or_no(holds: bool) -> &'static str {
    if holds { "yes" } else { "no" }
}
