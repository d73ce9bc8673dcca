use conda_base::{Copied, Text};
use conda_clause::{SpecErr, VersionClause, glob, glob_lowered, keep};
use conda_version::Version;
use std::alloc::{AllocError, Global};

/// The rows of conda_clause.
pub fn answer(alloc: Global, call: &str, arguments: &[Text]) -> Result<Option<String>, AllocError> {
    match (call, arguments) {
        ("clause", [text]) => read(alloc, VersionClause::read(alloc, text.as_str())),
        ("clause.kept", [text]) => read(alloc, VersionClause::of_kept(alloc, text.as_str())),
        ("clause.any", _) => read_text(alloc, &VersionClause::any(alloc)?),
        ("clause.beside", [text]) => beside(alloc, text.as_str()),
        ("clause.holds", [text, version]) => holds(alloc, text.as_str(), version.as_str()),
        ("spaces", [text]) => {
            let kept = keep(alloc, text.as_str())?.text;
            let kept = kept.as_str();
            Ok(Some(format!(in alloc; "\"{kept}\"")?))
        }
        ("spaces.places", [text]) => places(alloc, text.as_str()),
        ("glob", [pattern, text]) => yes_or_no(alloc, glob(pattern.as_str(), text.as_str())),
        ("glob.lowered", [pattern, text]) => {
            yes_or_no(alloc, glob_lowered(pattern.as_str(), text.as_str()))
        }
        _ => Ok(None),
    }
}

/// The text of the clause that was read, or the first fault and its place.
fn read(
    alloc: Global,
    outcome: Result<VersionClause, SpecErr>,
) -> Result<Option<String>, AllocError> {
    match outcome {
        Ok(clause) => {
            let clause = clause.copy()?;
            let text = clause.text();
            Ok(Some(format!(in alloc; "read {text}")?))
        }
        Err(SpecErr::BadSpec { at, why }) => Ok(Some(format!(in alloc; "{why} at {at}")?)),
        Err(SpecErr::Memory) => Err(AllocError),
    }
}

fn read_text(alloc: Global, clause: &VersionClause) -> Result<Option<String>, AllocError> {
    Ok(Some(String::from_str(alloc, clause.text())?))
}

fn beside(alloc: Global, text: &str) -> Result<Option<String>, AllocError> {
    match VersionClause::read(alloc, text) {
        Ok(clause) => read_text(alloc, &clause.beside_build(alloc)?),
        Err(_) => Ok(None),
    }
}

fn holds(alloc: Global, text: &str, version: &str) -> Result<Option<String>, AllocError> {
    match (
        VersionClause::read(alloc, text),
        Version::read(alloc, version),
    ) {
        (Ok(clause), Ok(version)) => yes_or_no(alloc, clause.holds(&version)),
        _ => Ok(None),
    }
}

fn places(alloc: Global, text: &str) -> Result<Option<String>, AllocError> {
    let mut made = String::new(alloc);
    for place in keep(alloc, text)?.places.as_slice() {
        if !made.is_empty() {
            made.push(' ')?;
        }
        made.push_str(format!(in alloc; "{place}")?.as_str())?;
    }
    Ok(Some(made))
}

fn yes_or_no(alloc: Global, holds: bool) -> Result<Option<String>, AllocError> {
    let word = if holds { "yes" } else { "no" };
    Ok(Some(String::from_str(alloc, word)?))
}
