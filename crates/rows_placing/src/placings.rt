ghost use Rattle.std.specs.Prelude.{IfSome, option_copied};
ghost use Rattle.conda_link.specs.Places.{IsPython};
ghost use Rattle.conda_placing.specs.Placing.{IsReadPackage};

use crate::words::{kind_word, refusal};
use conda_device::Abilities;
use conda_link::python_of;
use conda_placing::{Origin, Package, Placing, placings};
use conda_version::Version;
use std::alloc::{AllocError, Global};

fn abilities_of(text: &str) -> Abilities {
    Abilities {
        hard: text.contains("hard"),
        soft: text.contains("soft"),
        exec: text.contains("exec"),
    }
}

/// The placings for a Python of this version, or for none where it is `-`.
pub fn placed(
    alloc: Global,
    pkg: &Package,
    python: &str,
    abilities: &str,
) -> Result<Option<String>, AllocError>
    requires { IsReadPackage pkg.now }
{
    let abilities = abilities_of(abilities);
    let pkg = &pkg.copy(alloc)?;
    if python == "-" {
        return Ok(Some(placings_for(alloc, pkg, None, abilities)?));
    }
    match Version::read(alloc, python) {
        Ok(version) => placed_for(alloc, pkg, &version, abilities),
        Err(_) => Ok(None),
    }
}

/// The X.Y of a Python's version.
fn python_for(version: &Version) -> Option<&str>
    ensures { IfSome (option_copied result) IsPython }
{
    python_of(version)
}

fn placed_for(
    alloc: Global,
    pkg: &Package,
    version: &Version,
    abilities: Abilities,
) -> Result<Option<String>, AllocError>
    requires { IsReadPackage pkg.now }
{
    match python_for(version) {
        Some(python) => Ok(Some(placings_for(alloc, pkg, Some(python), abilities)?)),
        None => Ok(None),
    }
}

fn placings_for(
    alloc: Global,
    pkg: &Package,
    python: Option<&str>,
    abilities: Abilities,
) -> Result<String, AllocError>
    requires package { IsReadPackage pkg.now }
    requires python { IfSome (option_copied python) IsPython }
{
    match placings(alloc, pkg, python, abilities) {
        Ok(made) => shown_placings(alloc, made.as_slice()),
        Err(error) => refusal(alloc, &error),
    }
}

fn shown_placings(alloc: Global, made: &[Placing]) -> Result<String, AllocError> {
    let mut text = format!(in alloc; "{} placings", made.len())?;
    for placing in made {
        text.push_str(shown_placing(alloc, placing)?.as_str())?;
    }
    Ok(text)
}

fn shown_placing(alloc: Global, placing: &Placing) -> Result<String, AllocError> {
    let kind = kind_word(placing.kind);
    let path = placing.path.as_str();
    match placing.from {
        Origin::Row(at) => format!(in alloc; "; {path} {kind} row {at}"),
        Origin::Entry(at) => format!(in alloc; "; {path} {kind} entry {at}"),
    }
}
