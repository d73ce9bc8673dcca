ghost use Rattle.std.specs.Prelude.{◌≡◌, IfOk, Ok, true};
ghost use Rattle.std.specs.List.{All, list_any};
ghost use Rattle.conda_path.specs.Dists.{is_dist};
ghost use Rattle.conda_version.specs.Grammar.{version_read};
ghost use Rattle.conda_index.specs.Pools.{virtual_dist};
ghost use Rattle.conda_sources.specs.Virtuals as virtuals;
ghost use Rattle.conda_sources.specs.Virtuals.{IsGiven, have_one_name};

use conda_base::{Copied, Text};
use conda_index::Virtual;
use conda_path::{dist_laws, ending_laws};
use conda_version::{Version, VersionErr, grammar_laws, trimmed_law};
use conda_words as words;
use std::alloc::{AllocError, Global};

/// A version of this text, which is one without spaces at its ends.
fn version_of(alloc: Global, text: &str) -> Result<Version, AllocError>
    requires { version_read text.now ≡ Ok text.now }
    ensures { IfOk result (λ version. version ≡ text.now) }
{
    match Version::read(alloc, text) {
        Ok(version) => Ok(version),
        Err(VersionErr::BadVersion { .. }) => unreachable!(),
        Err(VersionErr::Memory) => Err(AllocError),
    }
}

/// A virtual package of this name, version and build.
fn virtual_of(alloc: Global, name: &str, version: &str, build: &str) -> Result<Virtual, AllocError>
    requires { version_read version.now ≡ Ok version.now }
    ensures { IfOk result (λ made. made ≡ virtuals.virtual name.now version.now build.now) }
{
    let version = version_of(alloc, version)?;
    Ok(Virtual {
        name: Text::from_str(alloc, name)?,
        version,
        build: Text::from_str(alloc, build)?,
    })
}

/// What a machine is taken to have.
fn usual(alloc: Global) -> Result<Vec<Virtual>, AllocError>
    ensures { IfOk result (λ made. made.items ≡ virtuals.usual) }
{
    let mut made = Vec::new(alloc);
    made.push(virtual_of(alloc, "__unix", "0", "0")?)?;
    made.push(virtual_of(alloc, "__linux", "0", "0")?)?;
    made.push(virtual_of(alloc, "__glibc", "2.17", "0")?)?;
    made.push(virtual_of(alloc, "__archspec", "1", "x86_64")?)?;
    Ok(made)
}

/// Whether two have one name, but for the case of its letters.
fn have_one_name(one: &Virtual, other: &Virtual) -> bool
    ensures { result ≡ have_one_name one.now other.now }
{
    one.name.as_str().eq_ignore_ascii_case(other.name.as_str())
}

/// Whether one of these has its name.
fn have_name(one: &Virtual, others: &[Virtual]) -> bool
    ensures { result ≡ list_any (have_one_name one.now) others.now }
{
    others.iter().any(|other| have_one_name(one, other))
}

/// Of those of one name the last.
fn last_of_each(alloc: Global, all: &[Virtual]) -> Result<Vec<Virtual>, AllocError>
    ensures { IfOk result (λ made. made.items ≡ virtuals.last_of_each all.now) }
{
    let mut made = Vec::new(alloc);
    for (at, one) in all.iter().enumerate() {
        if !have_name(one, &all[at + 1..]) {
            made.push(one.copy()?)?;
        }
    }
    Ok(made)
}

/// The virtual packages of a command: `__unix 0`, `__linux 0`, `__glibc 2.17` and `__archspec 1
/// x86_64`, and those that its option `--virtual` gives, with the build `0`. One that is given takes
/// the place of others of its name.
pub fn virtual_list(alloc: Global, given: &[words::Virtual]) -> Result<Vec<Virtual>, AllocError>
    requires { All IsGiven given.now }
    ensures list { IfOk result (λ list. list.items ≡ virtuals.virtual_list given.now) }
    ensures dists { IfOk result (λ list. All (λ v. is_dist (virtual_dist v) ≡ true) list.items) }
{
    dist_laws();
    ending_laws();
    grammar_laws();
    trimmed_law();
    let mut all = usual(alloc)?;
    for one in given {
        all.push(virtual_of(alloc, one.name.as_str(), one.version.as_str(), "0")?)?;
    }
    last_of_each(alloc, all.as_slice())
}
