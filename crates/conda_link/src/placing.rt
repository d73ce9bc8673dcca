ghost use Rattle.std.specs.Prelude.{◌≡◌, ◌<◌, ◌++◌, ◌∷◌, ◌⊎◌, List, ℕ, IfErr, IfOk, IsErrOf, OnOk};
ghost use Rattle.std.specs.Prelude.{MatchOption, None, Some, length, string_bytes};
ghost use Rattle.conda_base.specs.Signs.{dot};
ghost use Rattle.conda_path.specs.Paths.{IsRelPath};
ghost use Rattle.conda_link.specs.Places.{IsPython, placed, python_parts};
ghost use Rattle.conda_link.specs.declared.error.LinkErr.{LinkErr};

use crate::error::LinkErr;
use crate::names::is_digits;
use conda_base::{cut_first, cut_laws};
use conda_path::{PathErr, RelPath};
use conda_version::Version;
use std::alloc::{AllocError, Global};

/// The text of the place.
fn placed_text(alloc: Global, path: &str, python: &str) -> Result<String, AllocError>
    ensures { IfOk result (λ text. string_bytes text ≡ placed python.now path.now) }
{
    let mut text = String::new(alloc);
    match cut_first(path, b'/') {
        Some(("site-packages", _)) => {
            text.push_str("lib/python")?;
            text.push_str(python)?;
            text.push_str("/")?;
            text.push_str(path)?;
        }
        Some(("python-scripts", rest)) => {
            text.push_str("bin/")?;
            text.push_str(rest)?;
        }
        _ => text.push_str(path)?,
    }
    Ok(text)
}

/// Where a file of a package goes in an environment with the Python X.Y: from `site-packages/..`
/// to `lib/pythonX.Y/site-packages/..`, from `python-scripts/..` to `bin/..`; other paths stay
/// (conda's `common/path.py`).
///
/// `BadPath` where that is no path; for the X.Y of a version it is then longer than 1,024 bytes.
pub fn place(alloc: Global, path: &RelPath, python: &str) -> Result<RelPath, LinkErr>
    ensures placed { IfOk result (λ new. new ≡ placed python.now path.now) }
    ensures ok { OnOk result (IsRelPath (placed python.now path.now)) }
    ensures bad { IsErrOf result LinkErr.BadPath → ¬ IsRelPath (placed python.now path.now) }
    ensures long { IsErrOf result LinkErr.BadPath → IsPython python.now →
        1024 < length (placed python.now path.now) }
    ensures err { IfErr result (λ e. (e ≡ LinkErr.BadPath) ⊎ (e ≡ LinkErr.Memory)) }
{
    cut_laws();
    let text = placed_text(alloc, path.as_str(), python)?;
    match RelPath::read(alloc, text.as_str()) {
        Ok(path) => Ok(path),
        Err(PathErr::BadPath { at: _ }) => Err(LinkErr::BadPath),
        Err(PathErr::Memory) => Err(LinkErr::Memory),
    }
}

/// What stands before a dot and what is behind it.
fn before<'a>(text: &'a str, behind: &str) -> &'a str
    requires { (front : List ℕ) × (text.now ≡ front ++ dot ∷ behind.now) }
    ensures { text.now ≡ result.now ++ dot ∷ behind.now }
{
    let (front, _) = text.split_at(text.len() - behind.len() - 1);
    front
}

/// The first two dotted parts, where they are digits.
fn first_parts(text: &str) -> Option<&str>
    ensures { MatchOption result (python_parts text.now ≡ None)
        (λ parts. python_parts text.now ≡ Some parts.now) }
{
    cut_laws();
    let (first, rest) = cut_first(text, b'.')?;
    match cut_first(rest, b'.') {
        Some((second, behind)) => {
            if is_digits(first) && is_digits(second) {
                return Some(before(text, behind));
            }
            None
        }
        None => {
            if is_digits(first) && is_digits(rest) {
                return Some(text);
            }
            None
        }
    }
}

/// The X.Y of a Python's version: its first two dotted parts, None where these aren't digits. It
/// takes no memory.
pub fn python_of(version: &Version) -> Option<&str>
    ensures { MatchOption result (python_parts version.now ≡ None)
        (λ python. python_parts version.now ≡ Some python.now) }
{
    first_parts(version.text())
}
