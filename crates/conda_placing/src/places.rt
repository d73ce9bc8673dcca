ghost use Rattle.std.specs.Prelude.{◌≡◌, ◌↔◌, IfOk, IfSome, IsTrue, option_copied};
ghost use Rattle.conda_device.specs.declared.chan.Shown.{Shown};
ghost use Rattle.conda_link.specs.Places.{IsPython};
ghost use Rattle.conda_placing.specs.Placing as placing;
ghost use Rattle.conda_placing.specs.Placing.{GivesPlace, IsLinkEntry, LacksPython, place_of};
ghost use Rattle.conda_placing.specs.Placing.{script_place};

use conda_base::Copied;
use conda_device::Shown;
use conda_link::{EntryPoint, LinkErr, place};
use conda_path::{Kind, PathErr, RelPath, path_laws};
use conda_paths::RowKind;
use conda_record::Noarch;
use std::alloc::{AllocError, Global};

/// The Python X.Y that a package's code is for: none but for Python code that fits every Python. It
/// takes no memory.
pub fn python_for(noarch: Noarch, python: Option<&str>) -> Option<&str>
    ensures { option_copied result ≡ placing.python_for noarch (option_copied python.entry) }
{
    match noarch {
        Noarch::Python => python,
        Noarch::Generic | Noarch::No => None,
    }
}

/// Whether it is Python code that fits every Python, and there is none. It takes no memory.
pub fn lacks_python(noarch: Noarch, python: Option<&str>) -> bool
    ensures { IsTrue result ↔ LacksPython noarch (option_copied python.entry) }
{
    match noarch {
        Noarch::Python => python.is_none(),
        Noarch::Generic | Noarch::No => false,
    }
}

/// Where a row's file goes, unless that is too long.
pub fn row_place(
    alloc: Global,
    python: Option<&str>,
    path: &RelPath,
) -> Result<Option<RelPath>, AllocError>
    requires { IfSome (option_copied python) IsPython }
    ensures { IfOk result
        (λ found. GivesPlace found (place_of (option_copied python.entry) path.now)) }
{
    let Some(python) = python else {
        path_laws();
        return Ok(Some(path.copy()?));
    };
    match place(alloc, path, python) {
        Ok(made) => Ok(Some(made)),
        Err(LinkErr::Memory) => Err(AllocError),
        Err(_) => Ok(None),
    }
}

/// Where the script of an entry point goes, unless that is too long.
pub fn entry_place(alloc: Global, entry: &EntryPoint) -> Result<Option<RelPath>, AllocError>
    requires { IsLinkEntry entry.now }
    ensures { IfOk result (λ found. GivesPlace found (script_place entry.now)) }
{
    path_laws();
    let text = format!(in alloc; "bin/{}", entry.command.as_str())?;
    match RelPath::read(alloc, text.as_str()) {
        Ok(made) => Ok(Some(made)),
        Err(PathErr::BadPath { at: _ }) => Ok(None),
        Err(PathErr::Memory) => Err(AllocError),
    }
}

/// What an executable file is, where that can be kept or not. It takes no memory.
pub fn as_able(exec: bool, kind: Kind) -> Kind
    ensures { result ≡ placing.as_able exec kind }
{
    match kind {
        Kind::Exec if !exec => Kind::File,
        kind => kind,
    }
}

/// The kind of a file that is executable or not.
fn plain_or_exec(exec: bool) -> Kind
    ensures { result ≡ placing.shown_kind (Shown.File exec) }
{
    if exec { Kind::Exec } else { Kind::File }
}

/// The kind of what is shown at the row of a soft link. It takes no memory.
fn shown_kind(shown: &Shown) -> Kind
    ensures { result ≡ placing.shown_kind shown.now }
{
    match shown {
        Shown::File { exec } => plain_or_exec(*exec),
        Shown::Soft { target: _ } => Kind::Soft,
    }
}

/// The kind of what is shown at the row of a file. It takes no memory.
fn file_kind(shown: &Shown) -> Kind
    ensures { result ≡ placing.file_kind shown.now }
{
    match shown {
        Shown::File { exec } => plain_or_exec(*exec),
        Shown::Soft { target: _ } => Kind::File,
    }
}

/// The kind of what a row gives, if it gives something. It takes no memory.
pub fn row_kind(kind: RowKind, shown: &Option<Shown>) -> Option<Kind>
    ensures { result ≡ placing.row_kind kind shown.now }
{
    let Some(shown) = shown else {
        return None;
    };
    match kind {
        RowKind::Hard => Some(file_kind(shown)),
        RowKind::Soft => Some(shown_kind(shown)),
        RowKind::Folder => None,
    }
}
