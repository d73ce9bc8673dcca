ghost use Rattle.std.specs.Prelude.{◌≡◌, ◌↔◌, ℕ, IsTrue, List, Some};
ghost use Rattle.conda_linking.specs.Linking as linking;
ghost use Rattle.conda_linking.specs.Linking.{HasNewPython, HasPython};

use crate::python::python_version;
use conda_meta::Linked;
use conda_record::PkgRecord;

/// Whether the package is this Python X.Y. It takes no memory.
fn is_python(rec: &PkgRecord, python: &str) -> bool
    ensures { IsTrue result ↔ (linking.python_version rec.now ≡ Some python.now) }
{
    match python_version(rec) {
        Some(found) => found == python,
        None => false,
    }
}

/// Whether one of the packages is a Python X.Y. It takes no memory.
fn has_python(packages: &[Linked], python: &str) -> bool
    ensures { IsTrue result ↔ HasPython packages.now python.now }
{
    for one in packages {
        if is_python(&one.rec, python) {
            return true;
        }
    }
    false
}

/// Whether the package is a Python with an X.Y that none of the packages has. It takes no memory.
fn is_new_python(now: &[Linked], rec: &PkgRecord) -> bool
    ensures { IsTrue result ↔ ((python : List ℕ)
        × (linking.python_version rec.now ≡ Some python) × (¬ HasPython now.now python)) }
{
    match python_version(rec) {
        Some(python) => !has_python(now, python),
        None => false,
    }
}

/// Whether the target has a Python with an X.Y that no linked one has. It takes no memory.
pub fn has_new_python(now: &[Linked], target: &[Linked]) -> bool
    ensures { IsTrue result ↔ HasNewPython now.now target.now }
{
    for one in target {
        if is_new_python(now, &one.rec) {
            return true;
        }
    }
    false
}
