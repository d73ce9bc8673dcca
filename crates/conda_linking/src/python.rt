ghost use Rattle.std.specs.Prelude.{◌≡◌, MatchOption, None, Some};
ghost use Rattle.conda_linking.specs.Linking as linking;

use conda_link::python_of;
use conda_record::PkgRecord;

/// The X.Y of a package named `python`. It takes no memory.
pub fn python_version(rec: &PkgRecord) -> Option<&str>
    ensures { MatchOption result (linking.python_version rec.now ≡ None)
        (λ python. linking.python_version rec.now ≡ Some python.now) }
{
    if rec.name.as_str().eq_ignore_ascii_case("python") {
        python_of(&rec.version)
    } else {
        None
    }
}
