ghost use Rattle.std.specs.Prelude.{◌≡◌, ◌↔◌, IsTrue};
ghost use Rattle.conda_encode.specs.Matching.{lowered, names};

use conda_record::PkgRecord;
use conda_spec::Spec;

/// Whether `low` is the name in lower case. It takes no memory.
pub fn is_lowered(name: &str, low: &str) -> bool
    ensures { IsTrue result ↔ lowered name.now ≡ low.now }
{
    let left = name.as_bytes();
    let right = low.as_bytes();
    if left.len() != right.len() {
        return false;
    }
    for at in 0..left.len() {
        if left[at].to_ascii_lowercase() != right[at] {
            return false;
        }
    }
    true
}

/// Whether the specification names the record. It takes no memory.
pub fn names_record(spec: &Spec, rec: &PkgRecord) -> bool
    ensures { result ≡ names spec.now rec.now }
{
    spec.matches(
        rec.name.as_str(),
        &rec.version,
        rec.build.as_str(),
        rec.build_number,
        rec.channel.as_str(),
        rec.subdir.as_str(),
    )
}
