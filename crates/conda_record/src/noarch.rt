ghost use Rattle.std.specs.Prelude.{◌≡◌};
ghost use Rattle.serde_json.specs.View.{view};
ghost use Rattle.conda_record.specs.Records as records;

use conda_base::Copied;
use serde_json::Value;
use std::alloc::AllocError;

/// Whether a package fits one platform, every platform, or every platform and every Python.
#[derive(Clone, Copy, Debug, PartialEq, Eq)]
pub enum Noarch {
    /// It is made for its subdir's platform.
    No,
    /// It fits every platform.
    Generic,
    /// It fits every platform, and its Python code goes where the environment's Python looks for
    /// it.
    Python,
}

impl Copied for Noarch {
    fn copy(&self) -> Result<Noarch, AllocError> {
        Ok(*self)
    }
}

/// What the field `noarch` says by its value.
fn noarch_said(value: &Value) -> Noarch
    ensures { result ≡ records.noarch_said (view value.now) }
{
    match value {
        Value::Null => Noarch::No,
        Value::Bool(false) => Noarch::No,
        Value::String(text) if text.as_str() == "python" => Noarch::Python,
        _ => Noarch::Generic,
    }
}

/// What a record's field `noarch` says, whatever stands there.
pub fn noarch_of(value: &Value) -> Noarch
    ensures { result ≡ records.noarch_of (view value.now) }
{
    match value.get("noarch") {
        Some(said) => noarch_said(said),
        None => Noarch::No,
    }
}
