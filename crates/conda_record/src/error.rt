ghost use Rattle.std.specs.Prelude.{◌≡◌};

use conda_base::Copied;
use std::alloc::AllocError;
use thiserror::Error;

/// A field of a record, in the order of the tests but for `fn`, which names both the first and the
/// last of them.
#[derive(Clone, Copy, Debug, PartialEq, Eq, Error)]
pub enum RecordField {
    /// No text of letters, digits, `_`, `-` and `.`.
    #[error("name")]
    Name,
    /// No version.
    #[error("version")]
    Version,
    /// No text.
    #[error("build")]
    Build,
    /// No whole number below 2^64.
    #[error("build_number")]
    BuildNumber,
    /// No list of specifications without a star in the name.
    #[error("depends")]
    Depends,
    /// It is there, and is no such list.
    #[error("constrains")]
    Constrains,
    /// It is there, and isn't the subdir in which the record stands.
    #[error("subdir")]
    Subdir,
    /// The file's name is no dist, or a dist of another name, version or build.
    #[error("fn")]
    Fn,
}

/// Why a value is no record.
#[derive(Clone, Copy, Debug, PartialEq, Eq, Error)]
pub enum RecordErr {
    /// The first field that is absent or of another form.
    #[error("bad record: {field}")]
    BadRecord { field: RecordField },
    /// There was no memory for the answer.
    #[error("out of memory")]
    Memory,
}

impl From<AllocError> for RecordErr {
    ghost use Rattle.std.specs.Prelude.{◌≡◌};
    ghost use Rattle.conda_record.specs.declared.error.RecordErr.{RecordErr};

    ghost from_gives = { λ _ e. e ≡ RecordErr.Memory };

    fn from(_: AllocError) -> RecordErr {
        RecordErr::Memory
    }
}

impl Copied for RecordField {
    fn copy(&self) -> Result<RecordField, AllocError> {
        Ok(*self)
    }
}

impl Copied for RecordErr {
    fn copy(&self) -> Result<RecordErr, AllocError> {
        Ok(*self)
    }
}
