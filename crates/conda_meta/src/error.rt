use conda_base::Copied;
use conda_record::RecordField;
use std::alloc::{AllocError, AllocFailed};
use thiserror::Error;

/// What is wrong with a meta file: the first of these, in the order of its reader.
#[derive(Clone, Copy, Debug, PartialEq, Eq, Error)]
pub enum MetaField {
    /// The bytes are no JSON object.
    #[error("json")]
    Json,
    /// No list of objects, or one that doesn't ascend by dist.
    #[error("linked")]
    Linked,
    /// No list of goods, or one that doesn't ascend by path; in a revision also that two packages
    /// that it leaves have one path.
    #[error("goods")]
    Goods,
    /// No object.
    #[error("record")]
    Record,
    /// No name of a channel.
    #[error("channel")]
    Channel,
    /// No dist.
    #[error("dist")]
    Dist,
    /// A field of the record itself.
    #[error("{field}")]
    InRecord { field: RecordField },
    /// No list of specifications in normal form without a star in a name, by name and text.
    #[error("requested")]
    Requested,
    /// No list of dists.
    #[error("unlinked")]
    Unlinked,
    /// It reads, and doesn't agree with its block of the history.
    #[error("history")]
    History,
    /// No list of paths, or one that doesn't ascend.
    #[error("files")]
    Files,
    /// Not what `paths_version` 1 says of each of the files, in their order.
    #[error("paths_data")]
    PathsData,
}

/// Why bytes are no meta file, or why there is no answer.
#[derive(Clone, Copy, Debug, PartialEq, Eq, Error)]
pub enum MetaErr {
    /// The first field of a revision that is absent or of another form.
    #[error("bad revision: {field}")]
    BadRevision { field: MetaField },
    /// The first field of a package's record in a prefix that is absent or of another form.
    #[error("bad prefix record: {field}")]
    BadPrefixRecord { field: MetaField },
    /// There was no memory for the answer.
    #[error("out of memory")]
    Memory,
}

impl From<AllocError> for MetaErr {
    ghost use Rattle.std.specs.Prelude.{◌≡◌};
    ghost use Rattle.conda_meta.specs.declared.error.MetaErr.{MetaErr};

    ghost from_gives = { λ _ e. e ≡ MetaErr.Memory };

    fn from(_: AllocError) -> MetaErr {
        MetaErr::Memory
    }
}

/// Why a value isn't what a field has to be, or that memory ran out.
#[derive(Clone, Copy, Debug)]
pub enum FieldErr {
    Bad { field: MetaField },
    Memory,
}

impl From<AllocError> for FieldErr {
    ghost use Rattle.std.specs.Prelude.{◌≡◌};
    ghost use Rattle.conda_meta.specs.declared.error.FieldErr.{FieldErr};

    ghost from_gives = { λ _ e. e ≡ FieldErr.Memory };

    fn from(_: AllocError) -> FieldErr {
        FieldErr::Memory
    }
}

impl<T: Drop> From<AllocFailed<T>> for FieldErr {
    ghost use Rattle.std.specs.Prelude.{◌≡◌};
    ghost use Rattle.conda_meta.specs.declared.error.FieldErr.{FieldErr};

    ghost from_gives = { λ _ e. e ≡ FieldErr.Memory };

    fn from(_: AllocFailed<T>) -> FieldErr {
        FieldErr::Memory
    }
}

impl From<MetaField> for FieldErr {
    ghost use Rattle.std.specs.Prelude.{◌≡◌};
    ghost use Rattle.conda_meta.specs.declared.error.FieldErr.{FieldErr};

    ghost from_gives = { λ field e. e ≡ FieldErr.Bad field };

    fn from(field: MetaField) -> FieldErr {
        FieldErr::Bad { field }
    }
}

impl Copied for MetaField {
    fn copy(&self) -> Result<MetaField, AllocError> {
        Ok(*self)
    }
}

impl Copied for MetaErr {
    fn copy(&self) -> Result<MetaErr, AllocError> {
        Ok(*self)
    }
}
