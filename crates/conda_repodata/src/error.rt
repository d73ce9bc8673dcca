ghost use Rattle.std.specs.Prelude.{◌≡◌};

use std::alloc::AllocError;
use thiserror::Error;

/// What a repodata text is refused for, in the order of the tests.
#[derive(Clone, Copy, Debug, PartialEq, Eq, Error)]
pub enum RepodataField {
    /// The bytes are no JSON object.
    #[error("json")]
    Json,
    /// `packages` is there, and is no object.
    #[error("packages")]
    Packages,
    /// `packages.conda` is there, and is no object.
    #[error("packages.conda")]
    PackagesConda,
}

/// Why a repodata text is refused, or why there is no answer.
#[derive(Clone, Copy, Debug, PartialEq, Eq, Error)]
pub enum RepodataErr {
    /// The first field that is of another form.
    #[error("bad repodata: {field}")]
    BadRepodata { field: RepodataField },
    /// There was no memory for the answer.
    #[error("out of memory")]
    Memory,
}

impl From<AllocError> for RepodataErr {
    ghost use Rattle.conda_repodata.specs.declared.error.RepodataErr.{RepodataErr};

    ghost from_gives = { λ _ e. e ≡ RepodataErr.Memory };

    fn from(_: AllocError) -> RepodataErr {
        RepodataErr::Memory
    }
}
