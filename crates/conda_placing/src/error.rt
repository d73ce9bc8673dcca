use conda_base::Copied;
use conda_path::{Dist, RelPath};
use conda_paths::ListingWhy;
use std::alloc::{AllocError, AllocFailed};
use thiserror::Error;

/// Why there are no placings, or no content.
#[derive(Clone, Debug, PartialEq, Eq, Drop, Error)]
pub enum PlacingErr {
    /// The package has Python code that fits every Python, and the environment has no Python X.Y.
    #[error("no python")]
    NoPython { dist: Dist },
    /// The new place of the row's file is too long, or stood before. Entry points are counted
    /// behind the rows.
    #[error("bad listing: {row} {why}")]
    BadListing { row: u64, why: ListingWhy },
    /// The row is a soft link, and none can be made.
    #[error("no soft link")]
    NoSoftLink { path: RelPath },
    /// The placeholder in the row's file has room for `have` bytes, and the prefix has `need`.
    #[error("padding too short: {have} {need}")]
    PaddingShort { path: RelPath, have: u64, need: u64 },
    /// There was no memory for the answer.
    #[error("out of memory")]
    Memory,
}

impl From<AllocError> for PlacingErr {
    ghost use Rattle.std.specs.Prelude.{◌≡◌};
    ghost use Rattle.conda_placing.specs.declared.error.PlacingErr.{PlacingErr};

    ghost from_gives = { λ _ e. e ≡ PlacingErr.Memory };

    fn from(_: AllocError) -> PlacingErr {
        PlacingErr::Memory
    }
}

impl<T: Drop> From<AllocFailed<T>> for PlacingErr {
    ghost use Rattle.std.specs.Prelude.{◌≡◌};
    ghost use Rattle.conda_placing.specs.declared.error.PlacingErr.{PlacingErr};

    ghost from_gives = { λ _ e. e ≡ PlacingErr.Memory };

    fn from(_: AllocFailed<T>) -> PlacingErr {
        PlacingErr::Memory
    }
}

impl Copied for PlacingErr {
    fn copy(&self) -> Result<PlacingErr, AllocError> {
        self.clone()
    }
}
