use conda_base::Copied;
use std::alloc::AllocError;
use thiserror::Error;

/// What is wrong with a listing, in the order of the tests.
#[derive(Clone, Copy, Debug, PartialEq, Eq, Error)]
pub enum ListingWhy {
    /// The bytes are no JSON object.
    #[error("json")]
    Json,
    /// The version of the format isn't the whole number 1.
    #[error("paths_version")]
    PathsVersion,
    /// There is no list of rows.
    #[error("paths")]
    Paths,
    /// No path, one that stood in an earlier row, or one in `conda-meta`.
    #[error("_path")]
    Path,
    /// Neither `hardlink` nor `softlink` nor `directory`.
    #[error("path_type")]
    PathType,
    /// Not 64 hexadecimal digits.
    #[error("sha256")]
    Sha256,
    /// No whole number below 2^64.
    #[error("size_in_bytes")]
    SizeInBytes,
    /// The empty text, or no text.
    #[error("prefix_placeholder")]
    PrefixPlaceholder,
    /// Neither `text` nor `binary`.
    #[error("file_mode")]
    FileMode,
    /// No truth value.
    #[error("no_link")]
    NoLink,
}

/// Why bytes are no listing.
#[derive(Clone, Copy, Debug, PartialEq, Eq, Error)]
pub enum ListingErr {
    /// The first bad row, from 0, and what is first wrong with it. Where the whole is wrong, the
    /// row is 0.
    #[error("bad listing: {row} {why}")]
    BadListing { row: u64, why: ListingWhy },
    /// There was no memory for the answer.
    #[error("out of memory")]
    Memory,
}

impl From<AllocError> for ListingErr {
    ghost use Rattle.std.specs.Prelude.{◌≡◌};
    ghost use Rattle.conda_paths.specs.declared.error.ListingErr.{ListingErr};

    ghost from_gives = { λ _ e. e ≡ ListingErr.Memory };

    fn from(_: AllocError) -> ListingErr {
        ListingErr::Memory
    }
}

impl Copied for ListingWhy {
    fn copy(&self) -> Result<ListingWhy, AllocError> {
        Ok(*self)
    }
}

impl Copied for ListingErr {
    fn copy(&self) -> Result<ListingErr, AllocError> {
        Ok(*self)
    }
}
