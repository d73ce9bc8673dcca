use conda_base::Copied;
use std::alloc::AllocError;
use thiserror::Error;

/// Why a text is no path or no prefix.
#[derive(Clone, Copy, Debug, PartialEq, Eq, PartialOrd, Ord, Hash, Error)]
pub enum PathErr {
    /// `at` is the least offset in bytes where a bad part begins or a bad byte stands, else the
    /// limit that the text is longer than.
    #[error("bad path at {at}")]
    BadPath { at: usize },
    /// There was no memory for the answer.
    #[error("out of memory")]
    Memory,
}

/// Why a text is no dist.
#[derive(Clone, Copy, Debug, PartialEq, Eq, PartialOrd, Ord, Hash, Error)]
pub enum DistErr {
    /// The text isn't a name, a version and a build joined by `-`.
    #[error("bad package name")]
    BadDist,
    /// There was no memory for the answer.
    #[error("out of memory")]
    Memory,
}

impl Copied for PathErr {
    fn copy(&self) -> Result<PathErr, AllocError> {
        Ok(*self)
    }
}

impl Copied for DistErr {
    fn copy(&self) -> Result<DistErr, AllocError> {
        Ok(*self)
    }
}
