use conda_base::Copied;
use conda_path::{Kind, RelPath};
use std::alloc::AllocError;

/// What of a package gives a file.
#[derive(Clone, Copy, Debug, PartialEq, Eq)]
pub enum Origin {
    /// The row of its listing at this place.
    Row(usize),
    /// The entry point of its link file at this place.
    Entry(usize),
}

/// A file of a package in an environment: where it goes, as what, and whence.
#[derive(Clone, Debug, PartialEq, Eq, Drop)]
pub struct Placing {
    pub path: RelPath,
    pub kind: Kind,
    pub from: Origin,
}

impl Copied for Origin {
    fn copy(&self) -> Result<Origin, AllocError> {
        Ok(*self)
    }
}

impl Copied for Placing {
    fn copy(&self) -> Result<Placing, AllocError> {
        self.clone()
    }
}
