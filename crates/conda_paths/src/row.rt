use conda_base::{Copied, Text};
use conda_path::{Digest, RelPath};
use std::alloc::AllocError;

/// What a row is linked as.
#[derive(Clone, Copy, Debug, PartialEq, Eq)]
pub enum RowKind {
    /// A file, `hardlink`.
    Hard,
    /// A soft link, `softlink`.
    Soft,
    /// A folder, `directory`.
    Folder,
}

/// The text that stands in a file where the prefix of an environment has to stand.
#[derive(Clone, Debug, PartialEq, Eq, Drop)]
pub struct Placeholder {
    /// It isn't empty.
    pub text: Text,
    /// The file keeps its length: what is saved becomes NULs at the end of a run.
    pub binary: bool,
}

/// What a listing says of one path.
#[derive(Clone, Debug, PartialEq, Eq, Drop)]
pub struct Row {
    pub path: RelPath,
    pub kind: RowKind,
    /// The size in bytes of a file in the package, else 0.
    pub size: u64,
    /// The SHA-256 digest of a file in the package, else 32 zeros.
    pub digest: Digest,
    pub placeholder: Option<Placeholder>,
    /// The file is copied, and never linked.
    pub no_link: bool,
}

impl Copied for RowKind {
    fn copy(&self) -> Result<RowKind, AllocError> {
        Ok(*self)
    }
}

impl Copied for Placeholder {
    fn copy(&self) -> Result<Placeholder, AllocError> {
        self.clone()
    }
}

impl Copied for Row {
    fn copy(&self) -> Result<Row, AllocError> {
        self.clone()
    }
}
