use conda_base::Copied;
use conda_path::{Digest, RelPath, SlotKey};
use std::alloc::AllocError;

/// What a handle on the cache folder was asked to change of a package's folder.
#[derive(Clone, Debug, PartialEq, Eq, Drop)]
pub struct Touched {
    pub key: SlotKey,
    pub touch: Touch,
}

/// How it was to change the folder. Of a file that is written the size in bytes and the SHA-256
/// digest are kept.
#[derive(Clone, Debug, PartialEq, Eq, Drop)]
pub enum Touch {
    Write {
        path: RelPath,
        size: u64,
        digest: Digest,
    },
    Mark,
    Erase,
}

/// The last read of a handle on the cache folder that answered Ok: of which file, at most how many
/// bytes, and the size and SHA-256 digest of the bytes that it gave, or None where nothing was
/// there.
#[derive(Clone, Debug, PartialEq, Eq, Drop)]
pub struct Got {
    pub key: SlotKey,
    pub path: RelPath,
    pub max: u64,
    pub found: Option<(u64, Digest)>,
}

impl Copied for Touch {
    fn copy(&self) -> Result<Touch, AllocError> {
        self.clone()
    }
}

impl Copied for Touched {
    fn copy(&self) -> Result<Touched, AllocError> {
        self.clone()
    }
}

impl Copied for Got {
    fn copy(&self) -> Result<Got, AllocError> {
        self.clone()
    }
}
