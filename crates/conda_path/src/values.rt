use crate::rel_path::RelPath;
use conda_base::{Bytes, Copied};
use std::alloc::AllocError;

/// A SHA-256 digest.
#[derive(Clone, Copy, Debug, PartialEq, Eq, PartialOrd, Ord, Hash)]
pub struct Digest {
    pub bytes: [u8; 32],
}

/// What stands at a path: a file, an executable file or a soft link.
#[derive(Clone, Copy, Debug, PartialEq, Eq, PartialOrd, Ord, Hash)]
pub enum Kind {
    File,
    Exec,
    Soft,
}

/// A kind and bytes. The bytes of a soft link are its target.
#[derive(Clone, Debug, PartialEq, Eq, Drop)]
pub struct Node {
    pub kind: Kind,
    pub bytes: Bytes,
}

/// What a path has to show: a node's kind, and the size in bytes and the digest of its bytes.
#[derive(Clone, Debug, PartialEq, Eq, PartialOrd, Ord, Hash, Drop)]
pub struct Good {
    pub path: RelPath,
    pub kind: Kind,
    pub size: u64,
    pub digest: Digest,
}

impl Copied for Digest {
    fn copy(&self) -> Result<Digest, AllocError> {
        Ok(*self)
    }
}

impl Copied for Kind {
    fn copy(&self) -> Result<Kind, AllocError> {
        Ok(*self)
    }
}

impl Copied for Node {
    fn copy(&self) -> Result<Node, AllocError> {
        self.clone()
    }
}

impl Copied for Good {
    fn copy(&self) -> Result<Good, AllocError> {
        self.clone()
    }
}
