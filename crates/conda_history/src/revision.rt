use crate::stamp::Stamp;
use conda_base::{Copied, Rows};
use conda_path::Dist;
use std::alloc::AllocError;

/// The history of an environment: a block for each of its revisions, the first one first.
#[derive(Clone, Debug, PartialEq, Eq, Drop)]
pub struct History {
    pub blocks: Rows<Block>,
}

/// What one revision changed.
///
/// `removed` left the set and `added` joined it. Where the block is `whole`, `added` is the whole
/// set that it leaves: so early conda wrote it, without signs. What is read has both lists ascending
/// by bytes, no dist in both, and a whole block has dists in `added` alone.
#[derive(Clone, Debug, PartialEq, Eq, Drop)]
pub struct Block {
    pub stamp: Stamp,
    pub removed: Rows<Dist>,
    pub added: Rows<Dist>,
    pub whole: bool,
}

/// Why a text is no history, or why there is no answer.
#[derive(Clone, Copy, Debug, PartialEq, Eq)]
pub enum HistoryErr {
    /// The number of the first line, from 1, that is none of a history.
    BadHistory { line: u64 },
    /// There was no memory for the answer.
    Memory,
}

impl Copied for Block {
    fn copy(&self) -> Result<Block, AllocError> {
        self.clone()
    }
}

impl Copied for History {
    fn copy(&self) -> Result<History, AllocError> {
        self.clone()
    }
}
