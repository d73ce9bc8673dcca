use conda_base::Copied;
use std::alloc::AllocError;
use thiserror::Error;

/// Why an index has no answer.
#[derive(Clone, Copy, Debug, PartialEq, Eq, Error)]
pub enum IndexErr {
    /// No record of a pool is one that the specification names.
    #[error("no match")]
    NoMatch,
    /// There was no memory for the answer.
    #[error("out of memory")]
    Memory,
}

impl From<AllocError> for IndexErr {
    ghost use Rattle.std.specs.Prelude.{◌≡◌};
    ghost use Rattle.conda_index.specs.declared.error.IndexErr.{IndexErr};

    ghost from_gives = { λ _ e. e ≡ IndexErr.Memory };

    fn from(_: AllocError) -> IndexErr {
        IndexErr::Memory
    }
}

impl Copied for IndexErr {
    fn copy(&self) -> Result<IndexErr, AllocError> {
        Ok(*self)
    }
}
