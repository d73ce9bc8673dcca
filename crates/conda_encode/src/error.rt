use conda_base::Copied;
use std::alloc::AllocError;
use thiserror::Error;

/// Why there is no answer.
#[derive(Clone, Copy, Debug, PartialEq, Eq, Error)]
pub enum EncodeErr {
    /// There was no memory for the answer.
    #[error("out of memory")]
    Memory,
}

impl From<AllocError> for EncodeErr {
    ghost use Rattle.std.specs.Prelude.{◌≡◌};
    ghost use Rattle.conda_encode.specs.declared.error.EncodeErr.{EncodeErr};

    ghost from_gives = { λ _ e. e ≡ EncodeErr.Memory };

    fn from(_: AllocError) -> EncodeErr {
        EncodeErr::Memory
    }
}

impl Copied for EncodeErr {
    fn copy(&self) -> Result<EncodeErr, AllocError> {
        Ok(*self)
    }
}
