use std::alloc::AllocError;
use thiserror::Error;

/// Why there is no report.
#[derive(Clone, Copy, Debug, PartialEq, Eq, Error)]
pub enum ExplainErr {
    /// There was no memory for the report.
    #[error("out of memory")]
    Memory,
}

impl From<AllocError> for ExplainErr {
    ghost use Rattle.std.specs.Prelude.{◌≡◌};
    ghost use Rattle.conda_explain.specs.declared.error.ExplainErr.{ExplainErr};

    ghost from_gives = { λ _ e. e ≡ ExplainErr.Memory };

    fn from(_: AllocError) -> ExplainErr {
        ExplainErr::Memory
    }
}
