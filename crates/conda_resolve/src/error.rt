use conda_encode::EncodeErr;
use conda_refute::Log;
use conda_sat::SatErr;
use std::alloc::AllocError;
use thiserror::Error;

/// Why there is no choice.
#[derive(Debug, Drop, Error)]
pub enum ResolveErr {
    /// There is no solution, which the log refutes.
    #[error("unsatisfiable")]
    Unsat { log: Log },
    /// There was no memory for the answer.
    #[error("out of memory")]
    Memory,
}

impl From<AllocError> for ResolveErr {
    ghost use Rattle.std.specs.Prelude.{◌≡◌};
    ghost use Rattle.conda_resolve.specs.declared.error.ResolveErr.{ResolveErr};

    ghost from_gives = { λ _ e. e ≡ ResolveErr.Memory };

    fn from(_: AllocError) -> ResolveErr {
        ResolveErr::Memory
    }
}

impl From<EncodeErr> for ResolveErr {
    ghost use Rattle.std.specs.Prelude.{◌≡◌};
    ghost use Rattle.conda_resolve.specs.declared.error.ResolveErr.{ResolveErr};

    ghost from_gives = { λ _ e. e ≡ ResolveErr.Memory };

    fn from(_: EncodeErr) -> ResolveErr {
        ResolveErr::Memory
    }
}

impl From<SatErr> for ResolveErr {
    ghost use Rattle.std.specs.Prelude.{◌≡◌};
    ghost use Rattle.conda_resolve.specs.declared.error.ResolveErr.{ResolveErr};

    ghost from_gives = { λ _ e. e ≡ ResolveErr.Memory };

    fn from(_: SatErr) -> ResolveErr {
        ResolveErr::Memory
    }
}
