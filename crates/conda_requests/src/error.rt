use conda_base::Text;
use conda_spec::SpecWhy;
use std::alloc::AllocError;
use thiserror::Error;

/// Why words are no specifications.
#[derive(Clone, Debug, PartialEq, Eq, Drop, Error)]
pub enum WordErr {
    /// A word is no specification, or one that holds a star in its name where none is taken: the
    /// word, the place of the fault in bytes of the word without the spaces at its ends, and why.
    #[error("bad specification at {at}: {why}")]
    BadSpec { text: Text, at: u64, why: SpecWhy },
    /// There was no memory for the answer.
    #[error("out of memory")]
    Memory,
}

/// Why a request has no report.
#[derive(Clone, Debug, PartialEq, Eq, Drop, Error)]
pub enum RequestErr {
    /// No record of a pool is one that the specification names.
    #[error("no match")]
    NoMatch,
    /// There is no solution. The report gives the reasons, and a refutation over them.
    #[error("unsatisfiable")]
    Unsat { report: Text },
    /// There was no memory for the answer.
    #[error("out of memory")]
    Memory,
}

impl From<AllocError> for WordErr {
    ghost use Rattle.std.specs.Prelude.{◌≡◌};
    ghost use Rattle.conda_requests.specs.declared.error.WordErr.{WordErr};

    ghost from_gives = { λ _ e. e ≡ WordErr.Memory };

    fn from(_: AllocError) -> WordErr {
        WordErr::Memory
    }
}

impl From<AllocError> for RequestErr {
    ghost use Rattle.std.specs.Prelude.{◌≡◌};
    ghost use Rattle.conda_requests.specs.declared.error.RequestErr.{RequestErr};

    ghost from_gives = { λ _ e. e ≡ RequestErr.Memory };

    fn from(_: AllocError) -> RequestErr {
        RequestErr::Memory
    }
}
