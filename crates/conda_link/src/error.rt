use conda_base::Copied;
use std::alloc::AllocError;
use thiserror::Error;

/// Why a link file or a place is refused.
#[derive(Clone, Copy, Debug, PartialEq, Eq, Error)]
pub enum LinkErr {
    /// The first bad entry point, from 0; 0 where the file itself has another form.
    #[error("bad link file at entry {entry}")]
    BadLink { entry: u64 },
    /// The new place is no path: it is longer than 1,024 bytes.
    #[error("bad path")]
    BadPath,
    /// There was no memory for the answer.
    #[error("out of memory")]
    Memory,
}

impl From<AllocError> for LinkErr {
    ghost use Rattle.std.specs.Prelude.{◌≡◌};
    ghost use Rattle.conda_link.specs.declared.error.LinkErr.{LinkErr};

    ghost from_gives = { λ _ e. e ≡ LinkErr.Memory };

    fn from(_: AllocError) -> LinkErr {
        LinkErr::Memory
    }
}

impl Copied for LinkErr {
    fn copy(&self) -> Result<LinkErr, AllocError> {
        Ok(*self)
    }
}
