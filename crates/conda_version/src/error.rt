use std::alloc::{AllocError, AllocFailed};
use thiserror::Error;

/// What is wrong with a text that is no version.
#[derive(Clone, Copy, Debug, PartialEq, Eq, Error)]
pub enum VersionWhy {
    /// There is no text.
    #[error("empty")]
    Empty,
    /// A character that no version holds.
    #[error("char")]
    Char,
    /// A `!` behind no number, or a second one.
    #[error("epoch")]
    Epoch,
    /// A `+` with nothing before it, or a second one.
    #[error("local")]
    Local,
    /// An empty component.
    #[error("component")]
    Component,
    /// More than 38 digits in a row.
    #[error("numeral")]
    Numeral,
}

/// Why no version was read.
#[derive(Clone, Copy, Debug, PartialEq, Eq, Error)]
pub enum VersionErr {
    /// The text is no version: its first fault, and the byte of the text without the spaces at its ends.
    #[error("bad version at {at}: {why}")]
    BadVersion { at: usize, why: VersionWhy },
    /// Memory ran out.
    #[error("out of memory")]
    Memory,
}

impl From<AllocError> for VersionErr {
    ghost use Rattle.std.specs.Prelude.{◌≡◌};
    ghost use Rattle.conda_version.specs.declared.error.VersionErr.TheVariants.{Memory};

    ghost from_gives = { λ _ e. e ≡ Memory };

    fn from(_e: AllocError) -> VersionErr {
        VersionErr::Memory
    }
}

impl<T: Drop> From<AllocFailed<T>> for VersionErr {
    ghost use Rattle.std.specs.Prelude.{◌≡◌};
    ghost use Rattle.conda_version.specs.declared.error.VersionErr.TheVariants.{Memory};

    ghost from_gives = { λ _ e. e ≡ Memory };

    fn from(_e: AllocFailed<T>) -> VersionErr {
        VersionErr::Memory
    }
}
