use std::alloc::{AllocError, AllocFailed};
use thiserror::Error;

/// What is wrong with a text that is no specification.
#[derive(Clone, Copy, Debug, PartialEq, Eq, Error)]
pub enum SpecWhy {
    /// An item in the brackets of another form, of an unknown key, or of a key that stood before.
    #[error("key")]
    Key,
    /// A channel or a subdir that is empty or holds a wrong character.
    #[error("channel")]
    Channel,
    /// No name.
    #[error("name")]
    Name,
    /// A star in the name where none is taken. No reader of this crate answers it.
    #[error("glob")]
    Glob,
    /// A word too many, or a text behind the name that is of no form.
    #[error("words")]
    Words,
    /// A parenthesis too many or too deep, or one that isn't closed.
    #[error("paren")]
    Paren,
    /// A test of a version that is none.
    #[error("version")]
    Version,
    /// A build that is empty or holds a wrong character.
    #[error("build")]
    Build,
}

/// Why no specification was read.
#[derive(Clone, Copy, Debug, PartialEq, Eq, Error)]
pub enum SpecErr {
    /// The text is no specification: the least place of a fault, in bytes of the text without the
    /// spaces at its ends.
    #[error("bad specification at {at}: {why}")]
    BadSpec { at: usize, why: SpecWhy },
    /// Memory ran out.
    #[error("out of memory")]
    Memory,
}

impl From<AllocError> for SpecErr {
    ghost use Rattle.std.specs.Prelude.{◌≡◌};
    ghost use Rattle.conda_clause.specs.declared.error.SpecErr.TheVariants.{Memory};

    ghost from_gives = { λ _ e. e ≡ Memory };

    fn from(_e: AllocError) -> SpecErr {
        SpecErr::Memory
    }
}

impl<T: Drop> From<AllocFailed<T>> for SpecErr {
    ghost use Rattle.std.specs.Prelude.{◌≡◌};
    ghost use Rattle.conda_clause.specs.declared.error.SpecErr.TheVariants.{Memory};

    ghost from_gives = { λ _ e. e ≡ Memory };

    fn from(_e: AllocFailed<T>) -> SpecErr {
        SpecErr::Memory
    }
}
