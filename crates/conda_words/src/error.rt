use std::alloc::{AllocError, AllocFailed};
use thiserror::Error;

/// What is wrong with a word.
#[derive(Clone, Copy, Debug, PartialEq, Eq, Error)]
pub enum Why {
    /// There is no such command, or the command has no such option.
    #[error("unknown")]
    Unknown,
    /// A word, an option or a value isn't there.
    #[error("missing")]
    Missing,
    /// The command takes no such word.
    #[error("extra")]
    Extra,
    /// An option, a channel or a prefix is given again.
    #[error("twice")]
    Twice,
    /// No number, or one out of range.
    #[error("number")]
    Number,
    /// No prefix.
    #[error("path")]
    Path,
    /// No name of a channel.
    #[error("channel")]
    Channel,
    /// A prefix inside or round another one.
    #[error("nested")]
    Nested,
    /// More than the program takes.
    #[error("limit")]
    Limit,
}

/// Why words or a script mean nothing.
#[derive(Clone, Copy, Debug, PartialEq, Eq, Error)]
pub enum WordsErr {
    /// The number of the first offending word, from 0, or of the first offending line of a script, from 1.
    #[error("usage: {at} {why}")]
    Usage { at: u64, why: Why },
    /// Memory ran out.
    #[error("out of memory")]
    Memory,
}

impl From<AllocError> for WordsErr {
    ghost use Rattle.std.specs.Prelude.{◌≡◌};
    ghost use Rattle.conda_words.specs.declared.error.WordsErr.TheVariants.{Memory};

    ghost from_gives = { λ _ e. e ≡ Memory };

    fn from(_e: AllocError) -> WordsErr {
        WordsErr::Memory
    }
}

impl<T: Drop> From<AllocFailed<T>> for WordsErr {
    ghost use Rattle.std.specs.Prelude.{◌≡◌};
    ghost use Rattle.conda_words.specs.declared.error.WordsErr.TheVariants.{Memory};

    ghost from_gives = { λ _ e. e ≡ Memory };

    fn from(_e: AllocFailed<T>) -> WordsErr {
        WordsErr::Memory
    }
}
