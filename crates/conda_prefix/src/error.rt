ghost use Rattle.std.specs.Prelude.{◌≡◌};

use std::alloc::AllocError;

/// Why a placeholder isn't replaced.
#[derive(Clone, Copy, Debug, PartialEq, Eq)]
pub enum PrefixErr {
    /// The placeholder has room for `have` bytes, and the prefix has `need`.
    PaddingShort { have: u64, need: u64 },
    /// There was no memory.
    Memory,
}

impl From<AllocError> for PrefixErr {
    ghost use Rattle.conda_prefix.specs.declared.error.PrefixErr.{PrefixErr};

    ghost from_gives = { λ _ e. e ≡ PrefixErr.Memory };

    fn from(_: AllocError) -> PrefixErr {
        PrefixErr::Memory
    }
}
