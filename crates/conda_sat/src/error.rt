use std::alloc::AllocError;

/// Why there is no answer.
#[derive(Clone, Copy, Debug, PartialEq, Eq)]
pub enum SatErr {
    /// Memory ran out.
    Memory,
}

impl From<AllocError> for SatErr {
    ghost use Rattle.std.specs.Prelude.{◌≡◌};
    ghost use Rattle.conda_sat.specs.declared.error.SatErr.TheVariants.{Memory};

    ghost from_gives = { λ _ e. e ≡ Memory };

    fn from(_e: AllocError) -> SatErr {
        SatErr::Memory
    }
}
