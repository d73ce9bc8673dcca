ghost use Rattle.std.specs.Prelude.{◌≡◌};

use std::alloc::AllocError;

/// Why a text or a field is refused.
#[derive(Clone, Copy, Debug, PartialEq, Eq)]
pub enum JsonErr {
    /// The bytes are no JSON text, or lists and objects nest 128 deep or deeper.
    BadJson,
    /// The field is absent or of another kind.
    BadField,
    /// There was no memory.
    Memory,
}

impl From<AllocError> for JsonErr {
    ghost use Rattle.conda_json.specs.declared.error.JsonErr.{JsonErr};

    ghost from_gives = { λ _ e. e ≡ JsonErr.Memory };

    fn from(_: AllocError) -> JsonErr {
        JsonErr::Memory
    }
}
