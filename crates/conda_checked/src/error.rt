use conda_base::Copied;
use conda_device::DeviceErr;
use conda_path::Digest;
use std::alloc::AllocError;

/// Why a checked read has no answer.
#[derive(Clone, Copy, Debug, PartialEq, Eq)]
pub enum CheckErr {
    /// The device failed. Its count of faults says so too.
    Failed,
    /// The file isn't there. The handle's count of absent files says so too.
    Absent,
    /// The file has another size or digest. The handle's count of files that differ says so too.
    /// `found` is the digest of the bytes that came.
    Mismatch { want: Digest, found: Digest },
    /// There was no memory for the answer. No count rises.
    Memory,
}

impl From<DeviceErr> for CheckErr {
    ghost use Rattle.std.specs.Prelude.{◌≡◌};
    ghost use Rattle.conda_checked.specs.Reads.{check_err};

    ghost from_gives = { λ error made. made ≡ check_err error };

    fn from(error: DeviceErr) -> CheckErr {
        match error {
            DeviceErr::Failed => CheckErr::Failed,
            DeviceErr::Memory => CheckErr::Memory,
        }
    }
}

impl From<AllocError> for CheckErr {
    ghost use Rattle.std.specs.Prelude.{◌≡◌};
    ghost use Rattle.conda_checked.specs.declared.error.CheckErr.{CheckErr};

    ghost from_gives = { λ _ made. made ≡ CheckErr.Memory };

    fn from(_: AllocError) -> CheckErr {
        CheckErr::Memory
    }
}

impl Copied for CheckErr {
    fn copy(&self) -> Result<CheckErr, AllocError> {
        Ok(*self)
    }
}
