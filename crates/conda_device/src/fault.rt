ghost use Rattle.std.specs.Prelude.{◌≡◌};

use std::alloc::AllocError;

/// The device failed. Its count of faults says so too.
#[derive(Clone, Copy, Debug, PartialEq, Eq)]
pub struct Failed;

/// Why a call that hands out bytes, paths or handles has no answer.
#[derive(Clone, Copy, Debug, PartialEq, Eq)]
pub enum DeviceErr {
    /// The device failed. Its count of faults says so too.
    Failed,
    /// There was no memory for the answer. No count of faults rises.
    Memory,
}

impl From<Failed> for DeviceErr {
    ghost use Rattle.conda_device.specs.declared.fault.DeviceErr.{DeviceErr};

    ghost from_gives = { λ _ e. e ≡ DeviceErr.Failed };

    fn from(_: Failed) -> DeviceErr {
        DeviceErr::Failed
    }
}

impl From<AllocError> for DeviceErr {
    ghost use Rattle.conda_device.specs.declared.fault.DeviceErr.{DeviceErr};

    ghost from_gives = { λ _ e. e ≡ DeviceErr.Memory };

    fn from(_: AllocError) -> DeviceErr {
        DeviceErr::Memory
    }
}
