use conda_base::Text;
use conda_device::DeviceErr;
use conda_repodata::RepodataField;
use std::alloc::{AllocError, AllocFailed};
use thiserror::Error;

/// Why there is no index.
#[derive(Clone, Debug, PartialEq, Eq, Drop, Error)]
pub enum SourceErr {
    /// A repodata text is refused: its path, which begins with the channel's name, and the field.
    #[error("bad repodata {}: {field}", .path.as_str())]
    BadRepodata { path: Text, field: RepodataField },
    /// A repodata text is longer than 268,435,456 bytes: its path, which begins with the channel's
    /// name.
    #[error("too long: {} 268435456", .path.as_str())]
    LongRepodata { path: Text },
    /// No subdir of this channel has repodata.
    #[error("missing: {}", .channel.as_str())]
    Missing { channel: Text },
    /// There are more than 16,777,216 records, with the virtual packages.
    #[error("too long: records 16777216")]
    ManyRecords,
    /// A handle on a channel failed. The host's count of the channels' faults says so too.
    #[error("channel fault")]
    ChanFault,
    /// The host failed. Its count of faults says so too.
    #[error("host fault")]
    HostFault,
    /// There was no memory for the answer.
    #[error("out of memory")]
    Memory,
}

impl From<AllocError> for SourceErr {
    ghost use Rattle.std.specs.Prelude.{◌≡◌};
    ghost use Rattle.conda_sources.specs.declared.error.SourceErr.{SourceErr};

    ghost from_gives = { λ _ e. e ≡ SourceErr.Memory };

    fn from(_: AllocError) -> SourceErr {
        SourceErr::Memory
    }
}

impl<T: Drop> From<AllocFailed<T>> for SourceErr {
    ghost use Rattle.std.specs.Prelude.{◌≡◌};
    ghost use Rattle.conda_sources.specs.declared.error.SourceErr.{SourceErr};

    ghost from_gives = { λ _ e. e ≡ SourceErr.Memory };

    fn from(_: AllocFailed<T>) -> SourceErr {
        SourceErr::Memory
    }
}
