use crate::owner::Owner;
use conda_path::RelPath;
use thiserror::Error;

/// Why goods have no union.
#[derive(Debug, PartialEq, Eq, Drop, Error)]
pub enum GoodsErr {
    /// `path` is the least path that two owners have, or that one has below a path of another.
    /// `first` and `second` are the first two in order of the owners that conflict there.
    #[error("two owners have one path, or one below the other")]
    Clobber {
        path: RelPath,
        first: Owner,
        second: Owner,
    },
    /// There was no memory for the answer.
    #[error("out of memory")]
    Memory,
}
