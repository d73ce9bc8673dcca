use conda_base::Copied;
use conda_path::{Good, RelPath};
use std::alloc::AllocError;

/// A change of one path: whether an old node stands there, what the new one has to show, if there
/// is one, and where in the trash the old node goes. Both paths lie in one lane.
#[derive(Clone, Debug, PartialEq, Eq, Drop)]
pub struct Change {
    pub path: RelPath,
    pub old: bool,
    pub new: Option<Good>,
    pub trash: RelPath,
}

impl Copied for Change {
    fn copy(&self) -> Result<Change, AllocError> {
        self.clone()
    }
}
