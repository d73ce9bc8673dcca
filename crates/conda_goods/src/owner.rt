use conda_base::Copied;
use conda_path::Dist;
use std::alloc::AllocError;

/// Who has paths: a package, or what belongs to none. They are in this order.
#[derive(Clone, Debug, PartialEq, Eq, PartialOrd, Ord, Hash, Drop)]
pub enum Owner {
    Dist(Dist),
    Other,
}

impl Copied for Owner {
    fn copy(&self) -> Result<Owner, AllocError> {
        self.clone()
    }
}
