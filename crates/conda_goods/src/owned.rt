use crate::goods::Goods;
use crate::owner::Owner;
use conda_base::Copied;
use std::alloc::AllocError;

/// Goods and their owner.
#[derive(Clone, Debug, PartialEq, Eq, Drop)]
pub struct Owned {
    pub owner: Owner,
    pub goods: Goods,
}

impl Copied for Owned {
    fn copy(&self) -> Result<Owned, AllocError> {
        self.clone()
    }
}
