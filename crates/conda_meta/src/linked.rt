use conda_base::Copied;
use conda_goods::Goods;
use conda_record::PkgRecord;
use std::alloc::AllocError;

/// A package of an environment: its record, and what it has there.
#[derive(Clone, Debug, Drop)]
pub struct Linked {
    pub rec: PkgRecord,
    pub goods: Goods,
}

impl Copied for Linked {
    fn copy(&self) -> Result<Linked, AllocError> {
        self.clone()
    }
}
