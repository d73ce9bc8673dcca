use crate::pkg_record::PkgRecord;
use conda_base::{Copied, Rows, Text};
use std::alloc::AllocError;

/// The packages among which one of a name is chosen.
#[derive(Clone, Debug, Drop)]
pub struct NamePool {
    pub name: Text,
    pub recs: Rows<PkgRecord>,
}

impl Copied for NamePool {
    fn copy(&self) -> Result<NamePool, AllocError> {
        self.clone()
    }
}
