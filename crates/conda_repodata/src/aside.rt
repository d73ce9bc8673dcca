use conda_base::{Copied, Text};
use conda_record::RecordField;
use std::alloc::AllocError;

/// One of the two objects that hold a channel's entries.
#[derive(Clone, Copy, Debug, PartialEq, Eq, PartialOrd, Ord)]
pub enum Section {
    /// `packages`.
    Packages,
    /// `packages.conda`.
    PackagesConda,
}

/// An entry that is no record: no package is made of it.
#[derive(Clone, Debug, PartialEq, Eq, Drop)]
pub struct Aside {
    /// The name of the package's file.
    pub file: Text,
    /// The first field that is bad.
    pub field: RecordField,
}

/// An entry that is set aside, and the object in which it stands.
#[derive(Debug, Drop)]
pub struct Unread {
    pub file: Text,
    pub section: Section,
    pub field: RecordField,
}

impl Copied for Aside {
    fn copy(&self) -> Result<Aside, AllocError> {
        self.clone()
    }
}
