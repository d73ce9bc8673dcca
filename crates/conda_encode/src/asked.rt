use conda_base::Copied;
use conda_spec::Spec;
use std::alloc::AllocError;

/// What an asked specification says of the choice.
#[derive(Clone, Copy, Debug, PartialEq, Eq)]
pub enum AskKind {
    /// A package that it names has to be there.
    Wanted,
    /// A package of its name, if one is there, has to be one that it names.
    Pinned,
}

impl Copied for AskKind {
    fn copy(&self) -> Result<AskKind, AllocError> {
        Ok(*self)
    }
}

/// A specification that the choice has to meet.
#[derive(Clone, Debug, Drop)]
pub struct Asked {
    /// Its name holds no star.
    pub spec: Spec,
    /// Whether the newest package of the name is wanted, also where another one is installed. A
    /// pinned specification isn't fresh.
    pub fresh: bool,
    pub kind: AskKind,
}

impl Copied for Asked {
    fn copy(&self) -> Result<Asked, AllocError> {
        self.clone()
    }
}
