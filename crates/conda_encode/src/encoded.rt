use crate::asked::Asked;
use conda_base::{Copied, Rows, Text};
use conda_record::NamePool;
use conda_refute::Clause;
use std::alloc::AllocError;

/// Why a clause is there.
#[derive(Clone, Debug, Drop)]
pub enum Why {
    /// The item at this place, from 0, is wanted.
    Asked(usize),
    /// The record with this variable needs a package: the entry at this place, from 0, of its
    /// `depends`.
    Needs { rec: u32, entry: usize },
    /// The record with this variable bars another one: the entry at this place, from 0, of its
    /// `constrains`.
    Constrains { rec: u32, entry: usize },
    /// At most one package of the name is chosen.
    One { name: Text },
    /// The item at this place, from 0, is pinned, and names no such package.
    Pinned(usize),
}

impl Copied for Why {
    fn copy(&self) -> Result<Why, AllocError> {
        self.clone()
    }
}

/// A request as clauses. A variable is a record of the pools, from 1, in their order; it is true
/// where the record is chosen. The variables behind those of the records are helpers.
#[derive(Clone, Debug, Drop)]
pub struct Encoded {
    pub pools: Rows<NamePool>,
    pub asked: Rows<Asked>,
    /// The number of variables.
    pub vars: u32,
    pub clauses: Rows<Clause>,
    /// Why each clause is there, in the order of the clauses.
    pub whys: Rows<Why>,
}

impl Copied for Encoded {
    fn copy(&self) -> Result<Encoded, AllocError> {
        self.clone()
    }
}
