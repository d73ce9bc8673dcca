ghost use Rattle.std.specs.Prelude.{◌≡◌, IfErr, IfOk};
ghost use Rattle.std.specs.Prelude.{Contains};
ghost use Rattle.conda_path.specs.declared.values.Good.{Good};
ghost use Rattle.conda_lane.specs.Supplies.{HasSupplyCause, IsGiven, Keeps, KeepsGood, SupplyState};

use conda_base::Copied;
use conda_device::Failed;
use conda_path::{Node, RelPath, StorePath};
use std::alloc::{AllocError, Global};

/// A new node, and the file in the cache that a lane may link in its place, if there is one.
#[derive(Clone, Debug, PartialEq, Eq, Drop)]
pub struct Given {
    pub node: Node,
    pub hard: Option<StorePath>,
}

/// Why a supply gives no node. The counts of its handles say so too.
#[derive(Clone, Copy, Debug, PartialEq, Eq)]
pub enum SupplyErr {
    /// A channel failed.
    ChanFault,
    /// The cache failed.
    StoreFault,
    /// A file was absent.
    Missing,
    /// A file had another size or digest.
    Damaged,
    /// There was no memory.
    Memory,
}

/// Why new nodes were not all put.
#[derive(Clone, Copy, Debug, PartialEq, Eq)]
pub enum Cause {
    /// The lane failed.
    LaneFault,
    /// A channel failed.
    ChanFault,
    /// The cache failed.
    StoreFault,
    /// A file was absent.
    Missing,
    /// A file had another size or digest.
    Damaged,
    /// There was no memory.
    Memory,
}

/// The new nodes were not all put.
#[derive(Clone, Copy, Debug, PartialEq, Eq)]
pub struct Stopped {
    pub cause: Cause,
}

/// What gives the new nodes of changes, by their paths.
pub trait Supply: Send + Drop {
    /// The goods that it was made with, the nodes that it keeps for some of their paths, its
    /// handles, and the files that it may read.
    ghost state: { Self → SupplyState };

    /// The node of a path's good: the one that is kept for the path, if one is.
    fn give(&mut self, alloc: Global, path: &RelPath) -> Result<Given, SupplyErr>
        requires { (good : Good) × Contains (state self.old).goods good × (good.path ≡ path.now) }
        ensures node { IfOk result (λ given. IsGiven (state self.old) path.now given.node) }
        ensures keeps { Keeps (state self.old) (state self.new) }
        ensures cause { IfErr result (λ e. HasSupplyCause e (state self.old) (state self.new)) };

    /// What it keeps is of the goods.
    ghost good: { (supply : Self) → KeepsGood (state supply) };
}

impl From<SupplyErr> for Stopped {
    ghost use Rattle.std.specs.Prelude.{◌≡◌};
    ghost use Rattle.conda_lane.specs.Supplies.{cause_of};

    ghost from_gives = { λ e stopped. stopped ≡ record { cause = cause_of e } };

    fn from(e: SupplyErr) -> Stopped {
        let cause = match e {
            SupplyErr::ChanFault => Cause::ChanFault,
            SupplyErr::StoreFault => Cause::StoreFault,
            SupplyErr::Missing => Cause::Missing,
            SupplyErr::Damaged => Cause::Damaged,
            SupplyErr::Memory => Cause::Memory,
        };
        Stopped { cause }
    }
}

impl From<Failed> for Stopped {
    ghost use Rattle.std.specs.Prelude.{◌≡◌};
    ghost use Rattle.conda_lane.specs.declared.supply.Cause.{Cause};

    ghost from_gives = { λ _ stopped. stopped ≡ record { cause = Cause.LaneFault } };

    fn from(_: Failed) -> Stopped {
        Stopped {
            cause: Cause::LaneFault,
        }
    }
}

impl Copied for Given {
    fn copy(&self) -> Result<Given, AllocError> {
        self.clone()
    }
}

impl Copied for SupplyErr {
    fn copy(&self) -> Result<SupplyErr, AllocError> {
        Ok(*self)
    }
}

impl Copied for Cause {
    fn copy(&self) -> Result<Cause, AllocError> {
        Ok(*self)
    }
}

impl Copied for Stopped {
    fn copy(&self) -> Result<Stopped, AllocError> {
        Ok(*self)
    }
}
