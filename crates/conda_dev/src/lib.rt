//! The devices of conda_device, and a form of each in memory that fails at given calls.
#![tactic(auto)]

mod clock;
mod lending;
mod mem_host;
mod mem_lane;
mod place;
mod streams;
mod tree;

pub use clock::FixedClock;
pub use conda_device::{
    Abilities, Chan, Clock, Counted, DeviceErr, Failed, FaultCount, Got, Host, In, Lane, Out, Seen,
    Shown, Store, Touch, Touched, tree_laws,
};
pub use conda_mem::{Effect, FailAt, MemChan, MemStore, Target};
pub use mem_host::MemHost;
pub use mem_lane::MemLane;
pub use streams::{MemIn, MemOut};
pub use tree::Tree;
