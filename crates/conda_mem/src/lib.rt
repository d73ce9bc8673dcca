//! Channels and the cache folder in memory, and which calls of a form in memory are to fail.
#![tactic(auto)]

mod cache;
mod fault;
mod files;
mod folders;
mod gots;
mod hold;
mod mem_chan;
mod mem_store;
mod meter;
mod nodes;
mod watch;

pub use cache::Cache;
pub use fault::{Effect, FailAt, Planned, Target, add_stops, plan_for, plan_for_lane};
pub use files::{Files, channels_of, files_named};
pub use gots::{Gots, Room};
pub use hold::Hold;
pub use mem_chan::MemChan;
pub use mem_store::{Ended, MemStore};
pub use meter::Meter;
pub use watch::Watch;
