//! The devices that the program works on, as traits whose contracts say what each call does and
//! when it may fail.
#![tactic(auto)]

mod chan;
mod clock;
mod count;
mod fault;
mod host;
mod lane;
mod store;
mod streams;
mod touched;
mod trees;

pub use chan::{Chan, Shown};
pub use clock::Clock;
pub use count::{Counted, FaultCount};
pub use fault::{DeviceErr, Failed};
pub use host::Host;
pub use lane::{Abilities, Lane, Seen};
pub use store::Store;
pub use streams::{In, Out};
pub use touched::{Got, Touch, Touched};
pub use trees::tree_laws;
