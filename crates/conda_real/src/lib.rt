//! The devices of the machine: its folders, channels and cache, standard input and output, and its
//! clock. They tell nothing of content.
#![tactic(auto)]

mod chan;
mod clock;
mod host;
mod lane;
mod store;
mod streams;

pub use chan::RealChan;
pub use clock::RealClock;
pub use host::RealHost;
pub use lane::RealLane;
pub use store::RealStore;
pub use streams::{RealIn, RealOut};
