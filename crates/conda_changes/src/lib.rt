//! From what goes and comes at each path to the changes of an environment: a path in the trash for
//! each old node, and the changes of each lane.
#![tactic(auto)]

mod changing;
mod laws;
mod moves;
mod paths;
mod shares;
mod trash;

pub use changing::changes_of;
pub use laws::{apart_laws, lane_laws};
pub use moves::{Move, Moves};
pub use shares::shares_of;
