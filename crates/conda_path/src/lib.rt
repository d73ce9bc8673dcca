//! Paths inside a prefix, prefixes, package names (dists), slot keys and the lane of a path.
#![tactic(auto)]

mod dist;
mod error;
mod file;
mod lane;
mod prefix;
mod rel_path;
mod scan;
mod slot;
mod values;

pub use dist::{Dist, dist_laws};
pub use error::{DistErr, PathErr};
pub use file::{cut_ending, ending_laws};
pub use lane::{lane_of, trash_laws};
pub use prefix::Prefix;
pub use rel_path::{RelPath, path_laws};
pub use slot::{SlotKey, StorePath, one_key};
pub use values::{Digest, Good, Kind, Node};
