//! What goes and what comes at each path with a revision: goods and meta files of the packages that
//! it unlinks and links, and its own meta file.
#![tactic(auto)]

mod files;
mod filling;
mod leaving;
mod moving;
mod paths;

pub use files::new_files;
pub use leaving::{file_paths, going};
pub use moving::moves_to;
