//! The machine's files as the devices need them: what lies at a place, reading it, making and
//! moving it, the paths and names below a folder, and what a refusal of the machine comes to.
#![tactic(auto)]

mod coming;
mod names;
mod places;
mod reading;
mod refusal;
mod share;
mod walk;

pub use coming::{Coming, bring, drop_empty, make, temporary_place};
pub use names::{MARK, ordered_folders_with, ready_keys};
pub use places::{Found, found_at, is_behind_link, is_inside, place_in, slot_folder};
pub use reading::{bytes_at, node_at, seen_at, target_bytes};
pub use refusal::{answered, done, is_absent, refused};
pub use share::Share;
pub use walk::paths_below;
