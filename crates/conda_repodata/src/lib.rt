//! The packages that a channel has for one subdir: its file `repodata.json`.
#![tactic(auto)]

mod aside;
mod entry;
mod error;
mod laws;
mod order;
mod parts;
mod repodata;
mod walk;

pub use aside::Aside;
pub use error::{RepodataErr, RepodataField};
pub use laws::repodata_laws;
pub use repodata::Repodata;
