//! Which packages a revision of an environment links and unlinks.
#![tactic(auto)]

mod by_dist;
mod laws;
mod linking;
mod newly;
mod python;
mod revision;
mod unlinking;

pub use laws::linking_laws;
pub use revision::revision_to;
