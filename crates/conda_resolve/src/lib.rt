//! The first choice: of all solutions of a request the one that takes the first record of each
//! name, name after name; or a refutation that there is none.
#![tactic(auto)]

mod asking;
mod deciding;
mod error;
mod laws;
mod names;
mod order;
mod places;
mod ranking;
mod resolving;
mod sorting;

pub use error::ResolveErr;
pub use laws::choice_laws;
pub use resolving::resolve;
