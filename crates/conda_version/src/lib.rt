//! Versions of packages: what a text means as one, their order, and which begins with which.
//! The rules are those of conda's `version.py`.
#![tactic(auto)]

mod build;
mod components;
mod error;
mod laws;
mod run;
mod shape;
mod text;
mod version;

pub use error::{VersionErr, VersionWhy};
pub use laws::{grammar_laws, order_laws, trimmed_law};
pub use text::trimmed;
pub use version::Version;
