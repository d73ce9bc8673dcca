//! Where the files of a package go when it is linked, and what stands there.
#![tactic(auto)]

mod error;
mod filling;
mod laws;
mod package;
mod places;
mod placing;
mod rows;

pub use error::PlacingErr;
pub use filling::content;
pub use laws::package_laws;
pub use package::Package;
pub use placing::{Origin, Placing};
pub use rows::placings;
