//! The listing of a package's files (`info/paths.json`), and whether a file is the listed one.
#![tactic(auto)]

mod error;
mod fields;
mod file;
mod laws;
mod listing;
mod row;

pub use error::{ListingErr, ListingWhy};
pub use file::{check, digest};
pub use laws::listing_laws;
pub use listing::Listing;
pub use row::{Placeholder, Row, RowKind};
