//! Requests: what the words of `search` and `solve` ask for, and what is answered of an index.
#![tactic(auto)]

mod error;
mod reading;
mod report;
mod searching;
mod solving;

pub use error::{RequestErr, WordErr};
pub use reading::{read_spec, read_specs};
pub use searching::search_report;
pub use solving::solve_report;
