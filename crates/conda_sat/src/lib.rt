//! Satisfiability: a search that learns, whose "no" is a refutation.
#![tactic(auto)]

mod analysis;
mod assignment;
mod cases;
mod denial;
mod error;
mod ledger;
mod load;
mod mended;
mod model;
mod order;
mod question;
mod search;
mod solver;
mod steps;
mod trim;
mod verdict;
mod watches;
mod within;

pub use error::SatErr;
pub use question::solve;
pub use solver::Solver;
pub use verdict::{Answer, Verdict};
pub use within::{clauses_are_within, literals_are_within};
