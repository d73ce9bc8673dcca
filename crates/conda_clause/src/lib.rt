//! Version clauses of specifications and the stars of globs, after conda's `version.py` and
//! `match_spec.py`.
#![tactic(auto)]

mod clause;
mod error;
mod kept;
mod laws;
mod reading;
mod star;
mod test;
mod token;
mod truth;

pub use clause::VersionClause;
pub use error::{SpecErr, SpecWhy};
pub use kept::{Kept, keep};
pub use laws::{
    beside_laws, clause_laws, grammar_laws, kept_laws, piece_laws, test_laws, truth_laws,
};
pub use star::{glob, glob_lowered};
