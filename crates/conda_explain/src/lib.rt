//! The report of a request that has no solution: the reasons for it, and a refutation over these.
#![tactic(auto)]

mod error;
mod explaining;
mod laws;
mod reason;
mod renumbering;
mod shown;
mod used;

pub use error::ExplainErr;
pub use explaining::explain;
pub use laws::report_laws;
