//! What the changes of a plan make of the tree of an environment.
#![tactic(auto)]

mod laws;

pub use laws::plan_laws;
