//! Match specifications, after conda's `match_spec.py`: which packages a text names.
#![tactic(auto)]

mod cuts;
mod follow;
mod given;
mod head;
mod held;
mod items;
mod laws;
mod matches;
mod places;
mod read;
mod spec;
mod stay;
mod table;
mod text;
mod values;

pub use conda_clause::{SpecErr, SpecWhy, VersionClause, glob};
pub use laws::{grammar_laws, normal_form_law};
pub use spec::Spec;
pub use table::SpecTable;
