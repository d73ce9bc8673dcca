//! The history of an environment: its text, read and written, and the set of packages that it leaves.
#![tactic(auto)]

mod laws;
mod line;
mod names;
mod pieces;
mod read;
mod replay;
mod revision;
mod stamp;
mod text;

pub use laws::{grammar_laws, text_laws};
pub use revision::{Block, History, HistoryErr};
pub use stamp::Stamp;
