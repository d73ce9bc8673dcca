//! The words of a command line and the lines of a script: what they mean, and the first fault of those that mean
//! nothing. This project's own rules.
#![tactic(auto)]

mod command;
mod cut;
mod error;
mod laws;
mod reading;
mod script;
mod table;
mod value;
mod words;

pub use command::{Command, Line, Verb, Virtual};
pub use error::{Why, WordsErr};
pub use laws::{script_laws, words_laws};
pub use script::read_script;
pub use words::read_words;
