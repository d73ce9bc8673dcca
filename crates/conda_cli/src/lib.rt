//! The program's commands over any devices: words in, text and a status out.
#![tactic(auto)]

mod fault;
mod history_file;
mod listing;
mod refuting;
mod report;
mod runs;
mod say;
mod sourcing;
mod start;
mod words;

pub use conda_words::{Command, Verb, Why};
pub use fault::{Fault, fault_line};
pub use runs::{Ended, run, run_one};
pub use say::{give_fault, put};
pub use start::{HELP, VERSION, asked_text, split_root};
