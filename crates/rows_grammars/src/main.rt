//! The rows of the crates of grammars.
#![tactic(auto)]

mod clause;
mod history;
mod spec;
mod words;

use conda_base::Text;
use rows_text::{Table, print_rows};
use std::alloc::{AllocError, Global};
use std::io;

struct Grammars;

impl Table for Grammars {
    fn answer(
        &self,
        alloc: Global,
        call: &str,
        arguments: &[Text],
    ) -> Result<Option<String>, AllocError> {
        if let Some(answer) = clause::answer(alloc, call, arguments)? {
            return Ok(Some(answer));
        }
        if let Some(answer) = spec::answer(alloc, call, arguments)? {
            return Ok(Some(answer));
        }
        if let Some(answer) = words::answer(alloc, call, arguments)? {
            return Ok(Some(answer));
        }
        history::answer(alloc, call, arguments)
    }
}

fn main(rt: HostRuntime) -> io::Result<()> {
    print_rows(&rt, &Grammars)
}
