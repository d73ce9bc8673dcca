//! The rows of the solver and its checker.
#![tactic(auto)]

mod refute;
mod sat;

use conda_base::Text;
use rows_text::{Table, print_rows};
use std::alloc::{AllocError, Global};
use std::io;

struct Solver;

impl Table for Solver {
    fn answer(
        &self,
        alloc: Global,
        call: &str,
        arguments: &[Text],
    ) -> Result<Option<String>, AllocError> {
        if let Some(answer) = refute::answer(alloc, call, arguments)? {
            return Ok(Some(answer));
        }
        sat::answer(alloc, call, arguments)
    }
}

fn main(rt: HostRuntime) -> io::Result<()> {
    print_rows(&rt, &Solver)
}
