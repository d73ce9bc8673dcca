//! The rows of the crates of an environment's files.
#![tactic(auto)]

mod changes;
mod checks;
mod edits;
mod goods;
mod meta;
mod shelf;

use conda_base::Text;
use rows_text::{Table, print_rows};
use std::alloc::{AllocError, Global};
use std::io;

struct Environments;

impl Table for Environments {
    fn answer(
        &self,
        alloc: Global,
        call: &str,
        arguments: &[Text],
    ) -> Result<Option<String>, AllocError> {
        if let Some(answer) = changes::answer(alloc, call, arguments)? {
            return Ok(Some(answer));
        }
        if let Some(answer) = meta::answer(alloc, call, arguments)? {
            return Ok(Some(answer));
        }
        goods::answer(alloc, call, arguments)
    }
}

fn main(rt: HostRuntime) -> io::Result<()> {
    print_rows(&rt, &Environments)
}
