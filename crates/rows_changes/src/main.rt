//! The rows of changes with their paths in the trash.
#![tactic(auto)]

mod answering;
mod moving;
mod showing;

use conda_base::Text;
use rows_text::{Table, print_rows};
use std::alloc::{AllocError, Global};
use std::io;

struct ChangeRows;

impl Table for ChangeRows {
    fn answer(
        &self,
        alloc: Global,
        call: &str,
        arguments: &[Text],
    ) -> Result<Option<String>, AllocError> {
        answering::answer(alloc, call, arguments)
    }
}

fn main(rt: HostRuntime) -> io::Result<()> {
    print_rows(&rt, &ChangeRows)
}
