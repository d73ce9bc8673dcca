//! The rows of the crates of values.
#![tactic(auto)]

mod base;
mod json;
mod path;
mod prefix;
mod version;

use conda_base::Text;
use rows_text::{Table, print_rows};
use std::alloc::{AllocError, Global};
use std::io;

struct Values;

impl Table for Values {
    fn answer(
        &self,
        alloc: Global,
        call: &str,
        arguments: &[Text],
    ) -> Result<Option<String>, AllocError> {
        if let Some(answer) = base::answer(alloc, call, arguments)? {
            return Ok(Some(answer));
        }
        if let Some(answer) = path::answer(alloc, call, arguments)? {
            return Ok(Some(answer));
        }
        if let Some(answer) = version::answer(alloc, call, arguments)? {
            return Ok(Some(answer));
        }
        if let Some(answer) = json::answer(alloc, call, arguments)? {
            return Ok(Some(answer));
        }
        prefix::answer(alloc, call, arguments)
    }
}

fn main(rt: HostRuntime) -> io::Result<()> {
    print_rows(&rt, &Values)
}
