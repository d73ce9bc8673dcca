//! The rows of whole commands.
#![tactic(auto)]

mod cli;
mod sourced;

use crate::cli::answer;
use rows_waiting::print_answers;
use std::io;

fn main(rt: HostRuntime) -> io::Result<()> {
    print_answers(
        &rt,
        &|alloc, call, arguments| answer(&rt, alloc, call, arguments),
    )
}
