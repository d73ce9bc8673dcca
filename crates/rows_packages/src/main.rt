//! The rows of the crates of package folders.
#![tactic(auto)]

mod link;
mod paths;
mod record;
mod repodata;

use conda_base::Text;
use rows_waiting::print_answers;
use std::alloc::{AllocError, Global};
use std::io;
use std::thread::Threads;

fn answer<R: Threads + Sync>(
    rt: &R,
    alloc: Global,
    call: &str,
    arguments: &[Text],
) -> Result<Option<String>, AllocError> {
    if let Some(answer) = paths::answer(alloc, call, arguments)? {
        return Ok(Some(answer));
    }
    if let Some(answer) = link::answer(alloc, call, arguments)? {
        return Ok(Some(answer));
    }
    if let Some(answer) = record::answer(alloc, call, arguments)? {
        return Ok(Some(answer));
    }
    repodata::answer(rt, alloc, call, arguments)
}

fn main(rt: HostRuntime) -> io::Result<()> {
    print_answers(
        &rt,
        &|alloc: Global, call: &str, arguments: &[Text]| { answer(&rt, alloc, call, arguments) },
    )
}
