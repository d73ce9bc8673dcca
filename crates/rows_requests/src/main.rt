//! The rows of the index, of requests as clauses, of choices, of the reports of requests that have no
//! solution, and of what `search` and `solve` answer.
#![tactic(auto)]

mod choice;
mod clauses;
mod index;
mod packages;
mod plain;
mod report;
mod requests;
mod solution;

use conda_base::Text;
use rows_waiting::print_answers;
use std::alloc::{AllocError, Global};
use std::io;
use std::thread::Threads;

fn answer<R: Threads + Sync>(
    rt: &R,
    alloc: Global,
    call: &str,
    arguments: &[Text],
) -> Result<Option<String>, AllocError> {
    if call.starts_with("index.") {
        return index::answer(rt, alloc, call, arguments);
    }
    if call.starts_with("encode.") {
        return clauses::answer(rt, alloc, call, arguments);
    }
    if call.starts_with("resolve.") {
        return choice::answer(rt, alloc, call, arguments);
    }
    if call.starts_with("request.") {
        return requests::answer(rt, alloc, call, arguments);
    }
    report::answer(rt, alloc, call, arguments)
}

fn main(rt: HostRuntime) -> io::Result<()> {
    print_answers(
        &rt,
        &|alloc, call, arguments| answer(&rt, alloc, call, arguments),
    )
}
