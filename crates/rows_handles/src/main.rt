//! The rows of the handles on channels and on the cache: in memory, checked, and held by one another.
#![tactic(auto)]

mod chan;
mod checked;
mod held;
mod store;

use conda_base::Text;
use rows_waiting::print_answers;
use std::alloc::{AllocError, Global};
use std::io;
use std::sync::Wait;
use std::thread::Threads;

fn answer<R: Threads + Wait + Sync>(
    rt: &R,
    alloc: Global,
    call: &str,
    arguments: &[Text],
) -> Result<Option<String>, AllocError> {
    if let Some(answer) = held::answer(rt, alloc, call, arguments)? {
        return Ok(Some(answer));
    }
    if let Some(answer) = checked::answer(rt, alloc, call, arguments)? {
        return Ok(Some(answer));
    }
    if let Some(answer) = chan::answer(rt, alloc, call, arguments)? {
        return Ok(Some(answer));
    }
    store::answer(rt, alloc, call, arguments)
}

fn main(rt: HostRuntime) -> io::Result<()> {
    print_answers(
        &rt,
        &|alloc, call, arguments| answer(&rt, alloc, call, arguments),
    )
}
