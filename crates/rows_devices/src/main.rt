//! The rows of the devices in memory and of the machine over events.
#![tactic(auto)]

mod dev;
mod lane;
mod machine;

use conda_base::Text;
use rows_waiting::print_answers;
use std::alloc::{AllocError, Global};
use std::io;
use std::sync::Wait;

fn answer<R: Wait + Sync>(
    rt: &R,
    alloc: Global,
    call: &str,
    arguments: &[Text],
) -> Result<Option<String>, AllocError> {
    if let Some(answer) = machine::answer(alloc, call, arguments)? {
        return Ok(Some(answer));
    }
    dev::answer(rt, alloc, call, arguments)
}

fn main(rt: HostRuntime) -> io::Result<()> {
    print_answers(
        &rt,
        &|alloc, call, arguments| answer(&rt, alloc, call, arguments),
    )
}
