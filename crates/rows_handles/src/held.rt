use crate::chan::{host_of, shown_bytes};
use conda_base::Text;
use conda_dev::{Chan, Counted, DeviceErr, Host, MemChan};
use std::alloc::{AllocError, Global};
use std::sync::Wait;
use std::thread;
use std::thread::Threads;

/// The rows of calls that wait for one another. `chan.held FILES|FIRST|SECOND` reads the two paths
/// at once, each by a handle of its own; `chan.alone FILES|FIRST|SECOND` reads the first one alone.
pub fn answer<R: Threads + Wait + Sync>(
    rt: &R,
    alloc: Global,
    call: &str,
    arguments: &[Text],
) -> Result<Option<String>, AllocError> {
    match (call, arguments) {
        ("chan.held", [files, first, second]) => {
            hold_both(rt, alloc, files.as_str(), first.as_str(), second.as_str())
        }
        ("chan.alone", [files, first, second]) => {
            hold_one(rt, alloc, files.as_str(), first.as_str(), second.as_str())
        }
        _ => Ok(None),
    }
}

type Read = Result<Option<Vec<u8>>, DeviceErr>;

/// Reads a path of each of two handles, at once.
fn read_both<R: Threads + Sync, C: Chan>(
    rt: &R,
    alloc: Global,
    one: &mut C,
    other: &mut C,
    first: &str,
    second: &str,
) -> (Read, Read) {
    thread::join(
        rt,
        || one.read(alloc, first, 100),
        || other.read(alloc, second, 100),
    )
}

/// So many handles on a channel, of which the reads of two paths wait for one another.
fn held_chans<R: Wait + Clone + Send + Drop>(
    rt: R,
    alloc: Global,
    files: &str,
    paths: (&str, &str),
    count: u32,
) -> Result<Vec<MemChan>, AllocError> {
    let mut host = host_of(rt, alloc, "", files)?;
    host.hold(alloc, paths.0, paths.1)?;
    let mut chans = Vec::new(alloc);
    for _ in 0..count {
        if let Ok(chan) = host.chan(alloc, "/channels", "main") {
            chans.push(chan)?;
        }
    }
    Ok(chans)
}

fn hold_both<R: Threads + Wait + Sync>(
    rt: &R,
    alloc: Global,
    files: &str,
    first: &str,
    second: &str,
) -> Result<Option<String>, AllocError> {
    let mut chans = held_chans(rt, alloc, files, (first, second), 2)?;
    let (Some(mut one), Some(mut other)) = (chans.pop(), chans.pop()) else {
        return Ok(None);
    };
    let (this, that) = read_both(rt, alloc, &mut one, &mut other, first, second);
    let this = shown_bytes(alloc, this)?;
    let that = shown_bytes(alloc, that)?;
    let faults = one.faults().saturating_add(other.faults());
    let this = this.as_str();
    let that = that.as_str();
    Ok(Some(format!(in alloc; "{this} {that}, {faults} faults")?))
}

fn hold_one<R: Threads + Wait + Sync>(
    rt: &R,
    alloc: Global,
    files: &str,
    first: &str,
    second: &str,
) -> Result<Option<String>, AllocError> {
    let mut chans = held_chans(rt, alloc, files, (first, second), 1)?;
    let Some(mut one) = chans.pop() else {
        return Ok(None);
    };
    let this = shown_bytes(alloc, one.read(alloc, first, 100))?;
    let again = shown_bytes(alloc, one.read(alloc, first, 100))?;
    let faults = one.faults();
    let this = this.as_str();
    let again = again.as_str();
    Ok(Some(format!(in alloc; "{this} {again}, {faults} faults")?))
}
