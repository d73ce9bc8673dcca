use crate::setting::{listing, make_things};
use conda_device::Host;
use conda_real::RealHost;
use rows_plan::{run_chan, run_store};
use std::alloc::{AllocError, Global};
use std::fs;

/// A folder with these things in it and a host over it.
fn host_of(
    alloc: Global,
    rt: &HostRuntime,
    top: &str,
    things: &str,
) -> Result<Option<RealHost<HostRuntime>>, AllocError> {
    let _ = fs::remove_dir_all(rt, top);
    if make_things(alloc, rt, top, things).is_err() {
        return Ok(None);
    }
    Ok(Some(RealHost::make(rt.clone()?, alloc, top)?))
}

/// Runs calls, parted by `;`, on a handle of the channel `main` in the folder `c` of a folder with
/// these things in it. The answers and the count of faults.
pub fn chan_answer(
    alloc: Global,
    rt: &HostRuntime,
    top: &str,
    things: &str,
    calls: &str,
) -> Result<Option<String>, AllocError> {
    let Some(mut host) = host_of(alloc, rt, top, things)? else {
        return Ok(None);
    };
    let root = format!(in alloc; "{top}/c")?;
    let Ok(mut chan) = host.chan(alloc, root.as_str(), "main") else {
        return Ok(None);
    };
    let made = run_chan(alloc, &mut chan, calls)?;
    host.chan_back(chan);
    let _ = fs::remove_dir_all(rt, top);
    Ok(Some(made))
}

/// Runs calls, parted by `;`, on a handle of the cache `pkgs` in a folder with these things in it.
/// The answers, the count of faults, and all that lies in the folder afterwards.
pub fn store_answer(
    alloc: Global,
    rt: &HostRuntime,
    top: &str,
    things: &str,
    calls: &str,
) -> Result<Option<String>, AllocError> {
    let Some(mut host) = host_of(alloc, rt, top, things)? else {
        return Ok(None);
    };
    let root = format!(in alloc; "{top}/pkgs")?;
    let Ok(mut store) = host.store(alloc, root.as_str()) else {
        return Ok(None);
    };
    let made = run_store(alloc, &mut store, calls)?;
    host.store_back(store);
    let Ok(left) = listing(alloc, rt, top) else {
        return Ok(None);
    };
    let _ = fs::remove_dir_all(rt, top);
    let made = made.as_str();
    let left = left.as_str();
    Ok(Some(format!(in alloc; "{made}; {left}")?))
}
