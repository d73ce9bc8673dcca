ghost use Rattle.std.specs.Prelude.{◌≡◌, IfOk};
ghost use Rattle.conda_repodata.specs.Parts.{AreRead, IsJoined};

use crate::walk::{Entry, Found, read_entries};
use std::alloc::{AllocError, Global};
use std::thread::{Threads, join};

/// So many entries are read by one thread.
const FEW: usize = 1000;

fn joined(first: Found, second: Found) -> Result<Found, AllocError>
    ensures { IfOk result (IsJoined first second) }
{
    let Found {
        mut records,
        mut unread,
    } = first;
    let Found {
        records: mut more_records,
        unread: mut more_unread,
    } = second;
    records.append(&mut more_records)?;
    unread.append(&mut more_unread)?;
    Ok(Found { records, unread })
}

fn read_halves<R: Threads + Sync>(
    rt: &R,
    alloc: Global,
    entries: &[Entry],
    channel: &str,
    subdir: &str,
) -> Result<Found, AllocError>
    ensures { IfOk result (AreRead channel.now subdir.now entries.now) }
{
    let (front, back) = entries.split_at(entries.len() / 2);
    let (first, second) = join(
        rt,
        move || -> Result<Found, AllocError>
            ensures { IfOk result (AreRead channel.entry.now subdir.entry.now front.entry.now) }
        { read_entries(alloc, front, channel, subdir) },
        move || -> Result<Found, AllocError>
            ensures { IfOk result (AreRead channel.entry.now subdir.entry.now back.entry.now) }
        { read_entries(alloc, back, channel, subdir) },
    );
    joined(first?, second?)
}

fn read_quarters<R: Threads + Sync>(
    rt: &R,
    alloc: Global,
    entries: &[Entry],
    channel: &str,
    subdir: &str,
) -> Result<Found, AllocError>
    ensures { IfOk result (AreRead channel.now subdir.now entries.now) }
{
    let (front, back) = entries.split_at(entries.len() / 2);
    let (first, second) = join(
        rt,
        move || -> Result<Found, AllocError>
            ensures { IfOk result (AreRead channel.entry.now subdir.entry.now front.entry.now) }
        { read_halves(rt, alloc, front, channel, subdir) },
        move || -> Result<Found, AllocError>
            ensures { IfOk result (AreRead channel.entry.now subdir.entry.now back.entry.now) }
        { read_halves(rt, alloc, back, channel, subdir) },
    );
    joined(first?, second?)
}

/// Reads entries in their order: many of them by four threads, each of which reads a quarter.
pub fn read_all<R: Threads + Sync>(
    rt: &R,
    alloc: Global,
    entries: &[Entry],
    channel: &str,
    subdir: &str,
) -> Result<Found, AllocError>
    ensures { IfOk result (AreRead channel.now subdir.now entries.now) }
{
    if entries.len() <= FEW {
        return read_entries(alloc, entries, channel, subdir);
    }
    read_quarters(rt, alloc, entries, channel, subdir)
}
