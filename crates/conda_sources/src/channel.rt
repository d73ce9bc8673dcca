ghost use Rattle.std.specs.Prelude.{◌≡◌, ◌+◌, ◌++◌, List, None, Ok, Option, Some, ℕ, take};
ghost use Rattle.std.specs.Prelude.{IfErr, IfOk, IfSome, option_map};
ghost use Rattle.std.specs.Option.{option_to_list};
ghost use Rattle.conda_base.specs.Reads.{Gives};
ghost use Rattle.conda_checked.specs.Lacks.{lacks_of};
ghost use Rattle.conda_device.specs.Channels.{asked_too};
ghost use Rattle.conda_device.specs.Fault.{BeforeOrAsked};
ghost use Rattle.conda_sources.specs.Asked.{AsksOnlyForRepodata};
ghost use Rattle.conda_sources.specs.Channels as channels;
ghost use Rattle.conda_sources.specs.Channels.{Found, found_in, text_in};
ghost use Rattle.conda_sources.specs.Reading.{HasChanCause, IsNoFault, behind_read, channel_read, part_read};
ghost use Rattle.conda_sources.specs.Reading.{repodata_limit, text_fault_of, unless_missing};

use crate::error::SourceErr;
use conda_base::{Rows, Text};
use conda_checked::Checked;
use conda_device::{Chan, DeviceErr};
use conda_repodata::{Repodata, RepodataErr};
use std::alloc::{AllocError, Global};
use std::thread::Threads;

/// The most bytes of a repodata text.
pub const REPODATA_LIMIT: u64 = 268_435_456;

/// The path of a repodata text as it is printed.
fn printed_path(alloc: Global, channel: &str, subdir: &str) -> Result<Text, AllocError>
    ensures { IfOk result (λ path. path ≡ channels.printed_path channel.now subdir.now) }
{
    let path = format!(in alloc; "{channel}/{subdir}/repodata.json")?;
    Ok(Text::from_string(path))
}

/// Where a channel has the repodata of a subdir.
fn repodata_path(alloc: Global, subdir: &str) -> Result<Text, AllocError>
    ensures { IfOk result (λ path. path ≡ channels.repodata_path subdir.now) }
{
    let path = format!(in alloc; "{subdir}/repodata.json")?;
    Ok(Text::from_string(path))
}

/// The bytes of a subdir's repodata, one more than its limit at the most, or None where it has none.
fn text_of<C: Chan>(
    alloc: Global,
    chan: &mut Checked<C>,
    subdir: &str,
) -> Result<Option<Vec<u8>>, SourceErr>
    ensures text { IfOk result (λ read. IfSome (C.files chan.old.inner)
        (λ all. option_map (λ bytes. bytes.items) read
        ≡ option_map (take (repodata_limit + 1)) (text_in all subdir.now))) }
    ensures err { IfErr result (λ e. text_fault_of e ≡ None) }
    ensures cause { HasChanCause (C.faults chan.old.inner) (C.faults chan.new.inner) result }
    ensures files { C.files chan.new.inner ≡ C.files chan.old.inner }
    ensures asked { BeforeOrAsked (C.asked chan.old.inner)
        (asked_too (C.asked chan.old.inner) (channels.repodata_path subdir.now)) (C.asked chan.new.inner) }
    ensures lacks { lacks_of chan.new ≡ lacks_of chan.old }
{
    let path = repodata_path(alloc, subdir)?;
    match chan.maybe(alloc, path.as_str(), REPODATA_LIMIT + 1) {
        Ok(text) => Ok(text),
        Err(DeviceErr::Failed) => Err(SourceErr::ChanFault),
        Err(DeviceErr::Memory) => Err(SourceErr::Memory),
    }
}

/// What a repodata text of a subdir is read as.
fn part_of<R: Threads + Sync>(
    rt: &R,
    alloc: Global,
    channel: &str,
    subdir: &str,
    bytes: Vec<u8>,
) -> Result<Option<Repodata>, SourceErr>
    ensures part { Gives text_fault_of result
        (part_read channel.now subdir.now (Some bytes.items)) }
    ensures no_fault { IfErr result IsNoFault }
{
    if bytes.len() as u64 > REPODATA_LIMIT {
        return Err(SourceErr::LongRepodata {
            path: printed_path(alloc, channel, subdir)?,
        });
    }
    match Repodata::read(rt, alloc, bytes.as_slice(), channel, subdir) {
        Ok(part) => Ok(Some(part)),
        Err(RepodataErr::BadRepodata { field }) => Err(SourceErr::BadRepodata {
            path: printed_path(alloc, channel, subdir)?,
            field,
        }),
        Err(RepodataErr::Memory) => Err(SourceErr::Memory),
    }
}

/// The part that a subdir's repodata is read as, if it has any.
fn if_there<R: Threads + Sync>(
    rt: &R,
    alloc: Global,
    channel: &str,
    subdir: &str,
    bytes: Option<Vec<u8>>,
) -> Result<Option<Repodata>, SourceErr>
    ensures part { Gives text_fault_of result (part_read channel.now subdir.now
        (option_map (λ bytes. bytes.items) bytes)) }
    ensures no_fault { IfErr result IsNoFault }
{
    match bytes {
        Some(bytes) => part_of(rt, alloc, channel, subdir, bytes),
        None => Ok(None),
    }
}

/// The part of a subdir, or None where it has no repodata.
fn read_part<C: Chan, R: Threads + Sync>(
    rt: &R,
    alloc: Global,
    chan: &mut Checked<C>,
    channel: &str,
    subdir: &str,
) -> Result<Option<Repodata>, SourceErr>
    ensures read { (text : Option (List ℕ))
        × IfSome (C.files chan.old.inner) (λ all. text ≡ text_in all subdir.now)
        × Gives text_fault_of result (part_read channel.now subdir.now text) }
    ensures cause { HasChanCause (C.faults chan.old.inner) (C.faults chan.new.inner) result }
    ensures files { C.files chan.new.inner ≡ C.files chan.old.inner }
    ensures asked { BeforeOrAsked (C.asked chan.old.inner)
        (asked_too (C.asked chan.old.inner) (channels.repodata_path subdir.now)) (C.asked chan.new.inner) }
    ensures lacks { lacks_of chan.new ≡ lacks_of chan.old }
{
    match text_of(alloc, chan, subdir) {
        Ok(bytes) => if_there(rt, alloc, channel, subdir, bytes),
        Err(error) => Err(error),
    }
}

/// The parts of a channel that has at least one.
fn parts_of(
    alloc: Global,
    channel: &str,
    linux: Option<Repodata>,
    noarch: Option<Repodata>,
) -> Result<Rows<Repodata>, SourceErr>
    ensures parts { Gives text_fault_of result
        (unless_missing channel.now linux noarch (Ok (option_to_list linux ++ option_to_list noarch))) }
    ensures no_fault { IfErr result IsNoFault }
{
    let mut parts = Vec::new(alloc);
    match (linux, noarch) {
        (Some(linux), Some(noarch)) => {
            parts.push(linux)?;
            parts.push(noarch)?;
            Ok(Rows::from_vec(parts))
        }
        (Some(part), None) | (None, Some(part)) => {
            parts.push(part)?;
            Ok(Rows::from_vec(parts))
        }
        (None, None) => Err(SourceErr::Missing {
            channel: Text::from_str(alloc, channel)?,
        }),
    }
}

/// Reads the repodata of `noarch`, behind the part of `linux-64`.
fn read_behind<C: Chan, R: Threads + Sync>(
    rt: &R,
    alloc: Global,
    chan: &mut Checked<C>,
    channel: &str,
    linux: Option<Repodata>,
) -> Result<Rows<Repodata>, SourceErr>
    ensures read { (text : Option (List ℕ))
        × IfSome (C.files chan.old.inner) (λ all. text ≡ text_in all channels.noarch)
        × Gives text_fault_of result (behind_read channel.now linux text) }
    ensures cause { HasChanCause (C.faults chan.old.inner) (C.faults chan.new.inner) result }
    ensures files { C.files chan.new.inner ≡ C.files chan.old.inner }
    ensures asked { BeforeOrAsked (C.asked chan.old.inner)
        (asked_too (C.asked chan.old.inner) (channels.repodata_path channels.noarch)) (C.asked chan.new.inner) }
    ensures lacks { lacks_of chan.new ≡ lacks_of chan.old }
{
    match read_part(rt, alloc, chan, channel, "noarch") {
        Ok(noarch) => parts_of(alloc, channel, linux, noarch),
        Err(error) => Err(error),
    }
}

/// Reads the repodata of a channel: first that of `linux-64`, then that of `noarch`; one of them may
/// be absent. A handle that tells its files gives what these are read as.
///
/// `BadRepodata` and `LongRepodata` name the first text that is refused; `Missing` comes where both
/// are absent, and `ChanFault` where the handle failed. No other file is asked for.
pub fn read_channel<C: Chan, R: Threads + Sync>(
    rt: &R,
    alloc: Global,
    chan: &mut Checked<C>,
    channel: &str,
) -> Result<Rows<Repodata>, SourceErr>
    ensures read { (found : Found) × (found.channel ≡ channel.now)
        × IfSome (C.files chan.old.inner) (λ all. found ≡ found_in channel.now all)
        × Gives text_fault_of result (channel_read found) }
    ensures cause { HasChanCause (C.faults chan.old.inner) (C.faults chan.new.inner) result }
    ensures files { C.files chan.new.inner ≡ C.files chan.old.inner }
    ensures asked { AsksOnlyForRepodata (C.asked chan.old.inner) (C.asked chan.new.inner) }
    ensures lacks { lacks_of chan.new ≡ lacks_of chan.old }
{
    match read_part(rt, alloc, chan, channel, "linux-64") {
        Ok(linux) => read_behind(rt, alloc, chan, channel, linux),
        Err(error) => Err(error),
    }
}
