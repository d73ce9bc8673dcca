ghost use Rattle.std.specs.Prelude.{◌≤◌, ◌+◌, ◌↔◌, List, IsTrue, length};
ghost use Rattle.std.specs.List.{All};
ghost use Rattle.conda_index.specs.Pools.{given, index_limit};
ghost use Rattle.conda_sources.specs.Channels.{AreFound, Found};
ghost use Rattle.conda_sources.specs.Sources.{HasSourceCause, IsSourced, OnlyReads};
ghost use Rattle.conda_sources.specs.Virtuals as virtuals;
ghost use Rattle.conda_sources.specs.Virtuals.{IsGiven};

use crate::channels::read_channels;
use crate::error::SourceErr;
use crate::virtuals::virtual_list;
use conda_device::Host;
use conda_index::{INDEX_LIMIT, Index, index_laws};
use conda_record::record_laws;
use conda_repodata::{Repodata, repodata_laws};
use conda_words::Command;
use std::alloc::Global;
use std::thread::Threads;

/// Whether an index takes the records of the parts and so many virtual packages.
fn are_few(parts: &[Repodata], virtuals: usize) -> bool
    ensures { IsTrue result ↔ length (given parts.now) + virtuals ≤ index_limit }
{
    let mut count = virtuals;
    for part in parts {
        let more = part.recs.len();
        if more > INDEX_LIMIT || count > INDEX_LIMIT {
            return false;
        }
        count += more;
    }
    count <= INDEX_LIMIT
}

/// The index of a command: of the channels that it names, each earlier one hiding the later ones, and
/// of its virtual packages.
///
/// `BadRepodata` and `LongRepodata` name the first text that is refused, `Missing` the first channel
/// that has none; `ManyRecords` comes where an index doesn't take them all. `ChanFault` and
/// `HostFault` come only where that count rose.
pub fn index_of<H: Host, R: Threads + Sync>(
    rt: &R,
    alloc: Global,
    host: &mut H,
    command: &Command,
) -> Result<Index, SourceErr>
    requires given { All IsGiven command.now.virtuals }
    ensures index { (found : List Found)
        × AreFound ((H.state host.old).files command.now.channel_dir) command.now.channels found
        × IsSourced (virtuals.virtual_list command.now.virtuals) found result }
    ensures cause { HasSourceCause (H.state host.old) (H.state host.new) result }
    ensures reads { OnlyReads (H.state host.old) (H.state host.new) }
{
    repodata_laws();
    record_laws();
    index_laws();
    let virtuals = virtual_list(alloc, command.virtuals.as_slice())?;
    let root = command.channel_dir.as_str();
    let parts = read_channels(rt, alloc, host, root, command.channels.as_slice())?.into_vec();
    if !are_few(parts.as_slice(), virtuals.len()) {
        return Err(SourceErr::ManyRecords);
    }
    match Index::make(rt, alloc, parts, virtuals) {
        Ok(index) => Ok(index),
        Err(_) => Err(SourceErr::Memory),
    }
}
