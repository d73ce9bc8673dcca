ghost use Rattle.std.specs.Prelude.{◌≡◌, ◌++◌, List, OnOk};
ghost use Rattle.conda_base.specs.Reads.{Gives};
ghost use Rattle.conda_sources.specs.Channels.{AreFound, Found, IsTold};
ghost use Rattle.conda_sources.specs.Reading.{channel_read, channels_read, text_fault_of};
ghost use Rattle.conda_sources.specs.Sources.{HasSourceCause, OnlyReads};

use crate::channel::read_channel;
use crate::error::SourceErr;
use conda_base::{Rows, Text};
use conda_checked::Checked;
use conda_device::{DeviceErr, Host};
use conda_repodata::Repodata;
use std::alloc::{AllocError, Global};
use std::thread::Threads;

/// Reads the repodata of one of the channels in a folder, by a handle that is given back.
fn read_one<H: Host, R: Threads + Sync>(
    rt: &R,
    alloc: Global,
    host: &mut H,
    root: &str,
    name: &str,
) -> Result<Rows<Repodata>, SourceErr>
    ensures read { (found : Found) × (found.channel ≡ name.now)
        × IsTold ((H.state host.old).files root.now) found
        × Gives text_fault_of result (channel_read found) }
    ensures cause { HasSourceCause (H.state host.old) (H.state host.new) result }
    ensures reads { OnlyReads (H.state host.old) (H.state host.new) }
{
    let chan = match host.chan(alloc, root, name) {
        Ok(chan) => chan,
        Err(DeviceErr::Failed) => return Err(SourceErr::HostFault),
        Err(DeviceErr::Memory) => return Err(SourceErr::Memory),
    };
    let mut chan = Checked::make(chan);
    let parts = read_channel(rt, alloc, &mut chan, name);
    host.chan_back(chan.inner);
    parts
}

/// Puts parts behind others.
fn put_behind(parts: &mut Vec<Repodata>, more: Rows<Repodata>) -> Result<(), AllocError>
    ensures { OnOk result (parts.new.items ≡ parts.old.items ++ more) }
{
    let mut more = more.into_vec();
    parts.append(&mut more)
}

/// Reads the repodata of the channels of these names in the folder `root`, one after another, each
/// by a handle of its own that is given back.
///
/// The first text that is refused, or the first channel without any, ends the reading.
pub fn read_channels<H: Host, R: Threads + Sync>(
    rt: &R,
    alloc: Global,
    host: &mut H,
    root: &str,
    names: &[Text],
) -> Result<Rows<Repodata>, SourceErr>
    ensures read { (found : List Found) × AreFound ((H.state host.old).files root.now) names.now found
        × Gives text_fault_of result (channels_read found) }
    ensures cause { HasSourceCause (H.state host.old) (H.state host.new) result }
    ensures reads { OnlyReads (H.state host.old) (H.state host.new) }
{
    let mut parts = Vec::new(alloc);
    for name in names {
        match read_one(rt, alloc, host, root, name.as_str()) {
            Ok(more) => {
                if put_behind(&mut parts, more).is_err() {
                    return Err(SourceErr::Memory);
                }
            }
            Err(error) => return Err(error),
        }
    }
    Ok(Rows::from_vec(parts))
}
