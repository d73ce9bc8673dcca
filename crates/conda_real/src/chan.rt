ghost use Rattle.std.specs.Prelude.{◌≡◌};
ghost use Rattle.conda_files.specs.Refusals.{device_count_after};

use conda_base::{Bytes, Text};
use conda_device::{Chan, Counted, DeviceErr, FaultCount, Seen, Shown};
use conda_files::{
    Found, answered, bytes_at, done, found_at, is_inside, ordered_folders_with, place_in,
    target_bytes,
};
use conda_path::Kind;
use std::alloc::Global;
use std::rt::Files;

/// The file that a package's folder has in a channel.
const INDEX: &str = "info/index.json";

/// A handle on the folder of a channel. It doesn't tell the channel's files.
#[derive(Debug, Drop)]
pub struct RealChan<R: Files + AllocGlobal + Clone + Drop> {
    rt: R,
    folder: Text,
    faults: FaultCount,
}

impl<R: Files + AllocGlobal + Clone + Drop> RealChan<R> {
    /// A handle on a folder. It takes no memory.
    pub(crate) fn make(rt: R, folder: Text) -> RealChan<R>
        ensures { result.faults.count ≡ 0 }
    {
        RealChan {
            rt,
            folder,
            faults: FaultCount::new(),
        }
    }
}

/// What a channel shows at a place, or None where nothing is there.
fn shown_at(
    alloc: Global,
    rt: &(impl Files + AllocGlobal),
    place: &str,
    faults: &mut FaultCount,
) -> Result<Option<Shown>, DeviceErr>
    ensures { faults.new.count ≡ device_count_after result faults.old.count }
{
    let Found::Node(Seen { kind, .. }) = done(found_at(rt, place), faults)? else {
        return Ok(None);
    };
    match kind {
        Kind::File => Ok(Some(Shown::File { exec: false })),
        Kind::Exec => Ok(Some(Shown::File { exec: true })),
        Kind::Soft => {
            let read = answered(target_bytes(alloc, rt, place, u64::MAX), faults)?;
            Ok(read.map(|target| Shown::Soft {
                target: Bytes::from_vec(target),
            }))
        }
    }
}

impl<R: Files + AllocGlobal + Clone + Drop> Counted for RealChan<R> {
    ghost faults = { λ chan. chan.faults.count };

    fn faults(&self) -> u64 {
        self.faults.count
    }
}

impl<R: Files + AllocGlobal + Clone + Send + Drop> Chan for RealChan<R> {
    ghost use Rattle.std.specs.Prelude.{None};

    ghost files = { λ _. None };

    ghost asked = { λ _. None };

    fn look(&mut self, alloc: Global, path: &str) -> Result<Option<Shown>, DeviceErr> {
        if !is_inside(path) {
            return Ok(None);
        }
        let place = place_in(alloc, self.folder.as_str(), path)?;
        shown_at(alloc, &self.rt, place.as_str(), &mut self.faults)
    }

    fn read(&mut self, alloc: Global, path: &str, max: u64) -> Result<Option<Vec<u8>>, DeviceErr> {
        if !is_inside(path) {
            return Ok(None);
        }
        let place = place_in(alloc, self.folder.as_str(), path)?;
        bytes_at(alloc, &self.rt, place.as_str(), max, &mut self.faults)
    }

    fn list(&mut self, alloc: Global, subdir: &str) -> Result<Vec<Text>, DeviceErr> {
        if !is_inside(subdir) {
            return Ok(Vec::new(alloc));
        }
        let top = place_in(alloc, self.folder.as_str(), subdir)?;
        let found = ordered_folders_with(alloc, &self.rt, top.as_str(), INDEX);
        Ok(done(found, &mut self.faults)?)
    }
}
