ghost use Rattle.std.specs.Prelude.{◌≡◌, ◌++◌, ◌∷◌, [], Some, OnErr, OnOk};

use crate::files::Files;
use crate::hold::Hold;
use crate::meter::Meter;
use crate::watch::Watch;
use conda_base::Text;
use conda_device::{Chan, Counted, DeviceErr, Shown};
use std::alloc::{AllocError, Global};
use std::sync::Arc;

/// A handle on a channel in memory. It tells the channel's files, and which paths it was asked to
/// read.
#[derive(Drop)]
pub struct MemChan {
    files: Files,
    asked: Vec<Text>,
    meter: Meter,
    hold: Option<Arc<Hold, Global>>,
    watch: Option<Arc<Watch, Global>>,
}

impl MemChan {
    /// A handle on these files, whose reads are held and watched. It takes no memory.
    pub fn make(
        alloc: Global,
        files: Files,
        meter: Meter,
        hold: Option<Arc<Hold, Global>>,
        watch: Option<Arc<Watch, Global>>,
    ) -> MemChan
        ensures files { ⟦<MemChan as Chan>⟧.files result ≡ Some files }
        ensures asked { ⟦<MemChan as Chan>⟧.asked result ≡ Some [] }
        ensures faults { ⟦<MemChan as Counted>⟧.faults result ≡ meter.faults.count }
    {
        MemChan {
            files,
            asked: Vec::new(alloc),
            meter,
            hold,
            watch,
        }
    }

    /// The paths that it was asked to read. It takes no memory.
    pub fn asked(&self) -> &[Text]
        ensures { ⟦<MemChan as Chan>⟧.asked self.now ≡ Some result.now }
    {
        self.asked.as_slice()
    }

    /// Begins a read of a path: whether it may go on.
    fn begin(&self, path: &str) -> bool {
        if let Some(watch) = &self.watch {
            watch.note(path);
        }
        match &self.hold {
            Some(hold) => hold.begin(path),
            None => true,
        }
    }
}

/// Adds a path that a handle was asked to read.
fn keep(asked: &mut Vec<Text>, path: Text) -> Result<(), AllocError>
    ensures ok { OnOk result (asked.new.items ≡ asked.old.items ++ path ∷ []) }
    ensures err { OnErr result (asked.new.items ≡ asked.old.items) }
{
    asked.push(path)?;
    Ok(())
}

impl Counted for MemChan {
    ghost faults = { λ chan. chan.meter.faults.count };

    fn faults(&self) -> u64 {
        self.meter.faults.count
    }
}

impl Chan for MemChan {
    ghost files = { λ chan. Some chan.files };

    ghost asked = { λ chan. Some chan.asked.items };

    fn look(&mut self, alloc: Global, path: &str) -> Result<Option<Shown>, DeviceErr> {
        if self.meter.next().is_some() {
            return Err(DeviceErr::from(self.meter.fail()));
        }
        let path = Text::from_str(alloc, path)?;
        Ok(self.files.look(&path)?)
    }

    fn read(&mut self, alloc: Global, path: &str, max: u64) -> Result<Option<Vec<u8>>, DeviceErr> {
        let effect = self.meter.next();
        let asked = Text::from_str(alloc, path)?;
        let may_go_on = self.begin(path);
        let read = self.files.read(alloc, &asked, max)?;
        keep(&mut self.asked, asked)?;
        if effect.is_some() || !may_go_on {
            return Err(DeviceErr::from(self.meter.fail()));
        }
        Ok(read)
    }

    fn list(&mut self, alloc: Global, subdir: &str) -> Result<Vec<Text>, DeviceErr> {
        if self.meter.next().is_some() {
            return Err(DeviceErr::from(self.meter.fail()));
        }
        Ok(self.files.folders(alloc, subdir)?)
    }
}
