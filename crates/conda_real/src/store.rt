ghost use Rattle.std.specs.Prelude.{◌≡◌};

use conda_base::Text;
use conda_device::{Counted, DeviceErr, Failed, FaultCount, Store};
use conda_files::{
    MARK, answered, bytes_at, done, is_absent, make, place_in, ready_keys, slot_folder,
    temporary_place,
};
use conda_path::{Kind, RelPath, SlotKey};
use std::alloc::Global;
use std::fs;
use std::io::{self, ErrorKind};
use std::rt::Files;

/// A handle on the cache folder. It tells nothing of what it was asked.
#[derive(Debug, Drop)]
pub struct RealStore<R: Files + AllocGlobal + Clone + Drop> {
    rt: R,
    root: Text,
    faults: FaultCount,
}

impl<R: Files + AllocGlobal + Clone + Drop> RealStore<R> {
    /// A handle on a folder. It takes no memory.
    pub(crate) fn make(rt: R, root: Text) -> RealStore<R>
        ensures { result.faults.count ≡ 0 }
    {
        RealStore {
            rt,
            root,
            faults: FaultCount::new(),
        }
    }

    /// Where a file of a package's folder lies on the machine.
    fn place(&self, alloc: Global, key: &SlotKey, path: &str) -> io::Result<String> {
        let folder = slot_folder(alloc, self.root.as_str(), key)?;
        Ok(place_in(alloc, folder.as_str(), path)?)
    }

    /// Writes a file under a temporary name and brings it to its place, over a file that is there.
    fn write_file(&self, key: &SlotKey, path: &str, kind: Kind, bytes: &[u8]) -> io::Result<()> {
        let alloc = self.rt.alloc();
        let place = self.place(alloc, key, path)?;
        let temporary = temporary_place(alloc, place.as_str(), 0)?;
        make(&self.rt, temporary.as_str(), place.as_str(), kind, bytes)
    }

    /// Takes a package's folder away, its mark first: a folder that is taken away by half is never
    /// one with the mark.
    fn erase_folder(&self, key: &SlotKey) -> io::Result<()> {
        let alloc = self.rt.alloc();
        let folder = slot_folder(alloc, self.root.as_str(), key)?;
        let mark = place_in(alloc, folder.as_str(), MARK)?;
        without_mark(fs::remove_file(&self.rt, mark.as_str()))?;
        fs::remove_dir_all(&self.rt, folder.as_str())
    }
}

/// What taking a mark away came to. Nothing that is there, and a folder, are no mark.
fn without_mark(removed: io::Result<()>) -> io::Result<()> {
    match removed {
        Err(e) if is_absent(&e) || e.kind() == ErrorKind::IsADirectory => Ok(()),
        removed => removed,
    }
}

impl<R: Files + AllocGlobal + Clone + Drop> Counted for RealStore<R> {
    ghost faults = { λ store. store.faults.count };

    fn faults(&self) -> u64 {
        self.faults.count
    }
}

impl<R: Files + AllocGlobal + Clone + Send + Drop> Store for RealStore<R> {
    ghost use Rattle.std.specs.Prelude.{None};

    ghost told = { λ _. None };

    fn list(&mut self, alloc: Global) -> Result<Vec<Text>, DeviceErr> {
        let found = ready_keys(alloc, &self.rt, self.root.as_str());
        Ok(done(found, &mut self.faults)?)
    }

    fn read(
        &mut self,
        alloc: Global,
        key: &SlotKey,
        path: &RelPath,
        max: u64,
    ) -> Result<Option<Vec<u8>>, DeviceErr> {
        let place = self.place(alloc, key, path.as_str());
        match answered(place, &mut self.faults)? {
            Some(place) => bytes_at(alloc, &self.rt, place.as_str(), max, &mut self.faults),
            None => Ok(None),
        }
    }

    fn write(
        &mut self,
        key: &SlotKey,
        path: &RelPath,
        bytes: &[u8],
        exec: bool,
    ) -> Result<(), Failed> {
        let kind = if exec { Kind::Exec } else { Kind::File };
        let written = self.write_file(key, path.as_str(), kind, bytes);
        done(written, &mut self.faults)
    }

    fn mark(&mut self, key: &SlotKey) -> Result<(), Failed> {
        let marked = self.write_file(key, MARK, Kind::File, b"");
        done(marked, &mut self.faults)
    }

    fn erase(&mut self, key: &SlotKey) -> Result<(), Failed> {
        match answered(self.erase_folder(key), &mut self.faults) {
            Ok(_) => Ok(()),
            Err(e) => Err(e),
        }
    }
}
