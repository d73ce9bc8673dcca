ghost use Rattle.std.specs.Prelude.{◌≡◌, [], None, Some, IfOk, IfSome, option_map};
ghost use Rattle.std.specs.Option.{option_copied};
ghost use Rattle.conda_device.specs.Stores.{digest_of, erase_of, found_of, got_of, last_got};
ghost use Rattle.conda_device.specs.Stores.{mark_of, write_of};
ghost use Rattle.conda_mem.specs.Handles.{store_faults, store_told};

use crate::cache::Cache;
use crate::fault::Effect;
use crate::gots::Room;
use crate::meter::Meter;
use conda_base::{Copied, Text};
use conda_device::{Counted, DeviceErr, Failed, Got, Store, Touch, Touched};
use conda_path::{Digest, RelPath, SlotKey};
use sha2::{Digest as _, Sha256};
use std::alloc::{AllocError, Global};
use std::sync::{Arc, Mutex, Wait};

/// A handle on a cache folder in memory, which all handles share behind a lock. It tells what it
/// was asked to change, and what it read last.
#[derive(Drop)]
pub struct MemStore<R: Wait> {
    rt: R,
    alloc: Global,
    cache: Arc<Mutex<Cache>, Global>,
    touched: Vec<Touched>,
    got: Option<Got>,
    room: Room,
    meter: Meter,
}

/// What is left of a handle on the cache folder that came back.
#[derive(Drop)]
pub struct Ended {
    pub got: Option<Got>,
    pub room: Room,
    pub faults: u64,
}

/// The SHA-256 digest of bytes (FIPS 180-4). It takes no memory.
fn digest(bytes: &[u8]) -> Digest
    ensures { result ≡ digest_of bytes.now }
{
    Digest {
        bytes: Sha256::digest(bytes),
    }
}

/// The change that a write asks for.
fn written(key: &SlotKey, path: &RelPath, bytes: &[u8]) -> Result<Touched, AllocError>
    ensures { IfOk result (λ touched. touched ≡ write_of key.now path.now bytes.now) }
{
    Ok(Touched {
        key: key.copy()?,
        touch: Touch::Write {
            path: path.copy()?,
            size: bytes.len() as u64,
            digest: digest(bytes),
        },
    })
}

/// The change that a mark asks for.
fn marked(key: &SlotKey) -> Result<Touched, AllocError>
    ensures { IfOk result (λ touched. touched ≡ mark_of key.now) }
{
    Ok(Touched {
        key: key.copy()?,
        touch: Touch::Mark,
    })
}

/// The change that an erasure asks for.
fn erased(key: &SlotKey) -> Result<Touched, AllocError>
    ensures { IfOk result (λ touched. touched ≡ erase_of key.now) }
{
    Ok(Touched {
        key: key.copy()?,
        touch: Touch::Erase,
    })
}

/// The size and the digest of bytes that were read.
fn found(read: &Option<Vec<u8>>) -> Option<(u64, Digest)>
    ensures { result ≡ found_of (option_map (λ bytes. bytes.items) read.now) }
{
    match read {
        Some(bytes) => Some((bytes.len() as u64, digest(bytes))),
        None => None,
    }
}

/// What is kept of a read.
fn got(key: &SlotKey, path: &RelPath, max: u64, read: &Option<Vec<u8>>) -> Result<Got, AllocError>
    ensures { IfOk result (λ got. got
        ≡ got_of key.now path.now max (option_map (λ bytes. bytes.items) read.now)) }
{
    Ok(Got {
        key: key.copy()?,
        path: path.copy()?,
        max,
        found: found(read),
    })
}

impl<R: Wait + Drop> MemStore<R> {
    /// A handle on the cache folder, which was asked for nothing yet.
    pub fn make(
        rt: R,
        alloc: Global,
        cache: Arc<Mutex<Cache>, Global>,
        meter: Meter,
    ) -> Result<MemStore<R>, AllocError>
        ensures fresh { IfOk result (λ store. store_told store
            ≡ Some (record { touched = []; got = None })) }
        ensures faults { IfOk result (λ store. store_faults store ≡ meter.faults.count) }
    {
        Ok(MemStore {
            rt,
            alloc,
            cache,
            touched: Vec::new(alloc),
            got: None,
            room: Room::make(alloc)?,
            meter,
        })
    }

    /// What it was asked to change, in order. It takes no memory.
    pub fn touched(&self) -> &[Touched]
        ensures { IfSome (store_told self.now) (λ state. result.now ≡ state.touched) }
    {
        self.touched.as_slice()
    }

    /// What it read last. It takes no memory.
    pub fn got(&self) -> Option<&Got>
        ensures { option_copied result ≡ last_got (store_told self.now) }
    {
        self.got.as_ref()
    }

    /// Ends it: what it read last, the room to keep that, and its count of faults. It takes no
    /// memory.
    pub fn end(self) -> Ended
        ensures got { result.got ≡ last_got (store_told self) }
        ensures faults { result.faults ≡ store_faults self }
    {
        let MemStore {
            rt: _,
            alloc: _,
            cache: _,
            touched: _,
            got,
            room,
            meter,
        } = self;
        Ended {
            got,
            room,
            faults: meter.faults.count,
        }
    }
}

impl<R: Wait + Drop> Counted for MemStore<R> {
    ghost faults = { λ store. store.meter.faults.count };

    fn faults(&self) -> u64 {
        self.meter.faults.count
    }
}

impl<R: Wait + Send + Drop> Store for MemStore<R> {
    ghost use Rattle.std.specs.Prelude.{Some};

    ghost told = { λ store. Some (record { touched = store.touched.items; got = store.got }) };

    fn list(&mut self, alloc: Global) -> Result<Vec<Text>, DeviceErr> {
        if self.meter.next().is_some() {
            return Err(DeviceErr::from(self.meter.fail()));
        }
        Ok(self.cache.lock(&self.rt).list(alloc)?)
    }

    fn read(
        &mut self,
        alloc: Global,
        key: &SlotKey,
        path: &RelPath,
        max: u64,
    ) -> Result<Option<Vec<u8>>, DeviceErr> {
        if self.meter.next().is_some() {
            return Err(DeviceErr::from(self.meter.fail()));
        }
        let read = self.cache.lock(&self.rt).read(alloc, key, path, max)?;
        self.got = Some(got(key, path, max, &read)?);
        Ok(read)
    }

    fn write(
        &mut self,
        key: &SlotKey,
        path: &RelPath,
        bytes: &[u8],
        exec: bool,
    ) -> Result<(), Failed> {
        let effect = self.meter.next();
        let Ok(touched) = written(key, path, bytes) else {
            return Err(self.meter.fail());
        };
        if self.touched.push(touched).is_err() || effect == Some(Effect::Before) {
            return Err(self.meter.fail());
        }
        let done = self
            .cache
            .lock(&self.rt)
            .write(self.alloc, key, path, bytes, exec);
        match done {
            Ok(()) => self.meter.end(effect),
            Err(_) => Err(self.meter.fail()),
        }
    }

    fn mark(&mut self, key: &SlotKey) -> Result<(), Failed> {
        let effect = self.meter.next();
        let Ok(touched) = marked(key) else {
            return Err(self.meter.fail());
        };
        if self.touched.push(touched).is_err() || effect == Some(Effect::Before) {
            return Err(self.meter.fail());
        }
        let done = self.cache.lock(&self.rt).mark(self.alloc, key);
        match done {
            Ok(()) => self.meter.end(effect),
            Err(_) => Err(self.meter.fail()),
        }
    }

    fn erase(&mut self, key: &SlotKey) -> Result<(), Failed> {
        let effect = self.meter.next();
        let Ok(touched) = erased(key) else {
            return Err(self.meter.fail());
        };
        if self.touched.push(touched).is_err() || effect == Some(Effect::Before) {
            return Err(self.meter.fail());
        }
        self.cache.lock(&self.rt).erase(key);
        self.meter.end(effect)
    }
}
