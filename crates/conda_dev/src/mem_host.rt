ghost use Rattle.std.specs.Prelude.{◌≡◌, [], false, None, Some, IfOk};
ghost use Rattle.std.specs.FinMap as tree;
ghost use Rattle.conda_device.specs.Hosts.{CanTakeBack, IsNew, TakesBack, TakesChan, TakesStore};
ghost use Rattle.conda_device.specs.Stores.{last_got};
ghost use Rattle.conda_mem.specs.Given.{given_files};
ghost use Rattle.conda_mem.specs.Handles.{store_faults, store_told};
ghost use Rattle.conda_dev.specs.Memory.{given, host_state};

use crate::lending::{Lending, shared};
use crate::mem_lane::MemLane;
use crate::place::{Place, add_faults, first_places, lanes_at, lend, return_lanes, whole_tree};
use crate::tree::Tree;
use conda_base::{Rows, Text};
use conda_device::{Abilities, Chan, Counted, DeviceErr, FaultCount, Host, Lane};
use conda_mem::{
    Cache, Effect, FailAt, Files, Gots, MemChan, MemStore, Meter, Planned, Target, channels_of,
    files_named,
};
use conda_path::{Node, Prefix, RelPath, SlotKey};
use std::alloc::{AllocError, Global};
use std::collections::BTreeMap;
use std::sync::{Arc, Mutex, Wait};

/// A host in memory. It tells the tree of each prefix that isn't lent, and the files of each
/// channel. Its cache folder is behind a lock, for which it keeps `rt`.
#[derive(Drop)]
pub struct MemHost<R: Wait> {
    rt: R,
    places: BTreeMap<Prefix, Place>,
    channels: BTreeMap<Text, Files>,
    cache: Arc<Mutex<Cache>, Global>,
    gots: Gots,
    lending: Lending,
    meter: Meter,
    lane_faults: FaultCount,
    chan_faults: FaultCount,
    store_faults: FaultCount,
}

impl<R: Wait + Clone + Drop> MemHost<R> {
    /// A host with the trees of these prefixes, the files of these channels, in whatever folder they
    /// are, and these folders of packages in its cache, all of them marked. Every other prefix,
    /// channel and package has nothing. Of two entries for one of them the last counts.
    pub fn make(
        rt: R,
        alloc: Global,
        prefixes: Vec<(Prefix, Tree)>,
        channels: Vec<(Text, Rows<(Text, Node)>)>,
        cached: Vec<(SlotKey, Rows<(RelPath, Node)>)>,
        fails: Vec<FailAt>,
    ) -> Result<MemHost<R>, AllocError>
        ensures { IfOk result (λ host. IsNew (given prefixes.items (Some tree.empty))
            (λ _ name. Some (given_files channels.items tree.empty name)) (host_state host)) }
    {
        let places = first_places(alloc, prefixes)?;
        let channels = channels_of(alloc, channels)?;
        let cache = Arc::new(alloc, Mutex::new(Cache::make(alloc, cached)?))?;
        let lending = Lending::new(alloc, fails);
        let plan = lending.plan(alloc, &Target::Host)?;
        Ok(MemHost {
            rt,
            places,
            channels,
            cache,
            gots: Gots::new(),
            lending,
            meter: Meter::new(0, plan),
            lane_faults: FaultCount::new(),
            chan_faults: FaultCount::new(),
            store_faults: FaultCount::new(),
        })
    }

    /// Gives the lanes that are made after it what they can do. It takes no memory.
    pub fn set_abilities(&mut self, abilities: Abilities)
        ensures { host_state self.new ≡ host_state self.old }
    {
        self.lending.abilities = abilities;
    }

    /// Makes the calls of a target fail from this one on: this one before or after its effect, the
    /// later ones before theirs. It holds of the lanes and handles that are made after it.
    pub fn stop_after(
        &mut self,
        target: Target,
        call: u64,
        effect: Effect,
    ) -> Result<(), AllocError>
        ensures { host_state self.new ≡ host_state self.old }
    {
        if target == Target::Host {
            self.meter.planned.push(Planned {
                call,
                effect,
                onward: true,
            })?;
            return Ok(());
        }
        self.lending.stops.push(FailAt {
            on: target,
            call,
            effect,
        })?;
        Ok(())
    }

    /// Lets two calls wait for one another, in the lanes and the handles on channels that are made
    /// after it: the first read of a channel's file, or the first `put` or `put_hard` of a lane, at
    /// each of these paths. Each waits until the other has begun, for at most 100,000,000 turns, and
    /// then fails. It takes the place of an earlier hold.
    pub fn hold(&mut self, alloc: Global, first: &str, second: &str) -> Result<(), AllocError>
        ensures { host_state self.new ≡ host_state self.old }
    {
        self.lending.hold(alloc, first, second)
    }

    /// Counts the reads of a path, over all handles on channels that are made after it. It takes the
    /// place of an earlier watch.
    pub fn watch(&mut self, alloc: Global, path: &str) -> Result<(), AllocError>
        ensures { host_state self.new ≡ host_state self.old }
    {
        self.lending.watch(alloc, path)
    }

    /// How many reads of the watched path there were. It takes no memory.
    pub fn reads(&self) -> u64 {
        self.lending.reads()
    }

    /// The tree of a prefix that isn't lent.
    pub fn tree(&self, alloc: Global, prefix: &Prefix) -> Result<Tree, AllocError>
        requires { (host_state self.now).lent prefix.now ≡ false }
        ensures { IfOk result (λ tree. (host_state self.now).told prefix.now ≡ Some tree) }
    {
        whole_tree(alloc, lanes_at(&self.places, prefix))
    }

    /// A handle on a channel's files.
    fn new_chan(&mut self, alloc: Global, name: &str) -> Result<MemChan, AllocError>
        ensures state { host_state self.new ≡ host_state self.old }
        ensures files { IfOk result (λ chan. ⟦<MemChan as Chan>⟧.files chan
            ≡ (host_state self.old).files [] name.now) }
        ensures asked { IfOk result (λ chan. ⟦<MemChan as Chan>⟧.asked chan ≡ Some []) }
        ensures unharmed { IfOk result (λ chan. ⟦<MemChan as Counted>⟧.faults chan ≡ 0) }
    {
        let files = files_named(alloc, &self.channels, name)?;
        let plan = self.lending.plan(alloc, &Target::Chan(self.lending.chans))?;
        let hold = shared(&self.lending.hold)?;
        let watch = shared(&self.lending.watch)?;
        self.lending.chans = self.lending.chans.saturating_add(1);
        Ok(MemChan::make(alloc, files, Meter::new(0, plan), hold, watch))
    }

    /// A handle on the cache folder.
    fn new_store(&mut self, alloc: Global) -> Result<MemStore<R>, AllocError>
        ensures state { host_state self.new ≡ host_state self.old }
        ensures fresh { IfOk result (λ store. store_told store
            ≡ Some (record { touched = []; got = None })) }
        ensures unharmed { IfOk result (λ store. store_faults store ≡ 0) }
    {
        let plan = self
            .lending
            .plan(alloc, &Target::Store(self.lending.stores))?;
        let rt = self.rt.clone()?;
        let cache = Arc::try_clone(&self.cache)?;
        let store = MemStore::make(rt, alloc, cache, Meter::new(0, plan))?;
        self.lending.stores = self.lending.stores.saturating_add(1);
        Ok(store)
    }
}

impl<R: Wait + Clone + Send + Drop> Host for MemHost<R> {
    type Lane = MemLane;

    type Chan = MemChan;

    type Store = MemStore<R>;

    ghost use Rattle.conda_dev.specs.Memory.{host_state};

    ghost state = { host_state };

    fn faults(&self) -> u64 {
        self.meter.faults.count
    }

    fn lanes(
        &mut self,
        alloc: Global,
        prefix: &Prefix,
        _pkgs: &str,
        n: u32,
    ) -> Result<Vec<MemLane>, DeviceErr> {
        if self.meter.next().is_some() {
            return Err(DeviceErr::from(self.meter.fail()));
        }
        Ok(lend(alloc, &mut self.places, &self.lending, prefix, n)?)
    }

    fn take_back(&mut self, prefix: &Prefix, lanes: Vec<MemLane>)
        requires { CanTakeBack ⟦<MemLane as Lane>⟧.share prefix.now lanes.items
            (host_state self.old) }
        ensures { TakesBack ⟦<MemLane as Lane>⟧.told ⟦<MemLane as Lane>⟧.faults
            prefix.now lanes.items (host_state self.old) (host_state self.new) }
    {
        add_faults(&mut self.lane_faults, &lanes);
        return_lanes(&mut self.places, prefix, lanes);
    }

    fn chan(&mut self, alloc: Global, _root: &str, name: &str) -> Result<MemChan, DeviceErr> {
        if self.meter.next().is_some() {
            return Err(DeviceErr::from(self.meter.fail()));
        }
        Ok(self.new_chan(alloc, name)?)
    }

    fn chan_back(&mut self, chan: MemChan)
        ensures { TakesChan (⟦<MemChan as Counted>⟧.faults chan)
            (host_state self.old) (host_state self.new) }
    {
        self.chan_faults.add(chan.faults());
    }

    fn store(&mut self, alloc: Global, _root: &str) -> Result<MemStore<R>, DeviceErr> {
        if self.meter.next().is_some() {
            return Err(DeviceErr::from(self.meter.fail()));
        }
        Ok(self.new_store(alloc)?)
    }

    fn store_back(&mut self, store: MemStore<R>)
        ensures { TakesStore (last_got (store_told store)) (store_faults store)
            (host_state self.old) (host_state self.new) }
    {
        let ended = store.end();
        self.gots.push(ended.room, ended.got);
        self.store_faults.add(ended.faults);
    }
}
