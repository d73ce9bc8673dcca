ghost use Rattle.std.specs.Prelude.{◌≡◌, ◌++◌, IfOk};
ghost use Rattle.conda_mem.specs.Plan.{plan_of, same_target, stops_of};

use conda_base::Text;
use conda_device::Abilities;
use conda_mem::{FailAt, Hold, Planned, Target, Watch, add_stops, plan_for};
use std::alloc::{AllocError, Global};
use std::sync::Arc;

/// What a host in memory gives to the lanes that it lends, and to the handles that it makes.
#[derive(Drop)]
pub struct Lending {
    pub abilities: Abilities,
    /// The calls that are to fail.
    pub fails: Vec<FailAt>,
    /// The calls from which on all are to fail.
    pub stops: Vec<FailAt>,
    /// The calls that wait for one another.
    pub hold: Option<Arc<Hold, Global>>,
    /// What counts reads.
    pub watch: Option<Arc<Watch, Global>>,
    /// How many handles on channels were made.
    pub chans: u32,
    /// How many handles on the cache folder were made.
    pub stores: u32,
}

/// One more owner of what is shared, if there is any.
pub fn shared<T>(owner: &Option<Arc<T, Global>>) -> Result<Option<Arc<T, Global>>, AllocError> {
    match owner {
        Some(owner) => Ok(Some(Arc::try_clone(owner)?)),
        None => Ok(None),
    }
}

impl Lending {
    /// Lanes can do all, and these calls are to fail.
    pub fn new(alloc: Global, fails: Vec<FailAt>) -> Lending {
        Lending {
            abilities: Abilities::ALL,
            fails,
            stops: Vec::new(alloc),
            hold: None,
            watch: None,
            chans: 0,
            stores: 0,
        }
    }

    /// Holds the first calls at these two paths.
    pub fn hold(&mut self, alloc: Global, first: &str, second: &str) -> Result<(), AllocError> {
        let first = Text::from_str(alloc, first)?;
        let second = Text::from_str(alloc, second)?;
        self.hold = Some(Arc::new(alloc, Hold::new(first, second))?);
        Ok(())
    }

    /// Counts the reads of this path.
    pub fn watch(&mut self, alloc: Global, path: &str) -> Result<(), AllocError> {
        let path = Text::from_str(alloc, path)?;
        self.watch = Some(Arc::new(alloc, Watch::new(path))?);
        Ok(())
    }

    /// How many reads were counted.
    pub fn reads(&self) -> u64 {
        match &self.watch {
            Some(watch) => watch.reads(),
            None => 0,
        }
    }

    /// The calls of a target that are to fail.
    pub fn plan(&self, alloc: Global, target: &Target) -> Result<Vec<Planned>, AllocError>
        ensures { IfOk result (λ plan. plan.items
            ≡ plan_of (same_target target.now) self.now.fails.items
            ++ stops_of (same_target target.now) self.now.stops.items) }
    {
        let mut plan = plan_for(alloc, &self.fails, target)?;
        add_stops(&mut plan, &self.stops, target)?;
        Ok(plan)
    }
}
