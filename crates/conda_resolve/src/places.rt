ghost use Rattle.std.specs.Prelude.{◌≡◌, ◌<◌, ◌^◌, IfOk, MatchOption, length};
ghost use Rattle.std.specs.List.{All};
ghost use Rattle.conda_encode.specs.Known.{starts_of};
ghost use Rattle.conda_encode.specs.Variables.{IsOneNamed, records};

use conda_base::Text;
use conda_encode::{place_of, places_of, starts_of};
use conda_record::NamePool;
use std::alloc::{AllocError, Global};
use std::collections::HashMap;

/// Where the pools of names stand.
#[derive(Drop)]
pub struct Places {
    /// The place of the pool of a name. It's a hint: the pool's own name decides.
    pub by_name: HashMap<Text, usize>,
    /// The variable of the first record of each pool.
    pub starts: Vec<u32>,
}

impl Places {
    pub fn new(alloc: Global, pools: &[NamePool]) -> Result<Places, AllocError>
        requires { length (records pools.now) < 2 ^ 28 }
        ensures { IfOk result (λ made. made.starts.items ≡ starts_of 1 pools.now) }
    {
        Ok(Places {
            by_name: places_of(alloc, pools)?,
            starts: starts_of(alloc, pools)?,
        })
    }

    /// Where the pool of the name stands.
    pub fn place(&self, pools: &[NamePool], name: &Text) -> Option<usize>
        ensures { MatchOption result (All (λ pool. pool.name ≡ name.now → ⊥) pools.now)
            (λ at. IsOneNamed pools.now at name.now) }
    {
        place_of(&self.by_name, pools, name)
    }
}
