ghost use Rattle.std.specs.Prelude.{◌≡◌, ◌<◌, ◌^◌, ◌+◌, IfOk, IfSome, MatchOption, OnErr, OnOk, map, filter, not, ℕ, length, slice_index_or, Ok};
ghost use Rattle.std.specs.List.{All};
ghost use Rattle.conda_version.specs.Text.{trimmed};
ghost use Rattle.conda_spec.specs.Reading.{spec_read};
ghost use Rattle.conda_encode.specs.Clauses.{off, on};
ghost use Rattle.conda_encode.specs.Known.{ArePools, HasSplit, IsKnown, IsSplitOf, starts_of};
ghost use Rattle.conda_encode.specs.Matching.{names};
ghost use Rattle.conda_encode.specs.declared.known.Split.{Split};
ghost use Rattle.conda_encode.specs.Variables.{IsOneNamed, IsPlain, numbered, records};

use crate::matching::names_record;
use conda_base::{Copied, Text};
use conda_record::{NamePool, PkgRecord};
use conda_spec::Spec;
use std::alloc::{AllocError, Global};
use std::collections::HashMap;

/// The records of a specification's name: those that it names, each by its variable, and those
/// that it bars, each by the opposite of its variable.
#[derive(Drop)]
pub struct Split {
    /// The specification's normal form.
    pub text: Text,
    pub named: Vec<i32>,
    pub barred: Vec<i32>,
}

/// What is known of the pools, so that specifications that are equal as texts are matched once.
#[derive(Drop)]
pub struct Known {
    /// Where the pool of a name stands. It's a hint: the pool's own name decides.
    pub places: HashMap<Text, usize>,
    /// The variable of the first record of each pool.
    pub starts: Vec<u32>,
    /// Where the split of a specification stands, by its normal form. It's a hint, too.
    pub found: HashMap<Text, usize>,
    pub splits: Vec<Split>,
}

/// Where the pool of each name stands, as a hint for `place_of`.
pub fn places_of(alloc: Global, pools: &[NamePool]) -> Result<HashMap<Text, usize>, AllocError> {
    let mut places = HashMap::new(alloc);
    for (at, pool) in pools.iter().enumerate() {
        places.insert(pool.name.copy()?, at)?;
    }
    Ok(places)
}

/// The variable of the first record of each pool.
pub fn starts_of(alloc: Global, pools: &[NamePool]) -> Result<Vec<u32>, AllocError>
    requires { length (records pools.now) < 2 ^ 28 }
    ensures { IfOk result (λ starts. starts.items ≡ starts_of 1 pools.now) }
{
    let mut starts = Vec::with_capacity(alloc, pools.len())?;
    let mut next = 1_u32;
    for pool in pools {
        starts.push(next)?;
        next += pool.recs.len() as u32;
    }
    Ok(starts)
}

/// Where the pool of the name stands, by a hint or else by looking at each pool. It takes no memory.
pub fn place_of(places: &HashMap<Text, usize>, pools: &[NamePool], name: &Text) -> Option<usize>
    ensures { MatchOption result (All (λ pool. pool.name ≡ name.now → ⊥) pools.now)
        (λ at. IsOneNamed pools.now at name.now) }
{
    if let Some(at) = places.get(name).copied() {
        if let Some(pool) = pools.get(at) {
            if pool.name == *name {
                return Some(at);
            }
        }
    }
    for (at, pool) in pools.iter().enumerate() {
        if pool.name == *name {
            return Some(at);
        }
    }
    None
}

#[tactic(auto, using(crate::proofs::Kept::kept_more, crate::proofs::Kept::left_more))]
/// The variables of the records that the specification names, where the first has this one.
fn named_of(
    alloc: Global,
    spec: &Spec,
    first: u32,
    recs: &[PkgRecord],
) -> Result<Vec<i32>, AllocError>
    requires { first + length recs.now < 2 ^ 31 }
    ensures { IfOk result (λ list. list.items
        ≡ map (λ x. on x.0) (filter (λ x. names spec.now x.1) (numbered first recs.now))) }
{
    let mut list = Vec::new(alloc);
    for (at, rec) in recs.iter().enumerate() {
        if names_record(spec, rec) {
            list.push((first + at as u32) as i32)?;
        }
    }
    Ok(list)
}

#[tactic(auto, using(crate::proofs::Kept::kept_more, crate::proofs::Kept::left_more))]
/// The opposites of the variables of the others.
fn barred_of(
    alloc: Global,
    spec: &Spec,
    first: u32,
    recs: &[PkgRecord],
) -> Result<Vec<i32>, AllocError>
    requires { first + length recs.now < 2 ^ 31 }
    ensures { IfOk result (λ list. list.items
        ≡ map (λ x. off x.0) (filter (λ x. not (names spec.now x.1)) (numbered first recs.now))) }
{
    let mut list = Vec::new(alloc);
    for (at, rec) in recs.iter().enumerate() {
        if !names_record(spec, rec) {
            list.push(-((first + at as u32) as i32))?;
        }
    }
    Ok(list)
}

/// The split of the specification whose normal form this is.
fn split_of(
    alloc: Global,
    places: &HashMap<Text, usize>,
    starts: &[u32],
    pools: &[NamePool],
    spec: &Spec,
    text: Text,
) -> Result<Split, AllocError>
    requires pools { ArePools pools.now }
    requires starts { starts.now ≡ starts_of 1 pools.now }
    requires plain { IsPlain spec.now }
    requires text { spec_read (trimmed text) ≡ Ok spec.now }
    ensures { IfOk result (IsSplitOf pools.now spec.now) }
{
    let name = Text::from_str(alloc, spec.name())?;
    let Some(at) = place_of(places, pools, &name) else {
        return Ok(Split {
            text,
            named: Vec::new(alloc),
            barred: Vec::new(alloc),
        });
    };
    let first = starts[at];
    let recs = pools[at].recs.as_slice();
    let named = named_of(alloc, spec, first, recs)?;
    let barred = barred_of(alloc, spec, first, recs)?;
    Ok(Split {
        text,
        named,
        barred,
    })
}

impl Known {
    pub fn new(alloc: Global, pools: &[NamePool]) -> Result<Known, AllocError>
        requires { length (records pools.now) < 2 ^ 28 }
        ensures { IfOk result (IsKnown pools.now) }
    {
        Ok(Known {
            places: places_of(alloc, pools)?,
            starts: starts_of(alloc, pools)?,
            found: HashMap::new(alloc),
            splits: Vec::new(alloc),
        })
    }

    /// Where the split with this normal form stands, if the hint is right.
    fn kept(&self, text: &Text) -> Option<usize>
        ensures { IfSome result (λ at. (at < length self.now.splits.items)
            × ((d : Split) → (slice_index_or self.now.splits.items at d).text ≡ text.now)) }
    {
        let at = self.found.get(text).copied()?;
        let split = self.splits.get(at)?;
        if split.text == *text { Some(at) } else { None }
    }

    /// Where the split of a specification stands, which is made where there is none.
    pub fn split(
        &mut self,
        alloc: Global,
        pools: &[NamePool],
        spec: &Spec,
    ) -> Result<usize, AllocError>
        requires pools { ArePools pools.now }
        requires known { IsKnown pools.now self.old }
        requires plain { IsPlain spec.now }
        ensures known { OnOk result (IsKnown pools.now self.new) }
        ensures split { IfOk result (HasSplit pools.now spec.now self.new) }
    {
        let text = match spec.text(alloc) {
            Ok(text) => Text::from_string(text),
            Err(_) => return Err(AllocError),
        };
        if let Some(at) = self.kept(&text) {
            return Ok(at);
        }
        let key = text.copy()?;
        let split = split_of(
            alloc,
            &self.places,
            self.starts.as_slice(),
            pools,
            spec,
            text,
        )?;
        let at = self.splits.len();
        self.splits.push(split)?;
        self.found.insert(key, at)?;
        Ok(at)
    }
}
