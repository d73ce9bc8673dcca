ghost use Rattle.std.specs.Prelude.{◌≡◌, ◌↔◌, ℕ, [], filter, IfErr, IfOk, List, not, OnOk};
ghost use Rattle.conda_base.specs.Texts.{Ascending};
ghost use Rattle.conda_history.specs.Sets as sets;
ghost use Rattle.conda_history.specs.Sets.{IsIn, IsLeft, change_of, changes_of, holds};
ghost use Rattle.conda_history.specs.Sets.{missing_from, set_of, set_with, with_all, without_all};

use crate::revision::{Block, History, HistoryErr};
use conda_base::{Copied, Rows};
use conda_path::Dist;
use std::alloc::{AllocError, Global};
use std::collections::BTreeSet;
use std::mem;

/// Takes the dists out of the set.
fn take_out(set: &mut BTreeSet<Dist>, dists: &[Dist])
    ensures { set.new.keys ≡ without_all set.old.keys dists.now }
{
    for dist in dists {
        set.remove(dist);
    }
}

/// Takes out of the set what a block doesn't leave in it.
fn keep(set: &mut BTreeSet<Dist>, block: &Block)
    ensures { set.new.keys ≡ sets.kept_by block.now set.old.keys }
{
    if block.whole {
        set.clear();
    } else {
        take_out(set, block.removed.as_slice());
    }
}

/// Puts the dists into the set.
fn put_in(set: &mut BTreeSet<Dist>, dists: &[Dist]) -> Result<(), AllocError>
    ensures { OnOk result (set.new.keys ≡ with_all set.old.keys dists.now) }
{
    for dist in dists {
        set.insert(dist.copy()?)?;
    }
    Ok(())
}

/// Replays one block on the set.
fn replay(set: &mut BTreeSet<Dist>, block: &Block) -> Result<(), AllocError>
    ensures { OnOk result (set.new.keys ≡ set_with set.old.keys block.now) }
{
    keep(set, block);
    put_in(set, block.added.as_slice())
}

/// The set after the blocks.
#[tactic(auto, unfolding(crate::specs::Sets::set_after))]
fn replayed(alloc: Global, blocks: &[Block]) -> Result<BTreeSet<Dist>, AllocError>
    ensures { IfOk result (λ set. set.keys ≡ set_of blocks.now) }
{
    let mut set = BTreeSet::new(alloc);
    for block in blocks {
        replay(&mut set, block)?;
    }
    Ok(set)
}

/// The elements of a set, in its order.
pub fn listed(alloc: Global, set: BTreeSet<Dist>) -> Result<Rows<Dist>, AllocError>
    ensures { IfOk result (λ rows. rows ≡ set.keys) }
{
    let mut rows = Rows::new(alloc);
    for dist in set {
        rows.push(dist)?;
    }
    Ok(rows)
}

/// Whether the set holds the dist.
fn holds(set: &BTreeSet<Dist>, dist: &Dist) -> bool
    ensures { result ≡ holds set.now.keys dist.now }
{
    set.contains(dist)
}

fn is_chosen(held: bool, holds: bool) -> bool
    ensures { result ≡ sets.is_chosen held holds }
{
    if held { holds } else { !holds }
}

/// Puts a dist into the set, if it is wanted.
fn put_if(set: &mut BTreeSet<Dist>, dist: &Dist, wanted: bool) -> Result<(), AllocError>
    ensures { OnOk result (set.new.keys ≡ sets.put_if wanted dist.now set.old.keys) }
{
    if wanted {
        set.insert(dist.copy()?)?;
    }
    Ok(())
}

/// The dists that the set holds, or those that it doesn't hold, in order.
fn chosen(
    alloc: Global,
    set: &BTreeSet<Dist>,
    dists: &[Dist],
    held: bool,
) -> Result<BTreeSet<Dist>, AllocError>
    ensures { IfOk result (λ made.
        made.keys ≡ with_all [] (sets.chosen held set.now.keys dists.now)) }
{
    let mut made = BTreeSet::new(alloc);
    for dist in dists {
        let wanted = is_chosen(held, holds(set, dist));
        put_if(&mut made, dist, wanted)?;
    }
    Ok(made)
}

/// The dists of the set that a block may take out; a whole block takes them out at once.
fn leaving(
    alloc: Global,
    set: &mut BTreeSet<Dist>,
    block: &Block,
) -> Result<BTreeSet<Dist>, AllocError>
    ensures left { IfOk result (λ made. made.keys ≡ sets.leaving set.old.keys block.now) }
    ensures set { OnOk result (set.new.keys ≡ sets.staying set.old.keys block.now) }
{
    if block.whole {
        return Ok(mem::replace(set, BTreeSet::new(alloc)));
    }
    chosen(alloc, set, block.removed.as_slice(), true)
}

/// Appends a dist, if it is wanted.
fn push_if(rows: &mut Rows<Dist>, dist: Dist, wanted: bool) -> Result<(), AllocError>
    ensures { OnOk result (rows.new ≡ sets.push_if wanted dist rows.old) }
{
    if wanted {
        rows.push(dist)?;
    }
    Ok(())
}

/// The dists that the set doesn't hold, in their order.
fn missing(
    alloc: Global,
    set: &BTreeSet<Dist>,
    dists: BTreeSet<Dist>,
) -> Result<Rows<Dist>, AllocError>
    ensures { IfOk result (λ rows. rows ≡ missing_from set.now.keys dists.keys) }
{
    let mut rows = Rows::new(alloc);
    for dist in dists {
        let wanted = !holds(set, &dist);
        push_if(&mut rows, dist, wanted)?;
    }
    Ok(rows)
}

/// Replays one block on the set, and tells what that changes in it.
fn change(alloc: Global, set: &mut BTreeSet<Dist>, block: &Block) -> Result<Block, AllocError>
    requires { Ascending set.old.keys }
    ensures set { OnOk result (set.new.keys ≡ set_with set.old.keys block.now) }
    ensures change { IfOk result (λ made. made
        ≡ change_of block.now.stamp set.old.keys (set_with set.old.keys block.now)) }
    ensures ascending { OnOk result (Ascending set.new.keys) }
{
    let joining = chosen(alloc, set, block.added.as_slice(), false)?;
    let leaving = leaving(alloc, set, block)?;
    replay(set, block)?;
    let removed = missing(alloc, set, leaving)?;
    let added = listed(alloc, joining)?;
    Ok(Block {
        stamp: block.stamp,
        removed,
        added,
        whole: false,
    })
}

/// What each of the blocks changes.
#[tactic(auto, unfolding(crate::specs::Sets::changes_after))]
fn changed(alloc: Global, blocks: &[Block]) -> Result<Rows<Block>, AllocError>
    ensures { IfOk result (λ made. made ≡ changes_of blocks.now) }
{
    let mut set = BTreeSet::new(alloc);
    let mut made = Rows::new(alloc);
    for block in blocks {
        let block = change(alloc, &mut set, block)?;
        made.push(block)?;
    }
    Ok(made)
}

impl History {
    /// The dists that the blocks leave, ascending by their bytes, each once: those that the last
    /// block which speaks of them adds. A block speaks of the dists that it names, a whole one of
    /// every dist. In a block that names a dist on both sides, the adding counts.
    pub fn set(&self, alloc: Global) -> Result<Rows<Dist>, HistoryErr>
        ensures members { IfOk result (λ set. (dist : List ℕ)
            → IsIn dist set ↔ IsLeft self.now.blocks dist) }
        ensures ascending { IfOk result Ascending }
        ensures exact { IfOk result (λ set. set ≡ set_of self.now.blocks) }
        ensures memory { IfErr result (λ e. e ≡ HistoryErr.Memory) }
    {
        let Ok(set) = replayed(alloc, self.blocks.as_slice()) else {
            return Err(HistoryErr::Memory);
        };
        match listed(alloc, set) {
            Ok(rows) => Ok(rows),
            Err(_) => Err(HistoryErr::Memory),
        }
    }

    /// What each block really changes: the dists of the set before it that aren't in the set after
    /// it as `removed`, and those of the set after it that weren't in the one before as `added`,
    /// both ascending by bytes. No such block is whole.
    pub fn changes(&self, alloc: Global) -> Result<Rows<Block>, HistoryErr>
        ensures exact { IfOk result (λ made. made ≡ changes_of self.now.blocks) }
        ensures memory { IfErr result (λ e. e ≡ HistoryErr.Memory) }
    {
        match changed(alloc, self.blocks.as_slice()) {
            Ok(made) => Ok(made),
            Err(_) => Err(HistoryErr::Memory),
        }
    }
}
