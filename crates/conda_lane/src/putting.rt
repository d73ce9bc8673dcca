ghost use Rattle.std.specs.Prelude.{◌≡◌, ◌⊎◌, ◌≤◌, IfErr, IfSome, None, OnErr, OnOk};
ghost use Rattle.conda_device.specs.Fault.{HasCause};
ghost use Rattle.conda_device.specs.Tree.{Tree};
ghost use Rattle.conda_lane.specs.Calls.{Leads};
ghost use Rattle.conda_lane.specs.Changes.{AllFinished, AllMoved, AreChanges, AreMovedOut};
ghost use Rattle.conda_lane.specs.Changes.{Between, IsStart, at};
ghost use Rattle.conda_lane.specs.Steps.{Goes, IsChange, IsPut, IsPutNode};
ghost use Rattle.conda_lane.specs.Supplies.{AreGoodsOf, HasCauseOf, HasGood, Keeps};

use crate::change::Change;
use crate::supply::{Given, Stopped, Supply};
use conda_device::{Failed, Lane};
use std::alloc::Global;

/// Puts a node that was given at a change's path.
fn put_given<L: Lane>(lane: &mut L, change: &Change, given: &Given) -> Result<(), Failed>
    requires change { IsChange (L.share lane.old) change.now }
    requires free { IfSome (L.told lane.old) (λ tree. at tree change.now.path ≡ None) }
    ensures ok { OnOk result (Leads (Goes (IsPutNode given.now.node) change.now)
        (L.told lane.old) (L.told lane.new)) }
    ensures err { OnErr result ((L.told lane.new ≡ L.told lane.old)
        ⊎ Leads (Goes (IsPutNode given.now.node) change.now) (L.told lane.old) (L.told lane.new)) }
    ensures cause { HasCause (L.faults lane.old) (L.faults lane.new) result }
    ensures share { L.share lane.new ≡ L.share lane.old }
{
    match &given.hard {
        Some(from) => lane.put_hard(&change.path, from, &given.node),
        None => lane.put(&change.path, &given.node),
    }
}

/// Puts the new node of a change, where it has one.
fn put_one<L: Lane, S: Supply>(
    alloc: Global,
    lane: &mut L,
    change: &Change,
    supply: &mut S,
) -> Result<(), Stopped>
    requires change { IsChange (L.share lane.old) change.now }
    requires good { HasGood (S.state supply.old).goods change.now.path change.now.new }
    requires free { IfSome (L.told lane.old) (λ tree. at tree change.now.path ≡ None) }
    ensures ok { OnOk result (Leads (Goes (IsPut (S.state supply.old).kept) change.now)
        (L.told lane.old) (L.told lane.new)) }
    ensures err { OnErr result ((L.told lane.new ≡ L.told lane.old)
        ⊎ Leads (Goes (IsPut (S.state supply.old).kept) change.now)
        (L.told lane.old) (L.told lane.new)) }
    ensures keeps { Keeps (S.state supply.old) (S.state supply.new) }
    ensures cause { IfErr result (λ stopped. HasCauseOf stopped.cause
        (L.faults lane.old) (L.faults lane.new) (S.state supply.old) (S.state supply.new)) }
    ensures later { L.faults lane.old ≤ L.faults lane.new }
    ensures share { L.share lane.new ≡ L.share lane.old }
{
    if change.new.is_none() {
        return Ok(());
    }
    let given = supply.give(alloc, &change.path)?;
    put_given(lane, change, &given)?;
    Ok(())
}

/// Puts the new node of each change at its path, as the supply gives it. It stops at the first
/// failure, of the lane or of the supply.
pub fn put_in<L: Lane, S: Supply>(
    alloc: Global,
    lane: &mut L,
    changes: &[Change],
    supply: &mut S,
) -> Result<(), Stopped>
    requires changes { AreChanges (L.share lane.old) changes.now }
    requires goods { AreGoodsOf (S.state supply.old).goods changes.now }
    requires moved { IfSome (L.told lane.old) (λ tree. AreMovedOut tree changes.now) }
    ensures ok { (start : Tree) → OnOk result (Leads (λ before now.
        AllMoved before start changes.now
        → AllFinished (S.state supply.old).kept now start changes.now)
        (L.told lane.old) (L.told lane.new)) }
    ensures between { (start : Tree) → Leads (λ before now. AllMoved before start changes.now
        → Between (S.state supply.old).kept now start changes.now)
        (L.told lane.old) (L.told lane.new) }
    ensures cause { IfErr result (λ stopped. HasCauseOf stopped.cause
        (L.faults lane.old) (L.faults lane.new) (S.state supply.old) (S.state supply.new)) }
    ensures keeps { Keeps (S.state supply.old) (S.state supply.new) }
    ensures later { L.faults lane.old ≤ L.faults lane.new }
    ensures share { L.share lane.new ≡ L.share lane.old }
{
    for change in changes {
        put_one(alloc, lane, change, supply)?;
    }
    Ok(())
}
