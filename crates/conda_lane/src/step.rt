ghost use Rattle.std.specs.Prelude.{◌≡◌, ◌⊎◌, IfOk, IfSome, OnErr, OnOk, is_some, true};
ghost use Rattle.conda_device.specs.Fault.{HasCause};
ghost use Rattle.conda_device.specs.Lanes.{IsInShare};
ghost use Rattle.conda_lane.specs.Calls.{Leads};
ghost use Rattle.conda_lane.specs.Changes.{IsMoved, IsReady, at};
ghost use Rattle.conda_lane.specs.Purge.{IsErased};
ghost use Rattle.conda_lane.specs.Steps.{Goes, IsChange};
ghost use Rattle.conda_lane.specs.Undo.{HasOneNode, IsClearedAt, IsMovedBackAt};

use crate::change::Change;
use conda_device::{Failed, Lane};

/// Moves the old node of a change into the trash.
pub fn move_away<L: Lane>(lane: &mut L, change: &Change) -> Result<(), Failed>
    requires change { IsChange (L.share lane.old) change.now }
    requires ready { IfSome (L.told lane.old) (λ tree. IsReady tree change.now) }
    ensures ok { OnOk result
        (Leads (Goes IsMoved change.now) (L.told lane.old) (L.told lane.new)) }
    ensures err { OnErr result ((L.told lane.new ≡ L.told lane.old)
        ⊎ Leads (Goes IsMoved change.now) (L.told lane.old) (L.told lane.new)) }
    ensures cause { HasCause (L.faults lane.old) (L.faults lane.new) result }
    ensures share { L.share lane.new ≡ L.share lane.old }
{
    if change.old {
        lane.shift(&change.path, &change.trash)?;
    }
    Ok(())
}

/// Whether the old node of a change is in the trash.
fn is_in_trash<L: Lane>(lane: &mut L, change: &Change) -> Result<bool, Failed>
    requires { IsInShare (L.share lane.old) change.now.trash }
    ensures found { IfOk result (λ found. IfSome (L.told lane.old)
        (λ tree. found ≡ is_some (at tree change.now.trash))) }
    ensures tree { L.told lane.new ≡ L.told lane.old }
    ensures cause { HasCause (L.faults lane.old) (L.faults lane.new) result }
    ensures share { L.share lane.new ≡ L.share lane.old }
{
    let seen = lane.look(&change.trash)?;
    Ok(seen.is_some())
}

/// Erases the new node of a change with an old node, where that one is in the trash.
fn clear_replaced<L: Lane>(lane: &mut L, change: &Change) -> Result<(), Failed>
    requires change { IsChange (L.share lane.old) change.now }
    requires old { change.now.old ≡ true }
    ensures ok { OnOk result
        (Leads (Goes IsClearedAt change.now) (L.told lane.old) (L.told lane.new)) }
    ensures err { OnErr result ((L.told lane.new ≡ L.told lane.old)
        ⊎ Leads (Goes IsClearedAt change.now) (L.told lane.old) (L.told lane.new)) }
    ensures cause { HasCause (L.faults lane.old) (L.faults lane.new) result }
    ensures share { L.share lane.new ≡ L.share lane.old }
{
    if is_in_trash(lane, change)? {
        lane.erase(&change.path)?;
    }
    Ok(())
}

/// Erases the new node of a change, unless the old one may still be at the path.
pub fn clear<L: Lane>(lane: &mut L, change: &Change) -> Result<(), Failed>
    requires { IsChange (L.share lane.old) change.now }
    ensures ok { OnOk result
        (Leads (Goes IsClearedAt change.now) (L.told lane.old) (L.told lane.new)) }
    ensures err { OnErr result ((L.told lane.new ≡ L.told lane.old)
        ⊎ Leads (Goes IsClearedAt change.now) (L.told lane.old) (L.told lane.new)) }
    ensures cause { HasCause (L.faults lane.old) (L.faults lane.new) result }
    ensures share { L.share lane.new ≡ L.share lane.old }
{
    if change.old {
        return clear_replaced(lane, change);
    }
    lane.erase(&change.path)?;
    Ok(())
}

/// Moves the old node of a change back, where it is in the trash.
pub fn move_back<L: Lane>(lane: &mut L, change: &Change) -> Result<(), Failed>
    requires change { IsChange (L.share lane.old) change.now }
    requires free { IfSome (L.told lane.old) (λ tree.
        HasOneNode change.now.old (at tree change.now.path) (at tree change.now.trash)) }
    ensures ok { OnOk result
        (Leads (Goes IsMovedBackAt change.now) (L.told lane.old) (L.told lane.new)) }
    ensures err { OnErr result ((L.told lane.new ≡ L.told lane.old)
        ⊎ Leads (Goes IsMovedBackAt change.now) (L.told lane.old) (L.told lane.new)) }
    ensures cause { HasCause (L.faults lane.old) (L.faults lane.new) result }
    ensures share { L.share lane.new ≡ L.share lane.old }
{
    if !change.old {
        return Ok(());
    }
    if is_in_trash(lane, change)? {
        lane.shift(&change.trash, &change.path)?;
    }
    Ok(())
}

/// Erases the old node of a change, which is in the trash.
pub fn erase_trash<L: Lane>(lane: &mut L, change: &Change) -> Result<(), Failed>
    requires { IsChange (L.share lane.old) change.now }
    ensures ok { OnOk result
        (Leads (Goes IsErased change.now) (L.told lane.old) (L.told lane.new)) }
    ensures err { OnErr result ((L.told lane.new ≡ L.told lane.old)
        ⊎ Leads (Goes IsErased change.now) (L.told lane.old) (L.told lane.new)) }
    ensures cause { HasCause (L.faults lane.old) (L.faults lane.new) result }
    ensures share { L.share lane.new ≡ L.share lane.old }
{
    if change.old {
        lane.erase(&change.trash)?;
    }
    Ok(())
}
