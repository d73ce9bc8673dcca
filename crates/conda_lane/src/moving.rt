ghost use Rattle.std.specs.Prelude.{◌≡◌, IfSome, OnOk};
ghost use Rattle.conda_device.specs.Fault.{HasCause};
ghost use Rattle.conda_device.specs.Tree.{Tree};
ghost use Rattle.conda_lane.specs.Calls.{Leads};
ghost use Rattle.conda_lane.specs.Changes.{AllMoved, AreChanges, Between, IsStart};

use crate::change::Change;
use crate::step::move_away;
use conda_device::{Failed, Lane};

/// Moves the old node of each change into the trash.
pub fn move_out<L: Lane>(lane: &mut L, changes: &[Change]) -> Result<(), Failed>
    requires changes { AreChanges (L.share lane.old) changes.now }
    requires start { IfSome (L.told lane.old) (λ tree. IsStart tree changes.now) }
    ensures ok { OnOk result (Leads (λ before now. AllMoved now before changes.now)
        (L.told lane.old) (L.told lane.new)) }
    ensures between { (kept : Tree) → Leads (λ before now. Between kept now before changes.now)
        (L.told lane.old) (L.told lane.new) }
    ensures cause { HasCause (L.faults lane.old) (L.faults lane.new) result }
    ensures share { L.share lane.new ≡ L.share lane.old }
{
    for change in changes {
        move_away(lane, change)?;
    }
    Ok(())
}
