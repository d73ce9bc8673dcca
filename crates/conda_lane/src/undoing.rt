ghost use Rattle.std.specs.Prelude.{◌≡◌, OnOk};
ghost use Rattle.conda_device.specs.Fault.{HasCause};
ghost use Rattle.conda_device.specs.Tree.{Tree};
ghost use Rattle.conda_lane.specs.Calls.{Leads};
ghost use Rattle.conda_lane.specs.Changes.{AreChanges, Between, IsStart};
ghost use Rattle.conda_lane.specs.Undo.{CanMoveBack, IsCleared, IsMovedBack, undone};
ghost use Rattle.std.specs.Prelude.{IfSome, option_map};

use crate::change::Change;
use crate::step::{clear, move_back};
use conda_device::{Failed, Lane};

/// The first half of undoing: erases the new nodes. It erases the path of each change without an
/// old node, and of each other one whose old node is in the trash; what `new` says doesn't matter.
///
/// Whether it fails or not, undoing the tree gives the same as before. It takes no memory.
pub fn undo_puts<L: Lane>(lane: &mut L, changes: &[Change]) -> Result<(), Failed>
    requires { AreChanges (L.share lane.old) changes.now }
    ensures ok { OnOk result (Leads (λ before now. IsCleared now before changes.now)
        (L.told lane.old) (L.told lane.new)) }
    ensures same { Leads (λ before now. undone now changes.now ≡ undone before changes.now)
        (L.told lane.old) (L.told lane.new) }
    ensures between { (kept start : Tree) → IsStart start changes.now →
        Leads (λ before now. Between kept before start changes.now
        → Between kept now start changes.now) (L.told lane.old) (L.told lane.new) }
    ensures cause { HasCause (L.faults lane.old) (L.faults lane.new) result }
    ensures share { L.share lane.new ≡ L.share lane.old }
{
    for change in changes {
        clear(lane, change)?;
    }
    Ok(())
}

/// The second half of undoing: moves the old nodes that are in the trash back to their paths.
///
/// Whether it fails or not, undoing the tree gives the same as before. It takes no memory.
pub fn undo_moves<L: Lane>(lane: &mut L, changes: &[Change]) -> Result<(), Failed>
    requires changes { AreChanges (L.share lane.old) changes.now }
    requires cleared { IfSome (L.told lane.old) (λ tree. CanMoveBack tree changes.now) }
    ensures ok { OnOk result (Leads (λ before now. IsMovedBack now before changes.now)
        (L.told lane.old) (L.told lane.new)) }
    ensures same { Leads (λ before now. undone now changes.now ≡ undone before changes.now)
        (L.told lane.old) (L.told lane.new) }
    ensures between { (kept start : Tree) → IsStart start changes.now →
        Leads (λ before now. Between kept before start changes.now
        → Between kept now start changes.now) (L.told lane.old) (L.told lane.new) }
    ensures cause { HasCause (L.faults lane.old) (L.faults lane.new) result }
    ensures share { L.share lane.new ≡ L.share lane.old }
{
    for change in changes {
        move_back(lane, change)?;
    }
    Ok(())
}

/// Undoes the changes of a lane, in whatever state they are: the start again, exactly. It may be
/// repeated, also after it failed. It takes no memory.
pub fn undo<L: Lane>(lane: &mut L, changes: &[Change]) -> Result<(), Failed>
    requires { AreChanges (L.share lane.old) changes.now }
    ensures ok { OnOk result (L.told lane.new
        ≡ option_map (λ tree. undone tree changes.now) (L.told lane.old)) }
    ensures start { (kept start : Tree) → IsStart start changes.now →
        OnOk result (Leads (λ before now. Between kept before start changes.now → now ≡ start)
        (L.told lane.old) (L.told lane.new)) }
    // after a failure too
    ensures same { Leads (λ before now. undone now changes.now ≡ undone before changes.now)
        (L.told lane.old) (L.told lane.new) }
    ensures between { (kept start : Tree) → IsStart start changes.now →
        Leads (λ before now. Between kept before start changes.now
        → Between kept now start changes.now) (L.told lane.old) (L.told lane.new) }
    ensures cause { HasCause (L.faults lane.old) (L.faults lane.new) result }
    ensures share { L.share lane.new ≡ L.share lane.old }
{
    undo_puts(lane, changes)?;
    undo_moves(lane, changes)
}
