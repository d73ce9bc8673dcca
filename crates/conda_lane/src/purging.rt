ghost use Rattle.std.specs.Prelude.{◌≡◌, ◌<◌, ◌≤◌, ◌+◌, ◌-◌, ◌^◌, min};
ghost use Rattle.std.specs.Prelude.{All, AllPairs, drop, length, take, vec_capacity, vec_len};
ghost use Rattle.conda_lane.specs.Calls.{Leads};
ghost use Rattle.conda_lane.specs.Changes.{AreChanges};
ghost use Rattle.conda_lane.specs.Purge.{IsErased, IsPurged};
ghost use Rattle.conda_lane.specs.Steps.{IsChange, IsErasedOrLeft};

use crate::change::Change;
use crate::step::erase_trash;
use conda_device::Lane;

/// Erases the old node of a change, or keeps the change's number where that failed.
fn purge_one<L: Lane>(lane: &mut L, change: &Change, number: usize, left: &mut Vec<usize>)
    requires change { IsChange (L.share lane.old) change.now }
    requires room { vec_len left.old < vec_capacity left.old }
    ensures done { IsErasedOrLeft number left.old.items left.new.items change.now
        (L.told lane.old) (L.told lane.new) (L.faults lane.old) (L.faults lane.new) }
    ensures capacity { vec_capacity left.new ≡ vec_capacity left.old }
    ensures later { L.faults lane.old ≤ L.faults lane.new }
    ensures share { L.share lane.new ≡ L.share lane.old }
{
    match erase_trash(lane, change) {
        Ok(()) => {}
        Err(_) => left.push_reserved(number),
    }
}

/// Erases the old nodes, which are in the trash. The numbers of the changes whose erasing failed go
/// to the end of `left`, ascending, and the lane's count of faults rises by at least as many. It
/// takes no memory.
pub fn purge<L: Lane>(lane: &mut L, changes: &[Change], left: &mut Vec<usize>)
    requires changes { AreChanges (L.share lane.old) changes.now }
    requires room { vec_len left.old + length changes.now ≤ vec_capacity left.old }
    ensures tree { let failed = drop (vec_len left.old) left.new.items in
        Leads (λ before now. IsPurged failed before now changes.now)
        (L.told lane.old) (L.told lane.new) }
    ensures first { take (vec_len left.old) left.new.items ≡ left.old.items }
    ensures ascending { AllPairs (λ number later. number < later)
        (drop (vec_len left.old) left.new.items) }
    ensures numbers { All (λ number. number < length changes.now)
        (drop (vec_len left.old) left.new.items) }
    ensures count { min (L.faults lane.old + (vec_len left.new - vec_len left.old)) (2 ^ 64 - 1)
        ≤ L.faults lane.new }
    ensures later { L.faults lane.old ≤ L.faults lane.new }
    ensures share { L.share lane.new ≡ L.share lane.old }
{
    for (number, change) in changes.iter().enumerate() {
        purge_one(lane, change, number, left);
    }
}
