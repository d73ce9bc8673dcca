ghost use Rattle.std.specs.Prelude.{◌≡◌, ◌≤◌, ℕ, [], List, length, take, Option};
ghost use Rattle.std.specs.Prelude.{IfOk, IfSome, OnErr, OnOk};
ghost use Rattle.conda_device.specs.Fault.{HasCause, HasDeviceCause};
ghost use Rattle.conda_device.specs.Streams.{OutState, appended, led_by};

use crate::fault::{DeviceErr, Failed};
use std::alloc::Global;

/// An input.
pub trait In {
    /// The bytes that are left, where it tells them.
    ghost left: { Self → Option (List ℕ) };
    /// The count of faults.
    ghost faults: { Self → ℕ };

    /// How often it failed. The count never falls, and stands still at the last value of its type.
    fn faults(&self) -> u64
        ensures { result ≡ faults self.now };

    /// At most `max` of the bytes that are left: at least one, or none at the end.
    /// After an error some of them may be lost.
    fn take(&mut self, alloc: Global, max: usize) -> Result<Vec<u8>, DeviceErr>
        requires { 1 ≤ max }
        ensures bound { IfOk result (λ taken. length taken.items ≤ max) }
        ensures first { IfOk result (λ taken. left self.old ≡ led_by taken.items (left self.new)) }
        ensures end { IfOk result (λ taken.
            taken.items ≡ [] → IfSome (left self.old) (λ bytes. bytes ≡ [])) }
        ensures err { OnErr result
            ((lost : List ℕ) × (left self.old ≡ led_by lost (left self.new))) }
        ensures cause { HasDeviceCause (faults self.old) (faults self.new) result };
}

/// An output.
pub trait Out {
    /// What it tells of itself.
    ghost state: { Self → OutState };

    /// How often it failed. The count never falls, and stands still at the last value of its type.
    fn faults(&self) -> u64
        ensures { result ≡ (state self.now).faults };

    /// Appends all of the bytes. After a failure some first part of them was appended.
    fn put(&mut self, bytes: &[u8]) -> Result<(), Failed>
        ensures ok { OnOk result
            ((state self.new).told ≡ appended (state self.old).told bytes.now) }
        ensures err { OnErr result ((n : ℕ)
            × ((state self.new).told ≡ appended (state self.old).told (take n bytes.now))) }
        ensures cause { HasCause (state self.old).faults (state self.new).faults result };
}
