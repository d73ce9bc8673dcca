ghost use Rattle.std.specs.Prelude.{◌≡◌, IfSome, Some};

use conda_device::Clock;

/// A clock that stands still.
#[derive(Debug, Drop)]
pub struct FixedClock {
    now: u64,
}

impl FixedClock {
    /// A clock at `now` seconds since 1970. It takes no memory.
    pub fn make(now: u64) -> FixedClock
        ensures { ⟦<FixedClock as Clock>⟧.next result ≡ Some now }
    {
        FixedClock { now }
    }
}

impl Clock for FixedClock {
    ghost next = { λ clock. Some clock.now };

    fn now(&mut self) -> u64
        ensures given { IfSome (⟦<FixedClock as Clock>⟧.next self.old)
            (λ seconds. result ≡ seconds) }
        ensures still { self.new ≡ self.old }
    {
        self.now
    }
}
