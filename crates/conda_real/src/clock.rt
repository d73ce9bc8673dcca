use conda_device::Clock;
use std::rt;
use std::time::{SystemTime, UNIX_EPOCH};

/// The machine's clock. It doesn't tell its next number.
#[derive(Debug, Drop)]
pub struct RealClock<R: rt::Clock + Drop> {
    rt: R,
}

impl<R: rt::Clock + Drop> RealClock<R> {
    /// It takes no memory.
    pub fn make(rt: R) -> RealClock<R> {
        RealClock { rt }
    }
}

impl<R: rt::Clock + Drop> Clock for RealClock<R> {
    ghost use Rattle.std.specs.Prelude.{None};

    ghost next = { λ _. None };

    /// Seconds since 1970, or 0 where the machine gives no time or one before.
    fn now(&mut self) -> u64 {
        let Ok(now) = SystemTime::now(&self.rt) else {
            return 0;
        };
        match now.duration_since(UNIX_EPOCH) {
            Ok(since) => since.as_secs(),
            Err(_) => 0,
        }
    }
}
