use conda_base::Text;
use std::hint::spin_loop;
use std::sync::atomic::{AtomicBool, Ordering};

/// How often a held call looks whether the other has begun.
const TURNS: u32 = 100_000_000;

/// A call that waits for another one.
#[derive(Drop)]
struct Held {
    path: Text,
    has_begun: AtomicBool,
}

/// Two calls of which each waits for the other: the first one at each of two paths.
#[derive(Drop)]
pub struct Hold {
    first: Held,
    second: Held,
}

impl Held {
    /// The first call at this path, which has not begun.
    fn new(path: Text) -> Held {
        Held {
            path,
            has_begun: AtomicBool::new(false),
        }
    }

    /// Whether a call is the first one at this path. It has begun then.
    fn begins(&self, path: &str) -> bool {
        self.path.as_str() == path && !self.has_begun.swap(true, Ordering::SeqCst)
    }

    /// Waits until this call has begun, or the turns are over. Whether it has begun.
    fn is_awaited(&self) -> bool {
        for _ in 0..TURNS {
            if self.has_begun.load(Ordering::SeqCst) {
                return true;
            }
            spin_loop();
        }
        false
    }
}

impl Hold {
    /// Holds the first calls at these two paths. It takes no memory.
    pub fn new(first: Text, second: Text) -> Hold {
        Hold {
            first: Held::new(first),
            second: Held::new(second),
        }
    }

    /// Begins a call at a path. The first one at each of the two paths waits until that of the
    /// other has begun, for at most 100,000,000 turns. Whether it may go on.
    pub fn begin(&self, path: &str) -> bool {
        if self.first.begins(path) {
            return self.second.is_awaited();
        }
        if self.second.begins(path) {
            return self.first.is_awaited();
        }
        true
    }
}
