ghost use Rattle.std.specs.Prelude.{◌≡◌, MatchOption, None, Some};
ghost use Rattle.conda_checked.specs.Lacks.{lacks_of, no_lacks};

use crate::lack::{Lack, Lacks};
use conda_device::Counted;

/// A handle on a channel or on the cache whose reads are checked: it counts the needed files that
/// were absent, and those whose size or digest differed. Only its own reads raise the two counts.
#[derive(Debug, Drop)]
pub struct Checked<T> {
    pub inner: T,
    pub(crate) lacks: Lacks,
}

impl<T> Checked<T> {
    /// A handle that has lacked nothing yet. It takes no memory.
    pub fn make(inner: T) -> Checked<T>
        ensures inner { result.inner ≡ inner }
        ensures nothing { lacks_of result ≡ no_lacks }
    {
        Checked {
            inner,
            lacks: Lacks::new(),
        }
    }

    /// How many needed files were absent. The count stands still at the last value of its type. It
    /// takes no memory.
    pub fn absents(&self) -> u64
        ensures { result ≡ (lacks_of self.now).absents }
    {
        self.lacks.absents
    }

    /// How many files had another size or digest. The count stands still like the other. It takes
    /// no memory.
    pub fn mismatches(&self) -> u64
        ensures { result ≡ (lacks_of self.now).mismatches }
    {
        self.lacks.mismatches
    }

    /// The last file that was absent or differed. It takes no memory.
    pub fn last(&self) -> Option<&Lack>
        ensures { MatchOption result ((lacks_of self.now).last ≡ None)
            (λ lack. (lacks_of self.now).last ≡ Some lack.now) }
    {
        self.lacks.last.as_ref()
    }
}

impl<T: Counted> Checked<T> {
    /// How often it failed: the count of `inner`. It takes no memory.
    pub fn faults(&self) -> u64
        ensures { result ≡ T.faults self.now.inner }
    {
        self.inner.faults()
    }
}
