ghost use Rattle.std.specs.Prelude.{◌≡◌, length, slice_index_or};
ghost use Rattle.conda_version.specs.declared.run.Run.TheVariants.{Number};
ghost use Rattle.conda_version.specs.Order.{run_cmp, run_starts, runs_cmp, runs_start};

use conda_base::{Bytes, Copied};
use std::alloc::AllocError;
use std::cmp::Ordering;

/// One run of a component.
#[derive(Clone, Debug, Drop)]
pub enum Run {
    Number(u128),
    /// `post`, which is greater than every number.
    Post,
    /// A text, which is less than every number.
    Word(Bytes),
}

impl Copied for Run {
    fn copy(&self) -> Result<Run, AllocError> {
        self.clone()
    }
}

impl Run {
    fn compare(&self, other: &Run) -> Ordering
        ensures { result ≡ run_cmp self.now other.now }
    {
        match self {
            Run::Number(m) => match other {
                Run::Number(n) => m.cmp(n),
                Run::Post => Ordering::Less,
                Run::Word(_) => Ordering::Greater,
            },
            Run::Post => match other {
                Run::Post => Ordering::Equal,
                Run::Number(_) | Run::Word(_) => Ordering::Greater,
            },
            Run::Word(x) => match other {
                Run::Word(y) => x.as_slice().cmp(y.as_slice()),
                Run::Number(_) | Run::Post => Ordering::Less,
            },
        }
    }

    fn starts_with(&self, other: &Run) -> bool
        ensures { result ≡ run_starts self.now other.now }
    {
        match self {
            Run::Word(x) => match other {
                Run::Word(y) => x.as_slice().starts_with(y.as_slice()),
                Run::Number(_) | Run::Post => false,
            },
            Run::Number(_) | Run::Post => self.compare(other).is_eq(),
        }
    }
}

// The order of two runs at one place, where a missing one counts as the number 0.
fn compare_at(xs: &[Run], ys: &[Run], at: usize) -> Ordering
    ensures { result ≡ run_cmp (slice_index_or xs.now at (Number 0)) (slice_index_or ys.now at (Number 0)) }
{
    let zero = Run::Number(0);
    let x = xs.get(at).unwrap_or(&zero);
    let y = ys.get(at).unwrap_or(&zero);
    x.compare(y)
}

/// The order of two components.
pub fn compare_runs(xs: &[Run], ys: &[Run]) -> Ordering
    ensures { result ≡ runs_cmp xs.now ys.now }
{
    for at in 0..xs.len().max(ys.len()) {
        let order = compare_at(xs, ys, at);
        if order.is_ne() {
            return order;
        }
    }
    Ordering::Equal
}

// Whether the run at a place, which counts as the number 0 where it is missing, starts with another.
fn starts_at(xs: &[Run], at: usize, y: &Run) -> bool
    ensures { result ≡ run_starts (slice_index_or xs.now at (Number 0)) y.now }
{
    let zero = Run::Number(0);
    xs.get(at).unwrap_or(&zero).starts_with(y)
}

/// Whether a component starts with another.
pub fn runs_start(xs: &[Run], ys: &[Run]) -> bool
    ensures { result ≡ runs_start xs.now ys.now }
{
    for (at, y) in ys.iter().enumerate() {
        if at + 1 == ys.len() {
            return starts_at(xs, at, y);
        }
        if compare_at(xs, ys, at).is_ne() {
            return false;
        }
    }
    true
}
