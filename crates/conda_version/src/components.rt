ghost use Rattle.std.specs.Prelude.{◌≡◌, [], ◌∷◌, ◌++◌, ◌<◌, OnOk, length, slice_index_or};
ghost use Rattle.conda_version.specs.Order.{components_cmp, components_start, runs_start};

use crate::run::{Run, compare_runs, runs_start};
use conda_base::copied_all;
use std::alloc::{AllocError, Global};
use std::cmp::Ordering;
use std::marker::Model;

// Where the runs of a component lie.
#[derive(Clone, Copy, Debug)]
struct Span {
    start: usize,
    end: usize,
}

/// Components, all runs in one list. Contracts see the list of their runs.
#[derive(Debug, Drop)]
pub struct Components {
    runs: Vec<Run>,
    spans: Vec<Span>,
}

impl Model for Components {
    ghost use Rattle.std.specs.Prelude.{List};
    ghost use Rattle.conda_version.specs.declared.run.Run.{Run};

    ghost Value = { List (List Run) };

    ghost use Rattle.conda_version.specs.Spans.{AreSpans, cut};

    ghost view = { λ c. cut c.runs.items c.spans.items };

    ghost invariant = { λ c. AreSpans c.runs.items c.spans.items };
}

impl Clone for Components {
    ghost use Rattle.std.specs.Prelude.{◌≡◌};

    ghost is_clone = { λ components made. made ≡ components };

    fn clone(&self) -> Result<Components, AllocError> {
        let alloc = *self.runs.allocator();
        let runs = copied_all(alloc, self.runs.as_slice())?;
        let spans = self.spans.as_slice().to_vec(alloc)?;
        Ok(Components { runs, spans })
    }
}

impl Components {
    /// No components, which take no memory.
    pub fn new(alloc: Global) -> Components
        ensures { result ≡ [] }
    {
        Components {
            runs: Vec::new(alloc),
            spans: Vec::new(alloc),
        }
    }

    pub fn len(&self) -> usize
        ensures { result ≡ length self.now }
    {
        self.spans.len()
    }

    /// The runs of a component, none where it is missing.
    pub fn get(&self, at: usize) -> &[Run]
        ensures { result.now ≡ slice_index_or self.now at [] }
    {
        match self.spans.get(at) {
            Some(span) => &self.runs.as_slice()[span.start..span.end],
            None => &[],
        }
    }

    /// Adds a component, whose runs are taken out of `runs`.
    pub fn add(&mut self, runs: &mut Vec<Run>) -> Result<(), AllocError>
        ensures ok { OnOk result (self.new ≡ self.old ++ runs.old.items ∷ []) }
        ensures taken { OnOk result (runs.new.items ≡ []) }
    {
        let start = self.runs.len();
        self.runs.append(runs)?;
        let end = self.runs.len();
        self.spans.push(Span { start, end })?;
        Ok(())
    }

    pub fn compare(&self, other: &Components) -> Ordering
        ensures { result ≡ components_cmp self.now other.now }
    {
        for at in 0..self.len().max(other.len()) {
            let order = compare_runs(self.get(at), other.get(at));
            if order.is_ne() {
                return order;
            }
        }
        Ordering::Equal
    }

    pub fn starts_with(&self, other: &Components) -> bool
        ensures { result ≡ components_start self.now other.now }
    {
        let count = other.len();
        for at in 0..count {
            if at + 1 == count {
                return runs_start(self.get(at), other.get(at));
            }
            if compare_runs(self.get(at), other.get(at)).is_ne() {
                return false;
            }
        }
        true
    }
}
