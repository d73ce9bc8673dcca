ghost use Rattle.std.specs.Prelude.{◌≡◌, map, option_copied};
ghost use Rattle.conda_meta.specs.Reading as reading;

use crate::linked::Linked;
use conda_path::{Good, RelPath};

/// What is listed by a text: a good by its path, a package by its dist.
pub trait Named {
    ghost use Rattle.std.specs.Prelude.{◌≡◌, List, ℕ};

    ghost name: { Self → List ℕ };

    fn name(&self) -> &str
        ensures { result.now ≡ name self.now };
}

impl Named for RelPath {
    ghost name = { λ path. path };

    fn name(&self) -> &str {
        self.as_str()
    }
}

impl Named for Good {
    ghost name = { λ good. good.path };

    fn name(&self) -> &str {
        self.path.as_str()
    }
}

impl Named for Linked {
    ghost name = { λ linked. linked.rec.dist };

    fn name(&self) -> &str {
        self.rec.dist.text()
    }
}

/// Whether a text comes behind another one by bytes, if there is one.
fn follows(last: Option<&str>, text: &str) -> bool
    ensures { result ≡ reading.follows (option_copied last.entry) text.now }
{
    match last {
        Some(last) => last < text,
        None => true,
    }
}

#[tactic(auto, using(crate::proofs::LoopLemmas::ascend_one, crate::proofs::LoopLemmas::ascend_end))]
/// Whether the names ascend by bytes, so that none stands twice.
pub fn ascend<T: Named>(items: &[T]) -> bool
    ensures { result ≡ reading.ascend (map T.name items.now) }
{
    let mut last = None;
    for item in items {
        let name = item.name();
        if !follows(last, name) {
            return false;
        }
        last = Some(name);
    }
    true
}
