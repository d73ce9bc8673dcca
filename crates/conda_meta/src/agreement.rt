ghost use Rattle.std.specs.Prelude.{◌≡◌, ◌≢◌, ◌↔◌, ℕ, ◌∷◌, filter, IsTrue, List, MatchOption};
ghost use Rattle.conda_base.specs.Texts.{Ascending};
ghost use Rattle.conda_history.specs.Sets.{holds};
ghost use Rattle.conda_meta.specs.Agreement.{Agrees, joins};
ghost use Rattle.conda_meta.specs.Reading.{dists_of};

use crate::linked::Linked;
use crate::revision::Revision;
use conda_history::Block;
use conda_path::Dist;
use std::collections::BTreeSet;

/// Whether the dist is in the set.
fn is_in(set: &BTreeSet<Dist>, dist: &Dist) -> bool
    ensures { result ≡ holds set.now.keys dist.now }
{
    set.contains(dist)
}

/// Whether the dist stands among dists in order.
fn stands_among(dists: &[Dist], dist: &Dist) -> bool
    requires { Ascending dists.now }
    ensures { result ≡ holds dists.now dist.now }
{
    dists.binary_search(dist).is_ok()
}

/// Whether a linked dist joins the set.
fn joins(set: &BTreeSet<Dist>, unlinked: &[Dist], dist: &Dist) -> bool
    requires { Ascending unlinked.now }
    ensures { result ≡ joins (holds set.now.keys) unlinked.now dist.now }
{
    !(is_in(set, dist) && !stands_among(unlinked, dist))
}

/// The dists behind the first one, if that is the dist.
fn behind<'a>(dists: &'a [Dist], dist: &Dist) -> Option<&'a [Dist]>
    ensures { MatchOption result ((rest : List (List ℕ)) → dists.now ≢ dist.now ∷ rest)
        (λ rest. dists.now ≡ dist.now ∷ rest.now) }
{
    match dists {
        [first, rest @ ..] if first == dist => Some(rest),
        _ => None,
    }
}

/// Whether those of the linked dists that join the set are these, in their order.
fn are_joining(set: &BTreeSet<Dist>, unlinked: &[Dist], linked: &[Linked], added: &[Dist]) -> bool
    requires { Ascending unlinked.now }
    ensures { IsTrue result
        ↔ (added.now ≡ filter (joins (holds set.now.keys) unlinked.now) (dists_of linked.now)) }
{
    let mut left = added;
    for package in linked {
        let dist = &package.rec.dist;
        if joins(set, unlinked, dist) {
            match behind(left, dist) {
                Some(rest) => left = rest,
                None => return false,
            }
        }
    }
    left.is_empty()
}

/// Whether two lists of dists are one.
fn are_same(one: &[Dist], other: &[Dist]) -> bool
    ensures { IsTrue result ↔ (one.now ≡ other.now) }
{
    one == other
}

impl Revision {
    /// Whether the block of the history says of the set before it what the revision says: the same
    /// dists leave it, and the same join it. The block's removed dists ascend, as in each that is
    /// read.
    pub fn agrees(&self, set: &BTreeSet<Dist>, block: &Block) -> bool
        requires { Ascending block.now.removed }
        ensures { IsTrue result ↔ Agrees set.now.keys block.now self.now }
    {
        let unlinked = self.unlinked.as_slice();
        if block.whole {
            return false;
        }
        if !are_same(block.removed.as_slice(), unlinked) {
            return false;
        }
        are_joining(
            set,
            unlinked,
            self.linked.as_slice(),
            block.added.as_slice(),
        )
    }
}
