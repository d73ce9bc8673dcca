ghost use Rattle.std.specs.Prelude.{◌≡◌, ◌≢◌, pos, [], ◌∷◌, ◌++◌, IfOk, IfSome, OnErr, OnOk, not, is_some};
ghost use Rattle.conda_refute.specs.Literals.{has};

use conda_base::{Copied, Rows};
use std::alloc::{AllocError, Global};
use std::marker::Model;

/// A clause: a list of literals, of which one has to be true. The literal `n` is variable n, and `-n` its opposite; none is 0.
/// Contracts see the list.
#[derive(Clone, Debug, PartialEq, Eq, Drop)]
pub struct Clause {
    items: Rows<i32>,
}

impl Model for Clause {
    ghost use Rattle.std.specs.Prelude.{◌≡◌, List, ℤ, pos, false};
    ghost use Rattle.conda_refute.specs.Literals.{has};

    ghost Value = { List ℤ };

    ghost view = { λ c. c.items };

    ghost inverse = { λ t. record { items = t } };

    ghost invariant = { λ c. has c.items (pos 0) ≡ false };
}

impl Clause {
    /// The clause of these literals, or None if one is 0. It takes no memory.
    pub fn from_vec(items: Vec<i32>) -> Option<Clause>
        ensures some { IfSome result (λ c. c ≡ items.items) }
        ensures variant { is_some result ≡ not (has items.items (pos 0)) }
    {
        if holds_zero(items.as_slice()) {
            return None;
        }
        Some(Clause {
            items: Rows::from_vec(items),
        })
    }

    /// The empty clause, which takes no memory.
    pub fn new(alloc: Global) -> Clause
        ensures { result ≡ [] }
    {
        Clause {
            items: Rows::new(alloc),
        }
    }

    /// One more literal at the end.
    pub fn push(&mut self, literal: i32) -> Result<(), AllocError>
        requires { literal ≢ pos 0 }
        ensures ok { OnOk result (self.new ≡ self.old ++ literal ∷ []) }
        ensures err { OnErr result (self.new ≡ self.old) }
    {
        self.items.push(literal)?;
        Ok(())
    }

    pub fn as_slice(&self) -> &[i32]
        ensures { result.now ≡ self.now }
    {
        self.items.as_slice()
    }

    /// Gives the `Vec` back. It takes no memory.
    pub fn into_vec(self) -> Vec<i32>
        ensures { result.items ≡ self }
    {
        let Clause { items } = self;
        items.into_vec()
    }
}

impl Copied for Clause {
    fn copy(&self) -> Result<Clause, AllocError> {
        self.clone()
    }
}

fn holds_zero(items: &[i32]) -> bool
    ensures { result ≡ has items.now (pos 0) }
{
    items.contains(&0)
}
