ghost use Rattle.std.specs.Prelude.{◌≡◌, ℤ, [], ◌∷◌, OnOk, neg_ℤ};
ghost use Rattle.conda_refute.specs.Literals.{has};

use std::alloc::{AllocError, Global};
use std::collections::HashSet;
use std::marker::Model;

/// The literals that are taken as false, and no literal twice. Contracts see them as a list, in no
/// order. They are `i64`, as the opposite of the least `i32` is no `i32`.
#[derive(Drop)]
pub struct Falses {
    literals: HashSet<i64>,
}

impl Model for Falses {
    ghost use Rattle.std.specs.Prelude.{List, ℤ};

    ghost Value = { List ℤ };

    ghost view = { λ f. f.literals.keys };
}

impl Falses {
    pub fn new(alloc: Global) -> Falses
        ensures { result ≡ [] }
    {
        Falses {
            literals: HashSet::new(alloc),
        }
    }

    pub fn has(&self, literal: i64) -> bool
        ensures { result ≡ has self.now literal }
    {
        self.literals.contains(&literal)
    }

    pub fn add(&mut self, literal: i64) -> Result<(), AllocError>
        ensures { OnOk result ((l : ℤ) → has self.new l ≡ has (literal ∷ self.old) l) }
    {
        self.literals.insert(literal)?;
        Ok(())
    }
}

/// The opposite of a literal.
pub fn opposite(literal: i32) -> i64
    ensures { result ≡ neg_ℤ literal }
{
    -i64::from(literal)
}
