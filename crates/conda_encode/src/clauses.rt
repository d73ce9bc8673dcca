ghost use Rattle.std.specs.Prelude.{◌≡◌, ◌++◌, IfOk, false, pos};
ghost use Rattle.conda_refute.specs.Literals.{has};

use conda_refute::Clause;
use std::alloc::{AllocError, Global};

/// The clause of these literals.
pub fn clause_of(alloc: Global, front: &[i32], rest: &[i32]) -> Result<Clause, AllocError>
    requires front { has front.now (pos 0) ≡ false }
    requires rest { has rest.now (pos 0) ≡ false }
    ensures { IfOk result (λ c. c ≡ front.now ++ rest.now) }
{
    let mut items = Vec::from_slice(alloc, front)?;
    items.extend_from_slice(rest)?;
    match Clause::from_vec(items) {
        Some(clause) => Ok(clause),
        None => unreachable!(),
    }
}
