ghost use Rattle.std.specs.Prelude.{◌≡◌, ◌<◌, ◌^◌, IfOk, true};
ghost use Rattle.std.specs.List.{list_all};
ghost use Rattle.conda_sat.specs.Answers.{IsAnswer, is_within};

use crate::error::SatErr;
use crate::solver::Solver;
use crate::verdict::{Answer, Verdict};
use conda_refute::Clause;
use std::alloc::Global;

/// Sides of the variables 1 to `vars` that make every clause true, or a refutation. The literals of `order` are tried first, in their order;
/// those of other variables are passed over, and none decides whether there is a model.
pub fn solve(alloc: Global, vars: u32, clauses: &[Clause], order: &[i32]) -> Result<Answer, SatErr>
    requires few { vars < 2 ^ 31 }
    requires within { list_all (list_all (is_within vars)) clauses.now ≡ true }
    ensures { IfOk result (IsAnswer vars clauses.now) }
{
    let mut solver = Solver::make(alloc, vars, clauses)?;
    match solver.ask(&[], order)? {
        Verdict::Model(sides) => Ok(Answer::Model(sides)),
        Verdict::Denied => Ok(Answer::Refuted(solver.refutation()?)),
    }
}
