ghost use Rattle.std.specs.Prelude.{◌≡◌};
ghost use Rattle.std.specs.List.{list_all};
ghost use Rattle.conda_sat.specs.Answers.{is_within};

use conda_refute::Clause;

/// Whether a literal is of one of the variables 1 to `vars`.
fn is_within(vars: u32, literal: i32) -> bool
    ensures { result ≡ is_within vars literal }
{
    let variable = literal.unsigned_abs();
    1 <= variable && variable <= vars
}

/// Whether all of these literals are of the variables 1 to `vars`.
pub fn literals_are_within(vars: u32, literals: &[i32]) -> bool
    ensures { result ≡ list_all (is_within vars) literals.now }
{
    for literal in literals {
        if !is_within(vars, *literal) {
            return false;
        }
    }
    true
}

/// Whether all literals of the clauses are of the variables 1 to `vars`.
pub fn clauses_are_within(vars: u32, clauses: &[Clause]) -> bool
    ensures { result ≡ list_all (list_all (is_within vars)) clauses.now }
{
    for clause in clauses {
        if !literals_are_within(vars, clause.as_slice()) {
            return false;
        }
    }
    true
}
