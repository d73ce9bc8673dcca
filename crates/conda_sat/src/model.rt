ghost use Rattle.std.specs.Prelude.{◌≡◌, ◌&&◌, ◌-◌, false, slice_get, unwrap_or};
ghost use Rattle.std.specs.List.{list_all};
ghost use Rattle.conda_refute.specs.Literals.{clause_true, literal_true};
ghost use Rattle.conda_sat.specs.Answers.{side_of};

use conda_refute::Clause;

/// The side of a variable, which counts from 1, where the first variable's side stands first.
fn side_of(sides: &[bool], variable: u32) -> bool
    ensures { result ≡ side_of sides.now variable }
{
    let at = (variable as usize).saturating_sub(1);
    match sides.get(at) {
        Some(side) => *side,
        None => false,
    }
}

/// Whether a literal is true.
fn is_true(sides: &[bool], literal: i32) -> bool
    ensures { result ≡ literal_true (side_of sides.now) literal }
{
    let side = side_of(sides, literal.unsigned_abs());
    if literal > 0 {
        side
    } else if literal < 0 {
        !side
    } else {
        false
    }
}

/// Whether a clause is true.
pub fn clause_is_true(sides: &[bool], clause: &[i32]) -> bool
    ensures { result ≡ clause_true (side_of sides.now) clause.now }
{
    for literal in clause {
        if is_true(sides, *literal) {
            return true;
        }
    }
    false
}

/// Whether all clauses are true.
pub fn clauses_are_true(sides: &[bool], clauses: &[Clause]) -> bool
    ensures { result ≡ list_all (clause_true (side_of sides.now)) clauses.now }
{
    for clause in clauses {
        if !clause_is_true(sides, clause.as_slice()) {
            return false;
        }
    }
    true
}

/// Whether all of these literals are true.
pub fn literals_are_true(sides: &[bool], literals: &[i32]) -> bool
    ensures { result ≡ list_all (literal_true (side_of sides.now)) literals.now }
{
    for literal in literals {
        if !is_true(sides, *literal) {
            return false;
        }
    }
    true
}
