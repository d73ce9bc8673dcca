ghost use Rattle.std.specs.Prelude.{◌≡◌, ◌≤◌, ◌<◌, ◌^◌, ◌++◌, ◌∷◌, [], ℕ, IfOk, MatchOption, pos, false, true};
ghost use Rattle.std.specs.List.{Contains};
ghost use Rattle.conda_refute.specs.Refutation.{ends_empty};
ghost use Rattle.conda_sat.specs.Answers.{IsVerdict};
ghost use Rattle.conda_encode.specs.Sides.{side_of};
ghost use Rattle.conda_resolve.specs.Asking.{AreWithin, IsFound, IsModelWith, IsOpen, NoneOpen};

use conda_base::Rows;
use conda_sat::{SatErr, Solver, Verdict};
use std::alloc::AllocError;

/// Whether the variable is true on these sides.
fn is_true(sides: &[bool], variable: u32) -> bool
    requires { 1 ≤ variable }
    ensures { result ≡ side_of sides.now variable }
{
    match sides.get(variable as usize - 1) {
        Some(side) => *side,
        None => false,
    }
}

/// What the solver finds, where it tries the literals of `order` first.
pub fn find(solver: &mut Solver, assumed: &[i32], order: &[i32]) -> Result<Verdict, AllocError>
    requires { AreWithin solver.old.vars assumed.now }
    ensures right { IfOk result (IsVerdict solver.old.vars solver.old.clauses assumed.now) }
    ensures ended { result ≡ Ok Verdict.Denied → assumed.now ≡ []
        → ends_empty solver.new.steps ≡ true }
    ensures vars { solver.new.vars ≡ solver.old.vars }
    ensures clauses { solver.new.clauses ≡ solver.old.clauses }
{
    match solver.ask(assumed, order) {
        Ok(verdict) => Ok(verdict),
        Err(SatErr::Memory) => Err(AllocError),
    }
}

/// Whether the variable can be true with the assumed literals. If it can, it is assumed from now
/// on, and true on the sides; else nothing changes.
fn can_be_true(
    solver: &mut Solver,
    sides: &mut Rows<bool>,
    assumed: &mut Vec<i32>,
    variable: u32,
) -> Result<bool, AllocError>
    requires low { 1 ≤ variable }
    requires high { variable ≤ solver.old.vars }
    requires few { solver.old.vars < 2 ^ 31 }
    requires within { AreWithin solver.old.vars assumed.old.items }
    requires model { IsModelWith solver.old.vars solver.old.clauses assumed.old.items sides.old }
    ensures vars { solver.new.vars ≡ solver.old.vars }
    ensures clauses { solver.new.clauses ≡ solver.old.clauses }
    ensures more { result ≡ Ok true → assumed.new.items ≡ assumed.old.items ++ pos variable ∷ [] }
    ensures within { result ≡ Ok true → AreWithin solver.old.vars assumed.new.items }
    ensures model { result ≡ Ok true
        → IsModelWith solver.old.vars solver.old.clauses assumed.new.items sides.new }
    ensures open { result ≡ Ok true → IsOpen solver.old.clauses assumed.old.items variable }
    ensures none { result ≡ Ok false → IsOpen solver.old.clauses assumed.old.items variable → ⊥ }
    ensures assumed { result ≡ Ok false → assumed.new.items ≡ assumed.old.items }
    ensures sides { result ≡ Ok false → sides.new ≡ sides.old }
{
    assumed.push(variable as i32)?;
    if is_true(sides.as_slice(), variable) {
        return Ok(true);
    }
    match find(solver, assumed.as_slice(), &[])? {
        Verdict::Model(found) => {
            *sides = found;
            Ok(true)
        }
        Verdict::Denied => {
            let _ = assumed.pop();
            Ok(false)
        }
    }
}

/// The first of these variables that can be true with the assumed literals. It is assumed from now
/// on, and true on the sides.
pub fn first_open(
    solver: &mut Solver,
    sides: &mut Rows<bool>,
    assumed: &mut Vec<i32>,
    candidates: &[u32],
) -> Result<Option<u32>, AllocError>
    requires candidates { (n : ℕ) → Contains candidates.now n → (1 ≤ n) × (n ≤ solver.old.vars) }
    requires few { solver.old.vars < 2 ^ 31 }
    requires within { AreWithin solver.old.vars assumed.old.items }
    requires model { IsModelWith solver.old.vars solver.old.clauses assumed.old.items sides.old }
    ensures vars { solver.new.vars ≡ solver.old.vars }
    ensures clauses { solver.new.clauses ≡ solver.old.clauses }
    ensures found { IfOk result (λ found. MatchOption found
        (NoneOpen solver.old.clauses assumed.old.items candidates.now)
        (IsFound solver.old.vars solver.old.clauses assumed.old.items assumed.new.items
        sides.new candidates.now)) }
{
    for candidate in candidates {
        if can_be_true(solver, sides, assumed, *candidate)? {
            return Ok(Some(*candidate));
        }
    }
    Ok(None)
}
