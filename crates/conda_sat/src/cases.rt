ghost use Rattle.std.specs.Prelude.{◌≡◌, ◌+◌, ◌≤◌, ◌<◌, ◌^◌, Bool, [], ◌∷◌, ◌++◌, length, not, IfNone, IfOk, IfSome, OnOk, true, false};
ghost use Rattle.std.specs.List.{list_all};
ghost use Rattle.conda_refute.specs.Literals.{clause_true, has};
ghost use Rattle.conda_refute.specs.Refutation.{clauses_of};
ghost use Rattle.conda_sat.specs.Answers.{AreBothDenied, AreDecided, AreSidesOf, EndsWith, Extends, IsFalseAt, Satisfies, is_within, literal_at, opposites, side_of};

use crate::denial::has_literal;
use crate::ledger::Ledger;
use crate::model::clause_is_true;
use conda_base::{Rows, copied_all};
use conda_refute::{Clause, Step};
use std::alloc::{AllocError, Global};

/// The clause of the opposites of these literals.
fn opposites_of(alloc: Global, literals: &[i32], vars: u32) -> Result<Clause, AllocError>
    requires few { vars < 2 ^ 31 }
    requires within { list_all (is_within vars) literals.now ≡ true }
    ensures { IfOk result (λ clause. clause ≡ opposites literals.now) }
{
    let mut clause = Clause::new(alloc);
    for literal in literals {
        clause.push(-*literal)?;
    }
    Ok(clause)
}

/// The literal of a variable that is true on this side of it.
fn literal_of(variable: u32, side: bool) -> i32
    requires { variable < 2 ^ 31 }
    ensures { result ≡ literal_at variable side }
{
    if side {
        variable as i32
    } else {
        -(variable as i32)
    }
}

/// Whether a variable is decided on this side.
fn is_decided(decided: &[i32], variable: u32, side: bool) -> bool
    requires { variable < 2 ^ 31 }
    ensures { result ≡ has decided.now (literal_at variable side) }
{
    has_literal(decided, literal_of(variable, side))
}

/// The sides of all variables, of which each is decided.
fn sides_of(alloc: Global, vars: u32, decided: &[i32]) -> Result<Vec<bool>, AllocError>
    requires { vars < 2 ^ 31 }
    ensures { IfOk result (λ sides. AreSidesOf vars decided.now sides.items) }
{
    let mut sides = Vec::with_capacity(alloc, vars as usize)?;
    for number in 0..vars {
        sides.push(is_decided(decided, number + 1, true))?;
    }
    Ok(sides)
}

/// The place of the first clause that is false.
fn first_false(sides: &[bool], clauses: &[Clause]) -> Option<usize>
    ensures none { IfNone result (list_all (clause_true (side_of sides.now)) clauses.now ≡ true) }
    ensures some { IfSome result (IsFalseAt sides.now clauses.now) }
{
    for (at, clause) in clauses.iter().enumerate() {
        if !clause_is_true(sides, clause.as_slice()) {
            return Some(at);
        }
    }
    None
}

/// All variables are decided: their sides, where these make all clauses true, or one more step.
fn at_the_end(
    alloc: Global,
    ledger: &mut Ledger,
    vars: u32,
    decided: &[i32],
) -> Result<Option<Vec<bool>>, AllocError>
    requires few { vars < 2 ^ 31 }
    requires clauses { list_all (list_all (is_within vars)) ledger.old.inputs ≡ true }
    requires decided { AreDecided vars (vars + 1) decided.now }
    ensures inputs { ledger.new.inputs ≡ ledger.old.inputs }
    ensures more { OnOk result (Extends ledger.old.steps ledger.new.steps) }
    ensures model { IfOk result (λ found. IfSome found (λ sides. (length sides.items ≡ vars) × Satisfies sides.items ledger.old.inputs decided.now)) }
    ensures none { IfOk result (λ found. IfNone found (EndsWith ledger.new.steps (opposites decided.now))) }
{
    let sides = sides_of(alloc, vars, decided)?;
    match first_false(sides.as_slice(), ledger.log().inputs.as_slice()) {
        None => Ok(Some(sides)),
        Some(at) => {
            let clause = opposites_of(alloc, decided, vars)?;
            let hints = Rows::from_vec(vec![in alloc; at as u64 + 1]?);
            ledger.put(Step { clause, hints })?;
            Ok(None)
        }
    }
}

/// What is decided, and one more variable on this side.
fn with_side(
    alloc: Global,
    decided: &[i32],
    variable: u32,
    side: bool,
) -> Result<Vec<i32>, AllocError>
    requires { variable < 2 ^ 31 }
    ensures { IfOk result (λ made. made.items ≡ decided.now ++ literal_at variable side ∷ []) }
{
    let mut made = copied_all(alloc, decided)?;
    made.push(literal_of(variable, side))?;
    Ok(made)
}

/// A step that shows that what is decided can't be, from two clauses that show it of either side of one more variable.
fn deny_both(
    alloc: Global,
    ledger: &mut Ledger,
    vars: u32,
    decided: &[i32],
    next: u32,
    hints: Rows<u64>,
) -> Result<(), AllocError>
    requires few { vars < 2 ^ 31 }
    requires decided { AreDecided vars next decided.now }
    requires free { (side : Bool) → has decided.now (literal_at next side) ≡ false }
    requires hints { AreBothDenied (clauses_of ledger.old.inputs ledger.old.steps) decided.now next hints }
    ensures inputs { ledger.new.inputs ≡ ledger.old.inputs }
    ensures more { OnOk result (Extends ledger.old.steps ledger.new.steps) }
    ensures ends { OnOk result (EndsWith ledger.new.steps (opposites decided.now)) }
{
    let _ = next;
    let clause = opposites_of(alloc, decided, vars)?;
    ledger.put(Step { clause, hints })?;
    Ok(())
}

/// Tries both sides of each variable from one on that isn't decided: the sides of all, where they make all clauses true, or a last step
/// that shows that what is decided can't be.
pub fn by_cases(
    alloc: Global,
    ledger: &mut Ledger,
    vars: u32,
    decided: &[i32],
    next: u32,
) -> Result<Option<Vec<bool>>, AllocError>
    requires few { vars < 2 ^ 31 }
    requires next { next ≤ vars + 1 }
    requires first { 1 ≤ next }
    requires clauses { list_all (list_all (is_within vars)) ledger.old.inputs ≡ true }
    requires decided { AreDecided vars next decided.now }
    ensures inputs { ledger.new.inputs ≡ ledger.old.inputs }
    ensures more { OnOk result (Extends ledger.old.steps ledger.new.steps) }
    ensures model { IfOk result (λ found. IfSome found (λ sides. (length sides.items ≡ vars) × Satisfies sides.items ledger.old.inputs decided.now)) }
    ensures none { IfOk result (λ found. IfNone found (EndsWith ledger.new.steps (opposites decided.now))) }
{
    if next > vars {
        return at_the_end(alloc, ledger, vars, decided);
    }
    if is_decided(decided, next, true) || is_decided(decided, next, false) {
        return by_cases(alloc, ledger, vars, decided, next + 1);
    }
    let left = with_side(alloc, decided, next, true)?;
    let found = by_cases(alloc, ledger, vars, left.as_slice(), next + 1)?;
    if found.is_some() {
        return Ok(found);
    }
    let left = last_number(ledger);
    let right = with_side(alloc, decided, next, false)?;
    let found = by_cases(alloc, ledger, vars, right.as_slice(), next + 1)?;
    if found.is_some() {
        return Ok(found);
    }
    let right = last_number(ledger);
    let hints = Rows::from_vec(vec![in alloc; left, right]?);
    deny_both(alloc, ledger, vars, decided, next, hints)?;
    Ok(None)
}

/// The number of the last step.
fn last_number(ledger: &Ledger) -> u64
    ensures { result ≡ length ledger.now.inputs + length ledger.now.steps }
{
    let log = ledger.log();
    let inputs = log.inputs.as_slice();
    let steps = log.steps.as_slice();
    inputs.len() as u64 + steps.len() as u64
}
