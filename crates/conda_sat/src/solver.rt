ghost use Rattle.std.specs.Prelude.{◌≡◌, ◌≢◌, ◌<◌, ◌^◌, ℤ, List, [], All, Contains, IfOk, IfSome, true};
ghost use Rattle.std.specs.List.{list_all};
ghost use Rattle.conda_refute.specs.Refutation.{ends_empty, has_opposites, refuted};
ghost use Rattle.conda_sat.specs.Answers.{IsDenied, IsVerdict, is_within};

use crate::cases::by_cases;
use crate::denial::{denies, holds_opposites};
use crate::error::SatErr;
use crate::ledger::Ledger;
use crate::load::{loaded, take_needed};
use crate::model::{clauses_are_true, literals_are_true};
use crate::search::{Outcome, Search};
use crate::trim::trimmed;
use crate::verdict::Verdict;
use conda_base::{Rows, copied_all};
use conda_refute::{Clause, Log, every_step_holds};
use std::alloc::{AllocError, Global};
use std::marker::Model;

/// Whether the last step shows that no sides make the assumed literals true.
fn last_step_denies(ledger: &Ledger, assumed: &[i32]) -> bool
    ensures denied { result ≡ true → IsDenied ledger.now.inputs assumed.now }
    ensures ended { result ≡ true → assumed.now ≡ [] → ends_empty ledger.now.steps ≡ true }
{
    let log = ledger.log();
    every_step_holds(log);
    match log.steps.as_slice().last() {
        Some(step) => denies(assumed, step.clause.as_slice()),
        None => false,
    }
}

/// Whether the last step is the empty clause.
fn is_over(ledger: &Ledger) -> bool
    ensures over { result ≡ true → ends_empty ledger.now.steps ≡ true }
    ensures denied { result ≡ true → (assumed : List ℤ) → IsDenied ledger.now.inputs assumed }
{
    last_step_denies(ledger, &[])
}

/// The sides, if they make every clause and every assumed literal true.
fn model_of(sides: Vec<bool>, vars: u32, clauses: &[Clause], assumed: &[i32]) -> Option<Verdict>
    ensures right { IfSome result (IsVerdict vars clauses.now assumed.now) }
    ensures model { result ≢ Some Verdict.Denied }
{
    if sides.len() == vars as usize
        && clauses_are_true(sides.as_slice(), clauses)
        && literals_are_true(sides.as_slice(), assumed)
    {
        return Some(Verdict::Model(Rows::from_vec(sides)));
    }
    None
}

/// What the search found, if it is seen to be right.
fn seen(
    search: &Search,
    outcome: Outcome,
    vars: u32,
    ledger: &Ledger,
    assumed: &[i32],
) -> Result<Option<Verdict>, AllocError>
    ensures right { IfOk result (λ found. IfSome found (IsVerdict vars ledger.now.inputs assumed.now)) }
    ensures ended { result ≡ Ok (Some Verdict.Denied) → assumed.now ≡ [] → ends_empty ledger.now.steps ≡ true }
{
    match outcome {
        Outcome::Model => {
            let inputs = ledger.log().inputs.as_slice();
            Ok(model_of(search.sides()?, vars, inputs, assumed))
        }
        Outcome::Denied if last_step_denies(ledger, assumed) => Ok(Some(Verdict::Denied)),
        Outcome::Opposites if holds_opposites(assumed) => Ok(Some(Verdict::Denied)),
        _ => Ok(None),
    }
}

/// How many conflicts are allowed in turn, as hundreds: 1, 1, 2, 1, 1, 2, 4 and so on (Luby, Sinclair and Zuckerman 1993).
#[derive(Clone, Copy, Debug)]
struct Allowance {
    turn: u64,
    hundreds: u64,
}

impl Allowance {
    fn next(&mut self) {
        if self.turn & self.turn.wrapping_neg() == self.hundreds {
            self.turn = self.turn.wrapping_add(1);
            self.hundreds = 1;
        } else {
            self.hundreds = self.hundreds.wrapping_mul(2);
        }
    }
}

/// Searches until there is an answer; of a denial, the ledger takes the steps that it needs. `Restart`: one of them doesn't follow.
fn searched(
    alloc: Global,
    ledger: &mut Ledger,
    search: &mut Search,
    assumed: &[i32],
    order: &[i32],
) -> Result<Outcome, AllocError>
    ensures { ledger.new.inputs ≡ ledger.old.inputs }
{
    let outcome = outcome_of(search, assumed, order)?;
    if outcome == Outcome::Denied && !take_needed(alloc, ledger, search.steps())? {
        return Ok(Outcome::Restart);
    }
    Ok(outcome)
}

/// Searches until there is an answer.
fn outcome_of(search: &mut Search, assumed: &[i32], order: &[i32]) -> Result<Outcome, AllocError> {
    for literal in order {
        search.prefer(*literal);
    }
    let mut allowance = Allowance {
        turn: 1,
        hundreds: 1,
    };
    let mut first = order;
    for _turn in 0..u64::MAX {
        let outcome = search.run(assumed, first, allowance.hundreds.saturating_mul(100))?;
        if outcome != Outcome::Restart {
            return Ok(outcome);
        }
        allowance.next();
        first = &[];
    }
    Ok(Outcome::Restart)
}

/// The last model of the search with a few changes, if it is seen to answer the question.
fn by_last_model(
    search: &mut Search,
    vars: u32,
    clauses: &[Clause],
    assumed: &[i32],
) -> Result<Option<Verdict>, AllocError>
    ensures right { IfOk result (λ found. IfSome found (IsVerdict vars clauses.now assumed.now)) }
    ensures model { result ≢ Ok (Some Verdict.Denied) }
{
    match search.mend(assumed)? {
        Some(sides) => Ok(model_of(sides, vars, clauses, assumed)),
        None => Ok(None),
    }
}

/// What the search finds.
fn by_search(
    alloc: Global,
    ledger: &mut Ledger,
    search: &mut Search,
    vars: u32,
    assumed: &[i32],
    order: &[i32],
) -> Result<Option<Verdict>, AllocError>
    ensures inputs { ledger.new.inputs ≡ ledger.old.inputs }
    ensures right { IfOk result (λ found. IfSome found (IsVerdict vars ledger.old.inputs assumed.now)) }
    ensures ended { result ≡ Ok (Some Verdict.Denied) → assumed.now ≡ [] → ends_empty ledger.new.steps ≡ true }
{
    if order.is_empty() {
        let inputs = ledger.log().inputs.as_slice();
        let found = by_last_model(search, vars, inputs, assumed)?;
        if found.is_some() {
            return Ok(found);
        }
    }
    let outcome = searched(alloc, ledger, search, assumed, order)?;
    seen(search, outcome, vars, ledger, assumed)
}

/// What the kept search finds, or one loaded anew where none is kept. The search is kept on where its answer was seen to be right.
fn by_kept(
    alloc: Global,
    ledger: &mut Ledger,
    kept: &mut Option<Search>,
    vars: u32,
    assumed: &[i32],
    order: &[i32],
) -> Result<Option<Verdict>, AllocError>
    ensures inputs { ledger.new.inputs ≡ ledger.old.inputs }
    ensures right { IfOk result (λ found. IfSome found (IsVerdict vars ledger.old.inputs assumed.now)) }
    ensures ended { result ≡ Ok (Some Verdict.Denied) → assumed.now ≡ [] → ends_empty ledger.new.steps ≡ true }
{
    let mut search = match kept.take() {
        Some(search) => search,
        None => loaded(alloc, vars, ledger)?,
    };
    let found = by_search(alloc, ledger, &mut search, vars, assumed, order)?;
    if found.is_some() {
        *kept = Some(search);
    }
    Ok(found)
}

/// The answer by both sides of each variable.
fn by_both_sides(
    alloc: Global,
    ledger: &mut Ledger,
    vars: u32,
    assumed: &[i32],
) -> Result<Verdict, AllocError>
    requires few { vars < 2 ^ 31 }
    requires clauses { list_all (list_all (is_within vars)) ledger.old.inputs ≡ true }
    requires within { list_all (is_within vars) assumed.now ≡ true }
    ensures inputs { ledger.new.inputs ≡ ledger.old.inputs }
    ensures right { IfOk result (IsVerdict vars ledger.old.inputs assumed.now) }
    ensures ended { result ≡ Ok Verdict.Denied → assumed.now ≡ [] → ends_empty ledger.new.steps ≡ true }
{
    if holds_opposites(assumed) {
        return Ok(Verdict::Denied);
    }
    let Some(sides) = by_cases(alloc, ledger, vars, assumed, 1)? else {
        every_step_holds(ledger.log());
        return Ok(Verdict::Denied);
    };
    Ok(Verdict::Model(Rows::from_vec(sides)))
}

/// Clauses over some variables, of which questions are asked. What it learned for one question serves the next.
///
/// Contracts see its variables, its clauses and the steps that it learned. Where a call lacks memory, the variables and clauses stay, and
/// the steps may have grown.
#[derive(Drop)]
pub struct Solver {
    alloc: Global,
    vars: u32,
    ledger: Ledger,
    search: Option<Search>,
}

impl Model for Solver {
    ghost use Rattle.std.specs.Prelude.{◌≡◌, ◌<◌, ◌^◌, true};
    ghost use Rattle.std.specs.List.{list_all};
    ghost use Rattle.conda_sat.specs.Answers.{Question, is_within};

    ghost Value = { Question };

    ghost view = { λ s. record { vars = s.vars; clauses = s.ledger.inputs; steps = s.ledger.steps } };

    ghost invariant = { λ s. (s.vars < 2 ^ 31) × (list_all (list_all (is_within s.vars)) s.ledger.inputs ≡ true) };
}

impl Solver {
    /// A solver of these clauses, whose literals are of the variables 1 to `vars`.
    pub fn make(alloc: Global, vars: u32, clauses: &[Clause]) -> Result<Solver, SatErr>
        requires few { vars < 2 ^ 31 }
        requires within { list_all (list_all (is_within vars)) clauses.now ≡ true }
        ensures { IfOk result (λ made. made ≡ record { vars = vars; clauses = clauses.now; steps = [] }) }
    {
        let clauses = Rows::from_vec(copied_all(alloc, clauses)?);
        Ok(Solver {
            alloc,
            vars,
            ledger: Ledger::new(alloc, clauses),
            search: None,
        })
    }

    /// Sides of the variables that make every clause and every assumed literal true, or that there are none. The literals of `order` are tried
    /// first, in their order; those of other variables are passed over, and none decides whether there is a model.
    pub fn ask(&mut self, assumed: &[i32], order: &[i32]) -> Result<Verdict, SatErr>
        requires within { list_all (is_within self.old.vars) assumed.now ≡ true }
        ensures right { IfOk result (IsVerdict self.old.vars self.old.clauses assumed.now) }
        ensures ended { result ≡ Ok Verdict.Denied → assumed.now ≡ [] → ends_empty self.new.steps ≡ true }
        ensures vars { self.new.vars ≡ self.old.vars }
        ensures clauses { self.new.clauses ≡ self.old.clauses }
    {
        if is_over(&self.ledger) {
            return Ok(Verdict::Denied);
        }
        let found = by_kept(
            self.alloc,
            &mut self.ledger,
            &mut self.search,
            self.vars,
            assumed,
            order,
        )?;
        if let Some(verdict) = found {
            return Ok(verdict);
        }
        let verdict = by_both_sides(self.alloc, &mut self.ledger, self.vars, assumed)?;
        Ok(verdict)
    }

    /// The refutation that a denial with nothing assumed leaves: it has the steps that lead to the empty clause, and the clauses that they need.
    pub fn refutation(&self) -> Result<Log, SatErr>
        requires { ends_empty self.now.steps ≡ true }
        ensures refuted { IfOk result (λ log. refuted log ≡ true) }
        ensures inputs { IfOk result (λ log. All (Contains self.now.clauses) log.inputs) }
    {
        let log = trimmed(self.alloc, self.ledger.log())?;
        Ok(log)
    }
}
