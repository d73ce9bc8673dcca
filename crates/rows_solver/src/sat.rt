ghost use Rattle.std.specs.Prelude.{◌≡◌, ◌<◌, ◌^◌, true};
ghost use Rattle.std.specs.List.{list_all};
ghost use Rattle.conda_sat.specs.Answers.{is_within};

use conda_base::Text;
use conda_refute::{Clause, Log, check};
use conda_sat::{Answer, Solver, Verdict, clauses_are_within, literals_are_within, solve};
use std::alloc::{AllocError, Global};

/// The rows of conda_sat.
pub fn answer(alloc: Global, call: &str, arguments: &[Text]) -> Result<Option<String>, AllocError> {
    match (call, arguments) {
        ("sat.solve", [vars, clauses, order]) => asked_once(alloc, vars, clauses, order),
        ("sat.sides", [vars, clauses, order]) => sides(alloc, vars, clauses, order),
        ("sat.steps", [vars, clauses, order]) => steps(alloc, vars, clauses, order),
        ("sat.ask", [vars, clauses, questions @ ..]) => asked(alloc, vars, clauses, questions),
        _ => Ok(None),
    }
}

/// The numbers of a text; those that can't be read are passed over.
fn numbers(alloc: Global, text: &str) -> Result<Vec<i32>, AllocError> {
    let mut items = Vec::new(alloc);
    for word in text.split_whitespace() {
        if let Ok(number) = word.parse::<i32>() {
            items.push(number)?;
        }
    }
    Ok(items)
}

/// The clauses of a text; they stand between commas, and a clause with a 0 is passed over.
fn clauses_of(alloc: Global, text: &str) -> Result<Vec<Clause>, AllocError> {
    let mut clauses = Vec::new(alloc);
    if text.is_empty() {
        return Ok(clauses);
    }
    for part in text.split(',') {
        if let Some(clause) = Clause::from_vec(numbers(alloc, part)?) {
            clauses.push(clause)?;
        }
    }
    Ok(clauses)
}

/// The number of variables of a text, or none if there is no such number.
fn vars_of(text: &Text) -> u32
    ensures { result < 2 ^ 31 }
{
    match text.as_str().parse::<u32>() {
        Ok(vars) if vars < 1 << 31 => vars,
        _ => 0,
    }
}

/// The answer, or None where a literal is of another variable.
fn solved(
    alloc: Global,
    vars: &Text,
    clauses: &[Clause],
    order: &Text,
) -> Result<Option<Answer>, AllocError> {
    let vars = vars_of(vars);
    if !clauses_are_within(vars, clauses) {
        return Ok(None);
    }
    let order = numbers(alloc, order.as_str())?;
    match solve(alloc, vars, clauses, order.as_slice()) {
        Ok(answer) => Ok(Some(answer)),
        Err(_) => Ok(None),
    }
}

/// Whether a literal is true.
fn is_true(sides: &[bool], literal: i32) -> bool {
    let at = (literal.unsigned_abs() as usize).wrapping_sub(1);
    sides.get(at).copied() == Some(literal > 0)
}

/// Whether each clause has a literal that is true.
fn are_true(sides: &[bool], clauses: &[Clause]) -> bool {
    for clause in clauses {
        let mut found = false;
        for literal in clause.as_slice() {
            found = found || is_true(sides, *literal);
        }
        if !found {
            return false;
        }
    }
    true
}

/// `model` where the sides make all clauses true, `refuted` where the checker accepts the log and its inputs are among the clauses.
fn asked_once(
    alloc: Global,
    vars: &Text,
    clauses: &Text,
    order: &Text,
) -> Result<Option<String>, AllocError> {
    let clauses = clauses_of(alloc, clauses.as_str())?;
    let word = match solved(alloc, vars, clauses.as_slice(), order)? {
        Some(Answer::Model(sides)) => model_word(sides.as_slice(), clauses.as_slice(), &[]),
        Some(Answer::Refuted(log)) => refuted_word(alloc, &log),
        None => return Ok(None),
    };
    Ok(Some(String::from_str(alloc, word)?))
}

/// The literals that the model makes true, in the order of the variables.
fn sides(
    alloc: Global,
    vars: &Text,
    clauses: &Text,
    order: &Text,
) -> Result<Option<String>, AllocError> {
    let clauses = clauses_of(alloc, clauses.as_str())?;
    let Some(Answer::Model(sides)) = solved(alloc, vars, clauses.as_slice(), order)? else {
        return Ok(None);
    };
    let mut text = String::new(alloc);
    for (at, side) in sides.as_slice().iter().enumerate() {
        let sign = if *side { "" } else { "-" };
        let space = if at == 0 { "" } else { " " };
        let shown = format!(in alloc; "{space}{sign}{}", (at as u64).saturating_add(1))?;
        text.push_str(shown.as_str())?;
    }
    Ok(Some(text))
}

/// Whether the refutation has fewer than 1,000 steps, and how many inputs it has.
fn steps(
    alloc: Global,
    vars: &Text,
    clauses: &Text,
    order: &Text,
) -> Result<Option<String>, AllocError> {
    let clauses = clauses_of(alloc, clauses.as_str())?;
    let Some(Answer::Refuted(log)) = solved(alloc, vars, clauses.as_slice(), order)? else {
        return Ok(None);
    };
    let bound = if log.steps.len() < 1000 {
        "below 1000"
    } else {
        "1000 or more"
    };
    let inputs = log.inputs.len();
    Ok(Some(format!(in alloc; "{bound} from {inputs}")?))
}

/// The answers to one question after another, each the assumed literals of a text.
fn asked(
    alloc: Global,
    vars: &Text,
    clauses: &Text,
    questions: &[Text],
) -> Result<Option<String>, AllocError> {
    let vars = vars_of(vars);
    let clauses = clauses_of(alloc, clauses.as_str())?;
    if !clauses_are_within(vars, clauses.as_slice()) {
        return Ok(None);
    }
    let Ok(mut solver) = Solver::make(alloc, vars, clauses.as_slice()) else {
        return Ok(None);
    };
    let mut text = String::new(alloc);
    for question in questions {
        let assumed = numbers(alloc, question.as_str())?;
        if !literals_are_within(vars, assumed.as_slice()) {
            return Ok(None);
        }
        let word = match solver.ask(assumed.as_slice(), &[]) {
            Ok(Verdict::Model(sides)) => model_word(sides.as_slice(), clauses.as_slice(), &assumed),
            Ok(Verdict::Denied) => "denied",
            Err(_) => return Ok(None),
        };
        if !text.is_empty() {
            text.push_str(", ")?;
        }
        text.push_str(word)?;
    }
    Ok(Some(text))
}

fn model_word(sides: &[bool], clauses: &[Clause], assumed: &[i32]) -> &'static str {
    let mut all = are_true(sides, clauses);
    for literal in assumed {
        all = all && is_true(sides, *literal);
    }
    if all { "model" } else { "model that is false" }
}

fn refuted_word(alloc: Global, log: &Log) -> &'static str {
    match check(alloc, log) {
        Ok(()) => "refuted",
        Err(_) => "refutation that is refused",
    }
}
