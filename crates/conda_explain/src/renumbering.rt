ghost use Rattle.std.specs.Prelude.{◌≡◌, IfOk, length, map};
ghost use Rattle.conda_explain.specs.Renumbered.{hint_among, new_numbers, number_of, renumbered};

use crate::used::literals_of;
use conda_base::{Copied, Rows};
use conda_refute::{Clause, Log, Step};
use indexmap::IndexSet;
use std::alloc::{AllocError, Global};

/// The number of an input among the clauses at these places, from 1.
fn number_of(alloc: Global, places: &IndexSet<Vec<i32>>, input: &Clause) -> Result<u64, AllocError>
    ensures { IfOk result (λ number. number
        ≡ number_of (map (λ k. k.items) places.now.keys) input.now) }
{
    let literals = literals_of(alloc, input)?;
    let count = places.len();
    let at = places.get_index_of(&literals).unwrap_or(count);
    Ok(at as u64 + 1)
}

/// The new number of each clause of the log, of its inputs and then of its steps.
fn new_numbers(
    alloc: Global,
    places: &IndexSet<Vec<i32>>,
    log: &Log,
) -> Result<Vec<u64>, AllocError>
    ensures { IfOk result (λ list. list.items
        ≡ new_numbers (map (λ k. k.items) places.now.keys) log.now) }
{
    let mut numbers = Vec::new(alloc);
    for input in log.inputs.as_slice() {
        numbers.push(number_of(alloc, places, input)?)?;
    }
    let first = places.len() as u64 + 1;
    let steps = log.steps.as_slice();
    for at in 0..steps.len() {
        numbers.push(first + at as u64)?;
    }
    Ok(numbers)
}

/// The new number of a hint, where these are the new numbers and `none` is that of no clause.
fn new_hint(numbers: &[u64], none: u64, hint: u64) -> u64
    ensures { result ≡ hint_among numbers.now none hint }
{
    if hint == 0 {
        return none;
    }
    match numbers.get((hint - 1) as usize) {
        Some(number) => *number,
        None => none,
    }
}

/// The hints with their new numbers.
fn new_hints(
    alloc: Global,
    numbers: &[u64],
    none: u64,
    hints: &[u64],
) -> Result<Rows<u64>, AllocError>
    ensures { IfOk result (λ made. made ≡ map (hint_among numbers.now none) hints.now) }
{
    let mut made = Rows::new(alloc);
    for hint in hints {
        made.push(new_hint(numbers, none, *hint))?;
    }
    Ok(made)
}

/// The steps over the clauses at these places.
pub fn renumbered(
    alloc: Global,
    places: &IndexSet<Vec<i32>>,
    log: &Log,
) -> Result<Rows<Step>, AllocError>
    ensures { IfOk result (λ made. made
        ≡ map (renumbered (map (λ k. k.items) places.now.keys) log.now) log.now.steps) }
{
    let numbers = new_numbers(alloc, places, log)?;
    let steps = log.steps.as_slice();
    let none = places.len() as u64 + steps.len() as u64 + 1;
    let mut made = Rows::new(alloc);
    for step in steps {
        let hints = new_hints(alloc, numbers.as_slice(), none, step.hints.as_slice())?;
        let clause = step.clause.copy()?;
        made.push(Step { clause, hints })?;
    }
    Ok(made)
}
