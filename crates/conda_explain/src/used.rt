ghost use Rattle.std.specs.Prelude.{◌≡◌, ◌||◌, ℤ, IfOk, List, OnOk, map, option_copied};
ghost use Rattle.std.specs.List.{filter_map};
ghost use Rattle.conda_refute.specs.Refutation.{named};
ghost use Rattle.conda_explain.specs.Shown.{holds, used};

use conda_refute::{Clause, Log};
use indexmap::IndexSet;
use std::alloc::{AllocError, Global};

/// A list of its own with the literals of the clause.
pub fn literals_of(alloc: Global, clause: &Clause) -> Result<Vec<i32>, AllocError>
    ensures { IfOk result (λ list. list.items ≡ clause.now) }
{
    Vec::from_slice(alloc, clause.as_slice())
}

/// The input that the hint names.
fn input_named(inputs: &[Clause], hint: u64) -> Option<&Clause>
    ensures { option_copied result ≡ named inputs.now hint }
{
    if hint == 0 {
        return None;
    }
    inputs.get((hint - 1) as usize)
}

/// Adds the inputs that the hints name.
fn add_named(
    alloc: Global,
    set: &mut IndexSet<Vec<i32>>,
    inputs: &[Clause],
    hints: &[u64],
) -> Result<(), AllocError>
    ensures { OnOk result ((clause : List ℤ) → holds (map (λ k. k.items) set.new.keys) clause
        ≡ holds (map (λ k. k.items) set.old.keys) clause
        || holds (filter_map (named inputs.now) hints.now) clause) }
{
    for hint in hints {
        if let Some(clause) = input_named(inputs, *hint) {
            set.insert(literals_of(alloc, clause)?)?;
        }
    }
    Ok(())
}

/// The inputs that steps of the log name, each once.
pub fn used(alloc: Global, log: &Log) -> Result<IndexSet<Vec<i32>>, AllocError>
    ensures { IfOk result (λ set. (clause : List ℤ)
        → holds (map (λ k. k.items) set.keys) clause ≡ holds (used log.now) clause) }
{
    let mut set = IndexSet::new(alloc);
    for step in log.steps.as_slice() {
        add_named(
            alloc,
            &mut set,
            log.inputs.as_slice(),
            step.hints.as_slice(),
        )?;
    }
    Ok(set)
}
