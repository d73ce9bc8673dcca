ghost use Rattle.std.specs.Prelude.{◌≡◌, All, Contains, IfOk, true};
ghost use Rattle.conda_refute.specs.Refutation.{refuted};

use conda_base::{Copied, Rows};
use conda_refute::{Clause, Log, Step, check};
use std::alloc::{AllocError, Global};

/// A refutation by the inputs and steps that lead to the last step of this one, and no others.
pub fn trimmed(alloc: Global, log: &Log) -> Result<Log, AllocError>
    requires { refuted log.now ≡ true }
    ensures refuted { IfOk result (λ made. refuted made ≡ true) }
    ensures inputs { IfOk result (λ made. All (Contains log.now.inputs) made.inputs) }
{
    let made = kept(alloc, log)?;
    match check(alloc, &made) {
        Ok(()) => Ok(made),
        Err(_) => log.copy(),
    }
}

/// For each clause, inputs first and then steps, whether the last step needs it.
fn needed(alloc: Global, inputs: usize, steps: &[Step]) -> Result<Vec<bool>, AllocError> {
    let mut flags = Vec::with_capacity(alloc, inputs.saturating_add(steps.len()))?;
    for _ in 0..inputs {
        flags.push(false)?;
    }
    for at in 0..steps.len() {
        flags.push(at == steps.len() - 1)?;
    }
    for back in 0..steps.len() {
        let at = steps.len() - 1 - back;
        if flag(flags.as_slice(), inputs.saturating_add(at)) {
            mark_hints(flags.as_mut_slice(), steps[at].hints.as_slice());
        }
    }
    Ok(flags)
}

fn flag(flags: &[bool], at: usize) -> bool {
    match flags.get(at) {
        Some(flag) => *flag,
        None => false,
    }
}

fn mark_hints(flags: &mut [bool], hints: &[u64]) {
    for hint in hints {
        if let Some(flag) = flags.get_mut((*hint as usize).wrapping_sub(1)) {
            *flag = true;
        }
    }
}

/// For each clause that is needed its new number.
fn new_numbers(alloc: Global, flags: &[bool]) -> Result<Vec<u64>, AllocError> {
    let mut numbers = Vec::with_capacity(alloc, flags.len())?;
    let mut last = 0_u64;
    for flag in flags {
        if *flag {
            last = last.saturating_add(1);
        }
        numbers.push(last)?;
    }
    Ok(numbers)
}

/// The inputs that are needed.
fn kept_inputs(alloc: Global, flags: &[bool], inputs: &[Clause]) -> Result<Rows<Clause>, AllocError>
    ensures { IfOk result (λ made. All (Contains inputs.now) made) }
{
    let mut made = Rows::new(alloc);
    for (at, input) in inputs.iter().enumerate() {
        if !flag(flags, at) {
            continue;
        }
        made.push(input.copy()?)?;
    }
    Ok(made)
}

/// The steps that are needed, with the new numbers of their hints.
fn kept_steps(
    alloc: Global,
    flags: &[bool],
    inputs: usize,
    steps: &[Step],
) -> Result<Rows<Step>, AllocError> {
    let numbers = new_numbers(alloc, flags)?;
    let mut made = Rows::new(alloc);
    for (at, step) in steps.iter().enumerate() {
        if flag(flags, inputs.saturating_add(at)) {
            let hints = renumbered(alloc, numbers.as_slice(), step.hints.as_slice())?;
            let clause = step.clause.copy()?;
            made.push(Step { clause, hints })?;
        }
    }
    Ok(made)
}

fn renumbered(alloc: Global, numbers: &[u64], hints: &[u64]) -> Result<Rows<u64>, AllocError> {
    let mut made = Vec::with_capacity(alloc, hints.len())?;
    for hint in hints {
        if let Some(number) = numbers.get((*hint as usize).wrapping_sub(1)) {
            made.push(*number)?;
        }
    }
    Ok(Rows::from_vec(made))
}

fn kept(alloc: Global, log: &Log) -> Result<Log, AllocError>
    ensures { IfOk result (λ made. All (Contains log.now.inputs) made.inputs) }
{
    let inputs = log.inputs.as_slice();
    let steps = log.steps.as_slice();
    let flags = needed(alloc, inputs.len(), steps)?;
    let kept_inputs = kept_inputs(alloc, flags.as_slice(), inputs)?;
    let kept_steps = kept_steps(alloc, flags.as_slice(), inputs.len(), steps)?;
    Ok(Log {
        inputs: kept_inputs,
        steps: kept_steps,
    })
}
