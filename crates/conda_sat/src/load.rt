ghost use Rattle.std.specs.Prelude.{◌≡◌};

use crate::assignment::{opposite_of, place_of, short};
use crate::ledger::Ledger;
use crate::search::Search;
use crate::steps::Steps;
use conda_base::Rows;
use conda_refute::{Clause, Step};
use std::alloc::{AllocError, Global};

/// Takes the steps into the ledger that the last one of the search needs; answers whether each follows.
pub fn take_needed(
    alloc: Global,
    ledger: &mut Ledger,
    steps: &mut Steps,
) -> Result<bool, AllocError>
    ensures { ledger.new.inputs ≡ ledger.old.inputs }
{
    for at in steps.needed(alloc)? {
        let Some(step) = step_at(alloc, steps, at)? else {
            return Ok(false);
        };
        if !ledger.add(alloc, step)? {
            return Ok(false);
        }
        steps.set_number(at, ledger.len());
    }
    Ok(true)
}

/// A step of the search as the ledger counts clauses.
fn step_at(alloc: Global, steps: &Steps, at: usize) -> Result<Option<Step>, AllocError> {
    let Some(clause) = Clause::from_vec(Vec::from_slice(alloc, steps.clause(at))?) else {
        return Ok(None);
    };
    let mut hints = Vec::with_capacity(alloc, steps.hints(at).len())?;
    for hint in steps.hints(at) {
        hints.push(steps.number(*hint))?;
    }
    let hints = Rows::from_vec(hints);
    Ok(Some(Step { clause, hints }))
}

/// A search over the clauses and steps of a ledger.
pub fn loaded(alloc: Global, vars: u32, ledger: &Ledger) -> Result<Search, AllocError> {
    let log = ledger.log();
    let inputs = log.inputs.as_slice();
    let steps = log.steps.as_slice();
    let mut search = Search::new(alloc, vars, short(inputs.len().saturating_add(steps.len())))?;
    let mut number = 0_u32;
    for clause in inputs {
        number = number.saturating_add(1);
        search.add(clause.as_slice(), number)?;
    }
    for step in steps {
        number = number.saturating_add(1);
        search.add(step.clause.as_slice(), number)?;
    }
    Ok(search)
}

/// What stands in a clause.
#[derive(Clone, Copy, Debug, PartialEq, Eq)]
pub enum Shape {
    /// Literals of different variables.
    Plain,
    /// A literal twice, and no opposites.
    Repeats,
    /// Two literals that are opposites.
    Opposites,
}

/// What stands in a clause.
pub fn shape_of(alloc: Global, clause: &[i32]) -> Result<Shape, AllocError> {
    if clause.len() <= 8 {
        return Ok(short_shape(clause));
    }
    let mut places = Vec::with_capacity(alloc, clause.len())?;
    for literal in clause {
        places.push(place_of(*literal))?;
    }
    places.sort_unstable();
    let mut shape = Shape::Plain;
    let mut before = 0_usize;
    for place in places.iter() {
        if *place == before {
            shape = Shape::Repeats;
        } else if *place == before | 1 {
            return Ok(Shape::Opposites);
        }
        before = *place;
    }
    Ok(shape)
}

/// The same by looking at each two.
fn short_shape(clause: &[i32]) -> Shape {
    let mut shape = Shape::Plain;
    for (at, literal) in clause.iter().enumerate() {
        for other in clause.iter().take(at) {
            if *other == *literal {
                shape = Shape::Repeats;
            } else if *other == opposite_of(*literal) {
                return Shape::Opposites;
            }
        }
    }
    shape
}
