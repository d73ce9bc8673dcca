use crate::assignment::{Assignment, opposite_of, place_of, variable_of};
use crate::watches::Watches;
use std::alloc::{AllocError, Global};

/// The last model, which is changed here and there for a question that it doesn't answer yet. A question that few changes answer needs no search.
///
/// All of it is a hint: an answer is looked over as any other.
#[derive(Drop)]
pub struct Mended {
    /// Whether each variable is true.
    sides: Vec<bool>,
    /// For each literal that is true, clauses that it makes true: each clause stands in one of these lists.
    lists: Vec<Vec<u32>>,
    /// For each variable the last question that doesn't let it change any more, and the number of this question.
    held: Vec<u64>,
    question: u64,
    /// The literals that this question made true, in their order.
    changed: Vec<i32>,
    is_model: bool,
}

impl Mended {
    pub fn new(alloc: Global, vars: u32) -> Result<Mended, AllocError> {
        let size = vars as usize + 1;
        let mut lists = Vec::with_capacity(alloc, size * 2)?;
        for _ in 0..size * 2 {
            lists.push(Vec::new(alloc))?;
        }
        Ok(Mended {
            sides: vec![in alloc; false; size]?,
            lists,
            held: vec![in alloc; 0; size]?,
            question: 0,
            changed: Vec::new(alloc),
            is_model: false,
        })
    }

    fn is_true(&self, literal: i32) -> bool {
        match self.sides.get(variable_of(literal)) {
            Some(side) => *side == (literal > 0),
            None => false,
        }
    }

    fn is_held(&self, literal: i32) -> bool {
        match self.held.get(variable_of(literal)) {
            Some(question) => *question == self.question,
            None => true,
        }
    }

    fn hold(&mut self, literal: i32) {
        if let Some(question) = self.held.get_mut(variable_of(literal)) {
            *question = self.question;
        }
    }

    fn set(&mut self, literal: i32) {
        if let Some(side) = self.sides.get_mut(variable_of(literal)) {
            *side = literal > 0;
        }
    }

    /// Makes a literal true, and holds it.
    fn change(&mut self, literal: i32) -> Result<(), AllocError> {
        self.hold(literal);
        if !self.is_true(literal) {
            self.set(literal);
            self.changed.push(literal)?;
        }
        Ok(())
    }

    fn list(&mut self, literal: i32, clause: u32) -> Result<(), AllocError> {
        match self.lists.get_mut(place_of(literal)) {
            Some(list) => list.push(clause)?,
            None => {}
        }
        Ok(())
    }

    fn take(&mut self, alloc: Global, literal: i32) -> Vec<u32> {
        match self.lists.get_mut(place_of(literal)) {
            Some(list) => std::mem::replace(list, Vec::new(alloc)),
            None => Vec::new(alloc),
        }
    }

    /// How many clauses at most are false once the opposite is true.
    fn cost(&self, literal: i32) -> usize {
        match self.lists.get(place_of(opposite_of(literal))) {
            Some(list) => list.len(),
            None => 0,
        }
    }

    pub fn is_model(&self) -> bool {
        self.is_model
    }

    /// Takes up a model, and which of the first clauses each literal makes true.
    pub fn take_up(
        &mut self,
        assignment: &Assignment,
        watches: &Watches,
        clauses: u32,
    ) -> Result<(), AllocError> {
        for list in self.lists.iter_mut() {
            list.clear();
        }
        for literal in assignment.trail() {
            self.set(*literal);
        }
        for clause in 0..clauses {
            match self.true_literal(watches.clause(clause)) {
                Some(literal) => self.list(literal, clause)?,
                None => {}
            }
        }
        self.is_model = true;
        Ok(())
    }

    fn true_literal(&self, clause: &[i32]) -> Option<i32> {
        for literal in clause {
            if self.is_true(*literal) {
                return Some(*literal);
            }
        }
        None
    }

    /// The literal of a false clause that may change and makes the fewest clauses false.
    fn best_literal(&self, clause: &[i32]) -> Option<i32> {
        let mut best = None;
        let mut least = usize::MAX;
        for literal in clause {
            let cost = self.cost(*literal);
            if !self.is_held(*literal) && (best.is_none() || cost < least) {
                best = Some(*literal);
                least = cost;
            }
        }
        best
    }

    /// Changes the model until the assumed literals are true in it, by no more than so many changes. Literals known for good don't change.
    /// False: it wasn't found, and the model is as before.
    pub fn mend(
        &mut self,
        alloc: Global,
        watches: &Watches,
        known: &[i32],
        assumed: &[i32],
        most: usize,
    ) -> Result<bool, AllocError> {
        self.question = self.question.wrapping_add(1);
        self.changed.clear();
        for literal in known {
            self.hold(*literal);
        }
        for literal in assumed {
            if self.is_held(*literal) && !self.is_true(*literal) {
                self.undo(alloc, watches)?;
                return Ok(false);
            }
            self.change(*literal)?;
        }
        for next in 0..most {
            let Some(literal) = self.changed.get(next).copied() else {
                return Ok(true);
            };
            if !self.make_true(alloc, watches, opposite_of(literal))? {
                break;
            }
        }
        self.undo(alloc, watches)?;
        Ok(false)
    }

    /// Makes the clauses true that a literal made true which is false now; answers whether each could be.
    fn make_true(
        &mut self,
        alloc: Global,
        watches: &Watches,
        literal: i32,
    ) -> Result<bool, AllocError> {
        let mut is_done = true;
        for clause in self.take(alloc, literal) {
            if let Some(found) = self.true_literal(watches.clause(clause)) {
                self.list(found, clause)?;
                continue;
            }
            match self.best_literal(watches.clause(clause)) {
                Some(found) if is_done => {
                    self.change(found)?;
                    self.list(found, clause)?;
                }
                _ => {
                    is_done = false;
                    self.list(literal, clause)?;
                }
            }
        }
        Ok(is_done)
    }

    /// Makes the opposites of the changed literals true again.
    fn undo(&mut self, alloc: Global, watches: &Watches) -> Result<(), AllocError> {
        let changed = std::mem::replace(&mut self.changed, Vec::new(alloc));
        for literal in changed.iter() {
            self.set(opposite_of(*literal));
        }
        for literal in changed.iter() {
            for clause in self.take(alloc, *literal) {
                let found = self.true_literal(watches.clause(clause));
                self.list(found.unwrap_or(*literal), clause)?;
            }
        }
        Ok(())
    }

    /// The side of each variable, the first one's first.
    pub fn sides(&self) -> &[bool] {
        self.sides.get(1..).unwrap_or(&[])
    }
}
