use crate::assignment::short;
use std::alloc::{AllocError, Global};

/// The steps that the search made, in their order, each a clause and the numbers of clauses from which it follows.
///
/// It takes two lists for all of them: most steps are never needed.
#[derive(Drop)]
pub struct Steps {
    /// How many clauses stand before the first step.
    before: u32,
    literals: Vec<i32>,
    hints: Vec<u32>,
    ends: Vec<End>,
    /// For each step its number among the clauses and steps of the ledger, or 0 where it isn't there.
    numbers: Vec<u64>,
    /// Which steps are to go there.
    wanted: Vec<bool>,
}

/// Where the literals and hints of a step end.
#[derive(Clone, Copy, Debug)]
struct End {
    literals: usize,
    hints: usize,
}

impl Steps {
    pub fn new(alloc: Global, before: u32) -> Steps {
        Steps {
            before,
            literals: Vec::new(alloc),
            hints: Vec::new(alloc),
            ends: Vec::new(alloc),
            numbers: Vec::new(alloc),
            wanted: Vec::new(alloc),
        }
    }

    /// Adds a step, and answers its number.
    pub fn push(&mut self, clause: &[i32], hints: &[u32]) -> Result<u32, AllocError> {
        self.literals.extend_from_slice(clause)?;
        self.hints.extend_from_slice(hints)?;
        self.ends.push(End {
            literals: self.literals.len(),
            hints: self.hints.len(),
        })?;
        self.numbers.push(0)?;
        self.wanted.push(false)?;
        Ok(self.before.saturating_add(short(self.ends.len())))
    }

    fn end(&self, at: usize) -> End {
        let start = End {
            literals: 0,
            hints: 0,
        };
        match at.checked_sub(1) {
            Some(before) => self.ends.get(before).copied().unwrap_or(start),
            None => start,
        }
    }

    /// The clause of the step at a place.
    pub fn clause(&self, at: usize) -> &[i32] {
        let (start, end) = (
            self.end(at).literals,
            self.end(at.saturating_add(1)).literals,
        );
        self.literals.get(start..end).unwrap_or(&[])
    }

    /// The hints of the step at a place.
    pub fn hints(&self, at: usize) -> &[u32] {
        let (start, end) = (self.end(at).hints, self.end(at.saturating_add(1)).hints);
        self.hints.get(start..end).unwrap_or(&[])
    }

    /// The place of the step with this number, where it is a step.
    fn place(&self, number: u32) -> Option<usize> {
        Some(number.checked_sub(self.before)?.checked_sub(1)? as usize)
    }

    /// The number in the ledger of the clause or step with this number, or 0 where it isn't there.
    pub fn number(&self, number: u32) -> u64 {
        match self.place(number) {
            Some(place) => self.numbers.get(place).copied().unwrap_or(0),
            None => u64::from(number),
        }
    }

    /// The step at a place stands in the ledger with this number.
    pub fn set_number(&mut self, at: usize, number: u64) {
        if let Some(found) = self.numbers.get_mut(at) {
            *found = number;
        }
        if let Some(wanted) = self.wanted.get_mut(at) {
            *wanted = false;
        }
    }

    /// Puts the step with this number on the list, where it is neither in the ledger nor wanted.
    fn want(&mut self, number: u32, list: &mut Vec<usize>) -> Result<(), AllocError> {
        if let Some(place) = self.place(number) {
            if self.number(number) == 0 && self.wanted.get(place) == Some(&false) {
                list.push(place)?;
                if let Some(wanted) = self.wanted.get_mut(place) {
                    *wanted = true;
                }
            }
        }
        Ok(())
    }

    /// The places of the steps that the ledger lacks and the last step needs, itself among them, in their order.
    pub fn needed(&mut self, alloc: Global) -> Result<Vec<usize>, AllocError> {
        let mut list = Vec::new(alloc);
        let last = self.before.saturating_add(short(self.ends.len()));
        self.want(last, &mut list)?;
        for next in 0..self.ends.len() {
            let Some(at) = list.get(next).copied() else {
                break;
            };
            let (start, end) = (self.end(at).hints, self.end(at.saturating_add(1)).hints);
            for hint in start..end {
                let number = self.hints.get(hint).copied().unwrap_or(0);
                self.want(number, &mut list)?;
            }
        }
        list.sort_unstable();
        Ok(list)
    }
}
