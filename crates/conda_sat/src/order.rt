use crate::assignment::{short, variable_of};
use std::alloc::{AllocError, Global};

/// The variables by how often conflicts met them of late, and the side that each had last.
///
/// It is a hint for decisions alone. Those that no conflict met yet come after the others, by their numbers.
#[derive(Drop)]
pub struct Order {
    /// Variables that conflicts met, each before the two at twice its place and one or two more, where it was met more.
    heap: Vec<u32>,
    /// For each variable its place in the heap and 1, or 0.
    places: Vec<u32>,
    weights: Vec<f64>,
    /// What a variable gains when a conflict meets it.
    gain: f64,
    phases: Vec<bool>,
    /// The sides of the longest trail without a conflict since the last turn, and its length.
    best: Vec<bool>,
    most: usize,
    /// How many turns there were, and how many conflicts are left until the next one.
    turns: u64,
    left: u64,
    /// No variable below this one that no conflict met is open.
    rest: u32,
}

/// After how many conflicts there is a turn for the first time, and how many more it takes each further time.
const TURN: u64 = 1000;

fn at(list: &[u32], n: usize) -> u32 {
    match list.get(n) {
        Some(found) => *found,
        None => 0,
    }
}

impl Order {
    pub fn new(alloc: Global, vars: u32) -> Result<Order, AllocError> {
        let size = vars as usize + 1;
        Ok(Order {
            heap: Vec::new(alloc),
            places: vec![in alloc; 0; size]?,
            weights: vec![in alloc; 0.0; size]?,
            gain: 1.0,
            phases: vec![in alloc; false; size]?,
            best: vec![in alloc; false; size]?,
            most: 0,
            turns: 0,
            left: TURN,
            rest: 1,
        })
    }

    fn weight(&self, variable: u32) -> f64 {
        match self.weights.get(variable as usize) {
            Some(weight) => *weight,
            None => 0.0,
        }
    }

    fn set(&mut self, place: usize, variable: u32) {
        if let Some(found) = self.heap.get_mut(place) {
            *found = variable;
        }
        if let Some(found) = self.places.get_mut(variable as usize) {
            *found = short(place).saturating_add(1);
        }
    }

    /// Moves a variable towards the first place.
    fn rise(&mut self, variable: u32, from: usize) {
        let weight = self.weight(variable);
        let mut place = from;
        for _ in 0..64 {
            if place == 0 {
                break;
            }
            let above = (place - 1) / 2;
            let other = at(self.heap.as_slice(), above);
            if self.weight(other) >= weight {
                break;
            }
            self.set(place, other);
            place = above;
        }
        self.set(place, variable);
    }

    /// Moves a variable from the first place away.
    fn sink(&mut self, variable: u32) {
        let weight = self.weight(variable);
        let mut place = 0_usize;
        for _ in 0..64 {
            let left = place.saturating_mul(2).saturating_add(1);
            let right = left.saturating_add(1);
            if left >= self.heap.len() {
                break;
            }
            let mut below = left;
            let mut other = at(self.heap.as_slice(), left);
            if right < self.heap.len() {
                let second = at(self.heap.as_slice(), right);
                if self.weight(second) > self.weight(other) {
                    below = right;
                    other = second;
                }
            }
            if self.weight(other) <= weight {
                break;
            }
            self.set(place, other);
            place = below;
        }
        self.set(place, variable);
    }

    /// A conflict met the variable.
    pub fn bump(&mut self, variable: u32) {
        let gain = self.gain;
        let Some(weight) = self.weights.get_mut(variable as usize) else {
            return;
        };
        *weight += gain;
        let is_large = *weight > 1e100;
        let place = at(self.places.as_slice(), variable as usize);
        if place > 0 {
            self.rise(variable, place as usize - 1);
        }
        if is_large {
            self.scale_down();
        }
    }

    fn scale_down(&mut self) {
        for weight in self.weights.iter_mut() {
            *weight *= 1e-100;
        }
        self.gain *= 1e-100;
    }

    /// A conflict is over: what was met later weighs more.
    pub fn grow(&mut self) {
        self.gain *= 1.0 / 0.95;
        self.left = self.left.saturating_sub(1);
    }

    /// A variable is open again, and had this side.
    pub fn reopen(&mut self, variable: u32, phase: bool) -> Result<(), AllocError> {
        self.set_phase(variable, phase);
        if self.weight(variable) <= 0.0 {
            self.rest = self.rest.min(variable);
        } else if at(self.places.as_slice(), variable as usize) == 0 {
            let place = self.heap.len();
            self.heap.push(variable)?;
            self.rise(variable, place);
        }
        Ok(())
    }

    /// Takes out the variable that was met most.
    pub fn pop(&mut self) -> Option<u32> {
        let first = *self.heap.first()?;
        let last = self.heap.pop()?;
        if let Some(place) = self.places.get_mut(first as usize) {
            *place = 0;
        }
        if last != first {
            self.sink(last);
        }
        Some(first)
    }

    /// The first variable of the rest from which on one may be open.
    pub fn rest(&self) -> u32 {
        self.rest
    }

    pub fn set_rest(&mut self, variable: u32) {
        self.rest = variable;
    }

    pub fn phase(&self, variable: u32) -> bool {
        match self.phases.get(variable as usize) {
            Some(phase) => *phase,
            None => false,
        }
    }

    pub fn set_phase(&mut self, variable: u32, phase: bool) {
        if let Some(found) = self.phases.get_mut(variable as usize) {
            *found = phase;
        }
    }

    /// Keeps the sides of a trail that had no conflict, where it is the longest one.
    pub fn remember(&mut self, trail: &[i32]) {
        if trail.len() <= self.most {
            return;
        }
        self.most = trail.len();
        for literal in trail {
            if let Some(side) = self.best.get_mut(variable_of(*literal)) {
                *side = *literal > 0;
            }
        }
    }

    /// Now and then turns to other sides: each second time to those of the longest trail, and in between to false or to true.
    pub fn turn(&mut self) {
        if self.left > 0 {
            return;
        }
        self.turns = self.turns.saturating_add(1);
        self.left = self.turns.saturating_add(1).saturating_mul(TURN);
        self.most = 0;
        for (phase, best) in self.phases.iter_mut().zip(self.best.iter()) {
            *phase = match self.turns % 4 {
                1 => false,
                3 => true,
                _ => *best,
            };
        }
    }
}
