use std::alloc::{AllocError, Global};

/// What a literal is at a moment of the search.
#[derive(Clone, Copy, Debug, PartialEq, Eq)]
pub enum Value {
    Open,
    True,
    False,
}

/// The place of a literal in a list that has one place for each literal.
pub fn place_of(literal: i32) -> usize {
    let twice = (literal.unsigned_abs() as usize) << 1;
    if literal < 0 { twice | 1 } else { twice }
}

/// The variable of a literal.
pub fn variable_of(literal: i32) -> usize {
    literal.unsigned_abs() as usize
}

/// The opposite of a literal.
pub fn opposite_of(literal: i32) -> i32 {
    literal.wrapping_neg()
}

/// The number in 32 bits, or the last one that fits.
pub fn short(number: usize) -> u32 {
    u32::try_from(number).unwrap_or(u32::MAX)
}

/// What is known of a variable that isn't open.
#[derive(Clone, Copy, Debug)]
pub struct Known {
    /// The level at which it became true or false.
    pub level: u32,
    /// Where its literal stands in the trail.
    pub at: u32,
    /// The clause from which it follows; None where it was decided, or is known for good.
    pub reason: Option<u32>,
}

/// Where a level begins.
#[derive(Clone, Copy, Debug)]
struct Start {
    trail: usize,
    order: usize,
}

/// Which literals are true, in the order in which they became so, and at which level.
#[derive(Drop)]
pub struct Assignment {
    values: Vec<Value>,
    known: Vec<Known>,
    trail: Vec<i32>,
    starts: Vec<Start>,
    head: usize,
    /// The first literal of the order that the decisions so far didn't look at.
    pub order: usize,
}

impl Assignment {
    /// All variables up to `vars` are open.
    pub fn new(alloc: Global, vars: u32) -> Result<Assignment, AllocError> {
        let none = Known {
            level: 0,
            at: 0,
            reason: None,
        };
        let size = vars as usize + 1;
        Ok(Assignment {
            values: vec![in alloc; Value::Open; size * 2]?,
            known: vec![in alloc; none; size]?,
            trail: Vec::with_capacity(alloc, size)?,
            starts: Vec::new(alloc),
            head: 0,
            order: 0,
        })
    }

    pub fn value(&self, literal: i32) -> Value {
        match self.values.get(place_of(literal)) {
            Some(value) => *value,
            None => Value::Open,
        }
    }

    /// What is known of the variable of a literal.
    pub fn known(&self, literal: i32) -> Known {
        match self.known.get(variable_of(literal)) {
            Some(known) => *known,
            None => Known {
                level: 0,
                at: 0,
                reason: None,
            },
        }
    }

    /// The level at which the next literal would become true.
    pub fn level(&self) -> u32 {
        short(self.starts.len())
    }

    pub fn trail(&self) -> &[i32] {
        self.trail.as_slice()
    }

    /// The part of the trail that is at level 0.
    pub fn bottom(&self) -> &[i32] {
        match self.starts.first() {
            Some(start) => self.trail.get(..start.trail).unwrap_or(&[]),
            None => self.trail.as_slice(),
        }
    }

    /// The part of the trail that is below the last level.
    pub fn below_last(&self) -> &[i32] {
        match self.starts.last() {
            Some(start) => self.trail.get(..start.trail).unwrap_or(&[]),
            None => &[],
        }
    }

    /// The part of the trail that is above level 0.
    pub fn above_bottom(&self) -> &[i32] {
        match self.starts.first() {
            Some(start) => self.trail.get(start.trail..).unwrap_or(&[]),
            None => &[],
        }
    }

    /// Begins a level.
    pub fn begin_level(&mut self) -> Result<(), AllocError> {
        self.starts.push(Start {
            trail: self.trail.len(),
            order: self.order,
        })?;
        Ok(())
    }

    fn set(&mut self, literal: i32, value: Value, opposite: Value) {
        if let Some(place) = self.values.get_mut(place_of(literal)) {
            *place = value;
        }
        if let Some(place) = self.values.get_mut(place_of(opposite_of(literal))) {
            *place = opposite;
        }
    }

    /// Makes a literal true at the present level.
    pub fn assign(&mut self, literal: i32, reason: Option<u32>) -> Result<(), AllocError> {
        let at = short(self.trail.len());
        self.trail.push(literal)?;
        self.set(literal, Value::True, Value::False);
        let level = self.level();
        if let Some(known) = self.known.get_mut(variable_of(literal)) {
            *known = Known { level, at, reason };
        }
        Ok(())
    }

    /// The next literal whose consequences weren't looked for.
    pub fn next(&mut self) -> Option<i32> {
        let literal = self.trail.get(self.head).copied()?;
        self.head = self.head.saturating_add(1);
        Some(literal)
    }

    /// Takes back the levels above one, and answers where the literals above it begin in the trail.
    pub fn back_to(&mut self, level: u32) -> Option<usize> {
        let start = self.starts.get(level as usize).copied()?;
        self.starts.truncate(level as usize);
        self.head = self.head.min(start.trail);
        self.order = start.order;
        Some(start.trail)
    }

    /// Takes back the last literal, where the trail is longer than this.
    pub fn pop_above(&mut self, start: usize) -> Option<i32> {
        if self.trail.len() <= start {
            return None;
        }
        let literal = self.trail.pop()?;
        self.set(literal, Value::Open, Value::Open);
        Some(literal)
    }
}
