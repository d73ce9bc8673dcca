use crate::assignment::{Assignment, opposite_of, short, variable_of};
use crate::order::Order;
use crate::watches::Watches;
use std::alloc::{AllocError, Global};

/// A clause that was used, and where its literal stands in the trail.
#[derive(Clone, Copy, Debug, PartialEq, Eq, PartialOrd, Ord)]
struct Used {
    at: u32,
    number: u32,
}

/// How much of what was met there was at a moment.
#[derive(Clone, Copy, Debug)]
struct Mark {
    met: usize,
    below: usize,
    units: usize,
}

/// What the search for a learned clause has met, and what came of it.
#[derive(Drop)]
pub struct Analysis {
    /// The last clause that followed, the numbers of the clauses from which it does, in this order, and the clauses among them that were
    /// learned from a conflict.
    clause: Vec<i32>,
    hints: Vec<u32>,
    reasons: Vec<u32>,
    seen: Vec<bool>,
    met: Vec<i32>,
    /// The clauses that were used at the level of the conflict, from the trail's end on.
    used: Vec<u32>,
    /// Those below it.
    below: Vec<Used>,
    left: Vec<i32>,
    /// For each variable that is known for good, the number of a clause of its literal alone.
    units: Vec<u32>,
    unit_hints: Vec<u32>,
    /// For each level the last count that met it, and the number of counts.
    counted: Vec<u64>,
    counts: u64,
}

impl Analysis {
    pub fn new(alloc: Global, vars: u32) -> Result<Analysis, AllocError> {
        let size = vars as usize + 1;
        Ok(Analysis {
            clause: Vec::new(alloc),
            hints: Vec::new(alloc),
            reasons: Vec::new(alloc),
            seen: vec![in alloc; false; size]?,
            met: Vec::new(alloc),
            used: Vec::new(alloc),
            below: Vec::new(alloc),
            left: Vec::new(alloc),
            units: vec![in alloc; 0; size]?,
            unit_hints: Vec::new(alloc),
            counted: vec![in alloc; 0; size]?,
            counts: 0,
        })
    }

    /// The clause that followed last.
    pub fn clause(&self) -> &[i32] {
        self.clause.as_slice()
    }

    /// The numbers of the clauses from which it follows.
    pub fn hints(&self) -> &[u32] {
        self.hints.as_slice()
    }

    /// The clauses that were used for it but for those that shortened it.
    pub fn reasons(&self) -> &[u32] {
        self.reasons.as_slice()
    }

    fn is_seen(&self, literal: i32) -> bool {
        match self.seen.get(variable_of(literal)) {
            Some(seen) => *seen,
            None => true,
        }
    }

    fn see(&mut self, literal: i32) -> Result<(), AllocError> {
        self.met.push(literal)?;
        if let Some(seen) = self.seen.get_mut(variable_of(literal)) {
            *seen = true;
        }
        Ok(())
    }

    /// The number of the clause that has this literal alone, or 0 where there is none.
    pub fn unit_of(&self, literal: i32) -> u32 {
        match self.units.get(variable_of(literal)) {
            Some(unit) => *unit,
            None => 0,
        }
    }

    pub fn set_unit(&mut self, literal: i32, number: u32) {
        if let Some(unit) = self.units.get_mut(variable_of(literal)) {
            *unit = number;
        }
    }

    fn begin(&mut self) {
        self.clause.clear();
        self.hints.clear();
        self.reasons.clear();
    }

    fn forget(&mut self) {
        for literal in self.met.iter() {
            if let Some(seen) = self.seen.get_mut(variable_of(*literal)) {
                *seen = false;
            }
        }
        self.met.clear();
        self.used.clear();
        self.below.clear();
        self.unit_hints.clear();
    }

    /// Meets a literal that is false: one known for good gives its unit as a hint. Answers whether it is new and above level 0.
    fn meet(&mut self, assignment: &Assignment, literal: i32) -> Result<bool, AllocError> {
        if self.is_seen(literal) {
            return Ok(false);
        }
        self.see(literal)?;
        if assignment.known(literal).level == 0 {
            let unit = self.unit_of(literal);
            self.unit_hints.push(unit)?;
            return Ok(false);
        }
        Ok(true)
    }

    /// Writes the hints in their order: units, then the used clauses as their literals stand in the trail.
    fn write_hints(&mut self, last: Option<u32>) -> Result<(), AllocError> {
        self.hints.extend_from_slice(self.unit_hints.as_slice())?;
        self.below.sort_unstable();
        for used in self.below.iter() {
            self.hints.push(used.number)?;
        }
        for number in self.used.iter().rev() {
            self.hints.push(*number)?;
        }
        if let Some(last) = last {
            self.hints.push(last)?;
        }
        Ok(())
    }

    /// Finds the clause that a conflict above level 0 teaches. Answers how many levels its literals are of.
    pub fn learn(
        &mut self,
        assignment: &Assignment,
        watches: &Watches,
        order: &mut Order,
        conflict: u32,
    ) -> Result<u32, AllocError> {
        self.begin();
        // the first place is for the literal of the first crossing point
        self.clause.push(0)?;
        let level = assignment.level();
        self.reasons.push(conflict)?;
        let mut open = self.meet_all(assignment, watches, order, conflict, level)?;
        for literal in assignment.trail().iter().rev() {
            if !self.is_seen(*literal) {
                continue;
            }
            let reason = match assignment.known(*literal).reason {
                Some(reason) if open > 1 => reason,
                _ => {
                    if let Some(first) = self.clause.get_mut(0) {
                        *first = opposite_of(*literal);
                    }
                    break;
                }
            };
            self.used.push(watches.number(reason))?;
            self.reasons.push(reason)?;
            let more = self.meet_all(assignment, watches, order, reason, level)?;
            open = open.saturating_sub(1).saturating_add(more);
        }
        let levels = self.count_levels(assignment);
        self.shorten(assignment, watches)?;
        self.write_hints(Some(watches.number(conflict)))?;
        self.forget();
        Ok(levels)
    }

    /// Counts the levels that the literals are of.
    fn count_levels(&mut self, assignment: &Assignment) -> u32 {
        self.counts = self.counts.wrapping_add(1);
        let mut levels = 0_u32;
        for literal in self.clause.iter() {
            let level = assignment.known(*literal).level as usize;
            if let Some(counted) = self.counted.get_mut(level) {
                if *counted != self.counts {
                    *counted = self.counts;
                    levels = levels.saturating_add(1);
                }
            }
        }
        levels
    }

    fn is_counted(&self, level: u32) -> bool {
        match self.counted.get(level as usize) {
            Some(counted) => *counted == self.counts,
            None => false,
        }
    }

    /// Meets the literals of a clause. Those below the level go into the learned one; answers how many new ones are at it.
    fn meet_all(
        &mut self,
        assignment: &Assignment,
        watches: &Watches,
        order: &mut Order,
        clause: u32,
        level: u32,
    ) -> Result<u32, AllocError> {
        let mut open = 0_u32;
        for literal in watches.clause(clause) {
            if !self.meet(assignment, *literal)? {
                continue;
            }
            order.bump(short(variable_of(*literal)));
            if assignment.known(*literal).level == level {
                open = open.saturating_add(1);
            } else {
                self.clause.push(*literal)?;
            }
        }
        Ok(open)
    }

    /// Drops the literals that follow from the others.
    fn shorten(&mut self, assignment: &Assignment, watches: &Watches) -> Result<(), AllocError> {
        let mut kept = 1_usize;
        for at in 1..self.clause.len() {
            let Some(literal) = self.clause.get(at).copied() else {
                break;
            };
            if !self.is_implied(assignment, watches, literal)? {
                if let Some(place) = self.clause.get_mut(kept) {
                    *place = literal;
                }
                kept = kept.saturating_add(1);
            }
        }
        self.clause.truncate(kept);
        Ok(())
    }

    /// Whether a literal of the clause follows from the others and from what is known for good. Then the clauses by which it does are used.
    fn is_implied(
        &mut self,
        assignment: &Assignment,
        watches: &Watches,
        literal: i32,
    ) -> Result<bool, AllocError> {
        if assignment.known(literal).reason.is_none() {
            return Ok(false);
        }
        let mark = Mark {
            met: self.met.len(),
            below: self.below.len(),
            units: self.unit_hints.len(),
        };
        self.left.clear();
        self.left.push(literal)?;
        for _ in 0..u64::MAX {
            let Some(next) = self.left.pop() else {
                break;
            };
            if !self.goes_back(assignment, watches, next)? {
                self.take_back(mark);
                return Ok(false);
            }
        }
        Ok(true)
    }

    /// Whether the literals that gave a literal were met, or may follow from such: then these are left to be looked at.
    fn goes_back(
        &mut self,
        assignment: &Assignment,
        watches: &Watches,
        literal: i32,
    ) -> Result<bool, AllocError> {
        let known = assignment.known(literal);
        let Some(reason) = known.reason else {
            return Ok(false);
        };
        self.below.push(Used {
            at: known.at,
            number: watches.number(reason),
        })?;
        for other in watches.clause(reason) {
            if self.is_seen(*other) {
                continue;
            }
            let known = assignment.known(*other);
            if known.level > 0 && (known.reason.is_none() || !self.is_counted(known.level)) {
                return Ok(false);
            }
            if self.meet(assignment, *other)? {
                self.left.push(*other)?;
            }
        }
        Ok(true)
    }

    fn take_back(&mut self, mark: Mark) {
        for literal in self.met.iter().skip(mark.met) {
            if let Some(seen) = self.seen.get_mut(variable_of(*literal)) {
                *seen = false;
            }
        }
        self.met.truncate(mark.met);
        self.below.truncate(mark.below);
        self.unit_hints.truncate(mark.units);
    }

    /// Puts the literal of the highest level among all but the first at the second place, and answers that level.
    pub fn place_second(&mut self, assignment: &Assignment) -> u32 {
        let mut best = 0;
        let mut level = 0;
        for (at, literal) in self.clause.iter().enumerate() {
            let own = assignment.known(*literal).level;
            if at > 0 && (best == 0 || own > level) {
                best = at;
                level = own;
            }
        }
        if best > 1 && best < self.clause.len() {
            self.clause.swap(1, best);
        }
        level
    }

    /// Finds a clause of the opposites of decided literals alone, which a false literal gives where it was decided to be true: its own opposite
    /// stands first.
    pub fn deny(
        &mut self,
        assignment: &Assignment,
        watches: &Watches,
        literal: i32,
    ) -> Result<(), AllocError> {
        self.begin();
        self.clause.push(opposite_of(literal))?;
        if self.meet(assignment, literal)? {
            for trailed in assignment.above_bottom().iter().rev() {
                if !self.is_seen(*trailed) {
                    continue;
                }
                match assignment.known(*trailed).reason {
                    Some(reason) => {
                        self.used.push(watches.number(reason))?;
                        for other in watches.clause(reason) {
                            self.meet(assignment, *other)?;
                        }
                    }
                    None => self.clause.push(opposite_of(*trailed))?,
                }
            }
        }
        self.write_hints(None)?;
        self.forget();
        Ok(())
    }

    /// Finds the unit clause of a literal that follows at level 0 from a clause, or the empty clause where it has no literal that isn't false.
    pub fn at_bottom(
        &mut self,
        assignment: &Assignment,
        watches: &Watches,
        reason: u32,
        literal: Option<i32>,
    ) -> Result<(), AllocError> {
        self.begin();
        if let Some(literal) = literal {
            self.clause.push(literal)?;
            self.see(literal)?;
        }
        for other in watches.clause(reason) {
            self.meet(assignment, *other)?;
        }
        self.write_hints(Some(watches.number(reason)))?;
        self.forget();
        Ok(())
    }
}
