use crate::analysis::Analysis;
use crate::assignment::{Assignment, Value, opposite_of, short, variable_of};
use crate::load::{Shape, shape_of};
use crate::mended::Mended;
use crate::order::Order;
use crate::steps::Steps;
use crate::watches::{Watch, Watches};
use std::alloc::{AllocError, Global};

/// What the search came to.
#[derive(Clone, Copy, Debug, PartialEq, Eq)]
pub enum Outcome {
    /// Every variable has a side.
    Model,
    /// The last step has only opposites of assumed literals.
    Denied,
    /// Two assumed literals are opposites.
    Opposites,
    /// As many conflicts came as were allowed.
    Restart,
}

/// What a look at a clause showed.
#[derive(Clone, Copy, Debug)]
enum Look {
    /// Another literal of it is watched now.
    Moved,
    /// It is true by this literal.
    Stays(i32),
    /// Only this literal isn't false.
    Gives(i32),
    /// All of its literals are false.
    Conflict,
}

/// A learned clause that may be dropped. The first ones in order are the better ones.
#[derive(Clone, Copy, Debug, PartialEq, Eq, PartialOrd, Ord)]
struct Spare {
    /// How many levels its literals were of.
    levels: u32,
    length: u32,
    clause: u32,
}

/// After how many conflicts the search keeps more learned clauses for the first time; each further time it takes half as many conflicts more.
const FIRST_GROWTH: u64 = 100;

/// How many learned clauses that may be dropped are kept at least.
const LEAST: usize = 2000;

/// A search that learns: a trail of literals, of which each was decided or follows from a clause by those before it.
#[derive(Drop)]
pub struct Search {
    alloc: Global,
    vars: u32,
    assignment: Assignment,
    watches: Watches,
    order: Order,
    analysis: Analysis,
    steps: Steps,
    spares: Vec<Spare>,
    /// How many clauses that may be dropped are kept.
    limit: usize,
    /// How many conflicts are left until more are kept, and how many there were from the last time on.
    left: u64,
    span: u64,
    /// How many literals of the trail have a clause of their own.
    fixed: usize,
    /// What was assumed last: the literal of each level, the first level's first.
    assumed: Vec<i32>,
    /// The last model, and how many clauses there were before the first question.
    mended: Mended,
    clauses: u32,
    /// Whether the trail is a model that wasn't taken up yet.
    is_model: bool,
    is_over: bool,
}

impl Search {
    /// A search over clauses that are added next, so many of them.
    pub fn new(alloc: Global, vars: u32, clauses: u32) -> Result<Search, AllocError> {
        Ok(Search {
            alloc,
            vars,
            assignment: Assignment::new(alloc, vars)?,
            watches: Watches::new(alloc, vars)?,
            order: Order::new(alloc, vars)?,
            analysis: Analysis::new(alloc, vars)?,
            steps: Steps::new(alloc, clauses),
            spares: Vec::new(alloc),
            limit: (clauses as usize / 3).max(LEAST),
            left: FIRST_GROWTH,
            span: FIRST_GROWTH,
            fixed: 0,
            assumed: Vec::new(alloc),
            mended: Mended::new(alloc, vars)?,
            clauses: 0,
            is_model: false,
            is_over: false,
        })
    }

    /// The side of each variable, the first one's first.
    pub fn sides(&self) -> Result<Vec<bool>, AllocError> {
        let mut sides = Vec::with_capacity(self.alloc, self.vars as usize)?;
        for number in 0..self.vars {
            let literal = i32::try_from(number).unwrap_or(i32::MAX).saturating_add(1);
            sides.push(self.assignment.value(literal) == Value::True)?;
        }
        Ok(sides)
    }

    /// The sides of the last model with a few changes that make the assumed literals true, where these were found.
    pub fn mend(&mut self, assumed: &[i32]) -> Result<Option<Vec<bool>>, AllocError> {
        if self.is_model {
            self.is_model = false;
            self.mended
                .take_up(&self.assignment, &self.watches, self.clauses)?;
        }
        let known = self.assignment.bottom();
        let most = (self.vars as usize / 16).saturating_add(100);
        if self.is_over
            || !self.mended.is_model()
            || !self
                .mended
                .mend(self.alloc, &self.watches, known, assumed, most)?
        {
            return Ok(None);
        }
        let sides = Vec::from_slice(self.alloc, self.mended.sides())?;
        Ok(Some(sides))
    }

    /// What was learned so far.
    pub fn steps(&mut self) -> &mut Steps {
        &mut self.steps
    }

    /// At level 0, takes up the clause with this number.
    pub fn add(&mut self, clause: &[i32], number: u32) -> Result<(), AllocError> {
        if self.is_over {
            return Ok(());
        }
        match shape_of(self.alloc, clause)? {
            Shape::Plain => self.add_plain(clause, number),
            Shape::Repeats => {
                let mut once = Vec::from_slice(self.alloc, clause)?;
                once.sort_unstable();
                once.dedup();
                let again = self.steps.push(once.as_slice(), &[number])?;
                self.add_plain(once.as_slice(), again)
            }
            Shape::Opposites => Ok(()),
        }
    }

    fn add_plain(&mut self, clause: &[i32], number: u32) -> Result<(), AllocError> {
        match clause {
            [] => {
                self.steps.push(&[], &[number])?;
                self.is_over = true;
            }
            [literal] if self.assignment.value(*literal) == Value::Open => {
                self.fix(*literal, number)?;
            }
            [literal] if self.assignment.value(*literal) == Value::False => {
                let unit = self.analysis.unit_of(*literal);
                self.steps.push(&[], &[unit, number])?;
                self.is_over = true;
            }
            [_literal] => {}
            _ => {
                self.watches.add(clause, number)?;
                self.clauses = self.clauses.saturating_add(1);
            }
        }
        Ok(())
    }

    /// At level 0, makes a literal true for good by its unit clause with this number.
    fn fix(&mut self, literal: i32, number: u32) -> Result<(), AllocError> {
        self.analysis.set_unit(literal, number);
        self.assignment.assign(literal, None)
    }

    /// At level 0, learns the unit clause of each literal that became true by another one.
    fn learn_units(&mut self) -> Result<(), AllocError> {
        for at in self.fixed..self.assignment.trail().len() {
            let Some(literal) = self.assignment.trail().get(at).copied() else {
                break;
            };
            if let Some(reason) = self.assignment.known(literal).reason {
                self.analysis
                    .at_bottom(&self.assignment, &self.watches, reason, Some(literal))?;
                let number = self.take_up()?;
                self.analysis.set_unit(literal, number);
            }
        }
        self.fixed = self.assignment.trail().len();
        Ok(())
    }

    /// Makes a step of what the analysis found, and answers its number.
    fn take_up(&mut self) -> Result<u32, AllocError> {
        self.steps
            .push(self.analysis.clause(), self.analysis.hints())
    }

    /// Goes back to a level.
    pub fn back_to(&mut self, level: u32) -> Result<(), AllocError> {
        let Some(start) = self.assignment.back_to(level) else {
            return Ok(());
        };
        for _ in 0..=self.vars {
            let Some(literal) = self.assignment.pop_above(start) else {
                break;
            };
            self.order.reopen(short(variable_of(literal)), literal > 0)?;
        }
        Ok(())
    }

    /// The side on which a variable is decided first.
    pub fn prefer(&mut self, literal: i32) {
        self.order
            .set_phase(short(variable_of(literal)), literal > 0);
    }

    /// Goes back to the last level up to which the same literals were assumed.
    fn start(&mut self, assumed: &[i32]) -> Result<(), AllocError> {
        let mut same = 0_usize;
        for (before, now) in self.assumed.iter().zip(assumed) {
            if before != now {
                break;
            }
            same = same.saturating_add(1);
        }
        self.back_to(short(same))?;
        self.assumed.truncate(same);
        self.assumed
            .extend_from_slice(assumed.get(same..).unwrap_or(&[]))
    }

    /// A search with some literals assumed and some decided first, up to a number of conflicts.
    pub fn run(
        &mut self,
        assumed: &[i32],
        order: &[i32],
        allowed: u64,
    ) -> Result<Outcome, AllocError> {
        if self.is_over {
            return Ok(Outcome::Denied);
        }
        self.start(assumed)?;
        self.order.turn();
        self.assignment.order = 0;
        self.is_model = false;
        let mut conflicts = 0_u64;
        for _ in 0..u64::MAX {
            let conflict = self.propagate()?;
            if self.assignment.level() == 0 {
                self.learn_units()?;
            }
            match conflict {
                Some(conflict) => {
                    if self.assignment.level() == 0 {
                        self.end(conflict)?;
                        return Ok(Outcome::Denied);
                    }
                    self.learn(conflict)?;
                    self.drop_some()?;
                    conflicts = conflicts.saturating_add(1);
                }
                None => {
                    if conflicts >= allowed {
                        return Ok(Outcome::Restart);
                    }
                    if let Some(outcome) = self.decide(assumed, order)? {
                        return Ok(outcome);
                    }
                }
            }
        }
        Ok(Outcome::Restart)
    }

    /// At level 0, all literals of a clause are false: the empty clause follows.
    fn end(&mut self, conflict: u32) -> Result<(), AllocError> {
        self.analysis
            .at_bottom(&self.assignment, &self.watches, conflict, None)?;
        self.take_up()?;
        self.is_over = true;
        Ok(())
    }

    /// Learns from a conflict above level 0, and goes back.
    fn learn(&mut self, conflict: u32) -> Result<(), AllocError> {
        self.order.remember(self.assignment.below_last());
        let levels = self
            .analysis
            .learn(&self.assignment, &self.watches, &mut self.order, conflict)?;
        self.order.grow();
        let level = self.analysis.place_second(&self.assignment);
        let number = self.take_up()?;
        self.back_to(level)?;
        match self.analysis.clause() {
            [] => Ok(()),
            [literal] => {
                let literal = *literal;
                self.fix(literal, number)
            }
            [literal, ..] => {
                let literal = *literal;
                let clause = self.watches.add(self.analysis.clause(), number)?;
                if levels > 2 {
                    self.spares.push(Spare {
                        levels,
                        length: short(self.analysis.clause().len()),
                        clause,
                    })?;
                }
                self.assignment.assign(literal, Some(clause))
            }
        }
    }

    /// Where there are too many, drops the worse half of the learned clauses from the search, but for those that are reasons. The steps keep them.
    fn drop_some(&mut self) -> Result<(), AllocError> {
        self.left = self.left.saturating_sub(1);
        if self.left == 0 {
            self.span = self.span.saturating_add(self.span / 2);
            self.left = self.span;
            self.limit = self.limit.saturating_add(self.limit / 10);
        }
        if self.spares.len() < self.limit.saturating_add(self.assignment.trail().len()) {
            return Ok(());
        }
        self.spares.sort_unstable();
        let half = self.spares.len() / 2;
        let mut kept = Vec::with_capacity(self.alloc, self.spares.len())?;
        for (at, spare) in self.spares.iter().enumerate() {
            if at < half || is_reason(&self.assignment, &self.watches, spare.clause) {
                kept.push(*spare)?;
            } else {
                self.watches.forget(spare.clause)?;
            }
        }
        self.spares = kept;
        self.watches.sweep(self.alloc)
    }

    /// Decides a literal, or answers what the search came to.
    fn decide(&mut self, assumed: &[i32], order: &[i32]) -> Result<Option<Outcome>, AllocError> {
        if let Some(literal) = assumed.get(self.assignment.level() as usize) {
            return self.assume(*literal);
        }
        match self.next_literal(order) {
            Some(literal) => {
                self.assignment.begin_level()?;
                self.assignment.assign(literal, None)?;
                Ok(None)
            }
            None => {
                self.is_model = true;
                Ok(Some(Outcome::Model))
            }
        }
    }

    fn assume(&mut self, literal: i32) -> Result<Option<Outcome>, AllocError> {
        match self.assignment.value(literal) {
            Value::True => {
                self.assignment.begin_level()?;
                Ok(None)
            }
            Value::Open => {
                self.assignment.begin_level()?;
                self.assignment.assign(literal, None)?;
                Ok(None)
            }
            Value::False => {
                let known = self.assignment.known(literal);
                if known.level > 0 && known.reason.is_none() {
                    return Ok(Some(Outcome::Opposites));
                }
                self.analysis
                    .deny(&self.assignment, &self.watches, literal)?;
                self.take_up()?;
                Ok(Some(Outcome::Denied))
            }
        }
    }

    /// The next literal to be decided: of the order, and else of the open variable that conflicts met most, on the side that it had.
    fn next_literal(&mut self, order: &[i32]) -> Option<i32> {
        for at in self.assignment.order..order.len() {
            let literal = order.get(at).copied()?;
            self.assignment.order = at;
            let is_variable = literal != 0 && literal.unsigned_abs() <= self.vars;
            if is_variable && self.assignment.value(literal) == Value::Open {
                return Some(literal);
            }
        }
        self.assignment.order = order.len();
        let variable = self.open_variable()?;
        let literal = i32::try_from(variable).unwrap_or(i32::MAX);
        Some(if self.order.phase(variable) {
            literal
        } else {
            opposite_of(literal)
        })
    }

    fn is_open(&self, variable: u32) -> bool {
        let literal = i32::try_from(variable).unwrap_or(i32::MAX);
        self.assignment.value(literal) == Value::Open
    }

    /// The open variable that conflicts met most, or the first where they met none.
    fn open_variable(&mut self) -> Option<u32> {
        for _ in 0..=self.vars {
            let Some(variable) = self.order.pop() else {
                break;
            };
            if self.is_open(variable) {
                return Some(variable);
            }
        }
        for variable in self.order.rest()..=self.vars {
            if self.is_open(variable) {
                self.order.set_rest(variable);
                return Some(variable);
            }
        }
        self.order.set_rest(self.vars);
        None
    }

    /// Looks for what follows. Answers a clause whose literals are all false, where there is one.
    fn propagate(&mut self) -> Result<Option<u32>, AllocError> {
        for _ in 0..=self.vars {
            let Some(literal) = self.assignment.next() else {
                break;
            };
            let opposite = opposite_of(literal);
            if let Some(conflict) = self.look_at_pairs(opposite)? {
                return Ok(Some(conflict));
            }
            if let Some(conflict) = self.look_at_others(opposite)? {
                return Ok(Some(conflict));
            }
        }
        Ok(None)
    }

    /// Looks at the clauses of two that hold a literal which became false.
    fn look_at_pairs(&mut self, literal: i32) -> Result<Option<u32>, AllocError> {
        for watch in self.watches.pairs(literal) {
            match self.assignment.value(watch.blocker) {
                Value::True => {}
                Value::Open => self.assignment.assign(watch.blocker, Some(watch.clause))?,
                Value::False => return Ok(Some(watch.clause)),
            }
        }
        Ok(None)
    }

    /// Looks at the other clauses that watch a literal which became false.
    fn look_at_others(&mut self, literal: i32) -> Result<Option<u32>, AllocError> {
        let mut list = self.watches.take(self.alloc, literal);
        let mut kept = 0_usize;
        let mut found = None;
        for at in 0..list.len() {
            let Some(watch) = list.get(at).copied() else {
                break;
            };
            let mut blocker = watch.blocker;
            if found.is_none() && self.assignment.value(blocker) != Value::True {
                match self.look(literal, watch)? {
                    Look::Moved => continue,
                    Look::Stays(other) => blocker = other,
                    Look::Gives(given) => {
                        self.assignment.assign(given, Some(watch.clause))?;
                        blocker = given;
                    }
                    Look::Conflict => found = Some(watch.clause),
                }
            }
            if let Some(place) = list.get_mut(kept) {
                *place = Watch {
                    clause: watch.clause,
                    blocker,
                };
            }
            kept = kept.saturating_add(1);
        }
        list.truncate(kept);
        self.watches.put(literal, list);
        Ok(found)
    }

    /// Looks at a clause of which a watched literal became false.
    fn look(&mut self, literal: i32, watch: Watch) -> Result<Look, AllocError> {
        let from = self.watches.from(watch.clause);
        let Some(clause) = self.watches.clause_mut(watch.clause) else {
            return Ok(Look::Moved);
        };
        let first = other_watched(clause, literal);
        let value = self.assignment.value(first);
        if value == Value::True {
            return Ok(Look::Stays(first));
        }
        if let Some((place, found)) = watch_another(&self.assignment, clause, from) {
            self.watches.set_from(watch.clause, place);
            self.watches.watch(found, watch.clause, first)?;
            return Ok(Look::Moved);
        }
        if value == Value::Open {
            Ok(Look::Gives(first))
        } else {
            Ok(Look::Conflict)
        }
    }
}

/// Whether the first literal of the clause follows from it.
fn is_reason(assignment: &Assignment, watches: &Watches, clause: u32) -> bool {
    match watches.clause(clause) {
        [first, ..] => {
            assignment.value(*first) == Value::True
                && assignment.known(*first).reason == Some(clause)
        }
        [] => false,
    }
}

/// Puts a watched literal at the second place, and answers the one at the first.
fn other_watched(clause: &mut [i32], literal: i32) -> i32 {
    match clause {
        [first, second, ..] => {
            if *first == literal {
                *first = *second;
                *second = literal;
            }
            *first
        }
        _ => literal,
    }
}

/// Puts a literal that isn't false at the second place, where one stands behind it: the first from a place on, or else from the third place on.
/// Answers its place and it.
fn watch_another(assignment: &Assignment, clause: &mut [i32], from: usize) -> Option<(usize, i32)> {
    let place = match open_place(assignment, clause, from, clause.len()) {
        Some(place) => place,
        None => open_place(assignment, clause, 2, from)?,
    };
    let found = *clause.get(place)?;
    if place < clause.len() && clause.len() > 1 {
        clause.swap(1, place);
    }
    Some((place, found))
}

/// The first place between two, the second left out, of a literal that isn't false.
fn open_place(assignment: &Assignment, clause: &[i32], from: usize, to: usize) -> Option<usize> {
    for place in from..to {
        if assignment.value(*clause.get(place)?) != Value::False {
            return Some(place);
        }
    }
    None
}
