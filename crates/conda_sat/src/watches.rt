use crate::assignment::{place_of, short};
use std::alloc::{AllocError, Global};

/// A clause that is looked at when one of its two watched literals becomes false.
#[derive(Clone, Copy, Debug)]
pub struct Watch {
    pub clause: u32,
    /// Another literal of it: where that is true, the clause needs no look. Of a clause of two it is the other one.
    pub blocker: i32,
}

/// Where the literals of a clause lie, and its number among the clauses and steps.
#[derive(Clone, Copy, Debug)]
struct Slot {
    start: u32,
    length: u32,
    number: u32,
    /// Where the search for a literal that isn't false begins, in a long clause.
    from: u32,
}

/// From which length on a clause is long: the search for a literal goes on where it ended last, else each look at it would begin anew.
const LONG: u32 = 16;

/// The clauses that the search works with, and who watches them. All of it is a hint: what is wrong here costs time, and no truth.
///
/// A clause is known by its place among the slots, which stays while it is kept.
#[derive(Drop)]
pub struct Watches {
    literals: Vec<i32>,
    slots: Vec<Slot>,
    /// The places of clauses that were dropped.
    free: Vec<u32>,
    /// For each literal the clauses that watch it.
    lists: Vec<Lists>,
}

/// The clauses that watch a literal: those of two literals, and the longer ones.
#[derive(Drop)]
struct Lists {
    pairs: Vec<Watch>,
    others: Vec<Watch>,
}

impl Watches {
    pub fn new(alloc: Global, vars: u32) -> Result<Watches, AllocError> {
        let size = (vars as usize + 1) * 2;
        let mut lists = Vec::with_capacity(alloc, size)?;
        for _ in 0..size {
            lists.push(Lists {
                pairs: Vec::new(alloc),
                others: Vec::new(alloc),
            })?;
        }
        Ok(Watches {
            literals: Vec::new(alloc),
            slots: Vec::new(alloc),
            free: Vec::new(alloc),
            lists,
        })
    }

    /// Takes up a clause with this number. Its first two literals are watched.
    pub fn add(&mut self, clause: &[i32], number: u32) -> Result<u32, AllocError> {
        let slot = Slot {
            start: short(self.literals.len()),
            length: short(clause.len()),
            number,
            from: 2,
        };
        self.literals.extend_from_slice(clause)?;
        let place = match self.free.pop() {
            Some(place) => place,
            None => short(self.slots.len()),
        };
        match self.slots.get_mut(place as usize) {
            Some(found) => *found = slot,
            None => self.slots.push(slot)?,
        }
        match clause {
            [first, second] => {
                self.pair(*first, place, *second)?;
                self.pair(*second, place, *first)?;
            }
            [first, second, ..] => {
                self.watch(*first, place, *second)?;
                self.watch(*second, place, *first)?;
            }
            _ => {}
        }
        Ok(place)
    }

    /// The literals of a clause.
    pub fn clause(&self, clause: u32) -> &[i32] {
        match self.slots.get(clause as usize) {
            Some(slot) => {
                let start = slot.start as usize;
                let end = start + slot.length as usize;
                self.literals.get(start..end).unwrap_or(&[])
            }
            None => &[],
        }
    }

    /// The same, to be put in another order. None where there are none.
    pub fn clause_mut(&mut self, clause: u32) -> Option<&mut [i32]> {
        let (start, end) = match self.slots.get(clause as usize) {
            Some(slot) => {
                let start = slot.start as usize;
                (start, start + slot.length as usize)
            }
            None => return None,
        };
        if start < end && end <= self.literals.len() {
            Some(&mut self.literals[start..end])
        } else {
            None
        }
    }

    /// Where the search for a literal of a clause that isn't false begins.
    pub fn from(&self, clause: u32) -> usize {
        match self.slots.get(clause as usize) {
            Some(slot) => slot.from as usize,
            None => 2,
        }
    }

    /// The search for a literal ended here.
    pub fn set_from(&mut self, clause: u32, from: usize) {
        if let Some(slot) = self.slots.get_mut(clause as usize) {
            if slot.length >= LONG {
                slot.from = short(from);
            }
        }
    }

    /// The number of a clause.
    pub fn number(&self, clause: u32) -> u32 {
        match self.slots.get(clause as usize) {
            Some(slot) => slot.number,
            None => 0,
        }
    }

    /// Drops a clause: from here on it has no literals. `sweep` is to follow before anything is looked at.
    pub fn forget(&mut self, clause: u32) -> Result<(), AllocError> {
        if let Some(slot) = self.slots.get_mut(clause as usize) {
            slot.length = 0;
            self.free.push(clause)?;
        }
        Ok(())
    }

    /// Takes the dropped clauses out of the lists, and closes up the literals.
    pub fn sweep(&mut self, alloc: Global) -> Result<(), AllocError> {
        for list in self.lists.iter_mut() {
            keep_lengthy(&mut list.others, self.slots.as_slice());
        }
        let mut literals = Vec::with_capacity(alloc, self.literals.len())?;
        for slot in self.slots.iter_mut() {
            let start = slot.start as usize;
            let end = start + slot.length as usize;
            slot.start = short(literals.len());
            literals.extend_from_slice(self.literals.get(start..end).unwrap_or(&[]))?;
        }
        self.literals = literals;
        Ok(())
    }

    /// The clause is looked at when the literal becomes false.
    pub fn watch(&mut self, literal: i32, clause: u32, blocker: i32) -> Result<(), AllocError> {
        match self.lists.get_mut(place_of(literal)) {
            Some(list) => list.others.push(Watch { clause, blocker })?,
            None => {}
        }
        Ok(())
    }

    /// The same for a clause of two.
    fn pair(&mut self, literal: i32, clause: u32, blocker: i32) -> Result<(), AllocError> {
        match self.lists.get_mut(place_of(literal)) {
            Some(list) => list.pairs.push(Watch { clause, blocker })?,
            None => {}
        }
        Ok(())
    }

    /// The clauses of two that hold a literal.
    pub fn pairs(&self, literal: i32) -> &[Watch] {
        match self.lists.get(place_of(literal)) {
            Some(list) => list.pairs.as_slice(),
            None => &[],
        }
    }

    /// Takes out the list of the longer ones.
    pub fn take(&mut self, alloc: Global, literal: i32) -> Vec<Watch> {
        match self.lists.get_mut(place_of(literal)) {
            Some(list) => std::mem::replace(&mut list.others, Vec::new(alloc)),
            None => Vec::new(alloc),
        }
    }

    /// Puts it back.
    pub fn put(&mut self, literal: i32, watches: Vec<Watch>) {
        if let Some(list) = self.lists.get_mut(place_of(literal)) {
            list.others = watches;
        }
    }
}

/// Keeps the clauses that have literals.
fn keep_lengthy(list: &mut Vec<Watch>, slots: &[Slot]) {
    let mut kept = 0_usize;
    for at in 0..list.len() {
        let Some(watch) = list.get(at).copied() else {
            break;
        };
        let is_there = match slots.get(watch.clause as usize) {
            Some(slot) => slot.length > 0,
            None => false,
        };
        if is_there {
            if let Some(place) = list.get_mut(kept) {
                *place = watch;
            }
            kept = kept.saturating_add(1);
        }
    }
    list.truncate(kept);
}
