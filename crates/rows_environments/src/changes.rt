ghost use Rattle.std.specs.Prelude.{◌≡◌, IfOk};
ghost use Rattle.conda_lane.specs.Changes.{AreApart};

use crate::checks::{are_goods_of, are_moved_out, are_ready, can_move_back, one_lane};
use crate::edits::{changes_of, shelf_of};
use crate::shelf::{Counts, Shelf};
use conda_base::Text;
use conda_dev::{Effect, FailAt, Lane, MemLane, Target};
use conda_lane::{Cause, Change, Stopped, move_out, purge, put_in, undo, undo_moves, undo_puts};
use conda_path::Prefix;
use rows_plan::{plan_of, shown_tree, tree_of, word};
use std::alloc::{AllocError, Global};

/// The rows of conda_lane. A change is `PATH new TRASH KIND TEXT`, `PATH replaced TRASH KIND TEXT` or
/// `PATH removed TRASH`. Calls are `out`, `in`, `puts`, `moves`, `undo` and `purge`. What a supply
/// does otherwise than to give each new node is `PATH WORD`. Changes, calls, the nodes of a tree and
/// what a supply does are parted by `;`.
pub fn answer(alloc: Global, call: &str, arguments: &[Text]) -> Result<Option<String>, AllocError> {
    match (call, arguments) {
        ("changes", [plan, tree, changes, calls]) => {
            let (plan, tree, calls) = (plan.as_str(), tree.as_str(), calls.as_str());
            run(alloc, plan, tree, changes.as_str(), calls)
        }
        ("changes.supply", [supply, tree, changes, calls]) => {
            let (supply, tree, calls) = (supply.as_str(), tree.as_str(), calls.as_str());
            run_supplied(alloc, supply, tree, changes.as_str(), calls)
        }
        ("changes.walk", [tree, changes]) => walk(alloc, tree.as_str(), changes.as_str()),
        _ => Ok(None),
    }
}

fn lane_of(alloc: Global, tree: &str, plan: Vec<FailAt>) -> Result<MemLane, AllocError>
    ensures number { IfOk result (λ lane. lane.number ≡ 0) }
    ensures lanes { IfOk result (λ lane. lane.lanes ≡ 1) }
{
    MemLane::make(alloc, 0, 1, tree_of(alloc, tree)?, plan)
}

/// Moves the old nodes out, which asks for a start.
fn out(lane: &mut MemLane, changes: &[Change]) -> &'static str
    requires number { lane.old.number ≡ 0 }
    requires lanes { lane.old.lanes ≡ 1 }
    requires apart { AreApart changes.now }
    ensures number { lane.new.number ≡ 0 }
    ensures lanes { lane.new.lanes ≡ 1 }
{
    one_lane(lane, changes);
    if !are_ready(lane.tree(), changes) {
        return "not ready";
    }
    word(move_out(lane, changes))
}

fn cause_word(done: Result<(), Stopped>) -> &'static str {
    match done {
        Ok(()) => "ok",
        Err(stopped) => match stopped.cause {
            Cause::LaneFault => "lane",
            Cause::ChanFault => "channel",
            Cause::StoreFault => "cache",
            Cause::Missing => "missing",
            Cause::Damaged => "damaged",
            Cause::Memory => "memory",
        },
    }
}

/// Puts the new nodes, which asks for a tree from which all old ones are moved.
fn into(alloc: Global, lane: &mut MemLane, changes: &[Change], shelf: &mut Shelf) -> &'static str
    requires number { lane.old.number ≡ 0 }
    requires lanes { lane.old.lanes ≡ 1 }
    requires apart { AreApart changes.now }
    ensures number { lane.new.number ≡ 0 }
    ensures lanes { lane.new.lanes ≡ 1 }
{
    one_lane(lane, changes);
    if !are_moved_out(lane.tree(), changes) || !are_goods_of(shelf.goods(), changes) {
        return "not moved out";
    }
    cause_word(put_in(alloc, lane, changes, shelf))
}

fn cleared(lane: &mut MemLane, changes: &[Change]) -> &'static str
    requires number { lane.old.number ≡ 0 }
    requires lanes { lane.old.lanes ≡ 1 }
    requires apart { AreApart changes.now }
    ensures number { lane.new.number ≡ 0 }
    ensures lanes { lane.new.lanes ≡ 1 }
{
    one_lane(lane, changes);
    word(undo_puts(lane, changes))
}

/// Moves the old nodes back, which asks that no change has two nodes.
fn moved_back(lane: &mut MemLane, changes: &[Change]) -> &'static str
    requires number { lane.old.number ≡ 0 }
    requires lanes { lane.old.lanes ≡ 1 }
    requires apart { AreApart changes.now }
    ensures number { lane.new.number ≡ 0 }
    ensures lanes { lane.new.lanes ≡ 1 }
{
    one_lane(lane, changes);
    if !can_move_back(lane.tree(), changes) {
        return "not cleared";
    }
    word(undo_moves(lane, changes))
}

fn undone(lane: &mut MemLane, changes: &[Change]) -> &'static str
    requires number { lane.old.number ≡ 0 }
    requires lanes { lane.old.lanes ≡ 1 }
    requires apart { AreApart changes.now }
    ensures number { lane.new.number ≡ 0 }
    ensures lanes { lane.new.lanes ≡ 1 }
{
    one_lane(lane, changes);
    word(undo(lane, changes))
}

/// Erases the trash. The numbers of the changes that are left.
fn purged(alloc: Global, lane: &mut MemLane, changes: &[Change]) -> Result<String, AllocError>
    requires number { lane.old.number ≡ 0 }
    requires lanes { lane.old.lanes ≡ 1 }
    requires apart { AreApart changes.now }
    ensures number { lane.new.number ≡ 0 }
    ensures lanes { lane.new.lanes ≡ 1 }
{
    let mut left = Vec::new(alloc);
    left.reserve(changes.len())?;
    one_lane(lane, changes);
    purge(lane, changes, &mut left);
    let mut made = String::from_str(alloc, "left")?;
    for number in left.iter() {
        made.push_str(format!(in alloc; " {number}")?.as_str())?;
    }
    Ok(made)
}

/// Makes one call.
fn called(
    alloc: Global,
    lane: &mut MemLane,
    changes: &[Change],
    shelf: &mut Shelf,
    call: &str,
) -> Result<String, AllocError>
    requires number { lane.old.number ≡ 0 }
    requires lanes { lane.old.lanes ≡ 1 }
    requires apart { AreApart changes.now }
    ensures number { lane.new.number ≡ 0 }
    ensures lanes { lane.new.lanes ≡ 1 }
{
    let answer = match call {
        "out" => out(lane, changes),
        "in" => into(alloc, lane, changes, shelf),
        "puts" => cleared(lane, changes),
        "moves" => moved_back(lane, changes),
        "undo" => undone(lane, changes),
        "purge" => return purged(alloc, lane, changes),
        _ => "?",
    };
    String::from_str(alloc, answer)
}

/// Makes the calls of a text. The answers, the count of faults and the tree that is left.
fn run_all(
    alloc: Global,
    lane: &mut MemLane,
    changes: &[Change],
    shelf: &mut Shelf,
    calls: &str,
) -> Result<String, AllocError>
    requires number { lane.old.number ≡ 0 }
    requires lanes { lane.old.lanes ≡ 1 }
    requires apart { AreApart changes.now }
{
    let mut made = String::new(alloc);
    for call in calls.split(';') {
        let answer = called(alloc, lane, changes, shelf, call.trim())?;
        made.push_str(answer.as_str())?;
        made.push_str("; ")?;
    }
    let faults = lane.faults();
    let tree = shown_tree(alloc, lane.tree())?;
    let made = made.as_str();
    let tree = tree.as_str();
    format!(in alloc; "{made}{faults} faults; {tree}")
}

fn run(
    alloc: Global,
    plan: &str,
    tree: &str,
    texts: &str,
    calls: &str,
) -> Result<Option<String>, AllocError> {
    let (Some(changes), Some(mut shelf)) = (changes_of(alloc, texts)?, shelf_of(alloc, texts, "")?)
    else {
        return Ok(None);
    };
    let mut lane = lane_of(alloc, tree, plan_of(alloc, plan)?)?;
    let made = run_all(alloc, &mut lane, changes.as_slice(), &mut shelf, calls)?;
    Ok(Some(made))
}

/// The same over a supply that does what a text says, and then what the supply counted.
fn run_supplied(
    alloc: Global,
    supply: &str,
    tree: &str,
    texts: &str,
    calls: &str,
) -> Result<Option<String>, AllocError> {
    let (Some(changes), Some(mut shelf)) = (
        changes_of(alloc, texts)?,
        shelf_of(alloc, texts, supply)?,
    ) else {
        return Ok(None);
    };
    let mut lane = lane_of(alloc, tree, Vec::new(alloc))?;
    let mut made = run_all(alloc, &mut lane, changes.as_slice(), &mut shelf, calls)?;
    let counts = shelf.counts();
    made.push_str(counted(alloc, &counts)?.as_str())?;
    Ok(Some(made))
}

fn counted(alloc: Global, counts: &Counts) -> Result<String, AllocError> {
    let (channel, cache) = (counts.channel, counts.cache);
    let (absent, other) = (counts.absent, counts.other);
    format!(in alloc; "; {channel} channel {cache} cache {absent} absent {other} other")
}

/// Moves out and puts in, up to the first call that fails.
fn edited(alloc: Global, lane: &mut MemLane, changes: &[Change], shelf: &mut Shelf)
    requires number { lane.old.number ≡ 0 }
    requires lanes { lane.old.lanes ≡ 1 }
    requires apart { AreApart changes.now }
    ensures number { lane.new.number ≡ 0 }
    ensures lanes { lane.new.lanes ≡ 1 }
{
    if out(lane, changes) == "ok" {
        into(alloc, lane, changes, shelf);
    }
}

/// Undoes twice, and once more where the second time failed.
fn undone_twice(lane: &mut MemLane, changes: &[Change])
    requires number { lane.old.number ≡ 0 }
    requires lanes { lane.old.lanes ≡ 1 }
    requires apart { AreApart changes.now }
{
    undone(lane, changes);
    if undone(lane, changes) != "ok" {
        undone(lane, changes);
    }
}

/// Whether a run in which one call of the lane fails ends at its start; None where no call did.
fn failed_run(
    alloc: Global,
    tree: &str,
    texts: &str,
    call: u64,
    effect: Effect,
) -> Result<Option<bool>, AllocError> {
    let (Some(changes), Some(mut shelf)) = (changes_of(alloc, texts)?, shelf_of(alloc, texts, "")?)
    else {
        return Ok(None);
    };
    let Ok(prefix) = Prefix::read(alloc, "/e") else {
        return Ok(None);
    };
    let on = Target::Lane { prefix, number: 0 };
    let mut plan = Vec::new(alloc);
    plan.push(FailAt { on, call, effect })?;
    let mut lane = lane_of(alloc, tree, plan)?;
    let start = shown_tree(alloc, lane.tree())?;
    edited(alloc, &mut lane, changes.as_slice(), &mut shelf);
    undone_twice(&mut lane, changes.as_slice());
    if lane.faults() == 0 {
        return Ok(None);
    }
    let end = shown_tree(alloc, lane.tree())?;
    Ok(Some(start.as_str() == end.as_str()))
}

/// Lets each call of a run fail in turn, before and after its effect, where a run moves out, puts
/// in and undoes twice. How many calls there are, and how many of the runs end at the start.
fn walk(alloc: Global, tree: &str, texts: &str) -> Result<Option<String>, AllocError> {
    let mut calls = 0;
    let mut runs = 0_u64;
    let mut good = 0_u64;
    for call in 1..100_u64 {
        for effect in [Effect::Before, Effect::After] {
            let Some(is_start) = failed_run(alloc, tree, texts, call, effect)? else {
                continue;
            };
            calls = call;
            runs = runs.saturating_add(1);
            if is_start {
                good = good.saturating_add(1);
            }
        }
    }
    Ok(Some(format!(in alloc; "{calls} calls, {runs} runs, {good} at the start")?))
}
