ghost use Rattle.std.specs.Prelude.{◌≡◌, ◌≤◌, IfOk, IfSome, length};
ghost use Rattle.conda_encode.specs.Clauses.{encoded_of};
ghost use Rattle.conda_encode.specs.Variables.{IsRequest, records};

use crate::index::{index_of, shown, shown_record};
use crate::packages::{asked_of, pools_of};
use crate::solution::is_solution;
use conda_base::{Copied, Text};
use conda_encode::{Asked, Encoded, Why, encode, is_request, set_of};
use conda_record::{NamePool, PkgRecord};
use conda_refute::Clause;
use std::alloc::{AllocError, Global};
use std::thread::Threads;

/// How many variables a request has at most whose models are all tried.
const FEW: u32 = 8;

/// The rows of conda_encode.
pub fn answer<R: Threads + Sync>(
    rt: &R,
    alloc: Global,
    call: &str,
    arguments: &[Text],
) -> Result<Option<String>, AllocError> {
    match (call, arguments) {
        ("encode.request", [pools, asked]) => request(alloc, pools.as_str(), asked.as_str()),
        ("encode.clauses", [records, virtuals, asked]) => {
            let asked = asked.as_str();
            match encoded_of(rt, alloc, records.as_str(), virtuals.as_str(), asked)? {
                Some(encoded) => Ok(Some(shown_clauses(alloc, &encoded)?)),
                None => Ok(None),
            }
        }
        ("encode.models", [records, virtuals, asked]) => {
            let asked = asked.as_str();
            match encoded_of(rt, alloc, records.as_str(), virtuals.as_str(), asked)? {
                Some(encoded) => Ok(compared(alloc, &encoded)?),
                None => Ok(None),
            }
        }
        _ => Ok(None),
    }
}

/// Whether pools and items can be written as clauses.
fn request(alloc: Global, pools: &str, asked: &str) -> Result<Option<String>, AllocError> {
    let Some(pools) = pools_of(alloc, pools)? else {
        return Ok(None);
    };
    let Some(asked) = asked_of(alloc, asked)? else {
        return Ok(None);
    };
    let is = is_request(pools.as_slice(), asked.as_slice());
    Ok(Some(String::from_str(alloc, if is { "yes" } else { "no" })?))
}

/// The clauses of a row's request.
pub fn encoded_of<R: Threads + Sync>(
    rt: &R,
    alloc: Global,
    channels: &str,
    virtuals: &str,
    asked: &str,
) -> Result<Option<Encoded>, AllocError>
    ensures exact { IfOk result (λ made. IfSome made (λ e. e ≡ encoded_of e.pools e.asked)) }
    ensures request { IfOk result (λ made. IfSome made (λ e. IsRequest e.pools e.asked)) }
    ensures vars { IfOk result (λ made. IfSome made (λ e. length (records e.pools) ≤ e.vars)) }
{
    let Some(index) = index_of(rt, alloc, channels, virtuals)? else {
        return Ok(None);
    };
    let Some(asked) = asked_of(alloc, asked)? else {
        return Ok(None);
    };
    let Ok(pools) = index.pools(alloc, asked.as_slice()) else {
        return Err(AllocError);
    };
    as_clauses(alloc, pools.as_slice(), asked.as_slice())
}

/// The clauses of these pools and items, if they are a request.
fn as_clauses(
    alloc: Global,
    pools: &[NamePool],
    asked: &[Asked],
) -> Result<Option<Encoded>, AllocError>
    ensures exact { IfOk result (λ made. IfSome made (λ e. e ≡ encoded_of e.pools e.asked)) }
    ensures request { IfOk result (λ made. IfSome made (λ e. IsRequest e.pools e.asked)) }
    ensures vars { IfOk result (λ made. IfSome made (λ e. length (records e.pools) ≤ e.vars)) }
{
    if !is_request(pools, asked) {
        return Ok(None);
    }
    match encode(alloc, pools, asked) {
        Ok(encoded) => Ok(Some(encoded)),
        Err(_) => Err(AllocError),
    }
}

// ---- clauses as text

/// Adds one more, behind `; ` where it isn't the first.
fn add(text: &mut String, more: &str) -> Result<(), AllocError> {
    if !text.is_empty() {
        text.push_str("; ")?;
    }
    text.push_str(more)
}

/// The pools, each record behind its variable; the number of variables; each clause behind why it
/// is there.
fn shown_clauses(alloc: Global, encoded: &Encoded) -> Result<String, AllocError> {
    let mut text = String::new(alloc);
    let mut before = 0_usize;
    for pool in encoded.pools.as_slice() {
        let one = numbered_pool(alloc, pool, before)?;
        add(&mut text, one.as_str())?;
        before = before.saturating_add(pool.recs.len());
    }
    let vars = encoded.vars;
    let count = format!(in alloc; "{vars} variables")?;
    add(&mut text, count.as_str())?;
    let (whys, clauses) = (encoded.whys.as_slice(), encoded.clauses.as_slice());
    for (why, clause) in whys.iter().zip(clauses) {
        let one = shown_clause(alloc, why, clause)?;
        add(&mut text, one.as_str())?;
    }
    Ok(text)
}

/// A name with its records, each behind its variable, where so many records stand before them.
fn numbered_pool(alloc: Global, pool: &NamePool, before: usize) -> Result<String, AllocError> {
    let name = pool.name.as_str();
    let recs = pool.recs.as_slice();
    if recs.is_empty() {
        return format!(in alloc; "{name} = none");
    }
    let mut text = format!(in alloc; "{name} =")?;
    let mut number = before;
    for pkg in recs {
        number = number.saturating_add(1);
        let shown = shown_record(alloc, pkg)?;
        let one = format!(in alloc; " {number} {shown}")?;
        text.push_str(one.as_str())?;
    }
    Ok(text)
}

fn shown_clause(alloc: Global, why: &Why, clause: &Clause) -> Result<String, AllocError> {
    let mut text = shown_why(alloc, why)?;
    text.push_str(":")?;
    if clause.as_slice().is_empty() {
        text.push_str(" none")?;
    }
    for literal in clause.as_slice() {
        let one = format!(in alloc; " {literal}")?;
        text.push_str(one.as_str())?;
    }
    Ok(text)
}

fn shown_why(alloc: Global, why: &Why) -> Result<String, AllocError> {
    match why {
        Why::Asked(place) => format!(in alloc; "asked {place}"),
        Why::Needs { rec, entry } => format!(in alloc; "needs {rec} {entry}"),
        Why::Constrains { rec, entry } => format!(in alloc; "bars {rec} {entry}"),
        Why::One { name } => {
            let name = name.as_str();
            format!(in alloc; "one {name}")
        }
        Why::Pinned(place) => format!(in alloc; "pinned {place}"),
    }
}

// ---- all models beside all solutions

/// The solutions, each in braces, in the order of counting in base 2 where the first record is the
/// lowest digit; and that the models give other sets, where they do.
fn compared(alloc: Global, encoded: &Encoded) -> Result<Option<String>, AllocError>
    requires request { IsRequest encoded.now.pools encoded.now.asked }
    requires vars { length (records encoded.now.pools) ≤ encoded.now.vars }
{
    if encoded.vars > FEW {
        return Ok(None);
    }
    let solutions = solutions(alloc, encoded)?;
    let given = given_by_models(alloc, encoded)?;
    let mut text = joined(alloc, solutions.as_slice())?;
    if !holds_all(solutions.as_slice(), given.as_slice())
        || !holds_all(given.as_slice(), solutions.as_slice())
    {
        let other = joined(alloc, given.as_slice())?;
        let more = format!(in alloc; ", but the models give {other}")?;
        text.push_str(more.as_str())?;
    }
    Ok(Some(text))
}

fn joined(alloc: Global, sets: &[Text]) -> Result<String, AllocError> {
    if sets.is_empty() {
        return String::from_str(alloc, "no solution");
    }
    let mut text = String::new(alloc);
    for set in sets {
        if !text.is_empty() {
            text.push_str(" ")?;
        }
        text.push_str(set.as_str())?;
    }
    Ok(text)
}

fn holds_all(sets: &[Text], others: &[Text]) -> bool {
    others.iter().all(|other| sets.contains(other))
}

/// Adds a set, if it isn't there.
fn add_set(alloc: Global, sets: &mut Vec<Text>, set: &[PkgRecord]) -> Result<(), AllocError> {
    let members = if set.is_empty() {
        String::new(alloc)
    } else {
        shown(alloc, set)?
    };
    let text = Text::from_string(format!(in alloc; "{{{members}}}")?);
    if !sets.as_slice().contains(&text) {
        sets.push(text)?;
    }
    Ok(())
}

/// So many sides, which are the digits of the number in base 2, the lowest first.
fn sides_of(alloc: Global, number: u32, count: u32) -> Result<Vec<bool>, AllocError>
    ensures { IfOk result (λ sides. length sides.items ≡ count) }
{
    let mut sides = Vec::new(alloc);
    let mut left = number;
    for _place in 0..count {
        sides.push(left % 2 == 1)?;
        left /= 2;
    }
    Ok(sides)
}

/// The records of the pools whose sides are true.
fn chosen(alloc: Global, pools: &[NamePool], sides: &[bool]) -> Result<Vec<PkgRecord>, AllocError> {
    let mut set = Vec::new(alloc);
    let mut sides = sides.iter();
    for pool in pools {
        for pkg in pool.recs.as_slice() {
            if matches!(sides.next(), Some(true)) {
                set.push(pkg.copy()?)?;
            }
        }
    }
    Ok(set)
}

/// The sets of records that are solutions, by the definition.
fn solutions(alloc: Global, encoded: &Encoded) -> Result<Vec<Text>, AllocError> {
    let mut sets = Vec::new(alloc);
    for number in 0..256 {
        let sides = sides_of(alloc, number, encoded.vars)?;
        let set = chosen(alloc, encoded.pools.as_slice(), sides.as_slice())?;
        if is_solution(alloc, set.as_slice(), encoded.asked.as_slice())? {
            add_set(alloc, &mut sets, set.as_slice())?;
        }
    }
    Ok(sets)
}

/// Whether the literal is true on these sides, of which the first is that of the variable 1.
fn is_true(sides: &[bool], literal: i32) -> bool {
    let place = (literal.unsigned_abs() as usize).saturating_sub(1);
    matches!(sides.get(place), Some(side) if *side == (literal > 0))
}

/// Whether each clause has a literal that is true.
fn are_true(sides: &[bool], clauses: &[Clause]) -> bool {
    clauses.iter().all(|clause| clause
        .as_slice()
        .iter()
        .any(|literal| is_true(sides, *literal)))
}

/// The sets that the models of the clauses give.
fn given_by_models(alloc: Global, encoded: &Encoded) -> Result<Vec<Text>, AllocError>
    requires request { IsRequest encoded.now.pools encoded.now.asked }
    requires vars { length (records encoded.now.pools) ≤ encoded.now.vars }
{
    let mut sets = Vec::new(alloc);
    for number in 0..256 {
        let sides = sides_of(alloc, number, encoded.vars)?;
        if are_true(sides.as_slice(), encoded.clauses.as_slice()) {
            let Ok(set) = set_of(alloc, encoded, sides.as_slice()) else {
                return Err(AllocError);
            };
            add_set(alloc, &mut sets, set.as_slice())?;
        }
    }
    Ok(sets)
}
