ghost use Rattle.std.specs.Prelude.{◌≡◌, ◌<◌, ◌≤◌, ◌^◌, ◌+◌, ◌++◌, [], ◌∷◌, IfOk, OnOk, false, if◌then◌else◌, length, pos};
ghost use Rattle.std.specs.List.{sum_by};
ghost use Rattle.conda_encode.specs.Clauses.{off, on, one_of, one_step, ones};
ghost use Rattle.conda_refute.specs.Literals.{has};
ghost use Rattle.conda_encode.specs.Variables.{helpers_of, records};
ghost use Rattle.conda_encode.specs.declared.encoded.Why.{Why};

use crate::clauses::clause_of;
use crate::encoded::Why;
use crate::written::Written;
use conda_base::{Copied, Text};
use conda_record::{NamePool, PkgRecord};
use std::alloc::{AllocError, Global};

/// A clause of two literals, by which at most one record of the name is chosen.
fn write_pair(
    alloc: Global,
    name: &Text,
    first: i32,
    second: i32,
    written: &mut Written,
) -> Result<(), AllocError>
    requires first { has (first ∷ []) (pos 0) ≡ false }
    requires second { has (second ∷ []) (pos 0) ≡ false }
    ensures { OnOk result (written.new
        ≡ written.old ++ (Why.One name.now, first ∷ second ∷ []) ∷ []) }
{
    let clause = clause_of(alloc, &[first], &[second])?;
    written.push(Why::One { name: name.copy()? }, clause)
}

/// A helper is true where the one before it is, if there is a next helper.
fn write_next(
    alloc: Global,
    name: &Text,
    helper: u32,
    more: bool,
    written: &mut Written,
) -> Result<(), AllocError>
    requires low { 1 ≤ helper }
    requires high { helper + 1 < 2 ^ 31 }
    ensures { OnOk result (written.new ≡ written.old
        ++ (if more then (Why.One name.now, off helper ∷ on (helper + 1) ∷ []) ∷ [] else [])) }
{
    if more {
        write_pair(alloc, name, -(helper as i32), helper as i32 + 1, written)
    } else {
        Ok(())
    }
}

/// The clauses of a record that has a next one.
fn write_one_step(
    alloc: Global,
    name: &Text,
    number: u32,
    helper: u32,
    more: bool,
    written: &mut Written,
) -> Result<(), AllocError>
    requires low { 1 ≤ number }
    requires low_helper { 1 ≤ helper }
    requires high { number + 1 < 2 ^ 31 }
    requires high_helper { helper + 1 < 2 ^ 31 }
    ensures { OnOk result (written.new
        ≡ written.old ++ one_step name.now number helper more) }
{
    write_pair(alloc, name, -(number as i32), helper as i32, written)?;
    write_next(alloc, name, helper, more, written)?;
    write_pair(alloc, name, -(number as i32 + 1), -(helper as i32), written)
}

/// The clauses of a pool, where these are the first variable and the first helper.
fn write_one_of(
    alloc: Global,
    name: &Text,
    number: u32,
    helper: u32,
    recs: &[PkgRecord],
    written: &mut Written,
) -> Result<(), AllocError>
    requires low { 1 ≤ number }
    requires low_helper { 1 ≤ helper }
    requires high { number + length recs.now < 2 ^ 31 }
    requires high_helper { helper + length recs.now < 2 ^ 31 }
    ensures { OnOk result (written.new
        ≡ written.old ++ one_of name.now number helper recs.now) }
{
    let count = recs.len();
    for at in 0..count.saturating_sub(1) {
        let more = at + 2 < count;
        write_one_step(
            alloc,
            name,
            number + at as u32,
            helper + at as u32,
            more,
            written,
        )?;
    }
    Ok(())
}

/// The clauses by which at most one record of each name is chosen, where this is the first helper,
/// and the number behind the last helper.
pub fn write_ones(
    alloc: Global,
    pools: &[NamePool],
    first: u32,
    written: &mut Written,
) -> Result<u32, AllocError>
    requires few { length (records pools.now) < 2 ^ 28 }
    requires first { first ≡ length (records pools.now) + 1 }
    ensures written { OnOk result (written.new ≡ written.old ++ ones 1 first pools.now) }
    ensures helpers { IfOk result (λ s. s ≡ first + sum_by helpers_of pools.now) }
{
    let mut number = 1_u32;
    let mut helper = first;
    for pool in pools {
        let recs = pool.recs.as_slice();
        write_one_of(alloc, &pool.name, number, helper, recs, written)?;
        number += recs.len() as u32;
        helper += recs.len().saturating_sub(1) as u32;
    }
    Ok(helper)
}
