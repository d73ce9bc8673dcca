ghost use Rattle.std.specs.Prelude.{◌≡◌, ◌<◌, ◌^◌, IfOk, length, true};
ghost use Rattle.std.specs.List.{list_all};
ghost use Rattle.conda_encode.specs.Sides.{is_within};
ghost use Rattle.conda_encode.specs.Clauses.{clauses, encoded_of, reasons};
ghost use Rattle.conda_encode.specs.Variables.{IsRequest, vars_of};

use crate::asked::Asked;
use crate::encoded::Encoded;
use crate::error::EncodeErr;
use crate::known::Known;
use crate::once::write_ones;
use crate::pools::flat;
use crate::write::{write_barred, write_needed, write_pinned, write_wanted};
use crate::written::Written;
use conda_base::{Rows, copied_all};
use conda_record::NamePool;
use conda_refute::Clause;
use std::alloc::{AllocError, Global};

/// The clauses of a request with their reasons, and the number of variables.
fn written(alloc: Global, pools: &[NamePool], items: &[Asked]) -> Result<(Written, u32), AllocError>
    requires { IsRequest pools.now items.now }
    ensures written { IfOk result (λ r. r.0 ≡ reasons pools.now items.now) }
    ensures vars { IfOk result (λ r. r.1 ≡ vars_of pools.now) }
{
    let recs = flat(alloc, pools)?;
    let mut known = Known::new(alloc, pools)?;
    let mut written = Written::new(alloc);
    let count = recs.len() as u32;
    write_wanted(alloc, pools, items, &mut known, &mut written)?;
    write_needed(alloc, pools, recs.as_slice(), &mut known, &mut written)?;
    write_barred(alloc, pools, recs.as_slice(), &mut known, &mut written)?;
    let next = write_ones(alloc, pools, count + 1, &mut written)?;
    write_pinned(alloc, pools, items, &mut known, &mut written)?;
    Ok((written, next - 1))
}

/// The request as clauses: a clause for each wanted item, for each dependency of a record, for each
/// entry of `constrains` and each other record that it bars, for each record that has a next one of
/// its name, and for each pinned item and each record that it bars. Beside each clause stands why it
/// is there.
///
/// A variable is a record of the pools, from 1, in their order; helpers follow. [`encode_laws`] says
/// what the clauses mean. Its only error is `Memory`.
///
/// [`encode_laws`]: crate::encode_laws
pub fn encode(alloc: Global, pools: &[NamePool], asked: &[Asked]) -> Result<Encoded, EncodeErr>
    requires { IsRequest pools.now asked.now }
    ensures exact { IfOk result (λ e. e ≡ encoded_of pools.now asked.now) }
    ensures few { IfOk result (λ e. e.vars < 2 ^ 29) }
    ensures within { IfOk result (λ e. list_all (list_all (is_within e.vars)) e.clauses ≡ true) }
    ensures reasons { IfOk result (λ e. length e.whys ≡ length e.clauses) }
{
    let (written, vars) = written(alloc, pools, asked)?;
    let (whys, clauses) = written.into_parts();
    Ok(Encoded {
        pools: Rows::from_vec(copied_all(alloc, pools)?),
        asked: Rows::from_vec(copied_all(alloc, asked)?),
        vars,
        clauses,
        whys,
    })
}

/// The number of variables and the clauses that [`encode`] gives, without the request and the
/// reasons: what a solver needs. Its only error is `Memory`.
pub fn clauses_of(
    alloc: Global,
    pools: &[NamePool],
    asked: &[Asked],
) -> Result<(u32, Rows<Clause>), EncodeErr>
    requires { IsRequest pools.now asked.now }
    ensures vars { IfOk result (λ r. r.0 ≡ vars_of pools.now) }
    ensures clauses { IfOk result (λ r. r.1 ≡ clauses pools.now asked.now) }
    ensures few { IfOk result (λ r. r.0 < 2 ^ 29) }
    ensures within { IfOk result (λ r. list_all (list_all (is_within r.0)) r.1 ≡ true) }
{
    let (written, vars) = written(alloc, pools, asked)?;
    let (_, clauses) = written.into_parts();
    Ok((vars, clauses))
}
