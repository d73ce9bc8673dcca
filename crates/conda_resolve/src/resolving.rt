ghost use Rattle.std.specs.Prelude.{◌≡◌, true, All, Contains, IfErr, IfOk, IfSome, List, None};
ghost use Rattle.conda_record.specs.declared.pkg_record.PkgRecord.{PkgRecord};
ghost use Rattle.conda_refute.specs.Refutation.{ends_empty, refuted};
ghost use Rattle.conda_encode.specs.Clauses.{clauses};
ghost use Rattle.conda_encode.specs.Solution.{IsSolution};
ghost use Rattle.conda_encode.specs.Variables.{IsRequest, vars_of};
ghost use Rattle.conda_resolve.specs.Answer.{log_of};
ghost use Rattle.conda_resolve.specs.Choice.{IsChoice};

use crate::asking::find;
use crate::deciding::decided;
use crate::error::ResolveErr;
use crate::order::order_of;
use crate::places::Places;
use crate::sorting::by_name;
use conda_encode::{Asked, clauses_of, flat};
use conda_record::{NamePool, PkgRecord};
use conda_sat::{Solver, Verdict};
use std::alloc::{AllocError, Global};

/// The choice, by name. Names are decided one after another: first those of the wanted items, in
/// their order, then those that the decided records need. Each gets the first record of its pool
/// with which, and with all that is decided, there is a solution. A record that is installed comes
/// before the others of its pool, unless the newest one of the name is asked for.
///
/// `Unsat` is answered exactly where there is no solution; its log is a refutation of clauses of
/// the request, as `encode` gives them. The only other error is `Memory`.
pub fn resolve(
    alloc: Global,
    pools: &[NamePool],
    asked: &[Asked],
    installed: &[PkgRecord],
) -> Result<Vec<PkgRecord>, ResolveErr>
    requires { IsRequest pools.now asked.now }
    ensures choice { IfOk result (λ set. IsChoice pools.now asked.now installed.now set.items) }
    ensures none { IfErr result (λ e. IfSome (log_of e)
        (λ _. (set : List PkgRecord) → IsSolution set asked.now pools.now → ⊥)) }
    ensures refuted { IfErr result (λ e. IfSome (log_of e) (λ log. refuted log ≡ true)) }
    ensures inputs { IfErr result (λ e. IfSome (log_of e)
        (λ log. All (Contains (clauses pools.now asked.now)) log.inputs)) }
{
    let (vars, clauses) = clauses_of(alloc, pools, asked)?;
    let mut solver = Solver::make(alloc, vars, clauses.as_slice())?;
    match chosen(alloc, pools, asked, installed, &mut solver)? {
        Some(set) => Ok(set),
        None => Err(ResolveErr::Unsat {
            log: solver.refutation()?,
        }),
    }
}

/// The choice, unless the solver, which has the clauses of the request, finds no model.
fn chosen(
    alloc: Global,
    pools: &[NamePool],
    asked: &[Asked],
    installed: &[PkgRecord],
    solver: &mut Solver,
) -> Result<Option<Vec<PkgRecord>>, AllocError>
    requires request { IsRequest pools.now asked.now }
    requires vars { solver.old.vars ≡ vars_of pools.now }
    requires clauses { solver.old.clauses ≡ clauses pools.now asked.now }
    ensures choice { IfOk result (λ found. IfSome found
        (λ set. IsChoice pools.now asked.now installed.now set.items)) }
    ensures none { result ≡ Ok None →
        (set : List PkgRecord) → IsSolution set asked.now pools.now → ⊥ }
    ensures ended { result ≡ Ok None → ends_empty solver.new.steps ≡ true }
    ensures clauses { result ≡ Ok None → solver.new.clauses ≡ solver.old.clauses }
{
    let places = Places::new(alloc, pools)?;
    let recs = flat(alloc, pools)?;
    let recs = recs.as_slice();
    let order = order_of(alloc, &places, pools, asked, installed, recs)?;
    match find(solver, &[], order.as_slice())? {
        Verdict::Denied => Ok(None),
        Verdict::Model(first) => {
            let variables = decided(alloc, &places, pools, asked, installed, recs, solver, first)?;
            let set = by_name(alloc, pools, asked, installed, recs, variables)?;
            Ok(Some(set))
        }
    }
}
