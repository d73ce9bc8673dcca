ghost use Rattle.std.specs.Prelude.{◌≡◌, [], IfOk, map};
ghost use Rattle.conda_encode.specs.Clauses.{clauses};
ghost use Rattle.conda_encode.specs.Known.{starts_of};
ghost use Rattle.conda_encode.specs.Variables.{IsRequest, records, vars_of};
ghost use Rattle.conda_resolve.specs.Asking.{AreDecided, IsModelWith};

use crate::asking::first_open;
use crate::names::{add_needs, wanted_specs};
use crate::places::Places;
use crate::ranking::ranked;
use conda_base::{Rows, Text};
use conda_encode::Asked;
use conda_record::{NamePool, PkgRecord};
use conda_sat::Solver;
use indexmap::IndexMap;
use std::alloc::{AllocError, Global};

/// The variables of the records that are decided, each behind the name of its record. The names
/// are gone through in the order in which they come up.
pub fn decided(
    alloc: Global,
    places: &Places,
    pools: &[NamePool],
    asked: &[Asked],
    installed: &[PkgRecord],
    recs: &[&PkgRecord],
    solver: &mut Solver,
    first: Rows<bool>,
) -> Result<IndexMap<Text, u32>, AllocError>
    requires request { IsRequest pools.now asked.now }
    requires starts { places.now.starts.items ≡ starts_of 1 pools.now }
    requires recs { map (λ r. r.now) recs.now ≡ records pools.now }
    requires vars { solver.old.vars ≡ vars_of pools.now }
    requires clauses { solver.old.clauses ≡ clauses pools.now asked.now }
    requires model { IsModelWith (vars_of pools.now) (clauses pools.now asked.now) [] first }
    ensures { IfOk result (λ variables.
        AreDecided pools.now asked.now installed.now variables.entries) }
{
    let mut specs = wanted_specs(alloc, asked)?;
    let mut variables = IndexMap::new(alloc);
    let mut assumed = Vec::new(alloc);
    let mut sides = first;
    for at in 0..usize::MAX {
        let Some(spec) = specs.get(at) else {
            return Ok(variables);
        };
        let name = Text::from_str(alloc, spec.name())?;
        if !variables.contains_key(&name) {
            let candidates = ranked(alloc, places, pools, asked, installed, &name)?;
            let found = first_open(solver, &mut sides, &mut assumed, candidates.as_slice())?;
            let Some(variable) = found else {
                unreachable!()
            };
            add_needs(&mut specs, recs[variable as usize - 1])?;
            variables.insert(name, variable)?;
        }
    }
    let _ = specs.len();
    Ok(variables)
}
