ghost use Rattle.std.specs.Prelude.{◌≡◌};
ghost use Rattle.conda_encode.specs.Known.{starts_of};
ghost use Rattle.conda_encode.specs.Variables.{IsRequest};

use crate::names::is_wanted;
use crate::places::Places;
use crate::ranking::ranked;
use conda_base::Text;
use conda_encode::Asked;
use conda_record::{NamePool, PkgRecord};
use indexmap::IndexSet;
use std::alloc::{AllocError, Global};

/// The literals that a solver tries first: of each name that comes up the records in the order in
/// which they are tried, where each name brings those that its first record needs. It is a guess,
/// so that the first model mostly is the choice.
pub fn order_of(
    alloc: Global,
    places: &Places,
    pools: &[NamePool],
    asked: &[Asked],
    installed: &[PkgRecord],
    recs: &[&PkgRecord],
) -> Result<Vec<i32>, AllocError>
    requires request { IsRequest pools.now asked.now }
    requires starts { places.now.starts.items ≡ starts_of 1 pools.now }
{
    let mut names = wanted_names(alloc, asked)?;
    let mut order = Vec::new(alloc);
    for at in 0..usize::MAX {
        let variables = match names.get_index(at) {
            None => return Ok(order),
            Some(name) => ranked(alloc, places, pools, asked, installed, name)?,
        };
        add_needed(alloc, recs, variables.as_slice(), &mut names)?;
        add_literals(&mut order, variables.as_slice())?;
    }
    Ok(order)
}

/// The names that are wanted, each once.
fn wanted_names(alloc: Global, asked: &[Asked]) -> Result<IndexSet<Text>, AllocError> {
    let mut names = IndexSet::new(alloc);
    for item in asked {
        if is_wanted(item.kind) {
            names.insert(Text::from_str(alloc, item.spec.name())?)?;
        }
    }
    Ok(names)
}

/// Adds the names that the record of the first of these variables needs.
fn add_needed(
    alloc: Global,
    recs: &[&PkgRecord],
    variables: &[u32],
    names: &mut IndexSet<Text>,
) -> Result<(), AllocError> {
    match variables.first() {
        None => Ok(()),
        Some(variable) => match recs.get((*variable as usize).saturating_sub(1)) {
            None => Ok(()),
            Some(pkg) => add_names(alloc, pkg, names),
        },
    }
}

fn add_names(alloc: Global, pkg: &PkgRecord, names: &mut IndexSet<Text>) -> Result<(), AllocError> {
    for need in pkg.depends.as_slice() {
        names.insert(Text::from_str(alloc, need.name())?)?;
    }
    Ok(())
}

fn add_literals(order: &mut Vec<i32>, variables: &[u32]) -> Result<(), AllocError> {
    for variable in variables {
        order.push(i32::try_from(*variable).unwrap_or(i32::MAX))?;
    }
    Ok(())
}
