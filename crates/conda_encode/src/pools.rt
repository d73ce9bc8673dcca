ghost use Rattle.std.specs.Prelude.{◌≡◌, ◌++◌, IfOk, OnOk, map};
ghost use Rattle.conda_encode.specs.Variables.{records};

use conda_record::{NamePool, PkgRecord};
use std::alloc::{AllocError, Global};

fn add_all<'a>(recs: &mut Vec<&'a PkgRecord>, pool: &'a [PkgRecord]) -> Result<(), AllocError>
    ensures { OnOk result (map (λ r. r.now) recs.new.items
        ≡ map (λ r. r.now) recs.old.items ++ pool.now) }
{
    for rec in pool {
        recs.push(rec)?;
    }
    Ok(())
}

/// The records of all pools, in their order: the first has the variable 1.
pub fn flat(alloc: Global, pools: &[NamePool]) -> Result<Vec<&PkgRecord>, AllocError>
    ensures { IfOk result (λ recs. map (λ r. r.now) recs.items ≡ records pools.now) }
{
    let mut recs: Vec<&PkgRecord> = Vec::new(alloc);
    for pool in pools {
        add_all(&mut recs, pool.recs.as_slice())?;
    }
    Ok(recs)
}
