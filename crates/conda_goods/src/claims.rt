ghost use Rattle.std.specs.Prelude.{◌≡◌, ◌++◌, IfOk, OnErr, OnOk, map};
ghost use Rattle.conda_goods.specs.Claims.{claimed, claims_of, other_claims, part_claims};

use crate::owned::Owned;
use crate::owner::Owner;
use conda_path::RelPath;
use std::alloc::{AllocError, Global};

/// A path and who has it, where None is the one who has the other paths.
#[derive(Clone, Copy)]
pub struct Claim<'a> {
    pub holder: Option<&'a Owner>,
    pub path: &'a RelPath,
}

/// Adds the claims of a part.
fn add_part<'a>(claims: &mut Vec<Claim<'a>>, part: &'a Owned) -> Result<(), AllocError>
    ensures { OnOk result (map claimed claims.new.items
        ≡ map claimed claims.old.items ++ part_claims part.now) }
{
    for good in part.goods.list() {
        claims.push(Claim {
            holder: Some(&part.owner),
            path: &good.path,
        })?;
    }
    Ok(())
}

/// Adds the claims of the one who has the other paths.
fn add_others<'a>(claims: &mut Vec<Claim<'a>>, others: &'a [RelPath]) -> Result<(), AllocError>
    ensures { OnOk result (map claimed claims.new.items
        ≡ map claimed claims.old.items ++ other_claims others.now) }
{
    for path in others {
        claims.push(Claim { holder: None, path })?;
    }
    Ok(())
}

/// All claims, part by part, and those on the other paths behind them.
pub fn all_claims<'a>(
    alloc: Global,
    parts: &'a [Owned],
    others: &'a [RelPath],
) -> Result<Vec<Claim<'a>>, AllocError>
    ensures { IfOk result (λ v. map claimed v.items ≡ claims_of parts.now others.now) }
{
    let mut claims = Vec::new(alloc);
    for part in parts {
        add_part(&mut claims, part)?;
    }
    add_others(&mut claims, others)?;
    Ok(claims)
}
