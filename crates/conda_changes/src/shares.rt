ghost use Rattle.std.specs.Prelude.{◌≡◌, ◌≤◌, ◌++◌, [], ◌∷◌, ℕ, IfOk, OnOk, length};
ghost use Rattle.conda_changes.specs.Shares.{changes_in, share_at};

use conda_base::Rows;
use conda_lane::Change;
use conda_path::lane_of;
use std::alloc::{AllocError, Global};

/// So many lists without a change.
fn no_shares(alloc: Global, lanes: u32) -> Result<Vec<Rows<Change>>, AllocError>
    ensures count { IfOk result (λ shares. length shares.items ≡ lanes) }
    ensures none { IfOk result (λ shares. (lane : ℕ) → share_at shares.items lane ≡ []) }
{
    let mut shares = Vec::with_capacity(alloc, lanes as usize)?;
    for _ in 0..lanes {
        shares.push(Rows::new(alloc))?;
    }
    Ok(shares)
}

/// Puts a change behind those of its lane.
fn deal(shares: &mut Vec<Rows<Change>>, change: Change, lanes: u32) -> Result<(), AllocError>
    requires count { length shares.old.items ≡ lanes }
    requires some { 1 ≤ lanes }
    ensures count { OnOk result (length shares.new.items ≡ lanes) }
    ensures own { OnOk result ((lane : ℕ) → share_at shares.new.items lane
        ≡ share_at shares.old.items lane ++ changes_in (change ∷ []) lanes lane) }
{
    let lane = lane_of(&change.path, lanes) as usize;
    shares[lane].push(change)?;
    Ok(())
}

/// The changes of each lane, in the order in which they stand: a change is of the lane in which its
/// path lies. There are as many lists as lanes, the one of lane 0 first.
pub fn shares_of(
    alloc: Global,
    changes: Vec<Change>,
    lanes: u32,
) -> Result<Rows<Rows<Change>>, AllocError>
    requires { 1 ≤ lanes }
    ensures count { IfOk result (λ shares. length shares ≡ lanes) }
    ensures own { IfOk result (λ shares. (lane : ℕ) →
        share_at shares lane ≡ changes_in changes.items lanes lane) }
{
    let mut shares = no_shares(alloc, lanes)?;
    for change in changes {
        deal(&mut shares, change, lanes)?;
    }
    Ok(Rows::from_vec(shares))
}
