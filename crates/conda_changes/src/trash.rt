ghost use Rattle.std.specs.Prelude.{◌≡◌, ◌+◌, ◌≤◌, ◌<◌, ◌%◌, ◌++◌, [], ◌∷◌, ℕ, IfOk, List, length, sum};
ghost use Rattle.conda_path.specs.Lanes as lanes;
ghost use Rattle.conda_changes.specs.Counting.{AreCounted, IsFirstFree, IsFreeFor};
ghost use Rattle.conda_changes.specs.Trash.{stride};

use crate::paths::PathSet;
use conda_path::RelPath;
use std::alloc::{AllocError, Global};
use std::collections::BTreeMap;

/// 1 to 16 all divide it, so that the rest of a number says its lane for each count of lanes.
const STRIDE: u64 = 720_720;

/// For each rest, the number from which on no change has one in the trash.
pub type Nexts = BTreeMap<u64, u64>;

/// The sum of the bytes of a path.
fn sum_of(path: &[u8]) -> u64
    requires { length path.now ≤ 1024 }
    ensures { result ≡ sum path.now }
{
    path.iter().map(|byte| u64::from(*byte)).sum()
}

/// The rest that the numbers of a path leave.
fn rest_of(path: &RelPath) -> u64
    ensures rest { result ≡ sum path.now % stride }
    ensures below { result < stride }
{
    sum_of(path.as_str().as_bytes()) % STRIDE
}

/// `conda-meta/.trash/<number>.<k>`.
fn trash_path(alloc: Global, number: u32, k: u64) -> Result<RelPath, AllocError>
    ensures { IfOk result (λ path. path ≡ lanes.trash_path number k) }
{
    let text = format!(in alloc; "conda-meta/.trash/{number}.{k}")?;
    match RelPath::read(alloc, text.as_str()) {
        Ok(path) => Ok(path),
        Err(_) => Err(AllocError),
    }
}

/// A free number's path in the trash, and the next number with its rest.
struct Free {
    path: RelPath,
    next: u64,
}

/// The first number from one on, in strides, that isn't left over. There are more of them than left
/// over paths. A number past 64 bits counts as want of memory.
fn first_free(
    alloc: Global,
    left: &PathSet<'_>,
    number: u32,
    start: u64,
) -> Result<Free, AllocError>
    ensures { IfOk result (λ free. (k : ℕ) × IsFirstFree left.now number start k
        × (free.path ≡ lanes.trash_path number k) × (free.next ≡ k + stride)) }
{
    let mut k = start;
    for _ in 0..=left.len() {
        let path = trash_path(alloc, number, k)?;
        let Some(next) = k.checked_add(STRIDE) else {
            return Err(AllocError);
        };
        if !left.contains(path.as_str()) {
            return Ok(Free { path, next });
        }
        k = next;
    }
    Err(AllocError)
}

/// The next path in the trash, for the old node at a path. Afterwards it is used.
pub fn next_trash(
    alloc: Global,
    left: &PathSet<'_>,
    nexts: &mut Nexts,
    number: u32,
    path: &RelPath,
) -> Result<RelPath, AllocError>
    ensures free { (used : List (List ℕ)) → AreCounted left.now number used nexts.old
        → IfOk result (IsFreeFor left.now number used path.now) }
    ensures counted { (used : List (List ℕ)) → AreCounted left.now number used nexts.old
        → IfOk result (λ trash. AreCounted left.now number (used ++ trash ∷ []) nexts.new) }
{
    let rest = rest_of(path);
    let start = nexts.get(&rest).copied().unwrap_or(rest);
    let Free { path, next } = first_free(alloc, left, number, start)?;
    let _ = nexts.insert(rest, next)?;
    Ok(path)
}
