ghost use Rattle.std.specs.Prelude.{◌≡◌, ◌≤◌, ◌<◌, ◌%◌, ℕ, List, Some, MatchOption, false, true};
ghost use Rattle.std.specs.Prelude.{codes, drop, length, nat_eq, sum, unwrap_or};
ghost use Rattle.std.specs.List.{starts_with};
ghost use Rattle.conda_path.specs.Lanes as lanes_spec;
ghost use Rattle.conda_path.specs.Lanes.{lane_number, IsTrash};

use crate::rel_path::RelPath;
use conda_base::{cut_first, cut_laws, number_laws, read_u64};

/// What stands behind `conda-meta/.trash/`.
fn in_trash(path: &str) -> Option<&str>
    ensures { let in_trash = starts_with nat_eq path.now (codes "conda-meta/.trash/") in
        MatchOption result (in_trash ≡ false)
        (λ rest. (in_trash ≡ true) × (rest.now ≡ drop 18 path.now)) }
{
    path.strip_prefix("conda-meta/.trash/")
}

/// The k of `conda-meta/.trash/<n>.<k>`.
fn trash_number(path: &str) -> Option<u64>
    ensures { result ≡ lanes_spec.trash_number path.now }
{
    let numbers = in_trash(path)?;
    let (first, second) = cut_first(numbers, b'.')?;
    read_u64(first.as_bytes())?;
    read_u64(second.as_bytes())
}

/// Only the paths of the trash have a number: the k of `conda-meta/.trash/<n>.<k>`.
pub fn trash_laws()
    ensures number { (path : List ℕ) (n k : ℕ) →
        IsTrash path n k → lanes_spec.trash_number path ≡ Some k }
    ensures only { (path : List ℕ) (k : ℕ) →
        lanes_spec.trash_number path ≡ Some k → (n : ℕ) × IsTrash path n k }
{
    cut_laws();
    number_laws();
}

/// The sum of the bytes of a path.
fn sum_of(path: &[u8]) -> u64
    requires { length path.now ≤ 1024 }
    ensures { result ≡ sum path.now }
{
    path.iter().map(|byte| u64::from(*byte)).sum()
}

/// The k of a path in the trash, else the sum of the path's bytes.
fn path_number(path: &str) -> u64
    requires { length path.now ≤ 1024 }
    ensures { result ≡ unwrap_or (lanes_spec.trash_number path.now) (sum path.now) }
{
    match trash_number(path) {
        Some(number) => number,
        None => sum_of(path.as_bytes()),
    }
}

/// The lane of a path, of so many: for `conda-meta/.trash/<n>.<k>`, with n and k in decimal below
/// 2^64 without a leading zero, it is `k` modulo `lanes`, else the sum of the path's bytes modulo
/// `lanes`. It takes no memory.
pub fn lane_of(path: &RelPath, lanes: u32) -> u32
    requires { 1 ≤ lanes }
    ensures within { result < lanes }
    ensures trash { (n k : ℕ) → IsTrash path.now n k → result ≡ k % lanes }
    ensures other { ((n k : ℕ) → ¬ IsTrash path.now n k) → result ≡ sum path.now % lanes }
    ensures exact { result ≡ lane_number path.now lanes }
{
    trash_laws();
    let number = path_number(path.as_str());
    (number % u64::from(lanes)) as u32
}
