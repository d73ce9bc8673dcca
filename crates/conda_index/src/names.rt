ghost use Rattle.std.specs.Prelude.{◌≡◌, IfOk};
ghost use Rattle.std.specs.Cmp.Lexicographic.{slice_cmp};
ghost use Rattle.std.specs.Ordering.{nat_cmp};
ghost use Rattle.conda_encode.specs.Matching as matching;
ghost use Rattle.conda_index.specs.Names as names;

use conda_base::Text;
use std::alloc::{AllocError, Global};
use std::cmp::Ordering;

/// The name in lower case.
pub fn lowered(alloc: Global, name: &str) -> Result<Text, AllocError>
    ensures { IfOk result (λ text. text ≡ matching.lowered name.now) }
{
    Ok(Text::from_string(name.to_ascii_lowercase(alloc)?))
}

#[tactic(auto, using(crate::proofs::NameLemmas::begins_alike))]
/// Whether virtual packages have such a name.
pub fn is_virtual_name(name: &str) -> bool
    ensures { result ≡ names.is_virtual_name name.now }
{
    name.as_bytes().starts_with(b"__")
}

/// The order of two names, compared in lower case. It takes no memory.
pub fn compare_names(first: &str, second: &str) -> Ordering
    ensures { result ≡ slice_cmp nat_cmp (matching.lowered first.now) (matching.lowered second.now) }
{
    let left = first.as_bytes();
    let right = second.as_bytes();
    for at in 0..left.len().min(right.len()) {
        let order = left[at]
            .to_ascii_lowercase()
            .cmp(&right[at].to_ascii_lowercase());
        if order.is_ne() {
            return order;
        }
    }
    left.len().cmp(&right.len())
}
