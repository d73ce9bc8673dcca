ghost use Rattle.std.specs.Prelude.{◌≡◌, ◌+◌, ◌<◌, IfOk, length};
ghost use Rattle.conda_clause.specs.Faults.{place_of};
ghost use Rattle.conda_clause.specs.Kept.{kept};
ghost use Rattle.conda_spec.specs.Good.{stood};

use crate::places::Places;
use conda_base::Text;
use conda_clause::{keep, kept_laws};
use std::alloc::{AllocError, Global};

/// The characters of a text that stay, and where they stood.
#[derive(Debug, Drop)]
pub struct Stayed {
    pub text: Text,
    pub places: Places,
}

/// Drops spaces of a text that begins at a place.
pub fn stay(alloc: Global, at: usize, text: &str) -> Result<Stayed, AllocError>
    requires { at + length text.now < 18446744073709551616 }
    ensures text { IfOk result (λ s. s.text ≡ kept text.now) }
    ensures places { IfOk result (λ s. stood s.places ≡ (λ i. at + place_of text.now i)) }
{
    let kept = keep(alloc, text)?;
    kept_laws();
    Ok(Stayed {
        text: kept.text,
        places: Places {
            at,
            end: text.len(),
            places: kept.places,
        },
    })
}
