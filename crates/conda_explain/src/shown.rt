ghost use Rattle.std.specs.Prelude.{◌≡◌, IfOk, map};
ghost use Rattle.std.specs.List.{zip};
ghost use Rattle.conda_explain.specs.Shown.{shown};

use crate::used::{literals_of, used};
use conda_base::{Copied, Rows};
use conda_encode::{Encoded, Why};
use conda_refute::{Clause, Log};
use indexmap::IndexSet;
use std::alloc::{AllocError, Global};

/// The clauses of a request that a log uses.
#[derive(Drop)]
pub struct Shown<'a> {
    /// Why each is there.
    pub whys: Vec<&'a Why>,
    pub clauses: Rows<Clause>,
    /// The literals of each, in the order of the clauses.
    pub places: IndexSet<Vec<i32>>,
}

/// The clauses that the log uses, each once and with its first reason.
pub fn show<'a>(alloc: Global, encoded: &'a Encoded, log: &Log) -> Result<Shown<'a>, AllocError>
    ensures whys { IfOk result (λ made. map (λ w. w.now) made.whys.items
        ≡ map (λ r. r.0) (shown (zip encoded.now.whys encoded.now.clauses) log.now)) }
    ensures clauses { IfOk result (λ made. made.clauses
        ≡ map (λ r. r.1) (shown (zip encoded.now.whys encoded.now.clauses) log.now)) }
    ensures places { IfOk result (λ made. map (λ k. k.items) made.places.keys ≡ made.clauses) }
{
    let used = used(alloc, log)?;
    let mut whys = Vec::new(alloc);
    let mut clauses = Rows::new(alloc);
    let mut places = IndexSet::new(alloc);
    let reasons = encoded.whys.as_slice();
    let given = encoded.clauses.as_slice();
    for (why, clause) in reasons.iter().zip(given) {
        let literals = literals_of(alloc, clause)?;
        if used.contains(&literals) && !places.contains(&literals) {
            places.insert(literals)?;
            clauses.push(clause.copy()?)?;
            whys.push(why)?;
        }
    }
    Ok(Shown {
        whys,
        clauses,
        places,
    })
}
