ghost use Rattle.std.specs.Prelude.{◌≡◌, [], ◌∷◌, ◌++◌, OnOk, map};

use crate::encoded::Why;
use conda_base::Rows;
use conda_refute::Clause;
use std::alloc::{AllocError, Global};
use std::marker::Model;

/// Clauses, each with the reason for it. Contracts see the pairs.
#[derive(Drop)]
pub struct Written {
    whys: Vec<Why>,
    clauses: Vec<Clause>,
}

impl Model for Written {
    ghost use Rattle.std.specs.Prelude.{◌≡◌, List, length};
    ghost use Rattle.std.specs.List.{zip};
    ghost use Rattle.conda_encode.specs.Clauses.{Reason};

    ghost Value = { List Reason };

    ghost view = { λ w. zip w.whys.items w.clauses.items };

    ghost invariant = { λ w. length w.whys.items ≡ length w.clauses.items };
}

impl Written {
    pub fn new(alloc: Global) -> Written
        ensures { result ≡ [] }
    {
        Written {
            whys: Vec::new(alloc),
            clauses: Vec::new(alloc),
        }
    }

    #[tactic(auto, using(crate::proofs::Zips::zip_push))]
    pub fn push(&mut self, why: Why, clause: Clause) -> Result<(), AllocError>
        ensures { OnOk result (self.new ≡ self.old ++ (why, clause) ∷ []) }
    {
        self.whys.push(why)?;
        match self.clauses.push(clause) {
            Ok(()) => Ok(()),
            Err(_) => {
                let _ = self.whys.pop();
                Err(AllocError)
            }
        }
    }

    #[tactic(auto, using(crate::proofs::Zips::zip_left, crate::proofs::Zips::zip_right))]
    /// The reasons and the clauses. It takes no memory.
    pub fn into_parts(self) -> (Rows<Why>, Rows<Clause>)
        ensures whys { result.0 ≡ map (λ r. r.0) self }
        ensures clauses { result.1 ≡ map (λ r. r.1) self }
    {
        let Written { whys, clauses } = self;
        (Rows::from_vec(whys), Rows::from_vec(clauses))
    }
}
