ghost use Rattle.std.specs.Prelude.{◌≡◌, [], ◌∷◌, ◌++◌, IfOk, OnErr, OnOk, false, true};
ghost use Rattle.conda_refute.specs.Refutation.{all_follow, clauses_of, follows};

use conda_base::Rows;
use conda_refute::{Clause, Log, Step, step_follows};
use std::alloc::{AllocError, Global};
use std::marker::Model;

/// Clauses, and steps of which each follows from the clauses and the steps before it. Contracts see the log of both.
#[derive(Drop)]
pub struct Ledger {
    log: Log,
}

impl Model for Ledger {
    ghost use Rattle.std.specs.Prelude.{◌≡◌, true};
    ghost use Rattle.conda_refute.specs.Refutation.{all_follow};
    ghost use Rattle.conda_refute.specs.declared.log.Log.{Log};

    ghost Value = { Log };

    ghost view = { λ l. l.log };

    ghost invariant = { λ l. all_follow l.log.inputs l.log.steps ≡ true };
}

impl Ledger {
    /// No steps yet. It takes no memory.
    pub fn new(alloc: Global, clauses: Rows<Clause>) -> Ledger
        ensures inputs { result.inputs ≡ clauses }
        ensures steps { result.steps ≡ [] }
    {
        Ledger {
            log: Log {
                inputs: clauses,
                steps: Rows::new(alloc),
            },
        }
    }

    pub fn log(&self) -> &Log
        ensures same { result.now ≡ self.now }
        ensures rule { all_follow self.now.inputs self.now.steps ≡ true }
    {
        &self.log
    }

    /// The number of the last clause or step.
    pub fn len(&self) -> u64 {
        let inputs = self.log.inputs.as_slice();
        let steps = self.log.steps.as_slice();
        inputs.len() as u64 + steps.len() as u64
    }

    /// Takes up a step if it follows, and answers whether it does.
    pub fn add(&mut self, alloc: Global, step: Step) -> Result<bool, AllocError>
        ensures inputs { self.new.inputs ≡ self.old.inputs }
        ensures taken { IfOk result (λ yes. yes ≡ true → self.new.steps ≡ self.old.steps ++ step ∷ []) }
        ensures refused { IfOk result (λ yes. yes ≡ false → self.new ≡ self.old) }
        ensures err { OnErr result (self.new ≡ self.old) }
    {
        let inputs = self.log.inputs.as_slice();
        let steps = self.log.steps.as_slice();
        if !step_follows(alloc, inputs, steps, &step)? {
            return Ok(false);
        }
        self.log.steps.push(step)?;
        Ok(true)
    }

    /// Takes up a step that follows.
    pub fn put(&mut self, step: Step) -> Result<(), AllocError>
        requires { follows (clauses_of self.old.inputs self.old.steps) step ≡ true }
        ensures inputs { self.new.inputs ≡ self.old.inputs }
        ensures ok { OnOk result (self.new.steps ≡ self.old.steps ++ step ∷ []) }
        ensures err { OnErr result (self.new ≡ self.old) }
    {
        self.log.steps.push(step)?;
        Ok(())
    }
}
