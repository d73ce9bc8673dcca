ghost use Rattle.std.specs.Prelude.{◌≡◌, IfOk, IfSome, Ok};
ghost use Rattle.conda_base.specs.Reads.{Gives};
ghost use Rattle.conda_clause.specs.Faults.{spec_fault_of};
ghost use Rattle.conda_spec.specs.Parts.{IsSpec};
ghost use Rattle.conda_spec.specs.Reading.{spec_read};
ghost use Rattle.conda_version.specs.Text.{trimmed};

use crate::spec::Spec;
use conda_base::{Copied, Text};
use conda_clause::SpecErr;
use std::alloc::{AllocError, Global};
use std::collections::HashMap;

// A text, and the specification that it is read as.
#[derive(Drop)]
struct Reading {
    text: Text,
    spec: Spec,
    ghost fact: { spec_read (trimmed text) ≡ Ok spec },
}

impl Reading {
    // The specification, if the text is this one.
    fn of(&self, text: &str) -> Result<Option<Spec>, AllocError>
        ensures { IfOk result (λ found. IfSome found (λ s. spec_read (trimmed text.now) ≡ Ok s)) }
    {
        if self.text.as_str() == text {
            let spec = self.spec.copy()?;
            return Ok(Some(spec));
        }
        Ok(None)
    }
}

/// The specifications that were read so far by their texts: equal texts share one specification.
#[derive(Drop)]
pub struct SpecTable {
    readings: HashMap<String, Reading>,
}

impl SpecTable {
    /// No specification yet.
    pub fn new(alloc: Global) -> SpecTable {
        SpecTable {
            readings: HashMap::new(alloc),
        }
    }

    // The specification of a text that was read before.
    fn found(&self, text: &str) -> Result<Option<Spec>, AllocError>
        ensures { IfOk result (λ found. IfSome found (λ s. spec_read (trimmed text.now) ≡ Ok s)) }
    {
        match self.readings.get(text) {
            Some(reading) => reading.of(text),
            None => Ok(None),
        }
    }

    /// Reads a specification as [`Spec::read`] does. Of a text that was read before it is a copy.
    pub fn read(&mut self, alloc: Global, text: &str) -> Result<Spec, SpecErr>
        ensures read { Gives spec_fault_of result (spec_read (trimmed text.now)) }
        ensures good { IfOk result IsSpec }
    {
        if let Some(spec) = self.found(text)? {
            return Ok(spec);
        }
        let spec = Spec::read(alloc, text)?;
        let reading = Reading {
            text: Text::from_str(alloc, text)?,
            spec: spec.copy()?,
        };
        self.readings
            .insert(String::from_str(alloc, text)?, reading)?;
        Ok(spec)
    }
}
