ghost use Rattle.std.specs.Prelude.{◌≡◌, IfOk};
ghost use Rattle.std.specs.List.{list_any};
ghost use Rattle.conda_base.specs.Signs.{star};
ghost use Rattle.conda_base.specs.Texts.{is_byte};
ghost use Rattle.conda_version.specs.Text.{trimmed};
ghost use Rattle.conda_base.specs.Reads.{Gives};
ghost use Rattle.conda_clause.specs.Faults.{spec_fault_of};
ghost use Rattle.conda_spec.specs.Parts.{IsSpec};
ghost use Rattle.conda_spec.specs.Reading.{spec_read};

use crate::held::Held;
use crate::read::read;
use conda_base::Copied;
use conda_clause::SpecErr;
use conda_version::trimmed;
use std::alloc::{AllocError, Global};
use std::marker::Model;
use std::sync::Arc;

/// A match specification, whose copies share its parts. Contracts see it as these.
#[derive(Debug, Drop)]
pub struct Spec {
    pub(crate) held: Arc<Held, Global>,
}

impl Model for Spec {
    ghost use Rattle.std.specs.Arc.{arc_value};
    ghost use Rattle.conda_spec.specs.Parts.{IsSpec, Parts, coded_parts};

    ghost Value = { Parts };

    ghost coded = { coded_parts };

    ghost view = { λ s. arc_value s.held };

    ghost invariant = { λ s. IsSpec (arc_value s.held) };
}

impl Clone for Spec {
    ghost use Rattle.std.specs.Prelude.{◌≡◌};

    ghost is_clone = { λ spec made. made ≡ spec };

    fn clone(&self) -> Result<Spec, AllocError> {
        let held = Arc::try_clone(&self.held)?;
        Ok(Spec { held })
    }
}

impl Copied for Spec {
    fn copy(&self) -> Result<Spec, AllocError> {
        self.clone()
    }
}

impl Spec {
    /// Reads a specification, `[channel[/subdir]::]name[version[build]][[key=value,..]]`. Spaces at both ends are dropped.
    ///
    /// Fails with the first fault from left to right, with its place in the text without the spaces at its ends, and where
    /// memory runs out.
    pub fn read(alloc: Global, text: &str) -> Result<Spec, SpecErr>
        ensures read { Gives spec_fault_of result (spec_read (trimmed text.now)) }
        ensures good { IfOk result IsSpec }
    {
        read(alloc, trimmed(text))
    }

    /// Whether the name holds a star, which stands for any characters.
    pub fn has_glob(&self) -> bool
        ensures { result ≡ list_any (is_byte star) self.now.name }
    {
        self.held.name.as_str().as_bytes().contains(&b'*')
    }

    /// The name, in lower case.
    pub fn name(&self) -> &str
        ensures { result.now ≡ self.now.name }
    {
        self.held.name.as_str()
    }
}
