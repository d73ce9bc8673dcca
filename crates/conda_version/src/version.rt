ghost use Rattle.std.specs.Prelude.{◌≡◌, None};
ghost use Rattle.std.specs.Ordering.{is_le, ordering_reverse};
ghost use Rattle.std.specs.declared.cmp.Ordering.TheVariants.{Equal};
ghost use Rattle.conda_base.specs.Reads.{Gives};
ghost use Rattle.conda_version.specs.Grammar.{offence, version_fault_of, version_read};
ghost use Rattle.conda_version.specs.Order.{version_cmp, version_starts};
ghost use Rattle.conda_version.specs.Text.{trimmed};

use crate::build::parts_of;
use crate::components::Components;
use crate::error::VersionErr;
use crate::text::{plain, trimmed};
use conda_base::{Copied, Text};
use std::alloc::{AllocError, Global};
use std::cmp::Ordering;
use std::marker::Model;

/// A version. Contracts see it as its text, which has no spaces at its ends and keeps its case.
#[derive(Clone, Debug, Drop)]
pub struct Version {
    text: Text,
    main: Components,
    local: Components,
}

impl Model for Version {
    ghost use Rattle.std.specs.Prelude.{◌≡◌, List, None, ℕ};
    ghost use Rattle.conda_version.specs.Grammar.{meaning, offence};
    ghost use Rattle.conda_version.specs.Order.{epoch_and_main};
    ghost use Rattle.conda_version.specs.Text.{trimmed};

    ghost Value = { List ℕ };

    ghost view = { λ v. v.text };

    ghost inverse = { λ text. record { text = text; main = epoch_and_main (meaning text); local = (meaning text).local } };

    ghost invariant = { λ v. (offence v.text ≡ None) × (trimmed v.text ≡ v.text) × (v.main ≡ epoch_and_main (meaning v.text)) × (v.local ≡ (meaning v.text).local) };
}

impl Version {
    /// Reads a version: an epoch before `!`, a main part, and a local part behind `+`, each of components
    /// that `.`, `_` or `-` part. Spaces at both ends are dropped.
    ///
    /// Fails with the first fault in the order of [`VersionWhy`](crate::VersionWhy), and where memory runs out.
    pub fn read(alloc: Global, text: &str) -> Result<Version, VersionErr>
        ensures { Gives version_fault_of result (version_read text.now) }
    {
        let text = trimmed(text);
        let plain = plain(alloc, text.as_bytes())?;
        let parts = parts_of(alloc, plain.as_slice())?;
        let text = Text::from_str(alloc, text)?;
        Ok(Version {
            text,
            main: parts.main,
            local: parts.local,
        })
    }

    /// The order of versions: epoch, main part and local part, each by its components, these by their runs,
    /// with the number 0 for a missing run. It takes no memory. Equal versions may have other texts: `1.0` and `1`.
    pub fn compare(&self, other: &Version) -> Ordering
        ensures { result ≡ version_cmp self.now other.now }
    {
        let order = self.main.compare(&other.main);
        if order.is_ne() {
            return order;
        }
        self.local.compare(&other.local)
    }

    /// Whether the version starts with another: `1.2.0` and `1.2a` start with `1.2`, `1.20` does not.
    /// It takes no memory.
    pub fn starts_with(&self, other: &Version) -> bool
        ensures { result ≡ version_starts self.now other.now }
    {
        if other.local.len() == 0 {
            return self.main.starts_with(&other.main);
        }
        self.main.compare(&other.main).is_eq() && self.local.starts_with(&other.local)
    }

    /// The text that was read, without the spaces at its ends.
    pub fn text(&self) -> &str
        ensures text { result.now ≡ self.now }
        ensures good { offence result.now ≡ None }
        ensures bare { trimmed result.now ≡ result.now }
    {
        self.text.as_str()
    }
}

impl Copied for Version {
    fn copy(&self) -> Result<Version, AllocError> {
        self.clone()
    }
}

// Two versions are one value where their texts are one; `compare` finds more versions equal.
impl PartialEq for Version {
    ghost use Rattle.std.specs.Prelude.{nat_eq};
    ghost use Rattle.std.specs.Cmp.{partial_equiv_from_equiv};
    ghost use Rattle.std.specs.Cmp.Lexicographic.{nat_list_eq_equiv, pointwise};

    ghost eq = { pointwise nat_eq };

    ghost laws = { partial_equiv_from_equiv nat_list_eq_equiv };

    fn eq(&self, other: &Version) -> bool {
        self.text == other.text
    }
}

impl Eq for Version {
    ghost use Rattle.std.specs.Cmp.Lexicographic.{nat_list_eq_equiv};

    ghost laws = { nat_list_eq_equiv };
}
