ghost use Rattle.std.specs.Prelude.{◌≡◌, ◌↔◌, ℕ, List, IfErr, IfOk, IfSome, OnOk, None, Some};
ghost use Rattle.conda_base.specs.Reads.{Gives};
ghost use Rattle.conda_path.specs.Faults.{path_err_fault, path_read};
ghost use Rattle.conda_path.specs.Paths.{path_fault, IsPathFault, IsRelPath};

use crate::error::PathErr;
use crate::scan::{Bad, first_offence};
use conda_base::{Copied, Text};
use std::alloc::{AllocError, Global};
use std::marker::Model;

/// The most bytes of a path.
const PATH_LIMIT: usize = 1_024;

/// A path below a prefix: 1 to 1,024 bytes; its parts, split at `/`, are neither empty nor `.` nor
/// `..`; no byte is below 32 or 127. This project's own rule.
///
/// Contracts see it as the list of its bytes, by which paths are compared and hashed.
#[derive(Clone, Debug, PartialEq, Eq, PartialOrd, Ord, Hash, Drop)]
pub struct RelPath {
    text: Text,
}

impl Model for RelPath {
    ghost use Rattle.std.specs.Prelude.{◌≡◌, List, ℕ, None};

    ghost Value = { List ℕ };

    ghost use Rattle.conda_path.specs.Paths.{path_fault};

    ghost view = { λ p. p.text };

    ghost inverse = { λ t. record { text = t } };

    ghost invariant = { λ p. path_fault p.text ≡ None };
}

/// The place of the text's fault, where it is no path. It takes no memory.
fn fault_of(text: &str) -> Option<usize>
    ensures { result ≡ path_fault text.now }
{
    match first_offence(Bad::Control, 0, text.as_bytes()) {
        Some(at) => Some(at),
        None if text.len() > PATH_LIMIT => Some(PATH_LIMIT),
        None => None,
    }
}

/// The place that is read of a text is none exactly where the text is a path, and else its fault.
pub fn path_laws()
    ensures rule { (text : List ℕ) → (path_fault text ≡ None) ↔ IsRelPath text }
    ensures place { (text : List ℕ) (at : ℕ) → path_fault text ≡ Some at → IsPathFault text at }
{}

impl RelPath {
    /// Reads a path.
    ///
    /// `BadPath` has the least offset where a bad part begins or a bad byte stands, else 1,024,
    /// the limit that the text is longer than.
    pub fn read(alloc: Global, text: &str) -> Result<RelPath, PathErr>
        ensures same { IfOk result (λ path. path ≡ text.now) }
        ensures read { Gives path_err_fault result (path_read text.now) }
        ensures ok { OnOk result (IsRelPath text.now) }
        ensures bad { IfErr result (λ e. IfSome (path_err_fault e) (IsPathFault text.now)) }
        ensures only { IsRelPath text.now → IfErr result (λ e. e ≡ PathErr.Memory) }
    {
        if let Some(at) = fault_of(text) {
            return Err(PathErr::BadPath { at });
        }
        match Text::from_str(alloc, text) {
            Ok(text) => Ok(RelPath { text }),
            Err(_) => Err(PathErr::Memory),
        }
    }

    /// The path's text.
    pub fn as_str(&self) -> &str
        ensures same { result.now ≡ self.now }
        ensures rule { IsRelPath self.now }
        ensures no_fault { path_fault self.now ≡ None }
    {
        self.text.as_str()
    }
}

impl Copied for RelPath {
    fn copy(&self) -> Result<RelPath, AllocError> {
        self.clone()
    }
}
