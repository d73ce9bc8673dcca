ghost use Rattle.std.specs.Prelude.{◌≡◌, ◌↔◌, IfErr, IfOk, IfSome, OnOk, None, true};
ghost use Rattle.conda_base.specs.Reads.{Gives};
ghost use Rattle.conda_path.specs.Faults.{path_err_fault, prefix_read};
ghost use Rattle.conda_path.specs.Paths.{IsInside, IsPrefix, IsPrefixFault};
ghost use Rattle.conda_path.specs.Paths.{is_inside, leads_below, prefix_fault};

use crate::error::PathErr;
use crate::scan::{Bad, first_offence};
use conda_base::{Copied, Text};
use std::alloc::{AllocError, Global};
use std::marker::Model;

/// The most bytes of a prefix.
const PREFIX_LIMIT: usize = 512;

/// A prefix, the folder of an environment: `/` and a path of at most 511 bytes without space.
/// This project's own rule.
///
/// Contracts see it as the list of its bytes, by which prefixes are compared and hashed.
#[derive(Clone, Debug, PartialEq, Eq, PartialOrd, Ord, Hash, Drop)]
pub struct Prefix {
    text: Text,
}

impl Model for Prefix {
    ghost use Rattle.std.specs.Prelude.{◌≡◌, List, ℕ, None};

    ghost Value = { List ℕ };

    ghost use Rattle.conda_path.specs.Paths.{prefix_fault};

    ghost view = { λ p. p.text };

    ghost inverse = { λ t. record { text = t } };

    ghost invariant = { λ p. prefix_fault p.text ≡ None };
}

/// The place of the text's fault, where it is no prefix. It takes no memory.
fn fault_of(text: &str) -> Option<usize>
    ensures { result ≡ prefix_fault text.now }
{
    match text.as_bytes() {
        [b'/', path @ ..] => match first_offence(Bad::ControlOrSpace, 1, path) {
            Some(at) => Some(at),
            None if text.len() > PREFIX_LIMIT => Some(PREFIX_LIMIT),
            None => None,
        },
        _ => Some(0),
    }
}

/// Whether nothing is left of a path, or a slash and what is below. It takes no memory.
fn leads_below(rest: &[u8]) -> bool
    ensures { result ≡ leads_below rest.now }
{
    match rest {
        [] => true,
        [b, ..] => *b == b'/',
    }
}

/// Whether one text is another, or that one with a slash and more behind it. It takes no memory.
fn text_inside(text: &[u8], other: &[u8]) -> bool
    ensures { result ≡ is_inside text.now other.now }
{
    match text.strip_prefix(other) {
        Some(rest) => leads_below(rest),
        None => false,
    }
}

impl Prefix {
    /// Reads a prefix.
    ///
    /// `BadPath` has 0 where the text doesn't begin with `/`, else the least offset behind it
    /// where a bad part begins or a bad byte stands, else 512, the limit that the text is longer
    /// than.
    pub fn read(alloc: Global, text: &str) -> Result<Prefix, PathErr>
        ensures same { IfOk result (λ prefix. prefix ≡ text.now) }
        ensures read { Gives path_err_fault result (prefix_read text.now) }
        ensures ok { OnOk result (IsPrefix text.now) }
        ensures bad { IfErr result (λ e. IfSome (path_err_fault e) (IsPrefixFault text.now)) }
        ensures only { IsPrefix text.now → IfErr result (λ e. e ≡ PathErr.Memory) }
    {
        if let Some(at) = fault_of(text) {
            return Err(PathErr::BadPath { at });
        }
        match Text::from_str(alloc, text) {
            Ok(text) => Ok(Prefix { text }),
            Err(_) => Err(PathErr::Memory),
        }
    }

    /// The prefix's text.
    pub fn as_str(&self) -> &str
        ensures same { result.now ≡ self.now }
        ensures rule { IsPrefix self.now }
        ensures no_fault { prefix_fault self.now ≡ None }
    {
        self.text.as_str()
    }

    #[tactic(auto, using(crate::proofs::InsideLemmas::inside_rule))]
    /// Whether the prefix is the other one or lies below it. `/ab` isn't inside `/a`. It takes no
    /// memory.
    pub fn inside(&self, other: &Prefix) -> bool
        ensures rule { (result ≡ true) ↔ IsInside self.now other.now }
        ensures exact { result ≡ is_inside self.now other.now }
    {
        text_inside(self.as_str().as_bytes(), other.as_str().as_bytes())
    }
}

impl Copied for Prefix {
    fn copy(&self) -> Result<Prefix, AllocError> {
        self.clone()
    }
}
