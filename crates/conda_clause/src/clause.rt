ghost use Rattle.std.specs.Prelude.{◌≡◌, ◌++◌, IfOk, None, codes, map, slice_get, unwrap_or};
ghost use Rattle.std.specs.Char.{to_ascii_lowercase};
ghost use Rattle.conda_clause.specs.Clause.{beside_build, clause_fault, is_single, tokens_beside_build};
ghost use Rattle.conda_clause.specs.Pieces as pieces;
ghost use Rattle.conda_base.specs.Reads.{Gives};
ghost use Rattle.conda_clause.specs.Faults.{clause_read, kept_read, spec_fault_of};
ghost use Rattle.conda_clause.specs.Truth.{clause_holds};

use crate::error::SpecErr;
use crate::kept::keep;
use crate::reading::read_tokens;
use crate::test::{Sign, Test, sign_of};
use crate::token::Token;
use crate::truth::tokens_true;
use conda_base::{Copied, Rows, Text};
use conda_version::{Version, grammar_laws, trimmed};
use std::alloc::{AllocError, Global};
use std::marker::Model;

/// A version clause: tests joined by `,` (and) and `|` (or), with parentheses. Contracts see it as
/// its text, in lower case and without the spaces that are dropped.
#[derive(Clone, Debug, Drop)]
pub struct VersionClause {
    text: Text,
    tokens: Rows<Token>,
}

impl Model for VersionClause {
    ghost use Rattle.std.specs.Prelude.{◌≡◌, List, None, map, ℕ};
    ghost use Rattle.std.specs.Char.{to_ascii_lowercase};
    ghost use Rattle.conda_clause.specs.Clause.{clause_fault};
    ghost use Rattle.conda_clause.specs.Pieces as pieces;

    ghost Value = { List ℕ };

    ghost view = { λ c. c.text };

    ghost inverse = { λ text. record { text = text; tokens = pieces.tokens text } };

    ghost invariant = { λ c.
        (clause_fault c.text ≡ None) × (map to_ascii_lowercase c.text ≡ c.text)
        × (c.tokens ≡ pieces.tokens c.text) };
}

impl VersionClause {
    /// Reads a version clause. Spaces at both ends are dropped, and places speak of the text
    /// without these.
    pub fn read(alloc: Global, text: &str) -> Result<VersionClause, SpecErr>
        ensures { Gives spec_fault_of result (clause_read text.now) }
    {
        let text = trimmed(text);
        let kept = keep(alloc, text)?;
        match VersionClause::of_kept(alloc, kept.text.as_str()) {
            Ok(clause) => Ok(clause),
            Err(SpecErr::Memory) => Err(SpecErr::Memory),
            Err(SpecErr::BadSpec { at, why }) => {
                let at = place_of(kept.places.as_slice(), at, text.len());
                Err(SpecErr::BadSpec { at, why })
            }
        }
    }

    /// Reads a version clause from characters of which no space is to be dropped. Places speak of
    /// these.
    pub fn of_kept(alloc: Global, kept: &str) -> Result<VersionClause, SpecErr>
        ensures { Gives spec_fault_of result (kept_read kept.now) }
    {
        let text = Text::from_string(kept.to_ascii_lowercase(alloc)?);
        let mut tokens = Vec::new(alloc);
        match read_tokens(alloc, text.as_str().as_bytes(), &mut tokens)? {
            None => Ok(VersionClause {
                text,
                tokens: Rows::from_vec(tokens),
            }),
            Some((at, why)) => Err(SpecErr::BadSpec { at, why }),
        }
    }

    /// The clause `*`, which holds for every version.
    pub fn any(alloc: Global) -> Result<VersionClause, AllocError>
        ensures { IfOk result (λ c. c ≡ codes "*") }
    {
        let text = Text::from_str(alloc, "*")?;
        let mut tokens = Vec::new(alloc);
        tokens.push(Token::Test(Test::Any))?;
        Ok(VersionClause {
            text,
            tokens: Rows::from_vec(tokens),
        })
    }

    /// Whether it holds for a version. It takes no memory.
    pub fn holds(&self, version: &Version) -> bool
        ensures { result ≡ clause_holds self.now version.now }
    {
        tokens_true(version, self.tokens.as_slice())
    }

    /// The clause as it is written where a build follows: the one test `=v`, `=v*` or `=v.*` as
    /// `v.*`, and `=*` as `*`.
    pub fn beside_build(&self, alloc: Global) -> Result<VersionClause, AllocError>
        ensures value { IfOk result (λ c. c ≡ beside_build self.now) }
        ensures good { IfOk result (λ c. clause_fault c ≡ None) }
        ensures fixed { IfOk result (λ c. beside_build c ≡ c) }
        ensures lowered { IfOk result (λ c. map to_ascii_lowercase c ≡ c) }
    {
        grammar_laws();
        let text = beside_text(alloc, &self.text, self.tokens.as_slice())?;
        let tokens = self.tokens.copy()?;
        Ok(VersionClause { text, tokens })
    }

    /// The clause's text.
    pub fn text(&self) -> &str
        ensures text { result.now ≡ self.now }
        ensures good { clause_fault result.now ≡ None }
        ensures lowered { map to_ascii_lowercase result.now ≡ result.now }
    {
        self.text.as_str()
    }
}

impl Copied for VersionClause {
    fn copy(&self) -> Result<VersionClause, AllocError> {
        self.clone()
    }
}

fn is_single(sign: Sign) -> bool
    ensures { result ≡ is_single sign }
{
    matches!(sign, Sign::Single)
}

fn tokens_beside_build(alloc: Global, text: &Text, tokens: &[Token]) -> Result<Text, AllocError>
    ensures { IfOk result (λ t. t ≡ tokens_beside_build text.now tokens.now) }
{
    match tokens {
        [Token::Test(Test::Starts(v))] => with_star(alloc, v),
        [Token::Test(Test::Any)] => Text::from_str(alloc, "*"),
        _ => text.copy(),
    }
}

fn with_star(alloc: Global, v: &Version) -> Result<Text, AllocError>
    ensures { IfOk result (λ t. t ≡ v.now ++ codes ".*") }
{
    let mut text = String::from_str(alloc, v.text())?;
    text.push_str(".*")?;
    Ok(Text::from_string(text))
}

// The text beside a build of a clause of these tokens.
fn beside_text(alloc: Global, text: &Text, tokens: &[Token]) -> Result<Text, AllocError>
    requires { tokens.now ≡ pieces.tokens text.now }
    ensures { IfOk result (λ t. t ≡ beside_build text.now) }
{
    if is_single(sign_of(text.as_str().as_bytes())) {
        tokens_beside_build(alloc, text, tokens)
    } else {
        text.copy()
    }
}

// Where the byte stood that stands at a place now.
fn place_of(places: &[usize], at: usize, end: usize) -> usize
    ensures { result ≡ unwrap_or (slice_get places.now at) end }
{
    match places.get(at) {
        Some(place) => *place,
        None => end,
    }
}
