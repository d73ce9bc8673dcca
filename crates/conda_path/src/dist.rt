ghost use Rattle.std.specs.Prelude.{◌≡◌, ◌↔◌, ℕ, List, IfOk, IsErrOf, OnOk, false, true};
ghost use Rattle.std.specs.List.{after_last, before_last, list_any};
ghost use Rattle.conda_base.specs.Signs.{dash};
ghost use Rattle.conda_base.specs.Texts.{is_byte};
ghost use Rattle.conda_path.specs.Dists as dists;
ghost use Rattle.conda_path.specs.Dists.{dist_build, dist_name, dist_text, dist_version};
ghost use Rattle.conda_path.specs.Dists.{IsDist, IsSplit};

use crate::error::DistErr;
use crate::file::cut_ending;
use crate::scan::{self, Bad};
use conda_base::{Copied, Text, cut_last, cut_laws};
use std::alloc::{AllocError, Global};
use std::marker::Model;

/// The most bytes of a dist.
const DIST_LIMIT: usize = 255;

/// A package's name, version and build in one text, `name-version-build`, split at the last two
/// `-`.
///
/// None of the three is empty. No byte is `/`, `:`, below 33 or 127. The text begins with none of
/// `+`, `-`, `#` and `=`, ends with neither `.tar.bz2` nor `.conda`, and has at most 255 bytes.
/// The split is that of conda's `dist.py`; the rest is this project's own rule.
///
/// Contracts see it as the list of its bytes, by which dists are compared and hashed.
#[derive(Clone, Debug, PartialEq, Eq, PartialOrd, Ord, Hash, Drop)]
pub struct Dist {
    text: Text,
}

impl Model for Dist {
    ghost use Rattle.std.specs.Prelude.{◌≡◌, List, ℕ, true};

    ghost Value = { List ℕ };

    ghost use Rattle.conda_path.specs.Dists.{is_dist};

    ghost view = { λ d. d.text };

    ghost inverse = { λ t. record { text = t } };

    ghost invariant = { λ d. is_dist d.text ≡ true };
}

/// Whether a byte is one that no dist holds.
fn is_bad_byte(byte: u8) -> bool
    ensures { result ≡ dists.is_bad_byte byte }
{
    scan::is_bad_byte(Bad::ControlOrSpace, byte) || byte == b'/' || byte == b':'
}

/// Whether the text begins with a byte that no dist begins with.
fn begins_badly(text: &[u8]) -> bool
    ensures { result ≡ dists.begins_badly text.now }
{
    match text {
        [] => false,
        [b, ..] => *b == b'+' || *b == b'-' || *b == b'#' || *b == b'=',
    }
}

/// What stands before the last `-` and behind it; nothing and the whole text, where there is none.
fn cut(text: &str) -> (&str, &str)
    ensures before { result.0.now ≡ before_last (is_byte dash) text.now }
    ensures behind { result.1.now ≡ after_last (is_byte dash) text.now }
{
    cut_laws();
    match cut_last(text, b'-') {
        Some(halves) => halves,
        None => ("", text),
    }
}

/// Whether the text has a name, a version and a build.
fn has_parts(text: &str) -> bool
    ensures { result ≡ dists.has_parts text.now }
{
    let (front, build) = cut(text);
    let (name, version) = cut(front);
    !name.is_empty() && !version.is_empty() && !build.is_empty()
}

/// Whether the text is that of a package file.
fn names_file(text: &str) -> bool
    ensures { result ≡ dists.names_file text.now }
{
    cut_ending(text).is_some()
}

/// Whether a byte of the text is one that no dist holds.
fn holds_bad_byte(text: &[u8]) -> bool
    ensures { result ≡ list_any dists.is_bad_byte text.now }
{
    text.iter().any(|byte| is_bad_byte(*byte))
}

/// Whether the text is a dist.
fn is_dist(text: &str) -> bool
    ensures { result ≡ dists.is_dist text.now }
{
    let bytes = text.as_bytes();
    if bytes.len() > DIST_LIMIT {
        return false;
    }
    if begins_badly(bytes) {
        return false;
    }
    if holds_bad_byte(bytes) {
        return false;
    }
    if names_file(text) {
        return false;
    }
    has_parts(text)
}

/// The test of a dist is its rule: a name, a version and a build in one text, which are found
/// again.
pub fn dist_laws()
    ensures rule { (text : List ℕ) → (dists.is_dist text ≡ true) ↔ IsDist text }
    ensures split { (text : List ℕ) → dists.is_dist text ≡ true →
        text ≡ dist_text (dist_name text) (dist_version text) (dist_build text) }
    ensures parts { (text name version build : List ℕ) → IsSplit text name version build →
        (dist_name text ≡ name) × (dist_version text ≡ version) × (dist_build text ≡ build) }
{
    cut_laws();
}

impl Dist {
    /// Reads a dist.
    pub fn read(alloc: Global, text: &str) -> Result<Dist, DistErr>
        ensures same { IfOk result (λ dist. dist ≡ text.now) }
        ensures ok { OnOk result (IsDist text.now) }
        ensures bad { IsErrOf result DistErr.BadDist → ¬ IsDist text.now }
        ensures exact { OnOk result (dists.is_dist text.now ≡ true) }
        ensures exact_bad { IsErrOf result DistErr.BadDist → dists.is_dist text.now ≡ false }
    {
        dist_laws();
        if !is_dist(text) {
            return Err(DistErr::BadDist);
        }
        match Text::from_str(alloc, text) {
            Ok(text) => Ok(Dist { text }),
            Err(_) => Err(DistErr::Memory),
        }
    }

    /// The dist's text.
    pub fn text(&self) -> &str
        ensures same { result.now ≡ self.now }
        ensures rule { IsDist self.now }
        ensures holds { dists.is_dist self.now ≡ true }
    {
        dist_laws();
        self.text.as_str()
    }

    /// The name: what stands before the last two `-`. It takes no memory.
    pub fn name(&self) -> &str
        ensures name { result.now ≡ dist_name self.now }
        ensures split { self.now
            ≡ dist_text (dist_name self.now) (dist_version self.now) (dist_build self.now) }
    {
        dist_laws();
        let (front, _) = cut(self.text.as_str());
        let (name, _) = cut(front);
        name
    }

    /// The version: what stands between the last two `-`. It takes no memory.
    pub fn version(&self) -> &str
        ensures version { result.now ≡ dist_version self.now }
        ensures split { self.now
            ≡ dist_text (dist_name self.now) (dist_version self.now) (dist_build self.now) }
    {
        dist_laws();
        let (front, _) = cut(self.text.as_str());
        let (_, version) = cut(front);
        version
    }

    /// The build: what stands behind the last `-`. It takes no memory.
    pub fn build(&self) -> &str
        ensures build { result.now ≡ dist_build self.now }
        ensures split { self.now
            ≡ dist_text (dist_name self.now) (dist_version self.now) (dist_build self.now) }
    {
        dist_laws();
        let (_, build) = cut(self.text.as_str());
        build
    }
}

impl Copied for Dist {
    fn copy(&self) -> Result<Dist, AllocError> {
        self.clone()
    }
}
