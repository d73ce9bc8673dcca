ghost use Rattle.std.specs.Prelude.{◌≡◌, IfErr, IfOk, Ok, OnOk, string_bytes};
ghost use Rattle.conda_version.specs.Text.{trimmed};
ghost use Rattle.conda_clause.specs.declared.error.SpecErr.TheVariants.{Memory};
ghost use Rattle.conda_spec.specs.Parts.{IsSpec};
ghost use Rattle.conda_spec.specs.Reading.{spec_read};
ghost use Rattle.conda_spec.specs.Text.{brackets_text, channel_text, spec_text, word_text};

use crate::laws::normal_form_law;
use crate::spec::Spec;
use conda_base::Text;
use conda_clause::{SpecErr, VersionClause};
use std::alloc::{AllocError, Global};

impl Spec {
    /// The normal form: `[channel::]name[ version[ build]]`, and behind it in brackets the build number and the subdir
    /// where these are given. [`Spec::read`] makes the same specification of it.
    pub fn text(&self, alloc: Global) -> Result<String, SpecErr>
        ensures text { IfOk result (λ t. string_bytes t ≡ spec_text self.now) }
        ensures again { IfOk result (λ t. spec_read (trimmed (string_bytes t)) ≡ Ok self.now) }
        ensures bad { IfErr result (λ e. e ≡ Memory) }
    {
        normal_form_law();
        Ok(self.normal_form(alloc)?)
    }

    fn normal_form(&self, alloc: Global) -> Result<String, AllocError>
        ensures text { IfOk result (λ t. string_bytes t ≡ spec_text self.now) }
        ensures good { OnOk result (IsSpec self.now) }
    {
        let parts = &*self.held;
        let channel = channel_text(alloc, &parts.channel)?;
        let version = version_text(alloc, &parts.version)?;
        let build = word_text(alloc, &parts.build)?;
        let brackets = brackets_text(alloc, parts.number, &parts.subdir)?;
        let channel = channel.as_str();
        let name = parts.name.as_str();
        let version = version.as_str();
        let build = build.as_str();
        let brackets = brackets.as_str();
        format!(in alloc; "{channel}{name}{version}{build}{brackets}")
    }
}

fn channel_text(alloc: Global, part: &Option<Text>) -> Result<String, AllocError>
    ensures { IfOk result (λ t. string_bytes t ≡ channel_text part.now) }
{
    match part {
        Some(text) => {
            let channel = text.as_str();
            format!(in alloc; "{channel}::")
        }
        None => Ok(String::new(alloc)),
    }
}

fn word_text(alloc: Global, part: &Option<Text>) -> Result<String, AllocError>
    ensures { IfOk result (λ t. string_bytes t ≡ word_text part.now) }
{
    match part {
        Some(text) => {
            let word = text.as_str();
            format!(in alloc; " {word}")
        }
        None => Ok(String::new(alloc)),
    }
}

fn version_text(alloc: Global, part: &Option<VersionClause>) -> Result<String, AllocError>
    ensures { IfOk result (λ t. string_bytes t ≡ word_text part.now) }
{
    match part {
        Some(clause) => {
            let word = clause.text();
            format!(in alloc; " {word}")
        }
        None => Ok(String::new(alloc)),
    }
}

fn brackets_text(
    alloc: Global,
    number: Option<u64>,
    subdir: &Option<Text>,
) -> Result<String, AllocError>
    ensures { IfOk result (λ t. string_bytes t ≡ brackets_text number subdir.now) }
{
    match (number, subdir) {
        (None, None) => Ok(String::new(alloc)),
        (Some(number), None) => format!(in alloc; "[build_number={number}]"),
        (None, Some(subdir)) => {
            let subdir = subdir.as_str();
            format!(in alloc; "[subdir={subdir}]")
        }
        (Some(number), Some(subdir)) => {
            let subdir = subdir.as_str();
            format!(in alloc; "[build_number={number},subdir={subdir}]")
        }
    }
}
