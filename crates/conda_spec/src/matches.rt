ghost use Rattle.std.specs.Prelude.{◌≡◌, ◌==◌, nat_eq};
ghost use Rattle.std.specs.Cmp.Lexicographic.{pointwise};
ghost use Rattle.conda_clause.specs.Glob.{glob_matches};
ghost use Rattle.conda_clause.specs.Truth.{clause_holds};
ghost use Rattle.conda_spec.specs.Match.{allows, spec_matches};

use crate::spec::Spec;
use conda_base::Text;
use conda_clause::{VersionClause, glob, glob_lowered};
use conda_version::Version;

impl Spec {
    /// Whether the specification names a package: every part that it gives allows the package's. The name is compared in lower
    /// case, and a star in the name or the build stands for any characters. It takes no memory.
    pub fn matches(
        &self,
        name: &str,
        version: &Version,
        build: &str,
        build_number: u64,
        channel: &str,
        subdir: &str,
    ) -> bool
        ensures { result ≡ spec_matches self.now (record { name = name.now; version = version.now; build = build.now; number = build_number; channel = channel.now; subdir = subdir.now }) }
    {
        let parts = &*self.held;
        glob_lowered(parts.name.as_str(), name)
            && allows_version(&parts.version, version)
            && allows_build(&parts.build, build)
            && allows_number(parts.number, build_number)
            && allows_text(&parts.channel, channel)
            && allows_text(&parts.subdir, subdir)
    }
}

fn allows_version(part: &Option<VersionClause>, version: &Version) -> bool
    ensures { result ≡ allows (λ clause. clause_holds clause version.now) part.now }
{
    match part {
        Some(clause) => clause.holds(version),
        None => true,
    }
}

fn allows_build(part: &Option<Text>, build: &str) -> bool
    ensures { result ≡ allows (λ b. glob_matches b build.now) part.now }
{
    match part {
        Some(pattern) => glob(pattern.as_str(), build),
        None => true,
    }
}

fn allows_number(part: Option<u64>, build_number: u64) -> bool
    ensures { result ≡ allows (λ n. n == build_number) part }
{
    match part {
        Some(number) => number == build_number,
        None => true,
    }
}

fn allows_text(part: &Option<Text>, text: &str) -> bool
    ensures { result ≡ allows (λ t. pointwise nat_eq t text.now) part.now }
{
    match part {
        Some(own) => own.as_str() == text,
        None => true,
    }
}
