ghost use Rattle.std.specs.Prelude.{◌≡◌};
ghost use Rattle.conda_spec.specs.Good.{IsGoodGiven};
ghost use Rattle.conda_spec.specs.Parts as parts;
ghost use Rattle.conda_spec.specs.Reading as reading;

use crate::follow::VersionAndBuild;
use conda_base::Text;
use conda_clause::VersionClause;

/// What a specification gives beside its name.
#[derive(Debug, Drop)]
pub struct Given {
    pub channel: Option<Text>,
    pub subdir: Option<Text>,
    pub version: Option<VersionClause>,
    pub build: Option<Text>,
    pub number: Option<u64>,
}

/// The keys of items in the brackets.
#[derive(Clone, Copy, Debug, PartialEq, Eq)]
pub enum ItemKey {
    Version,
    Build,
    BuildNumber,
    Channel,
    Subdir,
}

/// Nothing is given.
pub fn nothing() -> Given
    ensures value { result ≡ parts.nothing }
    ensures good { IsGoodGiven result }
{
    Given {
        channel: None,
        subdir: None,
        version: None,
        build: None,
        number: None,
    }
}

/// The same with what follows the name.
pub fn with_wanted(given: Given, wanted: VersionAndBuild) -> Given
    ensures { result ≡ reading.with_wanted given wanted }
{
    let (version, build) = wanted;
    Given {
        channel: given.channel,
        subdir: given.subdir,
        version,
        build,
        number: given.number,
    }
}
