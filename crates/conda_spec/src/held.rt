use conda_base::Text;
use conda_clause::VersionClause;
use std::marker::Model;

/// What a specification holds, which its copies share. Contracts see it as the parts.
#[derive(Debug, Drop)]
pub struct Held {
    pub channel: Option<Text>,
    pub subdir: Option<Text>,
    pub name: Text,
    pub version: Option<VersionClause>,
    pub build: Option<Text>,
    pub number: Option<u64>,
}

impl Model for Held {
    ghost use Rattle.conda_spec.specs.Parts.{Parts};

    ghost Value = { Parts };

    ghost view = { λ s. record { channel = s.channel; subdir = s.subdir; name = s.name; version = s.version; build = s.build; number = s.number } };

    ghost inverse = { λ p. record { channel = p.channel; subdir = p.subdir; name = p.name; version = p.version; build = p.build; number = p.number } };
}
