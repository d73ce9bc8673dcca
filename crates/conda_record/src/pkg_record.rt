ghost use Rattle.std.specs.Prelude.{◌≡◌, IfOk};

use crate::noarch::Noarch;
use conda_base::{Copied, Rows, Text};
use conda_path::Dist;
use conda_spec::Spec;
use conda_version::Version;
use std::alloc::AllocError;

/// What a channel says of a package.
#[derive(Debug, Drop)]
pub struct PkgRecord {
    /// Letters, digits, `_`, `-` and `.`, in the case that the channel gives.
    pub name: Text,
    pub version: Version,
    pub build: Text,
    /// Of two packages of one name and version the one with the greater number is the newer build.
    pub build_number: u64,
    /// The name of the channel.
    pub channel: Text,
    /// The folder of the channel, by the platform: `linux-64` or `noarch`.
    pub subdir: Text,
    /// Name, version and build in one text.
    pub dist: Dist,
    /// What the package needs.
    pub depends: Rows<Spec>,
    /// What a package of such a name has to be, if it is there.
    pub constrains: Rows<Spec>,
    pub noarch: Noarch,
    /// When the package was built: milliseconds since 1970 where the channel gives them, and 0
    /// where it says nothing.
    pub timestamp: u64,
}

/// The texts that say which package it is.
type Names = (Text, Text, Text, Text);

impl PkgRecord {
    /// Equal texts: name, build, channel and subdir.
    fn names(&self) -> Result<Names, AllocError>
        ensures { IfOk result (λ made. made
            ≡ (self.now.name, self.now.build, self.now.channel, self.now.subdir)) }
    {
        let name = self.name.copy()?;
        let build = self.build.copy()?;
        let channel = self.channel.copy()?;
        let subdir = self.subdir.copy()?;
        Ok((name, build, channel, subdir))
    }

    /// Equal lists of what it needs, and of what others have to be.
    fn needs(&self) -> Result<(Rows<Spec>, Rows<Spec>), AllocError>
        ensures { IfOk result (λ made. made ≡ (self.now.depends, self.now.constrains)) }
    {
        let depends = self.depends.copy()?;
        let constrains = self.constrains.copy()?;
        Ok((depends, constrains))
    }
}

impl Clone for PkgRecord {
    ghost use Rattle.std.specs.Prelude.{◌≡◌};

    ghost is_clone = { λ pkg made. made ≡ pkg };

    fn clone(&self) -> Result<PkgRecord, AllocError> {
        let (name, build, channel, subdir) = self.names()?;
        let (depends, constrains) = self.needs()?;
        let version = self.version.copy()?;
        let dist = self.dist.copy()?;
        Ok(PkgRecord {
            name,
            version,
            build,
            build_number: self.build_number,
            channel,
            subdir,
            dist,
            depends,
            constrains,
            noarch: self.noarch,
            timestamp: self.timestamp,
        })
    }
}

impl Copied for PkgRecord {
    fn copy(&self) -> Result<PkgRecord, AllocError> {
        self.clone()
    }
}
