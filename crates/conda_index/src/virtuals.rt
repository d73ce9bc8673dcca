ghost use Rattle.std.specs.Prelude.{◌≡◌, IfOk, string_bytes, true};
ghost use Rattle.conda_path.specs.Dists.{is_dist};
ghost use Rattle.conda_index.specs.Pools.{virtual_dist, virtual_record};

use conda_base::{Copied, Rows, Text};
use conda_path::{Dist, DistErr};
use conda_record::{Noarch, PkgRecord};
use conda_version::Version;
use std::alloc::{AllocError, Global};

/// A virtual package: something that the machine has, as its C library, which packages can need
/// and which is never linked.
#[derive(Clone, Debug, Drop)]
pub struct Virtual {
    /// It begins with `__`; under another name it is in no pool.
    pub name: Text,
    pub version: Version,
    pub build: Text,
}

impl Copied for Virtual {
    fn copy(&self) -> Result<Virtual, AllocError> {
        self.clone()
    }
}

/// Name, version and build in one text.
fn dist_text(alloc: Global, virtual_package: &Virtual) -> Result<String, AllocError>
    ensures { IfOk result (λ text. string_bytes text ≡ virtual_dist virtual_package.now) }
{
    let name = virtual_package.name.as_str();
    let version = virtual_package.version.text();
    let build = virtual_package.build.as_str();
    format!(in alloc; "{name}-{version}-{build}")
}

/// Whether name, version and build are those of a dist.
pub fn has_dist(alloc: Global, virtual_package: &Virtual) -> Result<bool, AllocError>
    ensures { IfOk result (λ has. has ≡ is_dist (virtual_dist virtual_package.now)) }
{
    let text = dist_text(alloc, virtual_package)?;
    match Dist::read(alloc, text.as_str()) {
        Ok(_) => Ok(true),
        Err(DistErr::BadDist) => Ok(false),
        Err(DistErr::Memory) => Err(AllocError),
    }
}

/// The dist of a virtual package.
fn dist_of(alloc: Global, virtual_package: &Virtual) -> Result<Dist, AllocError>
    requires { is_dist (virtual_dist virtual_package.now) ≡ true }
    ensures { IfOk result (λ dist. dist ≡ virtual_dist virtual_package.now) }
{
    let text = dist_text(alloc, virtual_package)?;
    match Dist::read(alloc, text.as_str()) {
        Ok(dist) => Ok(dist),
        Err(DistErr::BadDist) => unreachable!(),
        Err(DistErr::Memory) => Err(AllocError),
    }
}

/// The record of a virtual package: it needs nothing, and is of no channel and no subdir.
pub fn record_of(alloc: Global, virtual_package: Virtual) -> Result<PkgRecord, AllocError>
    requires { is_dist (virtual_dist virtual_package) ≡ true }
    ensures { IfOk result (λ pkg. pkg ≡ virtual_record virtual_package) }
{
    let dist = dist_of(alloc, &virtual_package)?;
    let Virtual {
        name,
        version,
        build,
    } = virtual_package;
    Ok(PkgRecord {
        name,
        version,
        build,
        build_number: 0,
        channel: Text::new(alloc),
        subdir: Text::new(alloc),
        dist,
        depends: Rows::new(alloc),
        constrains: Rows::new(alloc),
        noarch: Noarch::No,
        timestamp: 0,
    })
}
