ghost use Rattle.std.specs.Prelude.{◌≡◌, IfOk};

use conda_base::{Copied, Rows};
use conda_device::Shown;
use conda_link::LinkInfo;
use conda_paths::Listing;
use conda_record::PkgRecord;
use std::alloc::{AllocError, Global};

/// A package that is to be linked.
#[derive(Debug, Drop)]
pub struct Package {
    pub rec: PkgRecord,
    /// What it holds.
    pub listing: Listing,
    /// Its link file; no entry points where it has none.
    pub link: LinkInfo,
    /// What the channel shows at each row, in their order; None where it shows nothing.
    pub shown: Rows<Option<Shown>>,
}

/// Equal to what is shown at a row.
fn copied_one(one: &Option<Shown>) -> Result<Option<Shown>, AllocError>
    ensures { IfOk result (λ made. made ≡ one.now) }
{
    match one {
        Some(shown) => Ok(Some(shown.copy()?)),
        None => Ok(None),
    }
}

/// Equal to what is shown at each row.
fn copied_shown(alloc: Global, shown: &[Option<Shown>]) -> Result<Rows<Option<Shown>>, AllocError>
    ensures { IfOk result (λ made. made ≡ shown.now) }
{
    let mut made = Rows::from_vec(Vec::with_capacity(alloc, shown.len())?);
    for one in shown {
        made.push(copied_one(one)?)?;
    }
    Ok(made)
}

impl Package {
    /// An equal package.
    pub fn copy(&self, alloc: Global) -> Result<Package, AllocError>
        ensures { IfOk result (λ made. made ≡ self.now) }
    {
        Ok(Package {
            rec: self.rec.copy()?,
            listing: self.listing.copy()?,
            link: self.link.copy()?,
            shown: copied_shown(alloc, self.shown.as_slice())?,
        })
    }
}
